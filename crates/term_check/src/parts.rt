// What a check writes: hints first, then the users of bindings, then the answers. Where users and answers begin are numbers of the test.
ghost use Rattle.std.specs.Prelude.{◌≡◌, ◌≤◌, length};
ghost use Rattle.answers.specs.Answers.{Looks, Learns};
ghost use Rattle.term_check.specs.notes.Notes.{stamp_in, wide_in, Notes};
ghost use Rattle.term_check.specs.Worlds.{split_at, from_in, answers_of, users_of, PutsBelow, LooksOn};

use crate::notes::{number_in, stamp_of};
use answers::{Outlook, learn, outlook_of};
use index::layout::{
    MAX_BINDINGS, TEST_ANSWERS, TEST_BINDING, TEST_BINDINGS, TEST_USERS, TEST_WIDE, TEST_WORDS,
    WORD, WORDS_LIMIT,
};
use tables::bits::with_bit;

// Where the answers begin.
#[tactic(auto, unfolding(crate::specs::Worlds::split_at))]
pub fn split_of(r: &[u32], w: &[u32]) -> usize
    ensures { (result ≡ split_at r.now w.now) × (result ≤ length w.now) }
{
    number_in(r, TEST_ANSWERS).min(w.len())
}

// Where the users begin.
#[tactic(auto, unfolding(crate::specs::Worlds::from_in))]
pub fn from_of(r: &[u32], w: &[u32]) -> usize
    ensures { (result ≡ from_in r.now w.now) × (result ≤ length w.now) }
{
    number_in(r, TEST_USERS).min(split_of(r, w))
}

// What is remembered of a node and the goals that stand in one cell with a goal.
pub fn outlook_in(r: &[u32], w: &[u32], at: usize, goal: usize) -> Outlook
    ensures { Looks (answers_of r.now w.now) (wide_in r.now) (stamp_in r.now) at goal result }
{
    let split = split_of(r, w);
    let wide = number_in(r, TEST_WIDE);
    let stamp = stamp_of(r);
    outlook_of(&w[split..], wide, stamp, at, goal)
}

// The same, where it was looked up last for the goals of a word, the word and what was found: once for each word.
pub fn outlook_on(
    r: &[u32],
    w: &[u32],
    at: usize,
    goal: usize,
    last: Option<(usize, Outlook)>,
) -> Outlook
    ensures { LooksOn (answers_of r.now w.now) (wide_in r.now) (stamp_in r.now) at goal last result }
{
    match last {
        Some((word, known)) if word == goal / WORD => known,
        _ => outlook_in(r, w, at, goal),
    }
}

// Remembers answers for goals that stand in one cell with a goal: those that are known, and which of these are had.
pub fn learn_in(r: &[u32], w: &mut [u32], at: usize, goal: usize, known: u32, had: u32)
    ensures { (length w.new ≡ length w.old) × (users_of r.now w.new ≡ users_of r.now w.old) × Learns (answers_of r.now w.old) (wide_in r.now) (stamp_in r.now) at goal known had (answers_of r.now w.new) }
{
    let split = split_of(r, w);
    let wide = number_in(r, TEST_WIDE);
    let stamp = stamp_of(r);
    learn(&mut w[split..], wide, stamp, at, goal, known, had);
}

// Puts bit k into the word at a place, where that is below an end.
fn put_below(w: &mut [u32], end: usize, i: usize, k: usize)
    requires { end ≤ length w.old }
    ensures { PutsBelow w.old end i k w.new }
{
    if i < end {
        w[i] = with_bit(w[i], k);
    }
}

// Notes for the binding under test that a kept binding served: in the column of that binding, and in its brief.
pub fn note_in(r: &[u32], w: &mut [u32], c: usize)
    ensures { (length w.new ≡ length w.old) × (answers_of r.now w.new ≡ answers_of r.now w.old) × Notes (users_of r.now w.old) r.now c (users_of r.now w.new) }
{
    if r.len() <= TEST_ANSWERS {
        return;
    }
    let split = split_of(r, w);
    let from = r[TEST_USERS] as usize;
    let words = r[TEST_WORDS] as usize % WORDS_LIMIT;
    let owner = r[TEST_BINDING] as usize;
    let served = c % MAX_BINDINGS;
    let column = from + served * words;
    let brief = from + r[TEST_BINDINGS] as usize * words + served;
    put_below(w, split, column + owner / WORD, owner);
    put_below(w, split, brief, owner / WORD);
}
