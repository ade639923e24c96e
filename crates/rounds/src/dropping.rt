// Bindings that failed are dropped, and those that they served are marked for the next round.
ghost use Rattle.std.specs.Prelude.{◌≡◌, List, set, drop, ℕ};
ghost use Rattle.index.specs.layout.Layout.{test_cells};
ghost use Rattle.tables.specs.Filling.{LeavesSets};
ghost use Rattle.term_check.specs.Worlds.{users_of};
ghost use Rattle.rounds.specs.tested.Tested.{Placed};
ghost use Rattle.rounds.specs.dropping.Dropping.{JoinsWord, JoinsWords, Joins, Drops, DropsAll};

use crate::tested::{Failures, Sizes};
use index::layout::{BINDING_WORDS, MAX_BINDINGS, TEST_CELLS};
use marks::{next_beyond, next_in, word_in};
use tables::candidates::leave_sets;
use term_check::masks::{lowest, without_bit};
use term_check::parts::{from_of, split_of};

// Joins a word to word k of a set.
fn join_word(into: &mut [u32], k: usize, word: u32)
    ensures { JoinsWord k word into.old into.new }
{
    if k < into.len() {
        into[k] |= word;
    }
}

// Joins those words of a set at a place to another set whose bits are in a word.
fn join_words(words: &[u32], at: usize, some: u32, into: &mut [u32])
    ensures { JoinsWords words.now at some into.old into.new }
{
    let mut left = some;
    while left != 0 {
        let k = lowest(left);
        left = without_bit(left, k);
        join_word(into, k, word_in(words, at, k));
    }
}

// Joins what is marked in a set at a place with a brief to what there is to do.
fn join(words: &[u32], at: usize, brief: usize, into: &mut [u32])
    ensures { Joins words.now at brief into.old into.new }
{
    let some = word_in(words, brief, 0);
    join_words(words, at, some, into);
    join_word(into, BINDING_WORDS, some);
}

// Sets a flag to 0.
fn drop_flag(flags: &mut [u8], b: usize)
    ensures { flags.new ≡ set flags.old b 0 }
{
    if b < flags.len() {
        flags[b] = 0;
    }
}

// Takes binding b out of the sets of candidates, which stand behind the numbers of the test.
fn leave(t: &[u16], b: usize, words: usize, r: &mut [u32])
    ensures { Placed r.old r.new × LeavesSets t.now b words (drop test_cells r.old) (drop test_cells r.new) }
{
    if r.len() < TEST_CELLS {
        return;
    }
    leave_sets(t, b, words, &mut r[TEST_CELLS..]);
}

// Joins what is marked at a place of the users with a brief to what there is to do.
fn join_users(r: &[u32], w: &[u32], at: usize, brief: usize, into: &mut [u32])
    ensures { Joins (users_of r.now w.now) at brief into.old into.new }
{
    let split = split_of(r, w);
    let from = from_of(r, w);
    join(&w[from..split], at, brief, into);
}

// Drops binding b: its flag, what it is a candidate for; those that it served are marked.
fn drop_binding(
    t: &[u16],
    w: &[u32],
    sizes: Sizes,
    r: &mut [u32],
    flags: &mut [u8],
    todo: &mut [u32],
    b: usize,
)
    ensures { Placed r.old r.new × ((firsts : List ℕ) → Drops t.now firsts (users_of r.old w.now) sizes b (drop test_cells r.old) flags.old todo.old (drop test_cells r.new) flags.new todo.new) }
{
    let total = sizes.total();
    let words = sizes.words();
    let dropped = b % MAX_BINDINGS;
    drop_flag(flags, b);
    join_users(r, w, dropped * words, total * words + dropped, todo);
    leave(t, b, words, r);
}

// Drops all that failed in a turn.
pub fn drop_failed(
    t: &[u16],
    w: &[u32],
    sizes: Sizes,
    failed: &[u32],
    r: &mut [u32],
    flags: &mut [u8],
    todo: &mut [u32],
    n: Failures,
)
    ensures { Placed r.old r.new × ((firsts : List ℕ) → DropsAll t.now firsts (users_of r.old w.now) sizes failed.now (drop test_cells r.old) flags.old todo.old n.least n.past (drop test_cells r.new) flags.new todo.new) }
{
    let mut b = next_in(failed, 0, n.least, n.past);
    while b < n.past {
        drop_binding(t, w, sizes, r, flags, todo, b);
        b = next_beyond(failed, 0, b + 1, n.past);
    }
}
