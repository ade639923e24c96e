// Shrinking by rounds: each round tests the bindings that rest on one that the round before dropped, against the set as the round
// began, and drops those that fail; the rounds end with one that drops nothing.
ghost use Rattle.std.specs.Prelude.{◌≡◌, ◌≤◌, length, drop};
ghost use Rattle.index.specs.layout.Layout.{test_cells};
ghost use Rattle.term_check.specs.Worlds.{answers_of, users_of};
ghost use Rattle.rounds.specs.tested.Tested.{Same};
ghost use Rattle.rounds.specs.shrinking.Shrinking.{Turns, KeepsAll, Counts, ShrinksByRounds};

use crate::dropping::drop_failed;
use crate::tested::{Course, Sizes, retest};
use index::layout::BINDING_WORDS;
use marks::briefs::next_marked;

// What the rounds leave beside the flags: how many bindings are kept, and how many rounds dropped something.
#[derive(Clone, Copy)]
pub struct Ended {
    pub kept: usize,
    pub rounds: usize,
}

// Tests all bindings that are marked and kept, and marks those that fail. The course of the turn is returned.
fn turn(
    t: &[u16],
    firsts: &[u16],
    sizes: Sizes,
    flags: &[u8],
    todo: &[u32],
    r: &mut [u32],
    w: &mut [u32],
    failed: &mut [u32],
    last: u32,
) -> Course
    ensures { (length w.new ≡ length w.old) × Same r.old r.new × Turns t.now (drop test_cells r.old) firsts.now sizes flags.now todo.now (answers_of r.old w.old) (users_of r.old w.old) failed.old last (answers_of r.old w.new) (users_of r.old w.new) failed.new result }
{
    let total = sizes.total();
    let mut n = Course {
        last,
        failures: None,
    };
    let mut b = next_marked(todo, 0, BINDING_WORDS, 0, total);
    while b < total {
        n = retest(t, firsts, sizes, flags, r, w, failed, n, b);
        b = next_marked(todo, 0, BINDING_WORDS, b + 1, total);
    }
    n
}

// Sets the first n flags to 1.
fn all_kept(flags: &mut [u8], n: usize)
    ensures { KeepsAll n flags.old flags.new }
{
    if flags.len() < n {
        return;
    }
    flags[..n].fill(1);
}

// How many of the first n flags say kept, where there are so many.
fn count_kept(flags: &[u8], n: usize) -> usize
    ensures { Counts flags.now n result × (result ≤ n) }
{
    if flags.len() < n {
        return 0;
    }
    flags[..n].iter().map(|flag| usize::from(*flag != 0)).sum()
}

// The bindings that are left when the rounds have ended, by the lent flags: 1 for a kept binding and 0 for a dropped one. All start
// kept and marked. What is tested in a round is tested against the flags as it began. Each round but the last drops a binding, so there
// is no round after as many as there are bindings and one.
pub fn shrink(
    t: &[u16],
    firsts: &[u16],
    sizes: Sizes,
    r: &mut [u32],
    w: &mut [u32],
    flags: &mut [u8],
) -> Ended
    ensures { ShrinksByRounds t.now (drop test_cells r.old) firsts.now sizes (answers_of r.old w.old) (users_of r.old w.old) flags.old flags.new result.kept result.rounds }
{
    let total = sizes.total();
    all_kept(flags, total);
    let mut todo = [4294967295u32; BINDING_WORDS + 1];
    let mut last: u32 = 0;
    for rounds in 0..total + 1 {
        let mut failed = [0u32; BINDING_WORDS];
        let n = turn(t, firsts, sizes, flags, &todo, r, w, &mut failed, last);
        let Some(failures) = n.failures else {
            return Ended {
                kept: count_kept(flags, total),
                rounds,
            };
        };
        last = n.last;
        todo = [0u32; BINDING_WORDS + 1];
        drop_failed(t, w, sizes, &failed, r, flags, &mut todo, failures);
    }
    Ended {
        kept: 0,
        rounds: total + 1,
    }
}
