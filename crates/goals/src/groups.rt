// The bindings of a file, grouped by nonterminal.
ghost use Rattle.std.specs.Prelude.{◌≤◌};
ghost use Rattle.index.specs.layout.Layout.{max_bindings};
ghost use Rattle.goals.specs.groups.Groups.{Seeks, Fills};

use index::entries::place_at;
use index::layout::{BINDINGS_AT, MAX_BINDINGS};
use records::fields::word_at;

// The number of the first binding, from one on, whose nonterminal is f or a later one; n where there is none, since a group ends there too.
fn first_from(file: &[u8], index: &[u16], n: usize, from: usize, f: usize) -> usize
    requires few { n ≤ max_bindings }
    requires within { from ≤ n }
    ensures { Seeks file.now index.now n from f result }
{
    for i in from..n {
        if f <= word_at(file, place_at(index, BINDINGS_AT + i)) {
            return i;
        }
    }
    n
}

// Fills a table up to entry `last`, the number of nonterminals: entry f gets the number of the first binding whose nonterminal
// is f or a later one, n where there is none. The bindings of nonterminal f are those from entry f on, up to entry f + 1. What
// the table held before does not matter; it stays as it is where it has no entry `last`.
pub fn fill_groups(file: &[u8], index: &[u16], n: usize, last: usize, groups: &mut [u16])
    ensures { Fills file.now index.now n last groups.old groups.new }
{
    if MAX_BINDINGS < n || groups.len() <= last {
        return;
    }
    let mut first: usize = 0;
    for f in 0..last + 1 {
        first = first_from(file, index, n, first, f);
        groups[f] = first as u16;
    }
}
