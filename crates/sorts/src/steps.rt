// Sorts by code: the sorts of parameters, and a sort with an argument off.
ghost use Rattle.std.specs.Prelude.{◌<◌, IfSome};
ghost use Rattle.sorts.specs.codes.Sorted.{Applied, ParameterSort, ParameterSorts};

use crate::codes::Sorts;
use index::entries::place_at;
use index::layout::{MAX_ARGUMENTS, UNLISTED, UNLISTED_1};

impl<'a> Sorts<'a> {
    // The number of the sort of parameter j of a nonterminal whose sort has the number `own`.
    pub fn parameter(self, own: usize, j: usize) -> usize
        ensures sort { ParameterSort self.entry own j result }
        ensures small { result < 65536 }
    {
        let mut s = own;
        for _ in 0..j {
            s = place_at(self.tos, s);
        }
        place_at(self.froms, s)
    }

    // The numbers of the sorts of the first 8 parameters of a nonterminal whose sort has the number `own`.
    pub fn parameter_sorts(self, own: usize) -> [u16; MAX_ARGUMENTS]
        ensures { ParameterSorts self.entry own result }
    {
        let mut sorts = [0u16; MAX_ARGUMENTS];
        let mut s = own;
        for j in 0..MAX_ARGUMENTS {
            if s == 0 {
                return sorts;
            }
            sorts[j] = place_at(self.froms, s) as u16;
            s = place_at(self.tos, s);
        }
        sorts
    }

    // The code of a head's sort with one argument off; none where the argument does not fit.
    pub fn apply(self, trees: &[u16], head: usize, argument: usize) -> Option<usize>
        ensures applied { Applied self.entry trees.now head argument result }
        ensures small { IfSome result (λ code. code < 65536) }
    {
        if UNLISTED < head {
            if argument != 0 {
                return None;
            }
            return Some(place_at(trees, head - UNLISTED_1));
        }
        if head == 0 {
            return None;
        }
        let from = place_at(self.froms, head);
        if argument != from {
            return None;
        }
        Some(place_at(self.tos, head))
    }
}
