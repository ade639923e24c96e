// The first binding whose type does not fit its nonterminal's sort, 11.
ghost use Rattle.std.specs.Prelude.{◌<◌, ◌≤◌, IfSome};
ghost use Rattle.fits.specs.misfits.Misfits.{TestsFit, FindsMisfit};

use crate::masks::{Row, row_at};
use index::entries::place_at;
use index::layout::{BINDINGS_AT, MAX_BINDINGS, MAX_SORTS, NONTERMINALS_AT, TYPES_AT};
use records::fields::{length_at, word_at};

// Whether type t fits sort s: a listed one by the table of fits, and sort 0 where the type is a state, whose payload is one byte.
fn fits_sort(file: &[u8], index: &[u16], fit: &[Row], t: usize, s: usize) -> bool
    requires { t < 65536 }
    ensures { TestsFit file.now index.now fit.now t s result }
{
    if s == 0 {
        return length_at(file, place_at(index, TYPES_AT + t)) == 1;
    }
    if MAX_SORTS < s {
        return false;
    }
    (row_at(fit, t).sorts >> ((s - 1) as u64)) % 2 == 1
}

// The number of the first binding whose type does not fit its nonterminal's sort; none where all fit.
pub fn first_misfit(file: &[u8], index: &[u16], fit: &[Row], bindings: usize) -> Option<usize>
    ensures first { FindsMisfit file.now index.now fit.now bindings result }
    ensures within { IfSome result (λ i. i ≤ bindings) }
{
    if MAX_BINDINGS < bindings {
        return Some(0);
    }
    for i in 0..bindings {
        let place = place_at(index, BINDINGS_AT + i);
        let f = word_at(file, place);
        let t = word_at(file, place + 2);
        let s = word_at(file, place_at(index, NONTERMINALS_AT + f));
        if !fits_sort(file, index, fit, t, s) {
            return Some(i);
        }
    }
    None
}
