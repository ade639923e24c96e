// The fit of types to sorts, as a table with a row of words for each type.
ghost use Rattle.std.specs.Prelude.{◌<◌};
ghost use Rattle.index.specs.layout.Layout.{max_types};
ghost use Rattle.fits.specs.fits.Filled.{FitsArrow, ReadsRow, Fills};

use crate::masks::{Row, enter_sorts, row_at, row_with};
use index::entries::place_at;
use index::layout::{ALL_SORTS, MAX_SORTS, MAX_TYPES, SortMasks, TYPES_AT};
use records::fields::{length_at, word_at};

// The listed sorts that an arrow fits whose payload is the len bytes at place: its result fits their results, and each member
// their arguments, by the rows of a table. Where no sort is left, no further member is looked at.
fn arrow_sorts(file: &[u8], place: usize, len: usize, fit: &[Row]) -> u64
    requires { (place < 65536) × (len < 65536) }
    ensures { FitsArrow file.now place len fit.now result }
{
    let mut sorts = row_at(fit, word_at(file, place)).results;
    for k in 1..len / 2 {
        if sorts == 0 {
            return 0;
        }
        sorts &= row_at(fit, word_at(file, place + 2 * k)).arguments;
    }
    sorts
}

// The row of type t, by the rows of the types before it: a state fits sort 0 alone, so that no listed sort is in the first word.
fn row_of(
    file: &[u8],
    index: &[u16],
    froms: &SortMasks,
    tos: &SortMasks,
    t: usize,
    fit: &[Row],
) -> Row
    requires { t < max_types }
    ensures { ReadsRow file.now index.now froms.now tos.now t fit.now result }
{
    let place = place_at(index, TYPES_AT + t);
    let len = length_at(file, place);
    if len == 1 {
        return Row {
            sorts: 0,
            results: tos[0],
            arguments: froms[0],
        };
    }
    row_with(tos, froms, arrow_sorts(file, place, len, fit))
}

// Writes the rows of a given number of types, for a given number of sorts. A table that is too short for them stays as it is.
pub fn fill_fits(file: &[u8], index: &[u16], types: usize, sorts: usize, fit: &mut [Row])
    ensures { Fills file.now index.now types sorts fit.old fit.new }
{
    if MAX_TYPES < types || MAX_SORTS < sorts || fit.len() < types {
        return;
    }
    let mut froms = [0u64; ALL_SORTS];
    enter_sorts(file, index, sorts, 0, &mut froms);
    let mut tos = [0u64; ALL_SORTS];
    enter_sorts(file, index, sorts, 2, &mut tos);
    for t in 0..types {
        fit[t] = row_of(file, index, &froms, &tos, t, fit);
    }
}
