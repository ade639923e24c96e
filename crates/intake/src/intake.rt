// The intake of a file: it is refused by 1 to 12, or it is a binding case or a path case.
ghost use Rattle.std.specs.Prelude.{length};
ghost use Rattle.intake.specs.intake.Intake.{Examined};

use crate::evidence::{Case, test_whole};
use index::layout::{Counts, Index, MAX_FILE, Rows, SortTable};
use records::refusal::{Fault, Refusal};
use walk::walk::walk;

// What a file is, where as many flags are lent as `flags` says, with its tables: the index of its entries, the argument counts
// of its sorts, the counts of its kinds, and the ends of the subterms of its bodies. `ends` needs room for the nodes that a file of
// that length may have; what the tables held before does not matter. `codes` and `depths` are tables to work in: what they hold does
// not matter, before or after.
pub fn examine(
    file: &[u8],
    flags: usize,
    index: &mut Index,
    lens: &mut SortTable,
    counts: &mut Counts,
    ends: &mut [u16],
    codes: &mut Rows,
    depths: &mut Rows,
) -> Result<Case, Refusal>
    ensures { Examined file.now flags (length ends.old) index.new lens.new counts.new ends.new result }
{
    if MAX_FILE < file.len() {
        return Err(Fault::TooLong.at(0));
    }
    walk(file, index, lens, counts)?;
    test_whole(file, index, counts, flags, ends, codes, depths)
}
