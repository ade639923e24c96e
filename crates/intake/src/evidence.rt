// The tests over the whole file, 8 to 12.
ghost use Rattle.std.specs.Prelude.{◌≤◌, IfSome};
ghost use Rattle.index.specs.layout.Layout.{max_types};
ghost use Rattle.intake.specs.evidence.Whole.{TestsEvidence, FindsFirst, TestsWhole};

use crate::plan::test_plan;
use fits::fits::fill_fits;
use fits::masks::NO_ROW;
use fits::misfits::first_misfit;
use index::entries::{count_of, place_of};
use index::layout::{BINDINGS_AT, FEW_TYPES, MAX_TYPES, Rows, SOME_TYPES};
use records::kind::Kind;
use records::refusal::{Fault, Refusal};

// What a file is that is not refused.
#[derive(Clone, Copy, PartialEq, Eq)]
pub enum Case {
    Bindings,
    Path,
}

// The number of the first binding whose type does not fit its nonterminal's sort, none where all fit, by a table with room for the
// rows of ROOM types.
#[inline(never)]
fn misfit_in<const ROOM: usize>(
    file: &[u8],
    index: &[u16],
    types: usize,
    sorts: usize,
    bindings: usize,
) -> Option<usize>
    requires { ROOM ≤ max_types }
    ensures first { types ≤ ROOM → FindsFirst file.now index.now types sorts bindings result }
    ensures within { IfSome result (λ b. b ≤ bindings) }
{
    let mut fit = [NO_ROW; ROOM];
    fill_fits(file, index, types, sorts, &mut fit);
    first_misfit(file, index, &fit, bindings)
}

// The number of the first binding whose type does not fit its nonterminal's sort, none where all fit. The rows of the types have the
// smallest of three rooms that is enough for them.
fn misfit(file: &[u8], index: &[u16], types: usize, sorts: usize, bindings: usize) -> Option<usize>
    ensures first { FindsFirst file.now index.now types sorts bindings result }
    ensures within { IfSome result (λ b. b ≤ bindings) }
{
    if types <= FEW_TYPES {
        return misfit_in::<FEW_TYPES>(file, index, types, sorts, bindings);
    }
    if types <= SOME_TYPES {
        return misfit_in::<SOME_TYPES>(file, index, types, sorts, bindings);
    }
    misfit_in::<MAX_TYPES>(file, index, types, sorts, bindings)
}

// The tests of the evidence, 10 to 12, for a given number of lent flags.
fn test_evidence(file: &[u8], index: &[u16], counts: &[u16], flags: usize) -> Result<Case, Refusal>
    ensures { TestsEvidence file.now index.now counts.now flags result }
{
    let sorts = count_of(counts, Kind::Sort);
    let types = count_of(counts, Kind::Type);
    let bindings = count_of(counts, Kind::Binding);
    if 0 < count_of(counts, Kind::Path) {
        if 0 < types + bindings {
            return Err(Fault::MixedEvidence.at(0));
        }
        return Ok(Case::Path);
    }
    if let Some(b) = misfit(file, index, types, sorts, bindings) {
        return Err(Fault::Misfit.at(place_of(index, BINDINGS_AT + b)));
    }
    if flags < bindings {
        return Err(Fault::FewFlags.at(0));
    }
    Ok(Case::Bindings)
}

// The tests over the whole file, 8 to 12.
// `codes` and `depths` are tables to work in: what they hold does not matter, before or after.
pub(crate) fn test_whole(
    file: &[u8],
    index: &[u16],
    counts: &[u16],
    flags: usize,
    ends: &mut [u16],
    codes: &mut Rows,
    depths: &mut Rows,
) -> Result<Case, Refusal>
    ensures { TestsWhole file.now index.now counts.now flags ends.old ends.new result }
{
    test_plan(file, index, counts, ends, codes, depths)?;
    test_evidence(file, index, counts, flags)
}
