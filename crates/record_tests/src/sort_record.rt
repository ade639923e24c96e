// The test of a sort record, 4 to 7.
ghost use Rattle.std.specs.Prelude.{◌≡◌, get_or, leb};
ghost use Rattle.scheme.specs.Lists.{choose◌then◌else◌};
ghost use Rattle.index.specs.entries.Tests.{TestsSort};
ghost use Rattle.records.specs.refusal.Numbers.{code_of};

use index::entries::place_at;
use index::layout::{MAX_ARGUMENTS, MAX_SORTS, SORTS_AT};
use index::repeats::repeats;
use records::fields::word_at;
use records::refusal::Fault;

// How many arguments sort s has, where it is sort 0 or one of n listed ones, else 0.
fn arguments_of(lens: &[u16], n: usize, s: usize) -> usize
    ensures { result ≡ (choose leb s n then get_or lens.now s 0 else 0) }
{
    if n < s {
        return 0;
    }
    place_at(lens, s)
}

// Tests the payload p of a sort after n sorts; lens holds their argument counts.
pub fn test_sort(file: &[u8], index: &[u16], lens: &[u16], n: usize, p: &[u8]) -> Result<(), Fault>
    ensures { TestsSort file.now index.now lens.now n p.now (code_of result) }
{
    if p.len() != 4 {
        return Err(Fault::WrongLength);
    }
    if MAX_SORTS <= n {
        return Err(Fault::OverLimit);
    }
    let from = word_at(p, 0);
    let to = word_at(p, 2);
    if MAX_ARGUMENTS <= arguments_of(lens, n, to) {
        return Err(Fault::OverLimit);
    }
    if n < from {
        return Err(Fault::OutOfRange);
    }
    if n < to {
        return Err(Fault::OutOfRange);
    }
    if repeats(file, index, SORTS_AT, n, p) {
        return Err(Fault::Misplaced);
    }
    Ok(())
}
