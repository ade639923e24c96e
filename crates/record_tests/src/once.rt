// The tests of records that a file has once at most, 4 to 7: states and paths.
ghost use Rattle.casefile.specs.Kinds.{Kind};
ghost use Rattle.index.specs.entries.Tests.{Tests};
ghost use Rattle.records.specs.refusal.Numbers.{code_of};

use index::layout::{MAX_LETTERS, MAX_STATES};
use records::fields::byte_at;
use records::refusal::Fault;

// Tests the payload p of a states record after n others.
pub fn test_states(n: usize, p: &[u8]) -> Result<(), Fault>
    ensures { Tests Kind.states n p.now (code_of result) }
{
    if p.len() != 1 {
        return Err(Fault::WrongLength);
    }
    if 1 <= n {
        return Err(Fault::OverLimit);
    }
    let count = byte_at(p, 0);
    if count == 0 || MAX_STATES < count {
        return Err(Fault::OutOfRange);
    }
    Ok(())
}

// Tests the payload p of a path after n others.
pub fn test_path(n: usize, p: &[u8]) -> Result<(), Fault>
    ensures { Tests Kind.path n p.now (code_of result) }
{
    if 1 <= n || MAX_LETTERS < p.len() {
        return Err(Fault::OverLimit);
    }
    Ok(())
}
