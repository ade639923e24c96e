// The tests of records that need only counts, 4 to 7: constructors and nonterminals.
ghost use Rattle.casefile.specs.Kinds.{Kind};
ghost use Rattle.index.specs.entries.Tests.{Tests, TestsNonterminal};
ghost use Rattle.records.specs.refusal.Numbers.{code_of};

use index::layout::{MAX_ARITY, MAX_CONSTRUCTORS, MAX_NONTERMINALS};
use records::fields::{byte_at, word_at};
use records::refusal::Fault;

// Tests a constructor's payload p after n constructors.
pub fn test_constructor(n: usize, p: &[u8]) -> Result<(), Fault>
    ensures { Tests Kind.constructor n p.now (code_of result) }
{
    if p.len() != 1 {
        return Err(Fault::WrongLength);
    }
    let arity = byte_at(p, 0);
    if MAX_CONSTRUCTORS <= n {
        return Err(Fault::OverLimit);
    }
    if MAX_ARITY < arity {
        return Err(Fault::OutOfRange);
    }
    Ok(())
}

// Tests a nonterminal's payload p after n nonterminals, with a given number of sorts.
pub fn test_nonterminal(sorts: usize, n: usize, p: &[u8]) -> Result<(), Fault>
    ensures { TestsNonterminal sorts n p.now (code_of result) }
{
    if p.len() != 2 {
        return Err(Fault::WrongLength);
    }
    if MAX_NONTERMINALS <= n {
        return Err(Fault::OverLimit);
    }
    if sorts <= word_at(p, 0) {
        return Err(Fault::OutOfRange);
    }
    Ok(())
}
