// The tests of records that stand in order by pairs, 4 to 7: transitions and bindings.
ghost use Rattle.std.specs.Prelude.{◌≡◌};
ghost use Rattle.casefile.specs.Refusals.{wrong_targets_spec};
ghost use Rattle.index.specs.entries.Tests.{TestsBinding, TestsTransition};
ghost use Rattle.records.specs.refusal.Numbers.{code_of};

use index::entries::place_at;
use index::layout::{BINDINGS_AT, CONSTRUCTORS_AT, MAX_BINDINGS, MAX_TRANSITIONS, TRANSITIONS_AT};
use records::fields::{byte_at, word_at};
use records::refusal::Fault;

// Tests the payload p of a binding after n bindings, with a given number of nonterminals and types.
pub fn test_binding(
    file: &[u8],
    index: &[u16],
    n: usize,
    nonterminals: usize,
    types: usize,
    p: &[u8],
) -> Result<(), Fault>
    ensures { TestsBinding file.now index.now n nonterminals types p.now (code_of result) }
{
    if p.len() != 4 {
        return Err(Fault::WrongLength);
    }
    if MAX_BINDINGS <= n {
        return Err(Fault::OverLimit);
    }
    let f = word_at(p, 0);
    let t = word_at(p, 2);
    if nonterminals <= f || types <= t {
        return Err(Fault::OutOfRange);
    }
    if n == 0 {
        return Ok(());
    }
    let last = place_at(index, BINDINGS_AT + (n - 1));
    let g = word_at(file, last);
    let u = word_at(file, last + 2);
    if (g, u) < (f, t) {
        Ok(())
    } else {
        Err(Fault::Misplaced)
    }
}

// Whether one of the first targets, as many as the arity, is no state, or one past them is not 0.
fn wrong_targets(states: usize, arity: usize, targets: &[u8]) -> bool
    ensures { result ≡ wrong_targets_spec states arity targets.now }
{
    let arguments = arity.min(targets.len());
    targets[..arguments].iter().any(|q| states <= *q as usize)
        || targets[arguments..].iter().any(|q| 0 < *q)
}

// Tests the payload p of a transition after n transitions, with a given number of states and constructors.
pub fn test_transition(
    file: &[u8],
    index: &[u16],
    n: usize,
    states: usize,
    constructors: usize,
    p: &[u8],
) -> Result<(), Fault>
    ensures { TestsTransition file.now index.now n states constructors p.now (code_of result) }
{
    if p.len() != 6 {
        return Err(Fault::WrongLength);
    }
    if MAX_TRANSITIONS <= n {
        return Err(Fault::OverLimit);
    }
    let q = byte_at(p, 0);
    let a = byte_at(p, 1);
    if states <= q || constructors <= a {
        return Err(Fault::OutOfRange);
    }
    let arity = byte_at(file, place_at(index, CONSTRUCTORS_AT + a));
    if wrong_targets(states, arity, &p[2..]) {
        return Err(Fault::OutOfRange);
    }
    if n == 0 {
        return Ok(());
    }
    let last = place_at(index, TRANSITIONS_AT + (n - 1));
    let r = byte_at(file, last);
    let b = byte_at(file, last + 1);
    if (r, b) < (q, a) {
        Ok(())
    } else {
        Err(Fault::Misplaced)
    }
}
