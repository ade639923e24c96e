// The test of a type record, 4 to 7.
ghost use Rattle.std.specs.Prelude.{◌≡◌, true, ℕ, ◌%◌, ◌≤◌, length, drop, leb};
ghost use Rattle.scheme.specs.Lists.{any};
ghost use Rattle.casefile.specs.Tables.{words};
ghost use Rattle.casefile.specs.Refusals.{ascends};
ghost use Rattle.index.specs.entries.Chains.{hash_of_spec};
ghost use Rattle.index.specs.entries.Tests.{TestsType};
ghost use Rattle.record_tests.specs.type_record.Alone.{CodesAlone};
ghost use Rattle.records.specs.refusal.Numbers.{code_of};

use index::chains::listed;
use index::layout::{MAX_TYPE, MAX_TYPES};
use records::fields::{byte_at, word_at};
use records::refusal::Fault;

// Whether one of the payload's numbers, of two bytes each, is n or more.
fn names_later(p: &[u8], n: usize) -> bool
    ensures { result ≡ any (λ (t : ℕ). leb n t) (words p.now) }
{
    p.chunks_exact(2).any(|number| n <= word_at(number, 0))
}

// Whether the members of a type's payload ascend strictly; they stand behind its result.
fn members_ascend(p: &[u8]) -> bool
    ensures { result ≡ ascends (words (drop 2 p.now)) }
{
    if p.len() < 4 {
        return true;
    }
    let mut last = word_at(p, 2);
    for i in 2..p.len() / 2 {
        let m = word_at(p, 2 * i);
        if m <= last {
            return false;
        }
        last = m;
    }
    true
}

// Whether one of the payload's numbers is n or more, where its members ascend: its result or its last number is. The payload has a
// result, and no byte behind its last number.
fn ends_later(p: &[u8], n: usize) -> bool
    requires { (2 ≤ length p.now) × (length p.now % 2 ≡ 0) }
    ensures { ascends (words (drop 2 p.now)) ≡ true → result ≡ any (λ (t : ℕ). leb n t) (words p.now) }
{
    n <= word_at(p, 0) || n <= word_at(p, p.len() - 2)
}

// Tests a state, a payload p of one byte, after n types and with a given number of states, but not whether it repeats a type.
fn test_state(n: usize, states: usize, p: &[u8]) -> Result<(), Fault>
    ensures { length p.now ≡ 1 → CodesAlone n states p.now (code_of result) }
{
    if MAX_TYPES <= n {
        return Err(Fault::OverLimit);
    }
    if states <= byte_at(p, 0) {
        return Err(Fault::OutOfRange);
    }
    Ok(())
}

// The same for a payload p of any type.
fn test_alone(n: usize, states: usize, p: &[u8]) -> Result<(), Fault>
    ensures { CodesAlone n states p.now (code_of result) }
{
    if p.len() == 1 {
        return test_state(n, states, p);
    }
    if p.len() < 2 {
        return Err(Fault::WrongLength);
    }
    if MAX_TYPE < p.len() {
        return Err(Fault::WrongLength);
    }
    if p.len() % 2 != 0 {
        return Err(Fault::WrongLength);
    }
    if MAX_TYPES <= n {
        return Err(Fault::OverLimit);
    }
    if members_ascend(p) {
        if ends_later(p, n) {
            return Err(Fault::OutOfRange);
        }
        return Ok(());
    }
    if names_later(p, n) {
        return Err(Fault::OutOfRange);
    }
    Err(Fault::Misplaced)
}

// Tests the payload p of a type, whose hash is h, after n types, with a given number of states.
pub fn test_type(
    file: &[u8],
    index: &[u16],
    n: usize,
    states: usize,
    h: usize,
    p: &[u8],
) -> Result<(), Fault>
    ensures { h ≡ hash_of_spec p.now → TestsType file.now index.now n states p.now (code_of result) }
{
    test_alone(n, states, p)?;
    if listed(file, index, h, p) {
        return Err(Fault::Misplaced);
    }
    Ok(())
}
