#![tactic(auto)]

// The line of a verdict, as the programs print it: `proved 2 of 2 rounds 0`, `unproved 0 of 2 rounds 2`,
// `refuted letters 5 state 1 constructor 0` or `refused 13 at 0`; and that of a dropped binding,
// `binding 0 round 2 node 0 goal state 0`.
ghost use Rattle.std.specs.Prelude.{◌≡◌, ◌++◌, ◌≤◌, take};
ghost use Rattle.io.specs.Counts.{IsPrefixLen};
ghost use Rattle.plan_check.specs.Verdicts.{answer_as};
ghost use Rattle.verdict_lines.specs.Lines.{Puts, numbered, line_of, of_word, rounds_word, refuted_word, state_word, constructor_word, refused_word, at_word, wanted_part, wanted_as, explanation_as, reason_line};

use index::layout::MAX_STATES;
use plan_check::Verdict;
use std::io::Write;

// Copies a text into a line from a place on, if there is room for it; returns the place behind it. No `Display` with `write!` stands for
// this: the library promises its bytes only where it answers Ok, and `put_verdict` promises its line, by `line_after`, at each call.
fn put(line: &mut [u8], from: usize, text: &[u8]) -> usize
    ensures { Puts line.old from text.now line.new result }
{
    let end = from.saturating_add(text.len());
    if end <= line.len() {
        line[from..end].copy_from_slice(text);
    }
    end
}

// Puts a word and a number behind it into a line from a place on; returns the place behind them.
#[tactic(auto, using(crate::proofs::Putting::puts_numbered))]
fn put_numbered(line: &mut [u8], from: usize, word: &[u8], number: usize) -> usize
    ensures { Puts line.old from (numbered word.now number) line.new result }
{
    let mut digits = [0u8; 20];
    let n = io::decimal(number as u64, &mut digits);
    let at = put(line, from, word);
    put(line, at, &digits[..n])
}

// Puts the line of a binding case, which begins with a word, at the start of a buffer; returns its length.
#[tactic(auto, using(crate::proofs::Putting::puts_then))]
fn put_counts(line: &mut [u8], word: &[u8], kept: usize, total: usize, rounds: usize) -> usize
    ensures { Puts line.old 0 (numbered word.now kept ++ numbered of_word total ++ numbered rounds_word rounds) line.new result }
{
    let a = put_numbered(line, 0, word, kept);
    let b = put_numbered(line, a, b" of ", total);
    put_numbered(line, b, b" rounds ", rounds)
}

// Puts the line of a path case at the start of a buffer; returns its length.
#[tactic(auto, using(crate::proofs::Putting::puts_then))]
fn put_refuted(line: &mut [u8], letters: usize, state: usize, constructor: usize) -> usize
    ensures { Puts line.old 0 (numbered refuted_word letters ++ numbered state_word state ++ numbered constructor_word constructor) line.new result }
{
    let a = put_numbered(line, 0, b"refuted letters ", letters);
    let b = put_numbered(line, a, b" state ", state);
    put_numbered(line, b, b" constructor ", constructor)
}

// Puts the line of a refusal at the start of a buffer; returns its length.
#[tactic(auto, using(crate::proofs::Putting::puts_then))]
fn put_refused(line: &mut [u8], number: usize, place: usize) -> usize
    ensures { Puts line.old 0 (numbered refused_word number ++ numbered at_word place) line.new result }
{
    let a = put_numbered(line, 0, b"refused ", number);
    put_numbered(line, a, b" at ", place)
}

// Puts the line of a verdict, without a line end, at the start of a buffer; returns its length. There is room for each
// line: three numbers of 20 digits and 36 letters and spaces are the longest.
pub fn put_verdict(line: &mut [u8; 128], verdict: Verdict) -> usize
    ensures upper_bound { result ≤ 128 }
    ensures prefix_len { IsPrefixLen result line.new }
    ensures line_after { take result line.new ≡ line_of (answer_as verdict) }
{
    match verdict {
        Verdict::Proved {
            kept,
            total,
            rounds,
        } => put_counts(line, b"proved ", kept, total, rounds),
        Verdict::Unproved {
            kept,
            total,
            rounds,
        } => put_counts(line, b"unproved ", kept, total, rounds),
        Verdict::Refuted {
            letters,
            state,
            constructor,
        } => put_refuted(line, letters, state, constructor),
        Verdict::Refused { number, place } => put_refused(line, number, place),
    }
}

// Puts the type wanted behind what stands in front of a place of a line, a state or a type by its number; returns the place behind it.
#[tactic(auto, using(crate::proofs::Putting::puts_state, crate::proofs::Putting::puts_type))]
fn put_goal(line: &mut [u8], from: usize, goal: usize) -> usize
    ensures { Puts line.old from (wanted_part (wanted_as goal)) line.new result }
{
    if goal < MAX_STATES {
        return put_numbered(line, from, b" goal state ", goal);
    }
    put_numbered(line, from, b" goal type ", goal - MAX_STATES)
}

// Puts the line of a dropped binding at the start of a buffer; returns its length.
#[tactic(auto, using(crate::proofs::Putting::puts_reason))]
fn put_explanation(line: &mut [u8], binding: usize, round: usize, node: usize, goal: usize) -> usize
    ensures { Puts line.old 0 (reason_line binding (explanation_as round node goal)) line.new result }
{
    let a = put_numbered(line, 0, b"binding ", binding);
    let b = put_numbered(line, a, b" round ", round);
    let c = put_numbered(line, b, b" node ", node);
    put_goal(line, c, goal)
}

// Puts the line of a dropped binding, without a line end, at the start of a buffer; returns its length. There is room for each
// line: four numbers of 20 digits and 33 letters and spaces are the longest.
#[tactic(auto, using(crate::proofs::Putting::says_reason))]
pub fn put_reason(
    line: &mut [u8; 128],
    binding: usize,
    round: usize,
    node: usize,
    goal: usize,
) -> usize
    ensures upper_bound { result ≤ 128 }
    ensures prefix_len { IsPrefixLen result line.new }
    ensures line_after { take result line.new ≡ reason_line binding (explanation_as round node goal) }
{
    put_explanation(line, binding, round, node, goal)
}

// Writes the line of a verdict, without a line end.
pub fn write_verdict<W: Write>(out: &mut W, verdict: Verdict) -> std::io::Result<()> {
    let mut line = [0u8; 128];
    let n = put_verdict(&mut line, verdict);
    out.write_all(&line[..n])
}

// Writes the line of a dropped binding, without a line end.
pub fn write_reason<W: Write>(
    out: &mut W,
    binding: usize,
    round: usize,
    node: usize,
    goal: usize,
) -> std::io::Result<()> {
    let mut line = [0u8; 128];
    let n = put_reason(&mut line, binding, round, node, goal);
    out.write_all(&line[..n])
}
