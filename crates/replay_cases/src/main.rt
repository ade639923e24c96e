// Judges each case file that its arguments name, with as many lent flags as the number behind its name says, and prints the
// answer: `NAME: refuted letters 5 state 1 constructor 0`, `NAME: refused 13 at 2` or, for a binding case, `NAME: bindings`. A
// flag that changed and must not is reported. Where the answer is refuted or 13 to 15, a reducer on its own has to say the same,
// of the file and of cases with the same plan and paths drawn by a seed; where it does not, a line says so. The last line counts
// these cases.
#![tactic(auto)]

use plan_check::Verdict;
use reducer::{CELLS, Cell, EMPTY, Plan, Refusal, Refuted};
use std::io;
use std::io::Write;
use test_files::FILE_BUFFER;

// How many letters a path may have.
const LETTERS: usize = 4096;

// How many paths are drawn for a plan.
const DRAWN: usize = 40;

// The first refusal of a path that is replayed, by the number that a verdict has.
const FIRST: usize = 13;

fn say_answer<W: Write>(out: &mut W, verdict: Verdict) -> io::Result<()> {
    match verdict {
        Verdict::Proved { .. } | Verdict::Unproved { .. } => out.write_all(b"bindings"),
        Verdict::Refuted { .. } | Verdict::Refused { .. } => {
            verdict_lines::write_verdict(out, verdict)
        }
    }
}

fn say_line<W: Write>(out: &mut W, name: &[u8], verdict: Verdict) -> io::Result<()> {
    out.write_all(name)?;
    out.write_all(b": ")?;
    say_answer(out, verdict)?;
    out.write_all(b"\n")
}

// What the reducer found, as a verdict. No `From` stands for this: neither type is of this crate.
fn verdict_of(found: Result<Refuted, Refusal>) -> Verdict {
    match found {
        Ok(refuted) => Verdict::Refuted {
            letters: refuted.letters,
            state: refuted.state,
            constructor: refuted.constructor,
        },
        Err(refusal) => Verdict::Refused {
            number: usize::from(refusal.fault),
            place: refusal.place,
        },
    }
}

// Whether the reducer has to agree: an answer to a path that was replayed.
fn replayed(verdict: Verdict) -> bool {
    match verdict {
        Verdict::Proved { .. } | Verdict::Unproved { .. } => false,
        Verdict::Refuted { .. } => true,
        Verdict::Refused { number, .. } => FIRST <= number,
    }
}

// Prints the letters of a path.
fn say_letters<W: Write>(out: &mut W, file: &[u8], path: usize) -> io::Result<()> {
    let n = usize::from(reducer::word(file, path, 0));
    for i in 0..n {
        let letter = reducer::byte(file, path, i + 4);
        write!(out, " {letter}")?;
    }
    out.write_all(b"\n")
}

// A line for case k of a plan, of which case 0 is the file itself.
fn say_mismatch<W: Write>(
    out: &mut W,
    name: &[u8],
    k: usize,
    answer: Verdict,
    found: Verdict,
) -> io::Result<()> {
    out.write_all(name)?;
    write!(out, ": mismatch in case {k}: ")?;
    say_answer(out, answer)?;
    out.write_all(b", by the reducer ")?;
    verdict_lines::write_verdict(out, found)?;
    out.write_all(b", path")
}

// The first n bytes, or all if there are fewer.
fn first_bytes(bytes: &[u8], n: usize) -> &[u8] {
    &bytes[..n.min(bytes.len())]
}

// The answer where as many flags are lent as `lent` says.
fn answer_of<W: Write>(out: &mut W, file: &[u8], lent: usize) -> io::Result<Verdict> {
    let mut flags = test_files::fresh_flags();
    let verdict = test_files::judge_lent(file, &mut flags, lent);
    if !test_files::untouched(&flags, test_files::written(verdict)) {
        out.write_all(b"a flag changed: ")?;
    }
    Ok(verdict)
}

// Compares the library's answer with the reducer's on case k of a plan, whose path stands at an offset.
fn compare<W: Write>(
    out: &mut W,
    name: &[u8],
    file: &[u8],
    path: usize,
    k: usize,
    answer: Verdict,
    cells: &mut [Cell],
) -> io::Result<()> {
    let found = verdict_of(reducer::replay(file, cells));
    if answer != found {
        say_mismatch(out, name, k, answer, found)?;
        say_letters(out, file, path)?;
    }
    Ok(())
}

// Compares on case k of a plan that is loaded, with a path drawn by a seed; returns the next seed.
fn drawn_case<W: Write>(
    out: &mut W,
    name: &[u8],
    file: &mut [u8],
    plan: Plan,
    k: usize,
    seed: usize,
    cells: &mut [Cell],
) -> io::Result<usize> {
    let mut letters = [0u8; LETTERS];
    let drawn = reducer::drawn::draw(file, plan, cells, seed, &mut letters);
    let end = reducer::drawn::set_path(file, plan.path, first_bytes(&letters, drawn.length));
    let case = first_bytes(file, end);
    let answer = answer_of(out, case, 16)?;
    compare(out, name, case, plan.path, k, answer, cells)?;
    Ok(drawn.seed)
}

// Compares on the cases with a plan that is loaded and drawn paths.
fn drawn_cases<W: Write>(
    out: &mut W,
    name: &[u8],
    file: &mut [u8],
    plan: Plan,
    first: usize,
    cells: &mut [Cell],
) -> io::Result<()> {
    let mut seed = first;
    for k in 0..DRAWN {
        seed = drawn_case(out, name, file, plan, k + 1, seed, cells)?;
    }
    Ok(())
}

// Compares on a file, and on drawn cases of its plan, which are written over its path in a buffer.
fn compare_all<W: Write>(
    out: &mut W,
    name: &[u8],
    file: &[u8],
    answer: Verdict,
    seed: usize,
    cells: &mut [Cell],
) -> io::Result<()> {
    let plan = reducer::load(file, cells);
    compare(out, name, file, plan.path, 0, answer, cells)?;
    let mut buffer = [0u8; FILE_BUFFER];
    for (place, byte) in buffer.iter_mut().zip(file) {
        *place = *byte;
    }
    drawn_cases(out, name, &mut buffer, plan, seed, cells)
}

// The line of a file, and its comparisons; returns how many these are.
fn judge<W: Write>(
    out: &mut W,
    name: &[u8],
    file: &[u8],
    lent: usize,
    seed: usize,
    cells: &mut [Cell],
) -> io::Result<usize> {
    let answer = answer_of(out, file, lent)?;
    say_line(out, name, answer)?;
    if !replayed(answer) {
        return Ok(0);
    }
    compare_all(out, name, file, answer, seed, cells)?;
    Ok(DRAWN + 1)
}

fn main(rt: HostRuntime) -> io::Result<()> {
    let mut cells = [EMPTY; CELLS];
    let mut compared: usize = 0;
    test_files::for_each_named(&rt, 1000, 2, |name, file, i| {
        let lent = test_files::number_argument(&rt, i.saturating_add(1));
        let cases = judge(&mut io::writer(&rt), name, file, lent, i, &mut cells)?;
        compared = compared.wrapping_add(cases);
        Ok(())
    })?;
    println!(rt; "{compared} cases compared")
}
