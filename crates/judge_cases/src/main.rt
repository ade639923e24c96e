// Judges each case file that its arguments name and prints a line for it: its name without `.case`, the verdict, and for
// a binding case with bindings the flags: `e-t2-added proved 2 of 3 rounds 1 flags 110`. Of more than 64 flags it prints
// the first 64, then the sum of the numbers of the kept bindings. Each file is judged three times, with flags that are 7
// at first: with 1,024 of them, of which those past the bindings have to stay 7; with as many as there are bindings, for
// which all has to be the same; and with one fewer, which has to be refused by 12 and leave all at 7. Where something
// else comes, the line ends in `untouched no`, or a further line says `mismatch`.
#![tactic(auto)]

use plan_check::Verdict;
use std::io;
use std::io::Write;
use test_files::{FLAGS, fresh_flags, judge_lent, stem, untouched, written};

// How many flags are printed at most.
const SHOWN: usize = 64;

// Whether each of the first n flags is 0 or 1.
fn are_flags(flags: &[u8], n: usize) -> bool {
    flags.iter().take(n).all(|flag| *flag <= 1)
}

// The sum of the numbers of the bindings, of n, whose flag is 1.
fn sum_of_kept(flags: &[u8], n: usize) -> usize {
    flags
        .iter()
        .take(n)
        .enumerate()
        .filter(|(_, flag)| **flag == 1)
        .fold(0, |sum, (i, _)| sum.wrapping_add(i))
}

fn say_flag<W: Write>(out: &mut W, flag: u8) -> io::Result<()> {
    match flag {
        0 => out.write_all(b"0"),
        1 => out.write_all(b"1"),
        _ => out.write_all(b"?"),
    }
}

// Prints the first flags, of n.
fn say_first_flags<W: Write>(out: &mut W, flags: &[u8], n: usize) -> io::Result<()> {
    for flag in flags.iter().take(n.min(SHOWN)) {
        say_flag(out, *flag)?;
    }
    Ok(())
}

// Prints n flags, where there are any.
fn say_flags<W: Write>(out: &mut W, flags: &[u8], n: usize) -> io::Result<()> {
    if n == 0 {
        return Ok(());
    }
    out.write_all(b" flags ")?;
    say_first_flags(out, flags, n)?;
    if SHOWN < n {
        let sum = sum_of_kept(flags, n);
        write!(out, " sum {sum}")?;
    }
    Ok(())
}

// The line of a file that was judged with 1,024 flags.
fn say_line<W: Write>(out: &mut W, name: &[u8], verdict: Verdict, flags: &[u8]) -> io::Result<()> {
    let n = written(verdict);
    out.write_all(name)?;
    out.write_all(b" ")?;
    verdict_lines::write_verdict(out, verdict)?;
    say_flags(out, flags, n)?;
    if !untouched(flags, n) {
        out.write_all(b" untouched no")?;
    }
    out.write_all(b"\n")
}

// A line for a verdict or for flags that should be others.
fn say_mismatch<W: Write>(
    out: &mut W,
    name: &[u8],
    lent: usize,
    verdict: Verdict,
) -> io::Result<()> {
    out.write_all(name)?;
    write!(out, " mismatch with {lent} flags: ")?;
    verdict_lines::write_verdict(out, verdict)?;
    out.write_all(b"\n")
}

// Judges a file with as many flags as it has bindings, and compares with what came before.
fn judge_exactly<W: Write>(
    out: &mut W,
    name: &[u8],
    file: &[u8],
    verdict: Verdict,
    flags: &[u8],
) -> io::Result<()> {
    let n = written(verdict);
    let mut others = fresh_flags();
    let again = judge_lent(file, &mut others, n);
    if again != verdict || flags != others.as_slice() {
        say_mismatch(out, name, n, again)?;
    }
    Ok(())
}

// Judges a file that has n bindings with one flag fewer.
fn judge_short<W: Write>(out: &mut W, name: &[u8], file: &[u8], n: usize) -> io::Result<()> {
    if n == 0 {
        return Ok(());
    }
    let mut flags = fresh_flags();
    let verdict = judge_lent(file, &mut flags, n - 1);
    let wanted = Verdict::Refused {
        number: 12,
        place: 0,
    };
    if verdict != wanted || !untouched(&flags, 0) {
        say_mismatch(out, name, n - 1, verdict)?;
    }
    Ok(())
}

// Judges a file and prints what there is to say of it.
fn judge_case<W: Write>(out: &mut W, name: &[u8], file: &[u8]) -> io::Result<()> {
    let mut flags = fresh_flags();
    let verdict = judge_lent(file, &mut flags, FLAGS);
    say_line(out, name, verdict, &flags)?;
    if !are_flags(&flags, written(verdict)) {
        say_mismatch(out, name, FLAGS, verdict)?;
    }
    judge_exactly(out, name, file, verdict, &flags)?;
    judge_short(out, name, file, written(verdict))
}

fn main(rt: HostRuntime) -> io::Result<()> {
    test_files::for_each_named(&rt, 999, 1, |name, file, _| {
        judge_case(&mut io::writer(&rt), stem(name), file)
    })
}
