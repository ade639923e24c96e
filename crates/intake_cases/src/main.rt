// Judges each case file that its arguments name, with as many lent flags as the number behind its name says, and prints a line
// for each: `NAME: refused 3 at 12` for a refusal by 1 to 12, and `NAME: accepted` for every other answer. A flag that changed
// and must not is reported as well.
#![tactic(auto)]

use plan_check::Verdict;
use std::io;
use std::io::Write;

// The last refusal that needs no replay, by the number that a verdict has.
const LAST: usize = 12;

fn say_accepted<W: Write>(out: &mut W) -> io::Result<()> {
    out.write_all(b": accepted\n")
}

fn say_refused<W: Write>(out: &mut W, number: usize, place: usize) -> io::Result<()> {
    if LAST < number {
        return say_accepted(out);
    }
    writeln!(out, ": refused {number} at {place}")
}

fn say<W: Write>(out: &mut W, name: &[u8], verdict: Verdict) -> io::Result<()> {
    out.write_all(name)?;
    if let Verdict::Refused { number, place } = verdict {
        say_refused(out, number, place)
    } else {
        say_accepted(out)
    }
}

// The line of a file, judged with as many flags as `lent` says.
fn judge<W: Write>(out: &mut W, name: &[u8], file: &[u8], lent: usize) -> io::Result<()> {
    let mut flags = test_files::fresh_flags();
    let verdict = test_files::judge_lent(file, &mut flags, lent);
    if !test_files::untouched(&flags, test_files::written(verdict)) {
        out.write_all(b"a flag changed: ")?;
    }
    say(out, name, verdict)
}

fn main(rt: HostRuntime) -> io::Result<()> {
    test_files::for_each_named(&rt, 1000, 2, |name, file, i| {
        let lent = test_files::number_argument(&rt, i.saturating_add(1));
        judge(&mut io::writer(&rt), name, file, lent)
    })
}
