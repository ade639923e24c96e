// Reads a case file from standard input and prints the line of its verdict. For a binding case it then prints a line for
// each binding, in file order: `binding 0 nonterminal 0 type 0 kept`, or `dropped` at the end.
#![tactic(auto)]

use index::layout::MAX_BINDINGS;
use input::{BUFFER, read_input};
use plan_check::Verdict;
use records::cursor::{Cursor, Record};
use records::fields::word_at;
use records::kind::Kind;
use std::io;
use std::io::Write;

// The line of binding k, by its payload and its flag.
fn say_binding<W: Write>(out: &mut W, fields: &[u8], k: usize, flag: u8) -> io::Result<()> {
    let nonterminal = word_at(fields, 0);
    let of_type = word_at(fields, 2);
    let outcome = if flag == 0 { "dropped" } else { "kept" };
    writeln!(
        out,
        "binding {k} nonterminal {nonterminal} type {of_type} {outcome}"
    )
}

// The next binding of a file, from a cursor on.
fn next_binding(file: &[u8], mut cursor: Cursor) -> Option<Record> {
    while let Ok(Some(record)) = cursor.next(file) {
        if record.kind == usize::from(Kind::Binding) {
            return Some(record);
        }
        cursor = record.next;
    }
    None
}

// A line for each binding of a file, by its flag.
fn say_bindings<W: Write>(out: &mut W, file: &[u8], flags: &[u8]) -> io::Result<()> {
    let mut cursor = Cursor { at: 0 };
    for (k, flag) in flags.iter().enumerate() {
        let Some(binding) = next_binding(file, cursor) else {
            return Ok(());
        };
        say_binding(out, binding.payload(file), k, *flag)?;
        cursor = binding.next;
    }
    Ok(())
}

// Whether a verdict is one of a binding case.
fn of_bindings(verdict: Verdict) -> bool {
    matches!(verdict, Verdict::Proved { .. } | Verdict::Unproved { .. })
}

// The buffer holds more than the 60,000 bytes of the longest case file, so that a longer one is seen to be longer.
fn main(rt: HostRuntime) -> io::Result<()> {
    let mut file = [0u8; BUFFER];
    let Some(n) = read_input(&rt, &mut file) else {
        return Ok(());
    };
    let mut flags = [0u8; MAX_BINDINGS];
    let verdict = plan_check::judge(&file[..n], &mut flags);
    let mut out = io::writer(&rt);
    verdict_lines::write_verdict(&mut out, verdict)?;
    out.write_all(b"\n")?;
    if of_bindings(verdict) {
        say_bindings(&mut out, &file[..n], &flags)?;
    }
    Ok(())
}
