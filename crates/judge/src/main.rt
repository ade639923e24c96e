// Reads a case file from standard input and prints the line of its verdict.
#![tactic(auto)]

use index::layout::MAX_BINDINGS;
use input::{BUFFER, read_input};
use std::io;
use std::io::Write;

// The buffer holds more than the 60,000 bytes of the longest case file, so that a longer one is seen to be longer.
fn main(rt: HostRuntime) -> io::Result<()> {
    let mut file = [0u8; BUFFER];
    let Some(n) = read_input(&rt, &mut file) else {
        return Ok(());
    };
    let mut flags = [0u8; MAX_BINDINGS];
    let verdict = plan_check::judge(&file[..n], &mut flags);
    let mut out = io::writer(&rt);
    verdict_lines::write_verdict(&mut out, verdict)?;
    out.write_all(b"\n")
}
