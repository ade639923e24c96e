// Reads a case file from standard input.
#![tactic(auto)]

ghost use Rattle.std.specs.Prelude.{◌≡◌, ◌≤◌, IfSome, length, take};

use std::io;
use std::io::Read;

// How long a buffer for a case file is: more than the 60,000 bytes of the longest one, so that a longer one is seen to be longer.
pub const BUFFER: usize = 65536;

// Reads until the buffer is full, the input ends or a read fails; returns how many bytes stand at the start of the buffer, and
// whether no read failed. A read that does not fail and is not at the end gives a byte at least, so that there are no more reads
// than the buffer has bytes.
pub fn fill<R: Read>(reader: &mut R, buffer: &mut [u8]) -> (usize, io::Result<()>)
    ensures { result.0 ≤ length buffer.new }
{
    let mut at: usize = 0;
    for _turn in 0..buffer.len() {
        match reader.read(&mut buffer[at..]) {
            Ok(0) => return (at, Ok(())),
            Ok(count) => at = at + count,
            Err(error) => return (at, Err(error)),
        }
    }
    (at, Ok(()))
}

// Reads standard input into a buffer, as much of it as there is room for; returns how many bytes stand there. Where it cannot be
// read, a line on standard error says so, and there is no file to judge.
pub fn read_input<R: io::Input + Eprint>(rt: &R, buffer: &mut [u8]) -> Option<usize>
    ensures in_buffer { IfSome result (λ n. n ≤ length buffer.new) }
    ensures prefix_len { IfSome result (λ n. n ≡ length (take n buffer.new)) }
{
    let (length, read) = fill(&mut rt.reader(), buffer);
    if read.is_err() {
        let _ = eprintln!(rt; "cannot read standard input");
        return None;
    }
    Some(length)
}
