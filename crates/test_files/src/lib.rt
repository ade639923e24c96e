// What the programs that judge stored files share: the files and numbers that their arguments name, and the flags they lend.
// Each flag holds 7 before a call, which no judge writes, so that a byte that changed is seen.
#![tactic(auto)]

ghost use Rattle.std.specs.Prelude.{◌≡◌, ◌≤◌, IfSome, length, take};

use index::layout::MAX_BINDINGS;
use plan_check::Verdict;
use std::env::Env;
use std::fs::File;
use std::rt::Files;
use std::{io, str};

// This many flags are enough for every file.
pub const FLAGS: usize = MAX_BINDINGS;

// How long a buffer for the name of a file is, and one for a file: more than the 60,000 bytes of the longest case file, so that a
// longer one is seen to be longer.
pub const NAME_BUFFER: usize = 4096;

pub const FILE_BUFFER: usize = 65536;

// What each flag holds before a call.
pub const BEFORE: u8 = 7;

// What ends the name of a case file: `.case`.
const ENDING: usize = 5;

// A file that an argument names: how long its name is, and how many of its bytes were read.
#[derive(Clone, Copy)]
pub struct Named {
    pub name: usize,
    pub bytes: usize,
}

// Flags before a call.
pub fn fresh_flags() -> [u8; FLAGS]
    ensures { 1024 ≡ length result }
{
    [BEFORE; FLAGS]
}

// Whether each flag from a number on is as before the call.
pub fn untouched(flags: &[u8], from: usize) -> bool {
    flags.iter().skip(from).all(|flag| *flag == BEFORE)
}

// How many flags a verdict writes: one for each binding of a binding case that is not refused.
pub fn written(verdict: Verdict) -> usize {
    match verdict {
        Verdict::Proved { total, .. } | Verdict::Unproved { total, .. } => total,
        Verdict::Refuted { .. } | Verdict::Refused { .. } => 0,
    }
}

// The verdict where the first flags are lent, as many as `lent` says; refused 0 at 0 where there are fewer.
pub fn judge_lent(file: &[u8], flags: &mut [u8], lent: usize) -> Verdict {
    if flags.len() < lent {
        return Verdict::Refused {
            number: 0,
            place: 0,
        };
    }
    plan_check::judge(file, &mut flags[..lent])
}

// The decimal number in a text, at most 1,024. The library's `parse` refuses a larger one, and a text that is no number.
fn decimal(text: &[u8]) -> usize
    ensures { result ≤ 1024 }
{
    let mut n: usize = 0;
    for letter in text {
        n = n * 10 + usize::from(letter % 16);
        if FLAGS < n {
            return FLAGS;
        }
    }
    n
}

// The number in argument i, at most 1,024; 0 where there is none.
pub fn number_argument<R: Env>(rt: &R, i: usize) -> usize
    ensures { result ≤ 1024 }
{
    let mut text = [0u8; NAME_BUFFER];
    let digits = rt.arg(i, &mut text).unwrap_or(0);
    decimal(&text[..digits])
}

// The name of a file without its ending.
pub fn stem(path: &[u8]) -> &[u8] {
    if path.len() < ENDING {
        return path;
    }
    let n = path.len() - ENDING;
    &path[..n]
}

// Reads the file of a name; returns how many of its bytes were read. Where there is no such file, a line on standard error says so.
fn read_file<R: Files + Eprint>(rt: &R, name: &str, buffer: &mut [u8]) -> Option<usize>
    ensures { IfSome result (λ n. n ≤ length buffer.new) }
{
    match File::open(rt, name) {
        Ok(mut file) => Some(input::fill(&mut file, buffer).0),
        Err(error) => {
            let _ = eprintln!(rt; "{name}: {error}");
            None
        }
    }
}

// Reads the file that argument i names, and its name. Where there is such an argument and no such file, a line on standard error
// says so.
pub fn read_named<R: Env + Files + Eprint>(
    rt: &R,
    i: usize,
    name: &mut [u8],
    file: &mut [u8],
) -> Option<Named>
    ensures in_name { IfSome result (λ named. named.name ≤ length name.new) }
    ensures name_len { IfSome result (λ named. named.name ≡ length (take named.name name.new)) }
    ensures in_file { IfSome result (λ named. named.bytes ≤ length file.new) }
    ensures bytes_len { IfSome result (λ named. named.bytes ≡ length (take named.bytes file.new)) }
{
    let n = rt.arg(i, name).ok()?;
    let Ok(path) = str::from_utf8(&name[..n]) else {
        let _ = eprintln!(rt; "argument {i} is not UTF-8");
        return None;
    };
    let bytes = read_file(rt, path, file)?;
    Some(Named { name: n, bytes })
}

// Has a file done for each of so many arguments, every `step`-th from the first on, until one names no file: by its name, its bytes and
// the number of the argument.
pub fn for_each_named<R: Env + Files + Eprint, F>(
    rt: &R,
    files: usize,
    step: usize,
    mut each: F,
) -> io::Result<()>
where
    F: FnMut(&[u8], &[u8], usize) -> io::Result<()>,
    requires { F.IsAlwaysCallable each }
{
    for k in 0..files {
        let i = k.saturating_mul(step).saturating_add(1);
        let mut name = [0u8; NAME_BUFFER];
        let mut file = [0u8; FILE_BUFFER];
        let Some(named) = read_named(rt, i, &mut name, &mut file) else {
            return Ok(());
        };
        each(&name[..named.name], &file[..named.bytes], i)?;
    }
    Ok(())
}
