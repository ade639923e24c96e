// Reads a file: its records, and the part of the file that a payload fills.
ghost use Rattle.std.specs.Prelude.{◌≡◌, not, ◌<◌};
ghost use Rattle.casefile.specs.Records.{is_remark};
ghost use Rattle.records.specs.cursor.Reading.{read_at, part_of};

use crate::fields::{HEADER, word_at};
use crate::refusal::{Fault, Refusal};

// A place in a file.
#[derive(Clone, Copy)]
pub struct Cursor {
    pub at: usize,
}

// A record as it is read: its place, its payload, which is the len bytes from start, its kind, and the cursor behind it.
#[derive(Clone, Copy)]
pub struct Record {
    pub place: usize,
    pub start: usize,
    pub len: usize,
    pub kind: usize,
    pub next: Cursor,
}

// Whether a record of a kind counts: remarks, of kind 8000 (hexadecimal) and above, do not.
#[tactic(auto, using(casefile::proofs::Counting::remark_not, casefile::proofs::Counting::remark_is))]
fn counts(kind: usize) -> bool
    ensures { kind < 65536 → result ≡ not (is_remark kind) }
{
    match kind {
        1..=9 => true,
        0x8000..=0xFFFF => false,
        _ => true,
    }
}

impl Cursor {
    // The next record that counts, from the cursor on; refusal 2 where a record or a remark runs past the end; none where
    // nothing is left.
    pub fn next(self, file: &[u8]) -> Result<Option<Record>, Refusal>
        ensures { result ≡ read_at file.now self.at }
    {
        let mut at = self.at;
        while at < file.len() {
            let len = word_at(file, at);
            if file.len() - at < HEADER + len {
                return Err(Fault::CutOff.at(at));
            }
            let kind = word_at(file, at + 2);
            let start = at + HEADER;
            if counts(kind) {
                return Ok(Some(Record {
                    place: at,
                    start,
                    len,
                    kind,
                    next: Cursor { at: start + len },
                }));
            }
            at = start + len;
        }
        Ok(None)
    }
}

impl Record {
    // The payload of a record of a file.
    pub fn payload(self, file: &[u8]) -> &[u8]
        ensures { result.now ≡ part_of file.now self.start self.len }
    {
        payload(file, self.start, self.len)
    }
}

// The len bytes of a file from start on, as a part of it; empty where they run past the end.
#[tactic(auto, using(crate::proofs::cursor::Reading::part_of_law, crate::proofs::cursor::Reading::part_out))]
pub fn payload(file: &[u8], start: usize, len: usize) -> &[u8]
    ensures { result.now ≡ part_of file.now start len }
{
    if file.len() < start || file.len() - start < len {
        return &file[..0];
    }
    &file[start..start + len]
}
