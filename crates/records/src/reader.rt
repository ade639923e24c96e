// A reader: it holds the lent file and a place in it. Its methods take it apart and call the cursor's functions.
ghost use Rattle.std.specs.Prelude.{◌≡◌};
ghost use Rattle.records.specs.cursor.Reading.{read_at};
ghost use Rattle.records.specs.reader.Parts.{payload_of_spec};

use crate::cursor::{Cursor, Record};
use crate::refusal::Refusal;

// A place in a file that is lent.
#[derive(Clone, Copy)]
pub struct Reader<'a> {
    pub file: &'a [u8],
    pub at: usize,
}

impl<'a> Reader<'a> {
    // The reader at the start of a file.
    pub fn start(file: &'a [u8]) -> Reader<'a>
        ensures { (result.file ≡ file.entry) × (result.at ≡ 0) }
    {
        Reader { file, at: 0 }
    }

    // The next record that counts, from the reader on; refusal 2 where a record or a remark runs past the end; none where
    // nothing is left.
    pub fn next(self) -> Result<Option<Record>, Refusal>
        ensures { result ≡ read_at self.entry.file.now self.entry.at }
    {
        Cursor { at: self.at }.next(self.file)
    }

    // The part of the file that the payload of a record fills; empty where no record was read.
    pub fn part(self, got: Result<Option<Record>, Refusal>) -> &'a [u8]
        ensures { result.now ≡ payload_of_spec self.entry.file.now got }
    {
        match got {
            Ok(Some(record)) => record.payload(self.file),
            _ => &self.file[..0],
        }
    }

    // The reader of the same file at another place.
    pub fn moved(self, at: usize) -> Reader<'a>
        ensures { (result.file ≡ self.entry.file) × (result.at ≡ at) }
    {
        Reader { at, ..self }
    }
}
