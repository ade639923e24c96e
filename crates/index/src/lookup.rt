// The payload of an entry, found by its number in the index.
ghost use Rattle.std.specs.Prelude.{◌≡◌};
ghost use Rattle.std.specs.Str.{bytes_eq};
ghost use Rattle.index.specs.lookup.Lookup.{entry_of};

use crate::entries::place_at;
use records::cursor::payload;
use records::fields::length_at;

// The payload of entry i of the index, as a part of the file; empty where the index has no such entry.
#[tactic(auto, using(crate::proofs::lookup::Found::entry_is))]
pub fn entry<'a>(file: &'a [u8], index: &[u16], i: usize) -> &'a [u8]
    ensures { result.now ≡ entry_of file.now index.now i }
{
    let start = place_at(index, i);
    payload(file, start, length_at(file, start))
}

// Whether entry i of the index has the payload p. Lengths are compared before the entry is taken as a part of the file: of many payloads
// that are looked through, most differ in length or at the front.
pub(crate) fn has_payload(file: &[u8], index: &[u16], i: usize, p: &[u8]) -> bool
    ensures { result ≡ bytes_eq p.now (entry_of file.now index.now i) }
{
    let start = place_at(index, i);
    let len = length_at(file, start);
    if len != p.len() && 0 < p.len() {
        return false;
    }
    p == payload(file, start, len)
}
