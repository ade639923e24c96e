// Reads the fields of a file.
ghost use Rattle.casefile.specs.Fields.{IsField};
ghost use Rattle.records.specs.fields.Promises.{HasLength};

// The bytes of a record's header: the length of its payload, and its kind.
pub const HEADER: usize = 4;

// The one-byte field at a place; 0 past the end.
#[tactic(auto, using(casefile::proofs::Fields::is_field_one, casefile::proofs::Fields::is_field_out))]
pub fn byte_at(s: &[u8], at: usize) -> usize
    ensures { IsField 1 s.now at result }
{
    if at < s.len() { usize::from(s[at]) } else { 0 }
}

// The two-byte field at a place, the low byte first; a byte past the end counts 0. Where both bytes are there they are read
// without a further test.
#[tactic(auto, using(casefile::proofs::Fields::is_field_last))]
pub fn word_at(s: &[u8], at: usize) -> usize
    ensures { IsField 2 s.now at result }
{
    let n = s.len();
    if n < 2 || n - 1 <= at {
        return byte_at(s, at);
    }
    let low = byte_at(s, at);
    let high = byte_at(s, at + 1);
    low + 256 * high
}

// The length of the payload that begins at a place, by the header before it; 0 where there is no room for a header, and no
// Option: the clause `bare` of HasLength promises the 0, as a field past the end counts 0.
pub fn length_at(file: &[u8], start: usize) -> usize
    ensures { HasLength file.now start result }
{
    if start < HEADER {
        return 0;
    }
    word_at(file, start - HEADER)
}
