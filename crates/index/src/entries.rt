// An entry of a table of two-byte numbers, as the index of a file is, and the place of its record.
ghost use Rattle.index.specs.entries.Tests.{IsPlace};
ghost use Rattle.std.specs.Prelude.{◌≡◌, ◌+◌, ◌≤◌, get_or};
ghost use Rattle.records.specs.kind.Kinds.{kind_number};

use records::fields::HEADER;
use records::kind::Kind;

// Entry i of a table, as of the index, where it is a file offset; 0 past the end.
pub fn place_at(index: &[u16], i: usize) -> usize
    ensures { IsPlace index.now i result }
{
    index.get(i).map_or(0, |entry| usize::from(*entry))
}

// How many records of a kind a file has, by the counts of its kinds.
pub fn count_of(counts: &[u16], kind: Kind) -> usize
    ensures { IsPlace counts.now (kind_number kind) result }
{
    place_at(counts, usize::from(kind))
}

// The place of the record whose payload's offset is entry i of the index.
pub fn place_of(index: &[u16], i: usize) -> usize
    ensures { 4 ≤ get_or index.now i 0 → result + 4 ≡ get_or index.now i 0 }
{
    place_at(index, i).saturating_sub(HEADER)
}
