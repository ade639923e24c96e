// Looking for a payload among the earlier ones of its kind, test 7.
ghost use Rattle.index.specs.repeats.Matching.{Repeats};

use crate::layout::MAX_TYPES;
use crate::lookup::entry;

// Whether one of n earlier payloads of a kind is p; the kind's entries begin at base in the index.
pub fn repeats(file: &[u8], index: &[u16], base: usize, n: usize, p: &[u8]) -> bool
    ensures { Repeats file.now index.now base n p.now result }
{
    if 4096 < base || MAX_TYPES < n {
        return false;
    }
    (base..base + n).any(|i| p == entry(file, index, i))
}
