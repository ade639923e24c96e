// A set of numbers below 32 as the bits of a word.
ghost use Rattle.tables.specs.Frames.{Adds};

use index::layout::WORD;

// A word with bit k put in.
pub fn with_bit(w: u32, k: usize) -> u32
    ensures { Adds w k result }
{
    w | (1u32 << ((k % WORD) as u32))
}
