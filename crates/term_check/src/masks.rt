// Sets of goals below 32 as the bits of a word.
ghost use Rattle.term_check.specs.masks.Masks.{HasBit, Lowest, TakesOut, Leaves};

use index::layout::WORD;

// Whether a word has bit k.
pub fn has_bit(word: u32, k: usize) -> bool
    ensures { HasBit word k result }
{
    (word >> (k % WORD)) % 2 == 1
}

// The lowest bit of a word that has one.
pub fn lowest(word: u32) -> usize
    ensures { Lowest word result }
{
    word.trailing_zeros() as usize
}

// A word with bit k taken out.
pub fn without_bit(word: u32, k: usize) -> u32
    ensures { TakesOut word k result }
{
    word & !(1 << (k % WORD))
}

// The bits of a word that another has not.
pub fn left_of(word: u32, other: u32) -> u32
    ensures { Leaves word other result }
{
    word & !other
}
