// Sets with a brief: one word that has bit k where word k of the set may have a number. Such a set has as many words as a word has bits.
ghost use Rattle.marks.specs.briefs.Briefs.{FindsMarked};

use crate::{lowest, word_in};
use index::layout::WORD;

// The least number that is marked, from one on and below an end; the end where there is none.
pub fn next_marked(words: &[u32], at: usize, brief: usize, from: usize, end: usize) -> usize
    ensures { FindsMarked words.now at brief from end result }
{
    let mut n = from;
    while n < end {
        let rest = word_in(words, at, n / WORD) >> ((n % WORD) as u32);
        if rest != 0 {
            return lowest(rest, n, end);
        }
        let k = n / WORD + 1;
        let word = word_in(words, brief, 0);
        if WORD <= k {
            return end;
        }
        let others = word >> (k as u32);
        if others == 0 {
            return end;
        }
        n = (k + others.trailing_zeros() as usize) * WORD;
    }
    end
}
