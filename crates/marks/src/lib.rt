// Sets of numbers as the bits of words: the words of a set begin at a place, and number n is bit n % 32 of word n / 32. Many sets
// stand in one table of fixed memory, so a set is a place and no type of its own.
#![tactic(auto)]

pub mod briefs;

ghost use Rattle.std.specs.Prelude.{◌≡◌, ◌+◌, ◌<◌, min, get_or};
ghost use Rattle.std.specs.Int.Count.{count_trailing_zeros};
ghost use Rattle.marks.specs.Marks.{Decides, Puts, Quiet, FindsNext};

use index::layout::WORD;

// The words that a search passes at once, and the numbers in them.
const QUIET_WORDS: usize = 8;

const QUIET_BITS: usize = QUIET_WORDS * WORD;

// The word that many words behind a place; 0 past the end.
pub fn word_in(words: &[u32], at: usize, i: usize) -> u32
    ensures { result ≡ get_or words.now (at + i) 0 }
{
    if words.len() <= at || words.len() - at <= i {
        return 0;
    }
    words[at + i]
}

// Whether number n is in the set at a place.
pub fn is_in(words: &[u32], at: usize, n: usize) -> bool
    ensures { Decides words.now at n result }
{
    let word = word_in(words, at, n / WORD);
    (word >> ((n % WORD) as u32)) % 2 == 1
}

// Puts number n into the set at a place; nothing changes past the end.
pub fn put_in(words: &mut [u32], at: usize, n: usize)
    ensures { Puts words.old at n words.new }
{
    if words.len() <= at || words.len() - at <= n / WORD {
        return;
    }
    words[at + n / WORD] |= 1u32 << ((n % WORD) as u32);
}

// Whether QUIET_WORDS words are there from one on, and no bit is in them.
fn quiet(words: &[u32], i: usize) -> bool
    ensures { Quiet words.now i result }
{
    if words.len() < QUIET_WORDS || words.len() - QUIET_WORDS < i {
        return false;
    }
    let mut all: u32 = 0;
    for word in &words[i..i + QUIET_WORDS] {
        all |= *word;
    }
    all == 0
}

// The number of the lowest bit that a word has left, where its lowest place is that of number n; the end where that comes first.
fn lowest(rest: u32, n: usize, end: usize) -> usize
    requires { n < end }
    ensures { result ≡ min end (n + count_trailing_zeros 32 rest) }
{
    let zeros = rest.trailing_zeros() as usize;
    n + zeros.min(end - n)
}

// The least number of the set at a place, from one on and below an end; the end where there is none. This is the search that is
// expected to pass words in which there is no number.
pub fn next_beyond(words: &[u32], at: usize, from: usize, end: usize) -> usize
    ensures { FindsNext words.now at from end result }
{
    if words.len() <= at {
        return end;
    }
    let mut n = from;
    // Not a `for`: a step goes to the next word, or past eight quiet ones.
    while n < end {
        let word = word_in(words, at, n / WORD);
        let rest = word >> ((n % WORD) as u32);
        if rest != 0 {
            return lowest(rest, n, end);
        }
        let skip = WORD - n % WORD;
        if end - n <= skip {
            return end;
        }
        n += skip;
        if quiet(words, at + n / WORD) {
            if end - n <= QUIET_BITS {
                return end;
            }
            n += QUIET_BITS;
        }
    }
    end
}

// The same, for a search that is expected to end in the first word: it is small enough to be put in place where it is called.
pub fn next_in(words: &[u32], at: usize, from: usize, end: usize) -> usize
    ensures { FindsNext words.now at from end result }
{
    if end <= from {
        return end;
    }
    let word = word_in(words, at, from / WORD);
    let rest = word >> ((from % WORD) as u32);
    if rest != 0 {
        return lowest(rest, from, end);
    }
    let skip = WORD - from % WORD;
    if end - from <= skip {
        return end;
    }
    next_beyond(words, at, from + skip, end)
}
