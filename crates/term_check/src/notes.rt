// The numbers of a test.
ghost use Rattle.std.specs.Prelude.{◌≡◌, ◌+◌, ◌*◌, ◌%◌, ◌<◌, get_or};
ghost use Rattle.index.specs.layout.Layout.{row_limit, test_cells};
ghost use Rattle.term_check.specs.notes.Notes.{stamp_in, words_in};

use index::layout::{ROW_LIMIT, TEST_CELLS, TEST_STAMP, TEST_WORDS, WORDS_LIMIT};
use marks::word_in;

// A number of a test.
pub fn number_in(test: &[u32], k: usize) -> usize
    ensures { (result ≡ get_or test.now k 0) × (result < 4294967296) }
{
    test.get(k).copied().unwrap_or(0) as usize
}

// Where the set of the candidates of a goal begins, behind the numbers of a test.
pub fn candidates_at(test: &[u32], goal: usize) -> usize
    ensures { result ≡ test_cells + goal % row_limit * words_in test.now }
{
    TEST_CELLS + goal % ROW_LIMIT * (number_in(test, TEST_WORDS) % WORDS_LIMIT)
}

// The number under which answers are remembered.
pub fn stamp_of(test: &[u32]) -> u32
    ensures { result ≡ stamp_in test.now }
{
    word_in(test, 0, TEST_STAMP)
}
