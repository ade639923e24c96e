// Sets of listed sorts as words, with bit i for sort i + 1.
ghost use Rattle.std.specs.Prelude.{◌≡◌, ◌<◌, ◌≤◌};
ghost use Rattle.index.specs.layout.Layout.{max_sorts};
ghost use Rattle.fits.specs.masks.Masks.{row_in, Empty, SortsWith, Unites};

use index::entries::place_at;
use index::layout::{MAX_SORTS, SortMasks};
use records::fields::word_at;

// A row of the table of fits, that of a type: the listed sorts that it fits, those whose result it fits, and those whose argument it fits.
#[derive(Clone, Copy)]
pub struct Row {
    pub sorts: u64,
    pub results: u64,
    pub arguments: u64,
}

// The row of no type.
pub const NO_ROW: Row = Row {
    sorts: 0,
    results: 0,
    arguments: 0,
};

// The row of type t in a table of fits; one without sorts past its end.
pub(crate) fn row_at(fit: &[Row], t: usize) -> Row
    ensures { result ≡ row_in fit.now t }
{
    if t < fit.len() { fit[t] } else { NO_ROW }
}

// Enters into an empty table, for each number of a sort, the listed sorts whose record has it at byte `at`, of a given number of sorts.
pub(crate) fn enter_sorts(
    file: &[u8],
    index: &[u16],
    sorts: usize,
    at: usize,
    masks: &mut SortMasks,
)
    requires { (sorts ≤ max_sorts) × (at ≤ 2) }
    ensures { Empty masks.old → SortsWith file.now index.now sorts at masks.new }
{
    for i in 0..sorts {
        let number = word_at(file, place_at(index, i) + at);
        if number <= MAX_SORTS {
            masks[number] |= 1u64 << (i as u64);
        }
    }
}

// The row of a type that fits the sorts of a word: the other words are the unions, over these sorts, of the words that two tables
// have for each, of the table by results and of that by arguments. Each sort of the word is looked at once.
pub(crate) fn row_with(tos: &SortMasks, froms: &SortMasks, sorts: u64) -> Row
    ensures same { result.sorts ≡ sorts }
    ensures results { Unites tos.now sorts result.results }
    ensures arguments { Unites froms.now sorts result.arguments }
{
    let mut results: u64 = 0;
    let mut arguments: u64 = 0;
    let mut left = sorts;
    // Bit by bit: no iterator of the library gives the bits of a word.
    while left != 0 {
        let i = u64::trailing_zeros(left) as usize;
        results |= tos[i + 1];
        arguments |= froms[i + 1];
        left &= left - 1;
    }
    Row {
        sorts,
        results,
        arguments,
    }
}
