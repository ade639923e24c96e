// Path cases: the letters replayed, refusals 13 to 15.
ghost use Rattle.std.specs.Prelude.{◌+◌, ◌*◌, ◌≤◌};
ghost use Rattle.index.specs.layout.Layout.{max_letters};
ghost use Rattle.replay.specs.replay.Replays.{Arrives, Runs, ReplaysPath, Attempts};

use crate::letters::{Held, Tables, follow};
use closures::closures::Frame;
use closures::heads::Head;
use index::entries::count_of;
use index::layout::{
    ALL_CELLS, Counts, Index, LONG_CELLS, LONG_PATH, PATH_AT, SHORT_CELLS, SHORT_PATH, TINY_CELLS,
    TINY_PATH, Transitions,
};
use index::lookup::entry;
use records::kind::Kind;
use records::refusal::{Fault, Refusal};
use transitions::rows::row_of;
use transitions::table::moves;

// A path that refutes: how many letters it has, and the state and the constructor that it ends at.
#[derive(Clone, Copy, PartialEq, Eq)]
pub struct Refuted {
    pub letters: usize,
    pub state: usize,
    pub constructor: usize,
}

// The answer to a path behind its last letter, on the term held.
fn arrive(
    table: Transitions,
    constructors: usize,
    held: Held,
    letters: usize,
) -> Result<Refuted, Refusal>
    ensures { Arrives table constructors held letters result }
{
    let elsewhere = Refusal {
        fault: Fault::NotStuck,
        place: letters,
    };
    let Head::Constructor(c) = held.head else {
        return Err(elsewhere);
    };
    let row = row_of(&table, constructors, held.state, c);
    if row.is_some() {
        return Err(elsewhere);
    }
    Ok(Refuted {
        letters,
        state: held.state,
        constructor: c,
    })
}

// The answer to the letters of a path, from the start symbol on at state 0; each letter has a block of eight cells.
fn run(
    tables: &Tables,
    table: Transitions,
    path: &[u8],
    cells: &mut [u64],
) -> Result<Refuted, Refusal>
    ensures { Runs tables.now.file.now tables.now.index.now tables.now.rules tables.now.constructors table path.now cells.old result }
{
    let mut held = Held {
        head: Head::Nonterminal(0),
        frame: Frame { block: 0, count: 0 },
        state: 0,
    };
    for (place, letter) in path.iter().enumerate() {
        let letter = usize::from(*letter);
        held = follow(tables, &table, cells, held, letter, place + 1).map_err(|fault| Refusal {
            fault,
            place,
        })?;
    }
    arrive(table, tables.constructors, held, path.len())
}

// The answer to the path of a file, by its tables, where there is a block of cells for the start symbol and one for each
// letter. It stays a function of its own for each number of cells, so that no caller makes room for more than it needs.
#[inline(never)]
fn path_within<const CELLS: usize>(
    file: &[u8],
    index: &Index,
    counts: &Counts,
) -> Result<Refuted, Refusal>
    requires { CELLS ≤ max_letters * 8 + 8 }
    ensures { Attempts file.now index.now counts.now CELLS result }
{
    let path = entry(file, index, PATH_AT);
    let table = moves(file, index, count_of(counts, Kind::Transition));
    let tables = Tables {
        file,
        index,
        rules: count_of(counts, Kind::Rule),
        constructors: count_of(counts, Kind::Constructor),
    };
    let mut cells = [0u64; CELLS];
    run(&tables, table, path, &mut cells)
}

// The answer to the path of a file, by its tables. A path has the smallest of four sets of cells that is enough for its letters:
// those of up to 4,096 letters take 262 KB of stack.
pub fn replay_path(file: &[u8], index: &Index, counts: &Counts) -> Result<Refuted, Refusal>
    ensures { ReplaysPath file.now index.now counts.now result }
{
    let letters = entry(file, index, PATH_AT).len();
    if letters <= TINY_PATH {
        path_within::<TINY_CELLS>(file, index, counts)
    } else if letters <= SHORT_PATH {
        path_within::<SHORT_CELLS>(file, index, counts)
    } else if letters <= LONG_PATH {
        path_within::<LONG_CELLS>(file, index, counts)
    } else {
        path_within::<ALL_CELLS>(file, index, counts)
    }
}
