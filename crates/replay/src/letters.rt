// One letter of a path, on a term held as its head and a frame of its arguments.
ghost use Rattle.replay.specs.letters.Letters.{IsTargetOf, Unfolds, Descends, Follows};

use closures::closures::{Frame, closure_at};
use closures::fronts::gather;
use closures::heads::Head;
use index::entries::place_at;
use index::layout::{MAX_ARITY, MAX_NONTERMINALS, MAX_TERM, RULES_AT, Row, Transitions};
use records::refusal::Fault;
use transitions::rows::{arity_of, row_of};

// The term held: its head and the closures of its arguments; and the state.
#[derive(Clone, Copy)]
pub struct Held {
    pub head: Head,
    pub frame: Frame,
    pub state: usize,
}

// What a path is replayed on: a file and its index, and how many rules and constructors it has. The transition table goes beside it.
#[derive(Clone, Copy)]
pub struct Tables<'a> {
    pub file: &'a [u8],
    pub index: &'a [u16],
    pub rules: usize,
    pub constructors: usize,
}

// Letter 0: the nonterminal in front is unfolded, its arguments in block `top`; without a rule it stands for itself.
fn unfold_held(tables: &Tables, cells: &mut [u64], held: Held, top: usize) -> Result<Held, Fault>
    ensures { Unfolds tables.now.file.now tables.now.index.now tables.now.rules cells.old cells.new held top result }
{
    let Head::Nonterminal(number) = held.head else {
        return Err(Fault::Lost);
    };
    if tables.rules <= number {
        let mut itself = held;
        itself.frame.count = 0;
        return Ok(itself);
    }
    if MAX_NONTERMINALS <= number {
        return Err(Fault::Lost);
    }
    let at = place_at(tables.index, RULES_AT + number);
    let front = gather(tables.file, cells, at, held.frame, top).ok_or(Fault::Lost)?;
    if MAX_TERM < front.nodes {
        return Err(Fault::TooLarge);
    }
    Ok(Held {
        head: front.head,
        frame: Frame {
            block: top,
            count: front.count,
        },
        state: held.state,
    })
}

// The target for argument i of a constructor, by the row of the table, its argument count and the arguments held; none where
// there is no such argument, no such target or no transition.
fn target_for(row: Option<Row>, arity: usize, count: usize, i: usize) -> Option<usize>
    ensures { IsTargetOf row arity count i result }
{
    let targets = row?;
    if count <= i || arity <= i || MAX_ARITY <= i {
        return None;
    }
    Some(usize::from(targets[i]))
}

// Letter i + 1: argument i of the constructor in front, with target i of the row for it; its arguments in block `top`.
fn descend_held(
    tables: &Tables,
    table: &Transitions,
    cells: &mut [u64],
    held: Held,
    i: usize,
    top: usize,
) -> Result<Held, Fault>
    ensures { Descends tables.now.file.now tables.now.index.now tables.now.constructors table.now cells.old cells.new held i top result }
{
    let Head::Constructor(c) = held.head else {
        return Err(Fault::Lost);
    };
    let row = row_of(table, tables.constructors, held.state, c);
    let arity = arity_of(tables.file, tables.index, tables.constructors, c);
    let state = target_for(row, arity, held.frame.count, i).ok_or(Fault::Lost)?;
    let closure = closure_at(cells, held.frame, i).ok_or(Fault::Lost)?;
    let front = gather(tables.file, cells, closure.at(), closure.frame(), top).ok_or(Fault::Lost)?;
    Ok(Held {
        head: front.head,
        frame: Frame {
            block: top,
            count: front.count,
        },
        state,
    })
}

// A letter on the term held, with block `top` for the next arguments.
pub(crate) fn follow(
    tables: &Tables,
    table: &Transitions,
    cells: &mut [u64],
    held: Held,
    letter: usize,
    top: usize,
) -> Result<Held, Fault>
    ensures { Follows tables.now.file.now tables.now.index.now tables.now.rules tables.now.constructors table.now cells.old cells.new held letter top result }
{
    if letter == 0 {
        return unfold_held(tables, cells, held, top);
    }
    descend_held(tables, table, cells, held, letter - 1, top)
}
