#![tactic(auto)]

// What a test remembers of a node. Goals stand by 32 in cells of three words: the number of the test, the goals that are known, and
// the known ones that the node has. They are words and no structs, since all that a test writes is one table of fixed memory.
ghost use Rattle.answers.specs.Answers.{IsCell, Looks, Learns};

use index::layout::{CELL, MAX_CELLS, MAX_NODES, WORD};

// What a node is remembered to have of 32 goals, and what it is remembered to lack, as bits.
#[derive(Clone, Copy, PartialEq, Eq)]
pub struct Outlook {
    pub had: u32,
    pub lacked: u32,
}

// Where the cell of a node and a goal begins, if each node has `wide` cells; none where a memo of a given length has no such cell.
fn cell_of(length: usize, wide: usize, at: usize, goal: usize) -> Option<usize>
    ensures { IsCell length wide at goal result }
{
    if MAX_CELLS < wide || MAX_NODES <= at || wide <= goal / WORD {
        return None;
    }
    let cell = (at * wide + goal / WORD) * CELL;
    if length < cell + CELL {
        None
    } else {
        Some(cell)
    }
}

// What test number `stamp` remembers of a node and the goals that stand in one cell with a goal.
pub fn outlook_of(memo: &[u32], wide: usize, stamp: u32, at: usize, goal: usize) -> Outlook
    ensures { Looks memo.now wide stamp at goal result }
{
    let nothing = Outlook { had: 0, lacked: 0 };
    let Some(cell) = cell_of(memo.len(), wide, at, goal) else {
        return nothing;
    };
    if memo[cell] != stamp {
        return nothing;
    }
    let known = memo[cell + 1];
    let had = known & memo[cell + 2];
    Outlook {
        had,
        lacked: known - had,
    }
}

// Remembers answers of test number `stamp` for goals that stand in one cell with a goal: those that are known, and which of these are
// had. Where there is no cell, nothing changes.
pub fn learn(
    memo: &mut [u32],
    wide: usize,
    stamp: u32,
    at: usize,
    goal: usize,
    known: u32,
    had: u32,
)
    ensures { Learns memo.old wide stamp at goal known had memo.new }
{
    let Some(cell) = cell_of(memo.len(), wide, at, goal) else {
        return;
    };
    let (old, said) = if memo[cell] == stamp {
        (memo[cell + 1], memo[cell + 2])
    } else {
        (0, 0)
    };
    memo[cell] = stamp;
    memo[cell + 1] = old | known;
    memo[cell + 2] = (said - (said & known)) | (had & known);
}
