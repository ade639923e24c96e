// Which binding served last, for a node and a goal, and for a nonterminal and a goal. Nothing is promised of a hint.
ghost use Rattle.std.specs.Prelude.{◌≡◌, ◌<◌, ◌≤◌, length};
ghost use Rattle.index.specs.layout.Layout.{few_hint_cells};
ghost use Rattle.term_check.specs.Worlds.{answers_of, users_of};

use crate::notes::number_in;
use crate::parts::from_of;
use index::layout::{
    FEW_HEAD_HINTS_AT, FEW_HINTS, HEAD_HINTS_AT, HINT_STRIDE, HINTS, MAX_BINDINGS, MAX_NODES,
    MAX_STATES, PLACE_LIMIT, ROW_LIMIT, TEST_BASE, TEST_USERS,
};
use tables::reading::Node;

// The hint for a node and a goal: in the lower half of a table of so many hints.
fn node_place(r: &[u32], hints: usize, at: usize, goal: usize) -> usize
    ensures { few_hint_cells ≤ hints → result < hints }
{
    let body = number_in(r, TEST_BASE) % PLACE_LIMIT;
    let k = body + at % MAX_NODES * MAX_STATES + goal % ROW_LIMIT;
    if hints < HINTS {
        return k % FEW_HEAD_HINTS_AT;
    }
    k % HEAD_HINTS_AT
}

// The hint for a nonterminal and a goal: in the upper half.
fn head_place(hints: usize, number: usize, goal: usize) -> usize
    ensures { few_hint_cells ≤ hints → result < hints }
{
    let k = number % ROW_LIMIT * HINT_STRIDE + goal % ROW_LIMIT;
    if hints < HINTS {
        return FEW_HEAD_HINTS_AT + k % FEW_HEAD_HINTS_AT;
    }
    HEAD_HINTS_AT + k % HEAD_HINTS_AT
}

// The binding that served last for a node and a goal, where there is a table of hints.
pub fn node_hint(r: &[u32], w: &[u32], at: usize, goal: usize) -> Option<usize> {
    let hints = number_in(r, TEST_USERS);
    if hints < FEW_HINTS {
        return None;
    }
    Some(number_in(w, node_place(r, hints, at, goal)))
}

// The binding that served last for the nonterminal of a node and a goal, at any node; None for a state where it stands alone, which is
// looked up as fast without a hint.
pub fn bound_hint(r: &[u32], w: &[u32], node: Node, goal: usize) -> Option<usize> {
    let hints = number_in(r, TEST_USERS);
    if hints < FEW_HINTS || goal < MAX_STATES && node.count == 0 {
        return None;
    }
    Some(number_in(w, head_place(hints, node.number, goal)))
}

// Enters the binding that served, where there is a table of hints.
pub fn hint_in(r: &[u32], w: &mut [u32], at: usize, number: usize, goal: usize, c: usize)
    ensures { (length w.new ≡ length w.old) × (answers_of r.now w.new ≡ answers_of r.now w.old) × (users_of r.now w.new ≡ users_of r.now w.old) }
{
    if number_in(r, TEST_USERS) < FEW_HINTS {
        return;
    }
    let hints = from_of(r, w);
    if hints < FEW_HINTS {
        return;
    }
    let head = head_place(hints, number, goal);
    let node = node_place(r, hints, at, goal);
    let served = (c % MAX_BINDINGS) as u32;
    w[head] = served;
    w[node] = served;
}
