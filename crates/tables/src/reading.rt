// The flat table of a check: what it says of goals, bindings, constructors and nodes.
ghost use Rattle.std.specs.Prelude.{◌≡◌, ◌<◌, ◌+◌, get_or};
ghost use Rattle.index.specs.layout.Layout.{row_cells, pair_cells};
ghost use Rattle.tables.specs.reading.Cells.{row_at, cell_of, pair_at, result_of, end_of, states_of_spec, arrows_of_spec, many_of_spec, member_of_spec, near_of_spec, mask_of, symbol_of, own_of, group_of, off_of, present_of_spec, arity_of_spec, targets_of_spec, node_at};

use index::entries::place_at;
use index::layout::{
    ARITIES_AT, ARROWS, END, GROUPS_AT, HIGH, LOW, MANY, MAX_BINDINGS, MAX_CONSTRUCTORS,
    MAX_MEMBERS, MAX_NODES, MAX_STATES, MEMBER_STATES, MEMBERS, NEAR, NEXT, NODE_CELLS, NONE,
    NUMBER, OWN, PAIR_CELLS, PAIRS_AT, PLACE_LIMIT, PRESENT_AT, RESULT, ROW_CELLS, ROW_LIMIT,
    ROWS_AT, SYMBOL, TARGETS_AT,
};

// A node: its tag, how many arguments it has, its number, and the node behind its term.
#[derive(Clone, Copy)]
pub struct Node {
    pub tag: usize,
    pub count: usize,
    pub number: usize,
    pub next: usize,
}

// Where the row with a number begins.
pub fn row_at(i: usize) -> usize
    ensures { (result ≡ row_at i) × (result < 65536) }
{
    ROWS_AT + i % ROW_LIMIT * ROW_CELLS
}

// A cell of the row of a goal.
fn row_cell(t: &[u16], goal: usize, cell: usize) -> usize
    requires { cell < row_cells }
    ensures { (result ≡ cell_of t.now goal cell) × (result < 65536) }
{
    place_at(t, row_at(goal) + cell)
}

// The result of a goal; NONE for a state: a cell of the table is a number in fixed memory, so what stands for none there is one too.
pub fn result_of(t: &[u16], goal: usize) -> usize
    ensures { (result ≡ result_of t.now goal) × (result < 65536) }
{
    row_cell(t, goal, RESULT)
}

// The final state of a goal.
pub fn end_of(t: &[u16], goal: usize) -> usize
    ensures { (result ≡ end_of t.now goal) × (result < 65536) }
{
    row_cell(t, goal, END)
}

// The states among the members of a goal, as bits.
pub fn states_of(t: &[u16], goal: usize) -> usize
    ensures { (result ≡ states_of_spec t.now goal) × (result < 65536) }
{
    row_cell(t, goal, MEMBER_STATES)
}

// How many members of a goal are arrows.
pub fn arrows_of(t: &[u16], goal: usize) -> usize
    ensures { (result ≡ arrows_of_spec t.now goal) × (result < 65536) }
{
    row_cell(t, goal, ARROWS)
}

// How many members a goal has.
pub fn many_of(t: &[u16], goal: usize) -> usize
    ensures { (result ≡ many_of_spec t.now goal) × (result < 65536) }
{
    row_cell(t, goal, MANY)
}

// Member j of a goal.
pub fn member_of(t: &[u16], goal: usize, j: usize) -> usize
    ensures { (result ≡ member_of_spec t.now goal j) × (result < 65536) }
{
    row_cell(t, goal, MEMBERS + j % MAX_MEMBERS)
}

// The word in which all members of a goal stand as goals; NONE where they stand in more than one, or are few: it is the number in a cell,
// as at `result_of`.
pub fn near_of(t: &[u16], goal: usize) -> usize
    ensures { (result ≡ near_of_spec t.now goal) × (result < 65536) }
{
    row_cell(t, goal, NEAR)
}

// The bits of the members of a goal in that word.
pub fn mask_of(t: &[u16], goal: usize) -> u32
    ensures { result ≡ mask_of t.now goal }
{
    let low = row_cell(t, goal, LOW);
    let high = row_cell(t, goal, HIGH);
    low as u32 + 65536 * high as u32
}

// A cell of the pair of a binding.
fn pair_cell(t: &[u16], b: usize, cell: usize) -> usize
    requires { cell < pair_cells }
    ensures { (result ≡ get_or t.now (pair_at b + cell) 0) × (result < 65536) }
{
    place_at(t, PAIRS_AT + b % MAX_BINDINGS * PAIR_CELLS + cell)
}

// The nonterminal of a binding.
pub fn symbol_of(t: &[u16], b: usize) -> usize
    ensures { (result ≡ symbol_of t.now b) × (result < 65536) }
{
    pair_cell(t, b, SYMBOL)
}

// The type of a binding, as a goal.
pub fn own_of(t: &[u16], b: usize) -> usize
    ensures { (result ≡ own_of t.now b) × (result < 65536) }
{
    pair_cell(t, b, OWN)
}

// The first binding of a nonterminal or a later one.
pub fn group_of(t: &[u16], f: usize) -> usize
    ensures { (result ≡ group_of t.now f) × (result < 65536) }
{
    place_at(t, GROUPS_AT + f % ROW_LIMIT)
}

// A goal with k arrows off; NONE where it has fewer: the last cell read, as at `result_of`, which callers compare with a goal as it is.
pub fn off(t: &[u16], goal: usize, k: usize) -> usize
    ensures { result ≡ off_of t.now k goal }
{
    let mut g = goal;
    for _ in 0..k {
        if g == NONE {
            return NONE;
        }
        g = result_of(t, g);
    }
    g
}

// The states at which a constructor has a transition, as bits.
pub fn present_of(t: &[u16], c: usize) -> usize
    ensures { (result ≡ present_of_spec t.now c) × (result < 65536) }
{
    place_at(t, PRESENT_AT + c % MAX_CONSTRUCTORS)
}

// How many arguments a constructor has.
pub fn arity_of(t: &[u16], c: usize) -> usize
    ensures { (result ≡ arity_of_spec t.now c) × (result < 65536) }
{
    place_at(t, ARITIES_AT + c % MAX_CONSTRUCTORS)
}

// The targets of a constructor at a state, four bits each.
pub fn targets_of(t: &[u16], c: usize, q: usize) -> usize
    ensures { (result ≡ targets_of_spec t.now c q) × (result < 65536) }
{
    place_at(
        t,
        TARGETS_AT + c % MAX_CONSTRUCTORS * MAX_STATES + q % MAX_STATES,
    )
}

// Node i of the body whose nodes begin at a place.
pub fn node_of(t: &[u16], base: usize, i: usize) -> Node
    ensures { result ≡ node_at t.now base i }
{
    let cell = base % PLACE_LIMIT + i % MAX_NODES * NODE_CELLS;
    let head = place_at(t, cell);
    let number = place_at(t, cell + NUMBER);
    let next = place_at(t, cell + NEXT);
    Node {
        tag: head % 4,
        count: head / 4,
        number,
        next,
    }
}
