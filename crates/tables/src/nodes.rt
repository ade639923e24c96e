// The nodes of the bodies in the flat table: of each the tag and how many arguments; the number; the node behind its term.
ghost use Rattle.std.specs.Prelude.{◌+◌, ◌<◌, ◌≤◌, length};
ghost use Rattle.index.specs.layout.Layout.{max_nodes, node_cells};
ghost use Rattle.tables.specs.nodes.Bodies.{CountsNodes, EntersNode, FillsBody, FillsNodes};

use index::entries::place_at;
use index::layout::{
    MAX_NODES, MAX_NONTERMINALS, NEXT, NODE, NODE_CELLS, NUMBER, PLACE_LIMIT, RULES_AT,
};
use records::fields::length_at;

// The number of nodes of the payload at a place, 256 at most.
fn count_nodes(file: &[u8], start: usize) -> usize
    ensures { CountsNodes file.now start result }
{
    let n = length_at(file, start) / NODE;
    if MAX_NODES < n {
        return 0;
    }
    n
}

// Enters a node whose bytes begin at a place; the file has them, and the table has the cells.
fn enter_node(file: &[u8], place: usize, next: usize, cell: usize, t: &mut [u16])
    requires { (place + 4 ≤ length file.now) × (next < 65536) × (cell + node_cells ≤ length t.old) }
    ensures { EntersNode file.now place next cell t.old t.new }
{
    let tag = file[place] as u16;
    let low = file[place + 1] as u16;
    let high = file[place + 2] as u16;
    let count = file[place + 3] as u16;
    t[cell] = tag % 4 + 4 * count;
    t[cell + NUMBER] = low + 256 * high;
    t[cell + NEXT] = next as u16;
}

// Enters the nodes of a body, where the file has them all and the table has their cells.
fn fill_body(
    file: &[u8],
    start: usize,
    n: usize,
    ends: &[u16],
    first: usize,
    at: usize,
    t: &mut [u16],
)
    requires { (start < 65536) × (n ≤ max_nodes) × (first < 65536) × (at < 4000000) }
    ensures { FillsBody file.now start n ends.now first at t.old t.new }
{
    if file.len() < start + n * NODE {
        return;
    }
    if t.len() < at + n * NODE_CELLS {
        return;
    }
    for i in 0..n {
        let place = start + i * NODE;
        let next = place_at(ends, first + i);
        enter_node(file, place, next, at + i * NODE_CELLS, t);
    }
}

// Enters the nodes of all rules, from a place on.
pub fn fill_nodes(
    file: &[u8],
    index: &[u16],
    ends: &[u16],
    firsts: &[u16],
    rules: usize,
    at: usize,
    t: &mut [u16],
)
    ensures { FillsNodes file.now index.now ends.now firsts.now rules at t.old t.new }
{
    if MAX_NONTERMINALS < rules {
        return;
    }
    if PLACE_LIMIT <= at {
        return;
    }
    for f in 0..rules {
        let start = place_at(index, RULES_AT + f);
        let n = count_nodes(file, start);
        let first = place_at(firsts, f);
        fill_body(file, start, n, ends, first, at + first * NODE_CELLS, t);
    }
}
