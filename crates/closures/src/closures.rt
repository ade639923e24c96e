// Closures: a term is a node of a body in the file, with closures for its parameters in a block of eight cells.
ghost use Rattle.std.specs.Prelude.{◌≡◌};
ghost use Rattle.closures.specs.closures.Closures.{block_in_spec, count_in, place_in, size_in_spec};
ghost use Rattle.closures.specs.closures.Promises.{IsClosureAt, Weighs, Measures, Packs, Closes, Spreads};

use crate::heads::{Head, head_at};
use index::layout::{
    BLOCK, BLOCK_UNIT, BLOCK_UNITS, COUNT_UNIT, COUNT_UNITS, NODE, NODE_UNITS, PLACE_UNITS,
};
use records::fields::byte_at;

// The closures of a body's parameters: the last `count` cells of a block.
#[derive(Clone, Copy)]
pub struct Frame {
    pub block: usize,
    pub count: usize,
}

// A closure: the frame of its parameters, the place of its node, the nodes of its term as a tree. All stand in one number,
// since the cells that a path has are fixed memory.
#[derive(Clone, Copy)]
pub struct Closure(u64);

impl Closure {
    // The closure with these parts.
    fn new(at: usize, frame: Frame, nodes: usize) -> Closure
        ensures { Packs at frame.block frame.count nodes result.0 }
    {
        let framed = frame.block % BLOCK_UNITS * COUNT_UNITS + frame.count % COUNT_UNITS;
        let placed = framed * PLACE_UNITS + at % PLACE_UNITS;
        Closure((placed * NODE_UNITS + nodes % NODE_UNITS) as u64)
    }

    // The place of its node.
    pub fn at(self) -> usize
        ensures { result ≡ place_in self.0 }
    {
        self.0 as usize / NODE_UNITS % PLACE_UNITS
    }

    // The frame of its parameters.
    pub fn frame(self) -> Frame
        ensures block { result.block ≡ block_in_spec self.0 }
        ensures count { result.count ≡ count_in self.0 }
    {
        Frame {
            block: self.0 as usize / BLOCK_UNIT,
            count: self.0 as usize / COUNT_UNIT % COUNT_UNITS,
        }
    }

    // The nodes of its term.
    fn nodes(self) -> usize
        ensures { result ≡ size_in_spec self.0 }
    {
        self.0 as usize % NODE_UNITS
    }
}

// Where the next term begins, and how many nodes a term has as a tree.
#[derive(Clone, Copy)]
struct Measured {
    next: usize,
    nodes: usize,
}

// The closure of parameter i of a frame; none where it has no such parameter.
pub fn closure_at(cells: &[u64], frame: Frame, i: usize) -> Option<Closure>
    ensures { IsClosureAt cells.now frame.block frame.count i result }
{
    if BLOCK_UNITS <= frame.block || BLOCK < frame.count || frame.count <= i {
        return None;
    }
    let slot = frame.block * BLOCK + BLOCK - frame.count + i;
    Some(Closure(cells.get(slot).copied().unwrap_or(0)))
}

// How many nodes a node of a body counts with a frame: a parameter those of its closure, any other head one.
fn weigh(file: &[u8], cells: &[u64], at: usize, frame: Frame) -> usize
    ensures { Weighs file.now cells.now at frame.block frame.count result }
{
    if PLACE_UNITS <= at {
        return 1;
    }
    let Head::Parameter(number) = head_at(file, at) else {
        return 1;
    };
    match closure_at(cells, frame, number) {
        Some(closure) => closure.nodes(),
        None => 1,
    }
}

// The end of the term at a place of the file, and its nodes with a frame.
fn measure(file: &[u8], cells: &[u64], at: usize, frame: Frame) -> Measured
    ensures { Measures file.now cells.now at frame.block frame.count result }
{
    let mut next = at;
    let mut need: usize = 1;
    let mut nodes: usize = 0;
    while 0 < need {
        if PLACE_UNITS <= next {
            return Measured { next, nodes };
        }
        nodes += weigh(file, cells, next, frame);
        need = need - 1 + byte_at(file, next + 3);
        next += NODE;
    }
    Measured { next, nodes }
}

// The same; a node without arguments is weighed at once.
fn measure_term(file: &[u8], cells: &[u64], at: usize, frame: Frame) -> Measured
    ensures { Measures file.now cells.now at frame.block frame.count result }
{
    if PLACE_UNITS <= at {
        return Measured { next: at, nodes: 0 };
    }
    if byte_at(file, at + 3) == 0 {
        let nodes = weigh(file, cells, at, frame);
        return Measured {
            next: at + NODE,
            nodes,
        };
    }
    measure(file, cells, at, frame)
}

// The closure of the term at a place of the file with a frame; for a parameter alone it is the parameter's own.
fn closure_of(file: &[u8], cells: &[u64], at: usize, frame: Frame, nodes: usize) -> Closure
    ensures { Closes file.now cells.now at frame.block frame.count nodes result.0 }
{
    let packed = Closure::new(at, frame, nodes);
    if PLACE_UNITS <= at || 0 < byte_at(file, at + 3) {
        return packed;
    }
    let Head::Parameter(number) = head_at(file, at) else {
        return packed;
    };
    closure_at(cells, frame, number).unwrap_or(packed)
}

// Writes the closures of m terms that stand one after another, with a frame, into the cells from `low` on. Returns the
// nodes of all m terms, exact up to 4,096.
pub(crate) fn spread(
    file: &[u8],
    cells: &mut [u64],
    at: usize,
    m: usize,
    frame: Frame,
    low: usize,
) -> usize
    ensures { Spreads file.now cells.old cells.new at m frame.block frame.count low result }
{
    if cells.len() < low || cells.len() - low < m {
        return 0;
    }
    let mut next = at;
    let mut total: usize = 0;
    for i in 0..m {
        let measured = measure_term(file, cells, next, frame);
        let closure = closure_of(file, cells, next, frame, measured.nodes);
        cells[low + i] = closure.0;
        total = total.saturating_add(measured.nodes);
        next = measured.next;
    }
    total
}
