// The head in front of a term, with the closures of its arguments gathered in a block of their own.
ghost use Rattle.closures.specs.fronts.Fronts.{Gathers};

use crate::closures::{Frame, closure_at, spread};
use crate::heads::{Head, head_at};
use index::layout::{BLOCK, BLOCK_UNITS, NODE, PLACE_UNITS};
use records::fields::byte_at;

// A head, how many arguments it has, and the nodes of the term, exact up to 4,096.
#[derive(Clone, Copy)]
pub struct Front {
    pub head: Head,
    pub count: usize,
    pub nodes: usize,
}

// The head of the term at a place of the file with a frame; its arguments are gathered in block `top` from the back, those
// of a parameter behind those of the term that it stands for. The nodes are one for the head, and those of the arguments.
// None where no term stands there whose arguments have room in the block.
pub fn gather(file: &[u8], cells: &mut [u64], at: usize, frame: Frame, top: usize) -> Option<Front>
    ensures { Gathers file.now cells.old cells.new at frame.block frame.count top result }
{
    if BLOCK_UNITS <= top {
        return None;
    }
    let mut free: usize = BLOCK;
    let mut place = at;
    let mut under = frame;
    let mut nodes: usize = 1;
    while place < PLACE_UNITS {
        let m = byte_at(file, place + 3);
        if free < m {
            return None;
        }
        free -= m;
        let own = spread(file, cells, place + NODE, m, under, top * BLOCK + free);
        nodes = nodes.saturating_add(own);
        let head = head_at(file, place);
        let count = BLOCK - free;
        let Head::Parameter(number) = head else {
            return Some(Front { head, count, nodes });
        };
        let Some(closure) = closure_at(cells, under, number) else {
            return Some(Front { head, count, nodes });
        };
        let next = closure.frame();
        if under.block <= next.block {
            return None;
        }
        place = closure.at();
        under = next;
    }
    None
}
