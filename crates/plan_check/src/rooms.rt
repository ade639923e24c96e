// The frames of binding cases, and which of them have room for a case.
ghost use Rattle.std.specs.Prelude.{◌≡◌, true, ◌⊎◌};
ghost use Rattle.plan_check.specs.Promises.{HasNodes, HasRoom, room_of};

use index::entries::count_of;
use index::layout::{
    BROAD_BINDINGS, BROAD_NODES, BROAD_TYPES, Counts, ENDS, Index, MAX_BINDINGS, MAX_TYPES,
    MIDDLE_BINDINGS, MIDDLE_NODES, MIDDLE_TYPES, MODEST_BINDINGS, MODEST_NODES, MODEST_TYPES, NODE,
    PLAIN_BINDINGS, PLAIN_NODES, PLAIN_TYPES, SMALL_BINDINGS, SMALL_NODES, SMALL_TYPES,
    TINY_BINDINGS, TINY_NODES, TINY_TYPES, WIDE_BINDINGS, WIDE_NODES, WIDE_TYPES,
};
use records::kind::Kind;
use rules::first_nodes::nodes_in_all;

// How many nodes a binding case has at most: by its length where the first frame has room for so many, else counted.
pub(crate) fn nodes_at_most(file: &[u8], index: &Index, counts: &Counts) -> usize
    ensures { HasNodes file.now index.now counts.now result }
{
    let nodes = file.len() / NODE;
    if nodes <= TINY_NODES {
        return nodes;
    }
    nodes_in_all(file, index, count_of(counts, Kind::Rule))
}

// The frames of binding cases, the smallest first; the last has room for every file.
#[derive(Clone, Copy, PartialEq, Eq)]
pub(crate) enum Frame {
    Tiny,
    Small,
    Modest,
    Plain,
    Broad,
    Middle,
    Wide,
    All,
}

// How many nodes, types and bindings a frame has room for.
#[derive(Clone, Copy)]
pub(crate) struct Room {
    pub(crate) nodes: usize,
    pub(crate) types: usize,
    pub(crate) bindings: usize,
}

// All frames but the last.
const FRAMES: [Frame; 7] = [
    Frame::Tiny,
    Frame::Small,
    Frame::Modest,
    Frame::Plain,
    Frame::Broad,
    Frame::Middle,
    Frame::Wide,
];

impl Frame {
    fn room(self) -> Room
        ensures { result ≡ room_of self }
    {
        match self {
            Frame::Tiny => Room::new(TINY_NODES, TINY_TYPES, TINY_BINDINGS),
            Frame::Small => Room::new(SMALL_NODES, SMALL_TYPES, SMALL_BINDINGS),
            Frame::Modest => Room::new(MODEST_NODES, MODEST_TYPES, MODEST_BINDINGS),
            Frame::Plain => Room::new(PLAIN_NODES, PLAIN_TYPES, PLAIN_BINDINGS),
            Frame::Broad => Room::new(BROAD_NODES, BROAD_TYPES, BROAD_BINDINGS),
            Frame::Middle => Room::new(MIDDLE_NODES, MIDDLE_TYPES, MIDDLE_BINDINGS),
            Frame::Wide => Room::new(WIDE_NODES, WIDE_TYPES, WIDE_BINDINGS),
            Frame::All => Room::new(ENDS, MAX_TYPES, MAX_BINDINGS),
        }
    }
}

impl Room {
    fn new(nodes: usize, types: usize, bindings: usize) -> Room
        ensures { (result.nodes ≡ nodes) × (result.types ≡ types) × (result.bindings ≡ bindings) }
    {
        Room {
            nodes,
            types,
            bindings,
        }
    }

    // Whether there is room for so many nodes, types and bindings.
    fn holds(self, nodes: usize, types: usize, bindings: usize) -> bool
        ensures { result ≡ true → HasRoom self nodes types bindings }
    {
        nodes <= self.nodes && types <= self.types && bindings <= self.bindings
    }
}

// The first frame that has room for so many nodes, types and bindings; the last one where none of the others has.
pub(crate) fn first_with_room(nodes: usize, types: usize, bindings: usize) -> Frame
    ensures { HasRoom (room_of result) nodes types bindings ⊎ (result ≡ Frame.All) }
{
    for frame in FRAMES {
        if frame.room().holds(nodes, types, bindings) {
            return frame;
        }
    }
    Frame::All
}
