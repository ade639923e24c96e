#![tactic(auto)]

// The bodies of rules: whether one is a single term of sort o within 64 levels, and where each of its subterms ends.
ghost use Rattle.std.specs.Prelude.{◌≡◌, ◌&&◌, ◌+◌, ◌*◌, ◌<◌, ◌/◌, eqb, length};
ghost use Rattle.casefile.specs.Fields.{IsField};
ghost use Rattle.sorts.specs.codes.Sorted.{ParameterSorts};
ghost use Rattle.bodies.specs.Bodies.{ArgumentsFit, HeldAs, HeadOf, Room, NodeTaken, Scanned, BodyDecided};

use index::entries::place_at;
use index::layout::{MAX_ARGUMENTS, MAX_DEPTH, MAX_NODES, NODE, Rows};
use sorts::codes::Sorts;

// What the sorts of heads are told by: the listed sorts, the codes of constructors' sorts by their argument counts, the
// argument counts of the constructors, and the numbers of the nonterminals' sorts.
#[derive(Clone, Copy)]
pub struct Heads<'a> {
    pub sorts: Sorts<'a>,
    pub trees: &'a [u16],
    pub arities: &'a [u16],
    pub signatures: &'a [u16],
}

// What is known of a node that was read: the node behind its subterm, the code of its sort, its depth. Of the arguments of a
// node likewise: the node behind them, the code of the sort that is left, their depth.
#[derive(Clone, Copy)]
pub struct Subterm {
    pub end: usize,
    pub sort: usize,
    pub deep: usize,
}

impl Subterm {
    // Is it one term of sort o, of all n nodes of a body?
    fn is_whole(self, n: usize) -> bool
        ensures { result ≡ (eqb self.end n && eqb self.sort 0) }
    {
        self.end == n && self.sort == 0
    }
}

// A node as it stands in a body: its tag, its number, and how many arguments it has.
#[derive(Clone, Copy)]
struct Node {
    tag: usize,
    number: usize,
    count: usize,
}

// Node i of a body that has it. Its bytes are all there, so that they are read without a further test.
fn node_at(p: &[u8], i: usize) -> Node
    requires { i < length p.now / 4 }
    ensures tag { IsField 1 p.now (i * 4) result.tag }
    ensures number { IsField 2 p.now (i * 4 + 1) result.number }
    ensures count { IsField 1 p.now (i * 4 + 3) result.count }
{
    let at = i * NODE;
    let number = u16::from_le_bytes([p[at + 1], p[at + 2]]);
    Node {
        tag: usize::from(p[at]),
        number: usize::from(number),
        count: usize::from(p[at + 3]),
    }
}

impl<'a> Heads<'a> {
    // The code of the sort of a head with a tag and a number; `params` has the sorts of the first 8 parameters.
    fn code(self, own: usize, params: &[u16], tag: usize, number: usize) -> usize
        requires { ParameterSorts self.sorts own params.now }
        ensures head { HeadOf self.entry own tag number result }
        ensures small { result < 65536 }
    {
        match tag {
            0 => place_at(self.trees, place_at(self.arities, number)),
            1 => place_at(self.signatures, number),
            _ if number < MAX_ARGUMENTS => place_at(params, number),
            _ => self.sorts.parameter(own, number),
        }
    }

    // The result of k arguments from node `at` on, of a head whose sort has the code `head`; none where they do not fit. The
    // tables hold n nodes, and `next` is what they hold of node `at`.
    fn arguments_fit(
        self,
        ends: &[u16],
        codes: &[u16],
        depths: &[u16],
        n: usize,
        at: usize,
        k: usize,
        head: usize,
        next: Option<Subterm>,
    ) -> Option<Subterm>
        requires held { HeldAs ends.now codes.now depths.now n at next }
        requires at_small { at < 65536 }
        requires head_small { head < 65536 }
        ensures { ArgumentsFit self.entry ends.now codes.now depths.now n at k head result }
    {
        if k == 0 {
            return Some(Subterm {
                end: at,
                sort: head,
                deep: 0,
            });
        }
        let first = next?;
        let mut sort = self.sorts.apply(self.trees, head, first.sort)?;
        let mut end = first.end;
        let mut deep = first.deep;
        for _ in 1..k {
            if n <= end {
                return None;
            }
            sort = self.sorts.apply(self.trees, sort, place_at(codes, end))?;
            deep = deep.max(place_at(depths, end));
            end = place_at(ends, end);
        }
        Some(Subterm { end, sort, deep })
    }

    // Reads node i of a body, where the tables hold the nodes behind it, `next` the first of them, and fills the tables; none
    // where it lacks an argument or one does not fit, or it nests over 64 deep.
    fn read_node(
        self,
        p: &[u8],
        own: usize,
        params: &[u16],
        ends: &mut [u16],
        codes: &mut [u16],
        depths: &mut [u16],
        i: usize,
        next: Option<Subterm>,
    ) -> Option<Subterm>
        requires inside { i < length p.now / 4 }
        requires room { Room p.now ends.old codes.old depths.old }
        requires params { ParameterSorts self.sorts own params.now }
        requires held { HeldAs ends.old codes.old depths.old (length p.now / 4) (i + 1) next }
        ensures { NodeTaken p.now self.entry own i ends.old codes.old depths.old ends.new codes.new depths.new result }
    {
        let node = node_at(p, i);
        let head = self.code(own, params, node.tag, node.number);
        let n = p.len() / NODE;
        let a = self.arguments_fit(ends, codes, depths, n, i + 1, node.count, head, next)?;
        if MAX_DEPTH <= a.deep {
            return None;
        }
        let deep = a.deep + 1;
        ends[i] = a.end as u16;
        codes[i] = a.sort as u16;
        depths[i] = deep as u16;
        Some(Subterm { deep, ..a })
    }

    // Reads the nodes of a body, the last one first, and fills the tables; the first node, and none where there is no node or one
    // of them does not fit.
    fn scan(
        self,
        p: &[u8],
        own: usize,
        params: &[u16],
        ends: &mut [u16],
        codes: &mut [u16],
        depths: &mut [u16],
    ) -> Option<Subterm>
        requires room { Room p.now ends.old codes.old depths.old }
        requires params { ParameterSorts self.sorts own params.now }
        ensures { Scanned p.now self.entry own ends.old ends.new codes.new depths.new result }
    {
        let mut next = None;
        for i in (0..p.len() / NODE).rev() {
            let read = self.read_node(p, own, params, ends, codes, depths, i, next)?;
            next = Some(read);
        }
        next
    }

    // Is the body one term of sort o within 64 levels? Where it is, `ends` has for each node the number of the node behind its subterm.
    // `codes` and `depths` are tables to work in: what they hold does not matter, before or after.
    // The three tables are no struct: each contract would have to say of all three references that they stay the same.
    pub fn body_fits(
        self,
        p: &[u8],
        own: usize,
        ends: &mut [u16],
        codes: &mut Rows,
        depths: &mut Rows,
    ) -> bool
        ensures { BodyDecided p.now self.entry own ends.old ends.new result }
    {
        let n = p.len() / NODE;
        if MAX_NODES < n || ends.len() < n {
            return false;
        }
        let params = self.sorts.parameter_sorts(own);
        let Some(whole) = self.scan(p, own, &params, ends, codes, depths) else {
            return false;
        };
        whole.is_whole(n)
    }
}
