// How many nodes the rules have, and where those of each rule begin, where the nodes of all rules are numbered one after another.
ghost use Rattle.rules.specs.first_nodes.FirstNodes.{CountsNodes, CountsAll, FillsFirsts};

use index::entries::place_at;
use index::layout::{
    ENDS, LAST_NONTERMINAL, MAX_BODY, MAX_NONTERMINALS, MOST_NODES_AT, NODE, ROWS, RULES_AT,
};
use records::fields::length_at;

// The number of nodes of rule f, four bytes each; 0 where the index has no such rule.
fn nodes_of(file: &[u8], index: &[u16], f: usize) -> usize
    ensures { CountsNodes file.now index.now f result }
{
    if LAST_NONTERMINAL < f {
        return 0;
    }
    let len = length_at(file, place_at(index, RULES_AT + f));
    if MAX_BODY < len {
        return 0;
    }
    len / NODE
}

// How many nodes all rules have together; for more than 256 rules as many as any file may have.
pub fn nodes_in_all(file: &[u8], index: &[u16], rules: usize) -> usize
    ensures { CountsAll file.now index.now rules result }
{
    if MAX_NONTERMINALS < rules {
        return ENDS;
    }
    let mut all: usize = 0;
    for f in 0..rules {
        all += nodes_of(file, index, f);
    }
    all
}

// Fills a table: entry f gets the number of the first node of rule f, entry 256 how many nodes the largest rule has. The
// table stays as it is where there are more than 256 rules, or it has fewer than 257 entries.
pub fn fill_firsts(file: &[u8], index: &[u16], rules: usize, firsts: &mut [u16])
    ensures { FillsFirsts file.now index.now rules firsts.old firsts.new }
{
    if MAX_NONTERMINALS < rules {
        return;
    }
    if firsts.len() < ROWS {
        return;
    }
    let mut at: usize = 0;
    let mut most: usize = 0;
    for f in 0..rules {
        firsts[f] = at as u16;
        let n = nodes_of(file, index, f);
        at += n;
        most = most.max(n);
    }
    firsts[MOST_NODES_AT] = most as u16;
}
