#![tactic(auto)]

// Binding cases: which of the bindings offered are kept, in how many rounds, and whether the start binding is one of them.
ghost use Rattle.std.specs.Prelude.{◌<◌};
ghost use Rattle.binding_cases.specs.Judging.{StartsAt, FindsStart, Places, Fills, JudgesBindings};

use index::entries::count_of;
use index::layout::{MAX_STATES, PLACE_LIMIT, TEST_ANSWERS, TEST_CELLS, TEST_USERS, WORD};
use records::fields::byte_at;
use records::kind::Kind;
use rounds::shrinking::shrink;
use rounds::tested::Sizes;
use rules::first_nodes::fill_firsts;
use tables::candidates::fill_sets;
use tables::reading::{group_of, own_of, symbol_of};
use tables::table::fill_table;
use transitions::places::fill_rows;

// What is kept of the bindings offered: whether the start binding is kept, how many are kept and how many were offered, and
// how many rounds dropped something.
#[derive(Drop)]
pub struct Shrunken {
    pub accepted: bool,
    pub kept: usize,
    pub total: usize,
    pub rounds: usize,
}

// Whether binding b is kept by its flag and is the start binding: that of nonterminal 0 with the state 0.
fn starts_at(t: &[u16], flags: &[u8], b: usize) -> bool
    ensures { StartsAt t.now flags.now b result }
{
    if byte_at(flags, b) == 0 {
        return false;
    }
    if 0 < symbol_of(t, b) {
        return false;
    }
    own_of(t, b) == 0
}

// Whether the start binding is one of the n bindings and kept: it is one of those of nonterminal 0, which come first.
fn start_kept(t: &[u16], flags: &[u8], n: usize) -> bool
    ensures { FindsStart t.now flags.now n result }
{
    let others = group_of(t, 1);
    (0..n.min(others)).any(|b| starts_at(t, flags, b))
}

// Writes where users and answers begin, in front of the sets of candidates.
fn set_places(r: &mut [u32], users: usize, answers: usize)
    requires { (users < 4294967296) × (answers < 4294967296) }
    ensures { Places users answers r.old r.new }
{
    if r.len() < TEST_CELLS {
        return;
    }
    r[TEST_USERS] = users as u32;
    r[TEST_ANSWERS] = answers as u32;
}

// Enters all bindings in the sets of candidates, which stand behind the numbers of the test.
fn fill_candidates(t: &[u16], bindings: usize, words: usize, r: &mut [u32])
    ensures { Fills t.now bindings words r.old r.new }
{
    if r.len() < TEST_CELLS {
        return;
    }
    fill_sets(t, bindings, words, &mut r[TEST_CELLS..]);
}

// Judges the bindings of a file, with the tables of its records; their flags are written, 1 for a kept binding and 0 for a dropped
// one. Behind its entries the index gets where its transitions lie. The flat table, what tests read and what they write are lent with
// all entries 0; so many cells of what they write are hints.
pub fn judge_bindings(
    file: &[u8],
    index: &mut [u16],
    counts: &[u16],
    ends: &[u16],
    firsts: &mut [u16],
    t: &mut [u16],
    r: &mut [u32],
    w: &mut [u32],
    hints: usize,
    flags: &mut [u8],
) -> Shrunken
    ensures { JudgesBindings file.now index.old counts.now ends.now firsts.old t.old r.old w.old hints flags.old flags.new result.accepted result.kept result.total result.rounds }
{
    let total = count_of(counts, Kind::Binding);
    fill_rows(file, index, count_of(counts, Kind::Transition));
    fill_firsts(file, index, count_of(counts, Kind::Rule), firsts);
    let nodes = fill_table(file, index, counts, ends, firsts, t);
    let words = total.div_ceil(WORD);
    let from = hints % PLACE_LIMIT;
    let users = total * words + total;
    set_places(r, from, from + users);
    fill_candidates(t, total, words, r);
    let sizes = Sizes {
        nodes,
        goals: count_of(counts, Kind::Type) + MAX_STATES,
        bindings: total,
    };
    let ended = shrink(t, firsts, sizes, r, w, flags);
    let accepted = start_kept(t, flags, total);
    Shrunken {
        accepted,
        kept: ended.kept,
        total,
        rounds: ended.rounds,
    }
}
