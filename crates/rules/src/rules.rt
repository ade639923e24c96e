// The bodies of all rules of a file: the first that is no single term of sort o within 64 levels, and the ends of subterms.
ghost use Rattle.std.specs.Prelude.{◌+◌, ◌≤◌, IfSome, length};
ghost use Rattle.rules.specs.rules.Rules.{FieldOf, Filled, WithinLimits, FindsWrongBody};

use crate::reading::read_rules;
use bodies::Heads;
use index::entries::place_at;
use index::layout::{
    ALL_SORTS, CONSTRUCTORS_AT, MAX_CONSTRUCTORS, MAX_NONTERMINALS, MAX_SORTS, NONTERMINALS_AT,
    Rows, SORTS_AT,
};
use records::fields::{byte_at, word_at};
use sorts::codes::Sorts;

// The field of one byte or of two at a place.
fn field_of<const WIDTH: usize>(file: &[u8], at: usize) -> usize
    ensures { FieldOf WIDTH file.now at result }
{
    if WIDTH == 1 {
        byte_at(file, at)
    } else {
        word_at(file, at)
    }
}

// Stores from place `to` on the fields at byte `at` of n payloads, those of the entries of the index from `from` on.
fn fill<const WIDTH: usize>(
    file: &[u8],
    index: &[u16],
    from: usize,
    at: usize,
    n: usize,
    to: usize,
    table: &mut [u16],
)
    requires small { (from ≤ 1000) × (at ≤ 1000) × (n ≤ 1000) }
    requires room { to + n ≤ length table.old }
    ensures { Filled WIDTH file.now index.now from at n to table.old table.new }
{
    for i in 0..n {
        let place = place_at(index, from + i);
        table[to + i] = field_of::<WIDTH>(file, place + at) as u16;
    }
}

// Stores the first fields of n payloads, those of the entries of the index from `from` on.
fn fill_column<const WIDTH: usize>(
    file: &[u8],
    index: &[u16],
    from: usize,
    n: usize,
    table: &mut [u16],
)
    requires small { (from ≤ 1000) × (n ≤ 1000) }
    requires room { n ≤ length table.old }
    ensures { Filled WIDTH file.now index.now from 0 n 0 table.old table.new }
{
    fill::<WIDTH>(file, index, from, 0, n, 0, table);
}

// Are the counts within the limits of their kinds, and is there a nonterminal for each rule?
fn within_limits(sorts: usize, constructors: usize, nonterminals: usize, rules: usize) -> bool
    ensures { WithinLimits sorts constructors nonterminals rules result }
{
    sorts <= MAX_SORTS
        && constructors <= MAX_CONSTRUCTORS
        && nonterminals <= MAX_NONTERMINALS
        && rules <= nonterminals
}

// The number of the first rule whose body is no single term of sort o within 64 levels; none where all are, and then `ends` has the
// ends of all subterms.
// `codes` and `depths` are tables to work in: what they hold does not matter, before or after.
pub fn first_wrong_body(
    file: &[u8],
    index: &[u16],
    sorts: usize,
    constructors: usize,
    nonterminals: usize,
    rules: usize,
    ends: &mut [u16],
    codes: &mut Rows,
    depths: &mut Rows,
) -> Option<usize>
    ensures first { FindsWrongBody file.now index.now sorts constructors nonterminals rules ends.old ends.new result }
    ensures within { IfSome result (λ f. f ≤ rules) }
{
    if !within_limits(sorts, constructors, nonterminals, rules) {
        return Some(0);
    }
    let mut froms = [0u16; ALL_SORTS];
    let mut tos = [0u16; ALL_SORTS];
    let mut arities = [0u16; MAX_CONSTRUCTORS];
    let mut signatures = [0u16; MAX_NONTERMINALS];
    fill::<2>(file, index, SORTS_AT, 0, sorts, 1, &mut froms);
    fill::<2>(file, index, SORTS_AT, 2, sorts, 1, &mut tos);
    fill_column::<1>(file, index, CONSTRUCTORS_AT, constructors, &mut arities);
    fill_column::<2>(file, index, NONTERMINALS_AT, nonterminals, &mut signatures);
    let listed = Sorts {
        froms: &froms[..sorts + 1],
        tos: &tos[..sorts + 1],
    };
    let trees = listed.tree_codes(sorts + 1);
    let heads = Heads {
        sorts: listed,
        trees: &trees,
        arities: &arities,
        signatures: &signatures,
    };
    read_rules(file, index, heads, rules, ends, codes, depths)
}
