// The rows of states, types and bindings.
ghost use Rattle.std.specs.Prelude.{◌≡◌, ◌<◌, ◌≤◌, MatchOption};
ghost use Rattle.index.specs.layout.Layout.{max_types, max_members};
ghost use Rattle.tables.specs.types.Rows.{row_of, goal_of_spec, Room, FillsStates, CountsMembers, NearAmong, AddsMember, FillsMembers, FillsArrow, FillsType, FillsTypes, FillsBindings};

use crate::bits::with_bit;
use crate::reading::{end_of, row_at};
use index::enter::store;
use index::entries::place_at;
use index::layout::{
    ARROWS, BINDINGS_AT, END, GOAL, HIGH, LOW, MANY, MAX_BINDINGS, MAX_STATES, MAX_TYPE, MAX_TYPES,
    MEMBER_STATES, MEMBERS, NEAR, NONE, OWN, PAIR_CELLS, PAIRS_AT, RESULT, ROW_CELLS, ROW_LIMIT,
    ROWS_AT, SYMBOL, TYPES_AT, WORD,
};
use records::fields::{byte_at, length_at, word_at};

// Of fewer members than these it is not said in which word they stand: they are looked up one by one.
const FEW_MEMBERS: usize = 8;

// The goal that type m is.
fn goal_of(t: &[u16], m: usize) -> usize
    requires { m < 65536 }
    ensures { (result ≡ goal_of_spec t.now m) × (result < 65536) }
{
    place_at(t, row_at(MAX_STATES + m) + GOAL)
}

// Enters the rows of the states.
pub fn fill_states(t: &mut [u16])
    ensures { FillsStates t.old t.new }
{
    for q in 0..MAX_STATES {
        let row = row_at(q);
        store(t, row + RESULT, NONE);
        store(t, row + END, q);
        store(t, row + MANY, 0);
    }
}

// How many members an arrow has whose payload has a length.
fn members_in(len: usize) -> usize
    ensures { CountsMembers len result }
{
    if len < 2 {
        return 0;
    }
    if MAX_TYPE < len {
        return 0;
    }
    (len - 2) / 2
}

// What there is among members: the states as bits, and how many arrows.
#[derive(Clone, Copy)]
struct Among {
    states: u32,
    arrows: usize,
}

impl Among {
    // What there is among members, and one more.
    fn with_member(self, member: usize) -> Among
        requires { self.arrows < max_members }
        ensures { AddsMember self member result }
    {
        if member < MAX_STATES {
            return Among {
                states: with_bit(self.states, member),
                ..self
            };
        }
        Among {
            arrows: self.arrows + 1,
            ..self
        }
    }
}

// The word in which members stand as goals, and their bits there.
#[derive(Clone, Copy)]
struct Near {
    word: usize,
    mask: u32,
}

// The word in which all members of type m, an arrow, stand as goals, and their bits there; none for few members, or more than one word.
fn near_members(t: &[u16], m: usize, many: usize) -> Option<Near>
    requires { (many ≤ max_members) × (m < max_types) }
    ensures { MatchOption result (Unit {0}) (λ near. NearAmong t.now (row_of m) many near.word near.mask) }
{
    if many < FEW_MEMBERS {
        return None;
    }
    let row = row_at(MAX_STATES + m);
    let word = place_at(t, row + MEMBERS) / WORD;
    let mut mask: u32 = 0;
    for j in 0..many {
        let member = place_at(t, row + (MEMBERS + j));
        if member / WORD != word {
            return None;
        }
        mask = with_bit(mask, member);
    }
    Some(Near { word, mask })
}

// Enters the members of type m, an arrow whose payload begins at a place and whose row is there, and returns what there is among them.
fn fill_members(file: &[u8], start: usize, many: usize, m: usize, t: &mut [u16]) -> Among
    requires { (start < 65536) × (many ≤ max_members) × (m < max_types) × Room (row_of m) t.old }
    ensures { FillsMembers file.now start many m t.old t.new result }
{
    let row = row_at(MAX_STATES + m);
    let mut among = Among {
        states: 0,
        arrows: 0,
    };
    for j in 0..many {
        let goal = goal_of(t, word_at(file, start + 2 + 2 * j));
        t[row + (MEMBERS + j)] = goal as u16;
        among = among.with_member(goal);
    }
    among
}

// Enters the row of type m, an arrow whose payload begins at a place and has a length; the row is there.
fn fill_arrow(file: &[u8], start: usize, len: usize, m: usize, t: &mut [u16])
    requires { (start < 65536) × (m < max_types) × Room (row_of m) t.old }
    ensures { FillsArrow file.now start len m t.old t.new }
{
    let row = row_at(MAX_STATES + m);
    let result = goal_of(t, word_at(file, start));
    let end = end_of(t, result);
    let many = members_in(len);
    let among = fill_members(file, start, many, m, t);
    t[row + RESULT] = result as u16;
    t[row + END] = end as u16;
    t[row + MEMBER_STATES] = among.states as u16;
    t[row + ARROWS] = among.arrows as u16;
    t[row + MANY] = many as u16;
    let near = near_members(t, m, many).unwrap_or(Near {
        word: NONE,
        mask: 0,
    });
    t[row + NEAR] = near.word as u16;
    t[row + LOW] = (near.mask % 65536) as u16;
    t[row + HIGH] = (near.mask / 65536) as u16;
}

// Enters the row of type m, where the table has it.
fn fill_type(file: &[u8], index: &[u16], m: usize, t: &mut [u16])
    requires { m < max_types }
    ensures { FillsType file.now index.now m t.old t.new }
{
    let row = row_at(MAX_STATES + m);
    if t.len() < row + ROW_CELLS {
        return;
    }
    let start = place_at(index, TYPES_AT + m);
    let len = length_at(file, start);
    if len == 1 {
        let state = byte_at(file, start) % MAX_STATES;
        t[row + GOAL] = state as u16;
        return;
    }
    t[row + GOAL] = (MAX_STATES + m) as u16;
    fill_arrow(file, start, len, m, t);
}

// Enters the rows of all types.
pub fn fill_types(file: &[u8], index: &[u16], types: usize, t: &mut [u16])
    ensures { FillsTypes file.now index.now types t.old t.new }
{
    if MAX_TYPES < types {
        return;
    }
    for m in 0..types {
        fill_type(file, index, m, t);
    }
}

// Enters the nonterminals and the types of all bindings, where the table has room for them.
pub fn fill_bindings(file: &[u8], index: &[u16], bindings: usize, t: &mut [u16])
    ensures { FillsBindings file.now index.now bindings t.old t.new }
{
    if MAX_BINDINGS < bindings {
        return;
    }
    if t.len() < PAIRS_AT + bindings * PAIR_CELLS {
        return;
    }
    for b in 0..bindings {
        let pair = PAIRS_AT + b * PAIR_CELLS;
        let place = place_at(index, BINDINGS_AT + b);
        let symbol = word_at(file, place);
        let own = goal_of(t, word_at(file, place + 2));
        t[pair + SYMBOL] = symbol as u16;
        t[pair + OWN] = own as u16;
    }
}
