// The types of a head against a goal, and what is known of an argument without a check.
ghost use Rattle.std.specs.Prelude.{◌≡◌, ◌/◌, ◌^◌, ◌≤◌, ◌<◌, true, MatchOption, ⊤};
ghost use Rattle.index.specs.layout.Layout.{max_states};
ghost use Rattle.tables.specs.reading.Cells.{node_at};
ghost use Rattle.term_check.specs.notes.Notes.{base_in};
ghost use Rattle.term_check.specs.Worlds.{case_of, answers_of};
ghost use Rattle.term_check.specs.heads.Heads.{IsGiven, IsCandidate, IsLeading, NextLeads, Matches, IsTargets, Leaf, Alone, Seen, AllHad, ArgsKnown, Wanted};

use crate::masks::{has_bit, left_of};
use crate::notes::{candidates_at, number_in};
use crate::parts::outlook_in;
use answers::Outlook;
use index::layout::{MAX_CONSTRUCTORS, MAX_STATES, NONE, ROW_LIMIT, TEST_BINDINGS, TEST_OWN, WORD};
use marks::{is_in, next_in};
use tables::reading::{
    Node, arity_of, arrows_of, end_of, group_of, many_of, mask_of, member_of, near_of, off, own_of,
    present_of, result_of, states_of, symbol_of, targets_of,
};

// The type of a parameter of the binding under test, as a goal: the members that are given for it are those of this type. None where the
// binding has no such parameter.
pub fn given_for(t: &[u16], r: &[u32], number: usize) -> Option<usize>
    ensures { IsGiven (case_of t.now r.now) number result }
{
    let given = off(t, number_in(r, TEST_OWN), number);
    (given != NONE).then_some(given)
}

// The type of binding c where it is the goal with arrows off.
pub fn leading(t: &[u16], count: usize, goal: usize, c: usize) -> Option<usize>
    ensures { IsLeading t.now count goal c result }
{
    let ty = own_of(t, c);
    (off(t, ty, count) == goal).then_some(ty)
}

// A kept binding that leads to a goal, and its type.
#[derive(Drop)]
pub struct Listed {
    pub binding: usize,
    pub ty: usize,
}

// The first kept binding of the nonterminal of a node, from one on, that leads to a goal.
pub fn next_leading(t: &[u16], r: &[u32], node: Node, goal: usize, from: usize) -> Option<Listed>
    ensures { MatchOption result ⊤ (λ found. found.binding < 65536) × NextLeads (case_of t.now r.now) node goal from result }
{
    let row = candidates_at(r, goal);
    let high = group_of(t, node.number % ROW_LIMIT + 1);
    let mut next = from;
    while next < high {
        let binding = next_in(r, row, next, high);
        if high <= binding {
            return None;
        }
        if let Some(ty) = leading(t, node.count, goal, binding) {
            return Some(Listed { binding, ty });
        }
        next = binding + 1;
    }
    None
}

// The type of binding c, where it is a kept one of a nonterminal whose type with arrows off is the goal.
pub fn candidate(
    t: &[u16],
    r: &[u32],
    number: usize,
    count: usize,
    goal: usize,
    c: usize,
) -> Option<usize>
    ensures { IsCandidate (case_of t.now r.now) number count goal c result }
{
    if number_in(r, TEST_BINDINGS) <= c {
        return None;
    }
    if !is_in(r, candidates_at(r, goal), c) {
        return None;
    }
    if symbol_of(t, c) != number {
        return None;
    }
    leading(t, count, goal, c)
}

// Whether a goal takes targets, so many that are packed in a number, one after another to a state.
fn matches(t: &[u16], goal: usize, targets: usize, left: usize) -> bool
    ensures { Matches t.now goal targets left result }
{
    let mut g = goal;
    let mut rest = targets;
    for _ in 0..left {
        if many_of(t, g) != 1 || member_of(t, g, 0) != rest % 16 {
            return false;
        }
        g = result_of(t, g);
        rest /= 16;
    }
    g < MAX_STATES
}

// The targets behind so many, of which there are at most four.
fn behind(targets: usize, count: usize) -> usize
    ensures { count ≤ 4 → result ≡ targets / 16 ^ count }
{
    targets >> (4 * count.min(4))
}

// The targets of the transition of a constructor whose type, with so many arrows off, is a state; None where there is none.
pub(crate) fn state_targets(t: &[u16], c: usize, count: usize, q: usize) -> Option<usize>
    requires { q < max_states }
    ensures { IsTargets t.now c count q result }
{
    if MAX_CONSTRUCTORS <= c {
        return None;
    }
    let present = present_of(t, c);
    if (present >> q) % 2 == 0 {
        return None;
    }
    if arity_of(t, c) != count {
        return None;
    }
    Some(targets_of(t, c, q))
}

// The targets of the transition of a constructor whose type, with so many arrows off, is a goal; None where there is none. It is the one
// at the state in which the goal ends.
pub fn targets_for(t: &[u16], c: usize, count: usize, goal: usize) -> Option<usize>
    ensures { IsTargets t.now c count goal result }
{
    if goal < MAX_STATES {
        return state_targets(t, c, count, goal);
    }
    if MAX_CONSTRUCTORS <= c {
        return None;
    }
    let q = end_of(t, goal) % MAX_STATES;
    let present = present_of(t, c);
    if (present >> q) % 2 == 0 {
        return None;
    }
    let arity = arity_of(t, c);
    if arity < count {
        return None;
    }
    let targets = targets_of(t, c, q);
    if !matches(t, goal, behind(targets, count), arity - count) {
        return None;
    }
    Some(targets)
}

// Of the states of a set those that a constructor without arguments has, and those that it lacks; nothing of another term.
pub fn leaf_states(t: &[u16], node: Node, asked: u32) -> Outlook
    ensures { Leaf t.now node asked result }
{
    if node.count != 0
        || MAX_CONSTRUCTORS <= node.number
        || arity_of(t, node.number) != 0
        || 65535 < asked
    {
        return Outlook { had: 0, lacked: 0 };
    }
    let present = present_of(t, node.number) as u32;
    let had = asked & present;
    Outlook {
        had,
        lacked: asked - had,
    }
}

// Whether a parameter that stands alone has a state; not known of another term or goal. The node has no constructor and no nonterminal in
// front.
pub fn alone(t: &[u16], r: &[u32], node: Node, goal: usize) -> Option<bool>
    ensures { Alone (case_of t.now r.now) node goal result }
{
    if node.count != 0 || MAX_STATES <= goal {
        return None;
    }
    let given = given_for(t, r, node.number)?;
    if given < MAX_STATES {
        return None;
    }
    let had = states_of(t, given);
    Some((had >> goal) % 2 == 1)
}

// The states that the term at a node is known to have, and those that it is known to lack: of a parameter that stands alone all are known.
pub fn look(t: &[u16], r: &[u32], w: &[u32], at: usize, node: Node) -> Outlook
    ensures { node ≡ node_at t.now (base_in r.now) at → Seen (case_of t.now r.now) (answers_of r.now w.now) at result }
{
    if node.tag != 2 || node.count != 0 {
        return outlook_in(r, w, at, 0);
    }
    match given_for(t, r, node.number) {
        Some(given) if MAX_STATES <= given => {
            let had = states_of(t, given) as u32;
            Outlook {
                had,
                lacked: 65535 - had,
            }
        }
        _ => Outlook { had: 0, lacked: 0 },
    }
}

// Whether the term at a node is known to have all members of an arrow; that is not seen where the table has no word in which they stand.
pub fn all_had(t: &[u16], r: &[u32], w: &[u32], at: usize, ty: usize) -> bool
    ensures { AllHad (case_of t.now r.now) (answers_of r.now w.now) at ty result }
{
    let near = near_of(t, ty);
    if near == NONE {
        return false;
    }
    let known = outlook_in(r, w, at, near * WORD);
    left_of(mask_of(t, ty), known.had) == 0
}

// Whether the arguments from a node on are known to have what a type asks for; that is seen where there is one, and its members are states.
pub fn args_known(t: &[u16], r: &[u32], w: &[u32], at: usize, count: usize, ty: usize) -> bool
    ensures { ArgsKnown (case_of t.now r.now) (answers_of r.now w.now) at count ty result }
{
    if count != 1 || arrows_of(t, ty) != 0 {
        return false;
    }
    let states = states_of(t, ty) as u32;
    let known = outlook_in(r, w, at, 0);
    left_of(states, known.had) == 0
}

// The goal that a type becomes with so many arrows off, where it is one of a set.
pub fn wanted(t: &[u16], goals: u32, ty: usize, count: usize) -> Option<usize>
    ensures { Wanted t.now goals ty count result }
{
    let g = off(t, ty, count);
    (g < WORD && has_bit(goals, g)).then_some(g)
}

// Whether there is one argument left, and it has a constructor in front.
pub fn goes_down(left: usize, tag: usize) -> bool
    ensures { result ≡ true → (left ≡ 1) × (tag ≡ 0) }
{
    left == 1 && tag == 0
}
