// The check of a term and the check of its arguments, which call each other.
ghost use Rattle.std.specs.Prelude.{◌≡◌, ℕ, ◌<◌, List, length};
ghost use Rattle.index.specs.layout.Layout.{max_nodes};
ghost use Rattle.tables.specs.reading.Cells.{node_at};
ghost use Rattle.term_check.specs.notes.Notes.{base_in};
ghost use Rattle.term_check.specs.heads.Heads.{Tries};
ghost use Rattle.term_check.specs.Worlds.{case_of, answers_of, users_of, ChecksTerm, ChecksMembers, ChecksAll, Finds, Settles, ChecksArgs, ChecksTargets};

use crate::heads::{
    all_had, alone, args_known, candidate, given_for, goes_down, leaf_states, look, next_leading,
    state_targets, targets_for, wanted,
};
use crate::hints::{bound_hint, hint_in, node_hint};
use crate::masks::{has_bit, left_of, lowest, without_bit};
use crate::notes::number_in;
use crate::parts::{learn_in, note_in, outlook_on};
use answers::Outlook;
use index::layout::{FEW_HINTS, MAX_NODES, TEST_BASE, TEST_USERS, WORD};
use tables::bits::with_bit;
use tables::reading::{
    Node, arrows_of, group_of, many_of, member_of, node_of, off, result_of, states_of,
};

// Whether the term at a node has a goal. What its yes rests on is noted.
#[cycle(term)]
pub fn check_term(t: &[u16], r: &[u32], w: &mut [u32], at: usize, goal: usize) -> bool
    ensures { (length w.new ≡ length w.old) × ChecksTerm (case_of t.now r.now) (answers_of r.now w.old) (users_of r.now w.old) at goal (answers_of r.now w.new) (users_of r.now w.new) result }
{
    if MAX_NODES <= at {
        return false;
    }
    let node = node_of(t, number_in(r, TEST_BASE), at);
    if node.tag == 0 {
        let Some(targets) = targets_for(&*t, node.number, node.count, goal) else {
            return false;
        };
        return all_targets(&*t, &*r, w, at + 1, node.count, targets);
    }
    if node.tag == 1 {
        return check_bound(&*t, &*r, w, at, goal, node);
    }
    if let Some(has) = alone(t, r, node, goal) {
        return has;
    }
    check_given(&*t, &*r, w, at, goal, node)
}

// Whether the `count` arguments from node `at` on have their targets, four bits each. Where the last one is a constructor, its own
// arguments take its place.
#[cycle(term)]
fn all_targets(t: &[u16], r: &[u32], w: &mut [u32], at: usize, count: usize, targets: usize) -> bool
    ensures { (length w.new ≡ length w.old) × ChecksTargets (case_of t.now r.now) (answers_of r.now w.old) (users_of r.now w.old) at count targets (answers_of r.now w.new) (users_of r.now w.new) result }
{
    let base = number_in(r, TEST_BASE);
    let mut here = at;
    let mut rest = targets;
    let mut left = count;
    // Not a `for`: where the last argument is a constructor, as many are left as it has.
    while 0 < left {
        let node = node_of(t, base, here);
        if node.next <= here {
            return false;
        }
        if goes_down(left, node.tag) {
            let Some(targets) = state_targets(t, node.number, node.count, rest % 16) else {
                return false;
            };
            rest = targets;
            here += 1;
            left = node.count;
        } else {
            if !one_target(&*t, &*r, w, here, rest % 16, node) {
                return false;
            }
            here = node.next;
            rest /= 16;
            left -= 1;
        }
    }
    true
}

// Whether the argument at a node has its target. Of a parameter that stands alone it is known.
#[cycle(term)]
fn one_target(t: &[u16], r: &[u32], w: &mut [u32], at: usize, goal: usize, node: Node) -> bool
    ensures { (length w.new ≡ length w.old) × (node ≡ node_at t.now (base_in r.now) at → ChecksTerm (case_of t.now r.now) (answers_of r.now w.old) (users_of r.now w.old) at goal (answers_of r.now w.new) (users_of r.now w.new) result) }
{
    if node.tag == 2 {
        if let Some(has) = alone(&*t, &*r, node, goal) {
            return has;
        }
    }
    check_term(&*t, &*r, w, at, goal)
}

// Whether a nonterminal's term has a goal: one of its kept bindings leads to it, and the arguments have what its type asks for. The
// binding that served last is tried first.
#[cycle(term)]
fn check_bound(t: &[u16], r: &[u32], w: &mut [u32], at: usize, goal: usize, node: Node) -> bool
    requires { at < max_nodes }
    ensures { (length w.new ≡ length w.old) × (node ≡ node_at t.now (base_in r.now) at → node.tag ≡ 1 → ChecksTerm (case_of t.now r.now) (answers_of r.now w.old) (users_of r.now w.old) at goal (answers_of r.now w.new) (users_of r.now w.new) result) }
{
    if let Some(c) = bound_hint(r, w, node, goal) {
        if try_one(&*t, &*r, w, at, goal, node, c) {
            return true;
        }
    }
    check_listed(&*t, &*r, w, at, goal, node)
}

// Whether binding c serves: it is kept, it leads to the goal, and the arguments have what its type asks for. That it serves is noted.
#[cycle(term)]
fn try_one(
    t: &[u16],
    r: &[u32],
    w: &mut [u32],
    at: usize,
    goal: usize,
    node: Node,
    c: usize,
) -> bool
    requires { at < max_nodes }
    ensures { (length w.new ≡ length w.old) × Tries (case_of t.now r.now) (answers_of r.now w.old) (users_of r.now w.old) at goal node c (answers_of r.now w.new) (users_of r.now w.new) result }
{
    let Some(ty) = candidate(t, r, node.number, node.count, goal, c) else {
        return false;
    };
    if !check_args(&*t, &*r, w, at + 1, node.count, ty) {
        return false;
    }
    note_in(r, w, c);
    true
}

// Whether one of the kept bindings of a nonterminal that lead to a goal serves. That it serves is noted, and is a hint.
#[cycle(term)]
fn check_listed(t: &[u16], r: &[u32], w: &mut [u32], at: usize, goal: usize, node: Node) -> bool
    requires { at < max_nodes }
    ensures { (length w.new ≡ length w.old) × (node ≡ node_at t.now (base_in r.now) at → node.tag ≡ 1 → ChecksTerm (case_of t.now r.now) (answers_of r.now w.old) (users_of r.now w.old) at goal (answers_of r.now w.new) (users_of r.now w.new) result) }
{
    let mut from = group_of(t, node.number);
    while let Some(found) = next_leading(t, r, node, goal, from) {
        if check_args(&*t, &*r, w, at + 1, node.count, found.ty) {
            note_in(r, w, found.binding);
            hint_in(r, w, at, node.number, goal, found.binding);
            return true;
        }
        from = found.binding + 1;
    }
    false
}

// Whether a parameter's term has a goal: one of the members given for it leads to it.
#[cycle(term)]
fn check_given(t: &[u16], r: &[u32], w: &mut [u32], at: usize, goal: usize, node: Node) -> bool
    requires { at < max_nodes }
    ensures { (length w.new ≡ length w.old) × (node ≡ node_at t.now (base_in r.now) at → (node.tag ≡ 0 → ⊥) → (node.tag ≡ 1 → ⊥) → ChecksTerm (case_of t.now r.now) (answers_of r.now w.old) (users_of r.now w.old) at goal (answers_of r.now w.new) (users_of r.now w.new) result) }
{
    let Some(given) = given_for(t, r, node.number) else {
        return false;
    };
    let many = many_of(t, given);
    for j in 0..many {
        let ty = member_of(t, given, j);
        if off(t, ty, node.count) == goal {
            if check_args(&*t, &*r, w, at + 1, node.count, ty) {
                return true;
            }
        }
    }
    false
}

// Whether the `count` arguments from node `at` on have what a type asks for; where there are none, they have.
#[cycle(term)]
fn check_args(t: &[u16], r: &[u32], w: &mut [u32], at: usize, count: usize, ty: usize) -> bool
    ensures { (length w.new ≡ length w.old) × ChecksArgs (case_of t.now r.now) (answers_of r.now w.old) (users_of r.now w.old) at count ty (answers_of r.now w.new) (users_of r.now w.new) result }
{
    if count == 0 {
        return true;
    }
    all_args(&*t, &*r, w, at, count, ty)
}

// The same, one argument after another.
#[cycle(term)]
fn all_args(t: &[u16], r: &[u32], w: &mut [u32], at: usize, count: usize, ty: usize) -> bool
    ensures { (length w.new ≡ length w.old) × ChecksArgs (case_of t.now r.now) (answers_of r.now w.old) (users_of r.now w.old) at count ty (answers_of r.now w.new) (users_of r.now w.new) result }
{
    let base = number_in(r, TEST_BASE);
    let mut here = at;
    let mut rest = ty;
    for _ in 0..count {
        let node = node_of(t, base, here);
        if node.next <= here {
            return false;
        }
        if !all_members(&*t, &*r, w, here, rest, node) {
            return false;
        }
        here = node.next;
        rest = result_of(t, rest);
    }
    true
}

// Whether the argument at a node has all members of an arrow. What is found is remembered.
#[cycle(term)]
fn all_members(t: &[u16], r: &[u32], w: &mut [u32], at: usize, ty: usize, node: Node) -> bool
    ensures { (length w.new ≡ length w.old) × (node ≡ node_at t.now (base_in r.now) at → ChecksMembers (case_of t.now r.now) (answers_of r.now w.old) (users_of r.now w.old) at ty (answers_of r.now w.new) (users_of r.now w.new) result) }
{
    let states = states_of(t, ty) as u32;
    let known = look(t, r, w, at, node);
    if states & known.lacked != 0 {
        return false;
    }
    let arrows = arrows_of(t, ty);
    let missing = left_of(states, known.had);
    if missing == 0 {
        if arrows == 0 {
            return true;
        }
        return check_each(&*t, &*r, w, at, ty);
    }
    if !check_states(&*t, &*r, w, at, missing, node) {
        return false;
    }
    if arrows == 0 {
        return true;
    }
    check_each(&*t, &*r, w, at, ty)
}

// Whether the term at a node has all goals of a set of states: first what is found at once, then the others, one by one. What is found
// is remembered.
#[cycle(term)]
fn check_states(t: &[u16], r: &[u32], w: &mut [u32], at: usize, asked: u32, node: Node) -> bool
    ensures { (length w.new ≡ length w.old) × (node ≡ node_at t.now (base_in r.now) at → ChecksAll (case_of t.now r.now) (answers_of r.now w.old) (users_of r.now w.old) at asked (answers_of r.now w.new) (users_of r.now w.new) result) }
{
    let found = find_states(&*t, &*r, w, at, asked, node);
    if found.lacked != 0 {
        let known = with_bit(found.had, lowest(found.lacked));
        learn_in(r, w, at, 0, known, found.had);
        return false;
    }
    let mut had = found.had;
    let mut left = left_of(asked, found.had);
    while left != 0 {
        let q = lowest(left);
        if !check_term(&*t, &*r, w, at, q) {
            learn_in(r, w, at, 0, with_bit(had, q), had);
            return false;
        }
        had = with_bit(had, q);
        left = without_bit(left, q);
    }
    learn_in(r, w, at, 0, had, had);
    true
}

// What is found at once of the states of a set: some that the term at a node has, and some that it lacks. Of a constructor without
// arguments all are found; of one with arguments nothing, nor of a nonterminal's term where there are no hints.
#[cycle(term)]
fn find_states(t: &[u16], r: &[u32], w: &mut [u32], at: usize, asked: u32, node: Node) -> Outlook
    ensures { (length w.new ≡ length w.old) × (node ≡ node_at t.now (base_in r.now) at → Settles (case_of t.now r.now) (answers_of r.now w.old) (users_of r.now w.old) at asked (answers_of r.now w.new) (users_of r.now w.new) result) }
{
    if MAX_NODES <= at {
        return Outlook { had: 0, lacked: 0 };
    }
    if node.tag == 1 {
        if number_in(r, TEST_USERS) < FEW_HINTS {
            return Outlook { had: 0, lacked: 0 };
        }
        let had = find_bound(&*t, &*r, w, at, asked, node);
        return Outlook { had, lacked: 0 };
    }
    if node.tag == 0 {
        return leaf_states(t, node, asked);
    }
    find_given(&*t, &*r, w, at, asked, node)
}

// States of a set that a nonterminal's term has by the bindings that served last for this node.
#[cycle(term)]
fn find_bound(t: &[u16], r: &[u32], w: &mut [u32], at: usize, asked: u32, node: Node) -> u32
    requires { at < max_nodes }
    ensures { (length w.new ≡ length w.old) × (node ≡ node_at t.now (base_in r.now) at → node.tag ≡ 1 → Finds (case_of t.now r.now) (answers_of r.now w.old) (users_of r.now w.old) at (answers_of r.now w.new) (users_of r.now w.new) result) }
{
    let mut had: u32 = 0;
    let mut left = asked;
    while left != 0 {
        let q = lowest(left);
        let Some(c) = node_hint(r, w, at, q) else {
            return had;
        };
        let Some(ty) = candidate(t, r, node.number, node.count, q, c) else {
            return had;
        };
        if !args_again(&*t, &*r, w, at + 1, node.count, ty) {
            return had;
        }
        note_in(r, w, c);
        had = with_bit(had, q);
        left = without_bit(left, q);
    }
    had
}

// Of the states of a set those that a parameter's term has by the members given for it, one after another. From the first one on for which
// a member fails, that state alone is asked for; what no member serves for is lacked.
#[cycle(term)]
fn find_given(t: &[u16], r: &[u32], w: &mut [u32], at: usize, asked: u32, node: Node) -> Outlook
    requires { at < max_nodes }
    ensures { (length w.new ≡ length w.old) × (node ≡ node_at t.now (base_in r.now) at → (node.tag ≡ 0 → ⊥) → (node.tag ≡ 1 → ⊥) → Settles (case_of t.now r.now) (answers_of r.now w.old) (users_of r.now w.old) at asked (answers_of r.now w.new) (users_of r.now w.new) result) }
{
    let Some(given) = given_for(t, r, node.number) else {
        return Outlook { had: 0, lacked: 0 };
    };
    let many = many_of(t, given);
    let mut had: u32 = 0;
    let mut left = asked;
    for j in 0..many {
        let ty = member_of(t, given, j);
        if let Some(q) = wanted(t, left, ty, node.count) {
            if args_again(&*t, &*r, w, at + 1, node.count, ty) {
                had = with_bit(had, q);
                left = without_bit(left, q);
            } else {
                left = with_bit(0, q);
            }
        }
    }
    Outlook { had, lacked: left }
}

// Whether the `count` arguments from node `at` on have what a type asks for, where they were perhaps asked for the same before.
#[cycle(term)]
fn args_again(t: &[u16], r: &[u32], w: &mut [u32], at: usize, count: usize, ty: usize) -> bool
    ensures { (length w.new ≡ length w.old) × ChecksArgs (case_of t.now r.now) (answers_of r.now w.old) (users_of r.now w.old) at count ty (answers_of r.now w.new) (users_of r.now w.new) result }
{
    if args_known(t, r, w, at, count, ty) {
        return true;
    }
    check_args(&*t, &*r, w, at, count, ty)
}

// Whether the term at a node has each member of an arrow. What is found is remembered.
#[cycle(term)]
fn check_each(t: &[u16], r: &[u32], w: &mut [u32], at: usize, ty: usize) -> bool
    ensures { (length w.new ≡ length w.old) × ChecksMembers (case_of t.now r.now) (answers_of r.now w.old) (users_of r.now w.old) at ty (answers_of r.now w.new) (users_of r.now w.new) result }
{
    if all_had(t, r, w, at, ty) {
        return true;
    }
    let many = many_of(t, ty);
    let mut last = None;
    for j in 0..many {
        let goal = member_of(t, ty, j);
        let known = outlook_on(r, w, at, goal, last);
        if has_bit(known.lacked, goal) {
            return false;
        }
        if !has_bit(known.had, goal) {
            let bit = with_bit(0, goal % WORD);
            if !check_term(&*t, &*r, w, at, goal) {
                learn_in(r, w, at, goal, bit, 0);
                return false;
            }
            learn_in(r, w, at, goal, bit, bit);
        }
        last = Some((goal / WORD, known));
    }
    true
}
