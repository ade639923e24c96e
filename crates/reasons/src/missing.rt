// The first argument that lacks a member, and its first missing member.
ghost use Rattle.std.specs.Prelude.{◌≡◌, length};
ghost use Rattle.term_check.specs.Worlds.{case_of, answers_of, users_of, ChecksTerm};
ghost use Rattle.reasons.specs.missing.Missing.{LacksMember, LacksArgument, LacksTarget};

use crate::Reason;
use index::layout::{TEST_BASE, WORD};
use tables::bits::with_bit;
use tables::reading::{many_of, member_of, node_of, result_of};
use term_check::check::check_term;
use term_check::masks::has_bit;
use term_check::notes::number_in;
use term_check::parts::{learn_in, outlook_in};

// Whether the term at a node has a goal, as it is remembered or by the check; what is found is remembered.
fn has_goal(t: &[u16], r: &[u32], w: &mut [u32], at: usize, goal: usize) -> bool
    ensures { (length w.new ≡ length w.old) × ChecksTerm (case_of t.now r.now) (answers_of r.now w.old) (users_of r.now w.old) at goal (answers_of r.now w.new) (users_of r.now w.new) result }
{
    let known = outlook_in(r, w, at, goal);
    if has_bit(known.lacked, goal) {
        return false;
    }
    if has_bit(known.had, goal) {
        return true;
    }
    let bit = with_bit(0, goal % WORD);
    if !check_term(t, r, w, at, goal) {
        learn_in(r, w, at, goal, bit, 0);
        return false;
    }
    learn_in(r, w, at, goal, bit, bit);
    true
}

// The first member of an arrow that the term at a node lacks; None where it has all.
fn missing_member(t: &[u16], r: &[u32], w: &mut [u32], at: usize, ty: usize) -> Option<usize>
    ensures { (length w.new ≡ length w.old) × LacksMember (case_of t.now r.now) (answers_of r.now w.old) (users_of r.now w.old) at ty (answers_of r.now w.new) (users_of r.now w.new) result }
{
    let many = many_of(t, ty);
    for j in 0..many {
        let goal = member_of(t, ty, j);
        if !has_goal(t, r, w, at, goal) {
            return Some(goal);
        }
    }
    None
}

// The first of the `count` arguments from node `at` on that lacks a member that a type asks for, and its first missing member; None where
// none does.
pub(crate) fn missing_argument(
    t: &[u16],
    r: &[u32],
    w: &mut [u32],
    at: usize,
    count: usize,
    ty: usize,
) -> Option<Reason>
    ensures { (length w.new ≡ length w.old) × LacksArgument (case_of t.now r.now) (answers_of r.now w.old) (users_of r.now w.old) at count ty (answers_of r.now w.new) (users_of r.now w.new) result }
{
    let base = number_in(r, TEST_BASE);
    let mut here = at;
    let mut rest = ty;
    for _ in 0..count {
        if let Some(goal) = missing_member(t, r, w, here, rest) {
            return Some(Reason { node: here, goal });
        }
        let node = node_of(t, base, here);
        here = node.next;
        rest = result_of(t, rest);
    }
    None
}

// The first of the `count` arguments from node `at` on that lacks its target, four bits each; None where none does.
pub(crate) fn missing_target(
    t: &[u16],
    r: &[u32],
    w: &mut [u32],
    at: usize,
    count: usize,
    targets: usize,
) -> Option<Reason>
    ensures { (length w.new ≡ length w.old) × LacksTarget (case_of t.now r.now) (answers_of r.now w.old) (users_of r.now w.old) at count targets (answers_of r.now w.new) (users_of r.now w.new) result }
{
    let base = number_in(r, TEST_BASE);
    let mut here = at;
    let mut rest = targets;
    for _ in 0..count {
        let goal = rest % 16;
        if !has_goal(t, r, w, here, goal) {
            return Some(Reason { node: here, goal });
        }
        let node = node_of(t, base, here);
        here = node.next;
        rest /= 16;
    }
    None
}
