#![tactic(auto)]

// Why a body lacks a state: the search for the node that is the reason.
mod leading;
mod missing;

ghost use Rattle.std.specs.Prelude.{◌≡◌, length};
ghost use Rattle.term_check.specs.Worlds.{case_of, answers_of, users_of};
ghost use Rattle.reasons.specs.Searching.{Steps, Searches};

use crate::leading::leading_type;
use crate::missing::{missing_argument, missing_target};
use index::layout::{MAX_NODES, TEST_BASE};
use tables::reading::node_of;
use term_check::heads::targets_for;
use term_check::notes::number_in;

// A node of a body, and the type wanted there, as a goal.
#[derive(Drop)]
pub struct Reason {
    pub node: usize,
    pub goal: usize,
}

// The next node and goal of a search: the first argument that lacks a member of the first type of the head that leads to the goal, and its
// first missing member. None where no type leads to the goal: the search ends there.
fn step(t: &[u16], r: &[u32], w: &mut [u32], at: usize, goal: usize) -> Option<Reason>
    ensures { (length w.new ≡ length w.old) × Steps (case_of t.now r.now) (answers_of r.now w.old) (users_of r.now w.old) at goal (answers_of r.now w.new) (users_of r.now w.new) result }
{
    if MAX_NODES <= at {
        return None;
    }
    let node = node_of(t, number_in(r, TEST_BASE), at);
    if node.tag == 0 {
        let targets = targets_for(t, node.number, node.count, goal)?;
        return missing_target(t, r, w, at + 1, node.count, targets);
    }
    let ty = leading_type(t, r, node, goal)?;
    missing_argument(t, r, w, at + 1, node.count, ty)
}

// The reason why the body under test lacks a goal: a node of it, and the type wanted there. What is found on the way is remembered.
pub fn search(t: &[u16], r: &[u32], w: &mut [u32], goal: usize) -> Reason
    ensures { (length w.new ≡ length w.old) × Searches (case_of t.now r.now) (answers_of r.now w.old) (users_of r.now w.old) goal (answers_of r.now w.new) (users_of r.now w.new) result.node result.goal }
{
    let mut reason = Reason { node: 0, goal };
    while reason.node < MAX_NODES {
        match step(t, r, w, reason.node, reason.goal) {
            Some(next) if reason.node < next.node => reason = next,
            _ => return reason,
        }
    }
    reason
}
