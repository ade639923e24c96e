// The first type of a head that leads to a goal.
ghost use Rattle.std.specs.Prelude.{◌≡◌};
ghost use Rattle.term_check.specs.Worlds.{case_of};
ghost use Rattle.reasons.specs.leading.Leading.{LeadsFirst};

use tables::reading::{Node, group_of, many_of, member_of, off};
use term_check::heads::{given_for, next_leading};

// The type of the first kept binding of a nonterminal that leads to a goal.
fn first_bound(t: &[u16], r: &[u32], node: Node, goal: usize) -> Option<usize>
    ensures { node.tag ≡ 1 → LeadsFirst (case_of t.now r.now) node goal result }
{
    let found = next_leading(t, r, node, goal, group_of(t, node.number))?;
    Some(found.ty)
}

// The first member given for a parameter that leads to a goal.
fn first_given(t: &[u16], r: &[u32], node: Node, goal: usize) -> Option<usize>
    ensures { (node.tag ≡ 0 → ⊥) → (node.tag ≡ 1 → ⊥) → LeadsFirst (case_of t.now r.now) node goal result }
{
    let given = given_for(t, r, node.number)?;
    let many = many_of(t, given);
    for j in 0..many {
        let ty = member_of(t, given, j);
        if off(t, ty, node.count) == goal {
            return Some(ty);
        }
    }
    None
}

// The first type of a head that leads to a goal, where the head is no constructor.
pub(crate) fn leading_type(t: &[u16], r: &[u32], node: Node, goal: usize) -> Option<usize>
    ensures { (node.tag ≡ 0 → ⊥) → LeadsFirst (case_of t.now r.now) node goal result }
{
    if node.tag == 1 {
        return first_bound(t, r, node, goal);
    }
    first_given(t, r, node, goal)
}
