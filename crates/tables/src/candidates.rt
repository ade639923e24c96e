// For each goal the bindings whose types become it with some arrows off, as sets: set g begins at word g * words.
ghost use Rattle.std.specs.Iterator.{at_most};
ghost use Rattle.marks.specs.Marks.{TakesOut};
ghost use Rattle.tables.specs.Filling.{FillsSets, LeavesSets};
ghost use Rattle.tables.specs.candidates.Chains.{StepsOn, Begins, Enters};

use crate::reading::{own_of, result_of};
use index::layout::{MAX_BINDINGS, NONE, WORD};
use marks::put_in;

// The most steps along the chain of a binding.
const STEPS: usize = 256;

// No set has as many words: a cell numbers fewer than 65,536 bindings.
const WIDEST: usize = 4096;

// What is left of the chain of a binding: its goals are the binding's type with 0, 1, 2, .. arrows off.
#[derive(Drop)]
struct Chain<'a> {
    t: &'a [u16],
    goal: usize,
    steps: usize,
}

impl<'a> Iterator for Chain<'a> {
    type Item = usize;

    ghost next_gives = { StepsOn };

    ghost remaining = { λ s. at_most s.steps };

    fn next(&mut self) -> Option<usize> {
        if self.steps == 0 {
            return None;
        }
        let goal = self.goal;
        if goal == NONE {
            return None;
        }
        self.goal = result_of(self.t, goal);
        self.steps -= 1;
        Some(goal)
    }
}

// The chain of a binding.
fn chain_of(t: &[u16], b: usize) -> Chain<'_>
    ensures { Begins t.now b result }
{
    Chain {
        t,
        goal: own_of(t, b),
        steps: STEPS,
    }
}

// Takes number n out of the set at a place; nothing changes past the end.
fn take_out(words: &mut [u32], at: usize, n: usize)
    ensures { TakesOut words.old at n words.new }
{
    if words.len() <= at {
        return;
    }
    if words.len() - at <= n / WORD {
        return;
    }
    let i = at + n / WORD;
    words[i] -= words[i] & (1u32 << ((n % WORD) as u32));
}

// Enters a binding in the sets along its chain: in each it is the same bit of the same word.
fn enter(t: &[u16], b: usize, words: usize, sets: &mut [u32])
    ensures { Enters t.now b words sets.old sets.new }
{
    let wide = words % WIDEST;
    for goal in chain_of(t, b) {
        put_in(sets, goal * wide, b);
    }
}

// Enters all bindings.
pub fn fill_sets(t: &[u16], bindings: usize, words: usize, sets: &mut [u32])
    ensures { FillsSets t.now bindings words sets.old sets.new }
{
    if MAX_BINDINGS < bindings {
        return;
    }
    for b in 0..bindings {
        enter(t, b, words, sets);
    }
}

// Takes a binding out of the sets along its chain: no other set has it.
pub fn leave_sets(t: &[u16], b: usize, words: usize, sets: &mut [u32])
    ensures { LeavesSets t.now b words sets.old sets.new }
{
    let wide = words % WIDEST;
    for goal in chain_of(t, b) {
        take_out(sets, goal * wide, b);
    }
}
