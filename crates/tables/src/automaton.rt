// The transitions of a file in the flat table.
ghost use Rattle.std.specs.Prelude.{◌≡◌, ◌<◌};
ghost use Rattle.index.specs.layout.Layout.{max_constructors};
ghost use Rattle.tables.specs.automaton.Packing.{packed_at, Presents, FillsTargets, FillsAutomaton};

use crate::bits::with_bit;
use index::enter::store;
use index::layout::{ARITIES_AT, MAX_CONSTRUCTORS, MAX_STATES, PRESENT_AT, TARGETS_AT};
use records::fields::byte_at;
use transitions::places::place_in;
use transitions::rows::arity_of;

// The targets of the transition at a place, four bits each.
fn packed(file: &[u8], place: usize) -> usize
    requires { place < 65536 }
    ensures { (result ≡ packed_at file.now place) × (result < 65536) }
{
    let first = byte_at(file, place + 2) % 16;
    let second = byte_at(file, place + 3) % 16;
    let third = byte_at(file, place + 4) % 16;
    let fourth = byte_at(file, place + 5) % 16;
    first + 16 * second + 256 * third + 4096 * fourth
}

// The states at which a constructor has a transition, as bits; none where there are no more constructors.
fn present_in(index: &[u16], constructors: usize, c: usize) -> usize
    requires { c < max_constructors }
    ensures { Presents index.now constructors c result }
{
    if constructors <= c {
        return 0;
    }
    let mut states: u32 = 0;
    for q in 0..MAX_STATES {
        if place_in(index, q, c).is_some() {
            states = with_bit(states, q);
        }
    }
    states as usize
}

// Enters the targets of a constructor at each state that has a transition, where it is present at one.
fn fill_targets(file: &[u8], index: &[u16], c: usize, present: usize, t: &mut [u16])
    requires { c < max_constructors }
    ensures { FillsTargets file.now index.now c present t.old t.new }
{
    if present == 0 {
        return;
    }
    for q in 0..MAX_STATES {
        if let Some(place) = place_in(index, q, c) {
            let targets = packed(file, place);
            store(t, TARGETS_AT + c * MAX_STATES + q, targets);
        }
    }
}

// Enters what the table has of all constructors.
pub fn fill_automaton(file: &[u8], index: &[u16], constructors: usize, t: &mut [u16])
    ensures { FillsAutomaton file.now index.now constructors t.old t.new }
{
    for c in 0..MAX_CONSTRUCTORS {
        let present = present_in(index, constructors, c);
        let arity = arity_of(file, index, constructors, c);
        store(t, PRESENT_AT + c, present);
        store(t, ARITIES_AT + c, arity);
        fill_targets(file, index, c, present, t);
    }
}
