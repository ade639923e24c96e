// The transition table of a file: state by constructor, four targets each.
ghost use Rattle.std.specs.Prelude.{◌≡◌};
ghost use Rattle.casefile.specs.Fields.{byte};
ghost use Rattle.transitions.specs.table.Moves.{Holds};

use index::entries::place_at;
use index::layout::{
    MAX_ARITY, MAX_CONSTRUCTORS, MAX_STATES, MAX_TRANSITIONS, NO_TARGET, TRANSITIONS_AT,
    Transitions,
};
use records::fields::byte_at;

// The target at a place of the file.
fn target_at(file: &[u8], at: usize) -> u8
    ensures { result ≡ byte file.now at }
{
    byte_at(file, at) as u8
}

// The table of the n transitions of a file, the last one first, so that the first for a state and a constructor counts. 255
// stands where there is none, and no Option: a table is fixed memory, with a byte for each target.
pub fn moves(file: &[u8], index: &[u16], n: usize) -> Transitions
    ensures { Holds file.now index.now n result }
{
    let mut t = [[[NO_TARGET; MAX_ARITY]; MAX_CONSTRUCTORS]; MAX_STATES];
    if MAX_TRANSITIONS < n {
        return t;
    }
    for k in (0..n).rev() {
        let at = place_at(index, TRANSITIONS_AT + k);
        let q = byte_at(file, at);
        let c = byte_at(file, at + 1);
        let first = target_at(file, at + 2);
        let second = target_at(file, at + 3);
        let third = target_at(file, at + 4);
        let fourth = target_at(file, at + 5);
        if q < MAX_STATES && c < MAX_CONSTRUCTORS {
            t[q][c] = [first, second, third, fourth];
        }
    }
    t
}
