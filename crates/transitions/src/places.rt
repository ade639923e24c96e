// The transitions by state and constructor: behind its entries the index has where the payload of each lies in the file, an entry
// for each state and constructor; 0 where there is none.
ghost use Rattle.std.specs.Prelude.{MatchOption};
ghost use Rattle.transitions.specs.places.RowPlaces.{NoPlaceIn, IsPlaceIn, FillsRows};

use index::enter::{clear, store};
use index::entries::place_at;
use index::layout::{MAX_CONSTRUCTORS, MAX_STATES, MAX_TRANSITIONS, PLACES_AT, TRANSITIONS_AT};
use records::fields::byte_at;

// Where the transition for a state and a constructor lies in the file, if there is one.
pub fn place_in(index: &[u16], q: usize, c: usize) -> Option<usize>
    ensures { MatchOption result (NoPlaceIn index.now q c) (λ place. IsPlaceIn index.now q c place) }
{
    if MAX_STATES <= q {
        return None;
    }
    if MAX_CONSTRUCTORS <= c {
        return None;
    }
    let place = place_at(index, PLACES_AT + (q * MAX_CONSTRUCTORS + c));
    if place == 0 { None } else { Some(place) }
}

// Enters where the n transitions of a file lie, the last one first, so that the first for a state and a constructor counts.
pub fn fill_rows(file: &[u8], index: &mut [u16], n: usize)
    ensures { FillsRows file.now index.old n index.new }
{
    if MAX_TRANSITIONS < n {
        return;
    }
    clear(index, PLACES_AT, MAX_TRANSITIONS);
    for k in (0..n).rev() {
        let at = place_at(index, TRANSITIONS_AT + k);
        let q = byte_at(file, at);
        let c = byte_at(file, at + 1);
        if q < MAX_STATES {
            if c < MAX_CONSTRUCTORS {
                store(index, PLACES_AT + (q * MAX_CONSTRUCTORS + c), at);
            }
        }
    }
}
