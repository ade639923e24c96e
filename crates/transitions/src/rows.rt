// The row of the transition table for a state and a constructor, and a constructor's argument count.
ghost use Rattle.transitions.specs.rows.Rows.{IsRow, IsArity};

use index::entries::place_at;
use index::layout::{CONSTRUCTORS_AT, MAX_CONSTRUCTORS, MAX_STATES, NO_TARGET, Row, Transitions};
use records::fields::byte_at;

// The row of the table for a state and a constructor; none where there is no transition, which the table says by 255.
pub fn row_of(table: &Transitions, constructors: usize, state: usize, c: usize) -> Option<Row>
    ensures { IsRow table.now constructors state c result }
{
    if MAX_STATES <= state || constructors <= c || MAX_CONSTRUCTORS <= c {
        return None;
    }
    let row = table[state][c];
    if row[0] == NO_TARGET { None } else { Some(row) }
}

// The argument count of a constructor; 0 where there is none, as in the definitions.
pub fn arity_of(file: &[u8], index: &[u16], constructors: usize, c: usize) -> usize
    ensures { IsArity file.now index.now constructors c result }
{
    if constructors <= c || MAX_CONSTRUCTORS <= c {
        return 0;
    }
    byte_at(file, place_at(index, CONSTRUCTORS_AT + c))
}
