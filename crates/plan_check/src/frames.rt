// Binding cases, each judged in a frame: tables with room for so many nodes, types and bindings. What the tables of answers have no room
// for is worked out again; hints may be none.
ghost use Rattle.std.specs.Prelude.{ℕ, ◌<◌, ◌^◌};
ghost use Rattle.plan_check.specs.Promises.{HasTables, JudgesWithin, room_of};

use crate::rooms::Frame;
use binding_cases::{Shrunken, judge_bindings};
use index::layout::{
    ANSWERS, BROAD_ANSWERS, BROAD_SETS, BROAD_TABLE, BROAD_USERS, Counts, FEW_HINTS, HINTS, Index,
    MIDDLE_ANSWERS, MIDDLE_SETS, MIDDLE_TABLE, MIDDLE_USERS, MODEST_ANSWERS, MODEST_SETS,
    MODEST_TABLE, MODEST_USERS, NO_HINTS, PLAIN_ANSWERS, PLAIN_SETS, PLAIN_TABLE, PLAIN_USERS,
    Rows, SETS, SMALL_ANSWERS, SMALL_SETS, SMALL_TABLE, SMALL_USERS, TABLE, TEST_CELLS,
    TINY_ANSWERS, TINY_SETS, TINY_TABLE, TINY_USERS, USERS, WIDE_ANSWERS, WIDE_SETS, WIDE_TABLE,
    WIDE_USERS,
};

// What tests read in a frame: the numbers of a test, then the sets of candidates; and what they write: hints, then users, then answers.
// Each size has a name, since a const argument is not computed.
const TINY_READ: usize = TEST_CELLS + TINY_SETS;

const TINY_WRITE: usize = NO_HINTS + TINY_USERS + TINY_ANSWERS;

const SMALL_READ: usize = TEST_CELLS + SMALL_SETS;

const SMALL_WRITE: usize = NO_HINTS + SMALL_USERS + SMALL_ANSWERS;

const MODEST_READ: usize = TEST_CELLS + MODEST_SETS;

const MODEST_WRITE: usize = NO_HINTS + MODEST_USERS + MODEST_ANSWERS;

const PLAIN_READ: usize = TEST_CELLS + PLAIN_SETS;

const PLAIN_WRITE: usize = NO_HINTS + PLAIN_USERS + PLAIN_ANSWERS;

const BROAD_READ: usize = TEST_CELLS + BROAD_SETS;

const BROAD_WRITE: usize = FEW_HINTS + BROAD_USERS + BROAD_ANSWERS;

const MIDDLE_READ: usize = TEST_CELLS + MIDDLE_SETS;

const MIDDLE_WRITE: usize = HINTS + MIDDLE_USERS + MIDDLE_ANSWERS;

const WIDE_READ: usize = TEST_CELLS + WIDE_SETS;

const WIDE_WRITE: usize = NO_HINTS + WIDE_USERS + WIDE_ANSWERS;

const ALL_READ: usize = TEST_CELLS + SETS;

const ALL_WRITE: usize = HINTS + USERS + ANSWERS;

// What is kept of the bindings of a file, in tables of given sizes: the flat table, what tests read and what they write, of which so many
// cells are hints. What `firsts` holds does not matter, before or after; the index gets where its transitions lie. Each size stays a
// function of its own, so that a small file does not pay for large tables.
#[inline(never)]
fn bindings_within<const FLAT: usize, const READ: usize, const WRITE: usize>(
    file: &[u8],
    index: &mut Index,
    counts: &Counts,
    ends: &[u16],
    firsts: &mut Rows,
    hints: usize,
    flags: &mut [u8],
) -> Shrunken
    requires { (FLAT < 2 ^ 32) × (READ < 2 ^ 32) × (WRITE < 2 ^ 32) }
    ensures { (nodes types bindings : ℕ) → HasTables nodes types bindings FLAT READ WRITE hints → JudgesWithin nodes types bindings file.now index.old counts.now ends.now flags.old flags.new result.accepted result.kept result.total result.rounds }
{
    let mut t = [0u16; FLAT];
    let mut r = [0u32; READ];
    let mut w = [0u32; WRITE];
    judge_bindings(
        file, index, counts, ends, firsts, &mut t, &mut r, &mut w, hints, flags,
    )
}

// What is kept of the bindings of a file, in a frame.
pub(crate) fn bindings_in(
    frame: Frame,
    file: &[u8],
    index: &mut Index,
    counts: &Counts,
    ends: &[u16],
    firsts: &mut Rows,
    flags: &mut [u8],
) -> Shrunken
    ensures { let room = room_of frame in JudgesWithin room.nodes room.types room.bindings file.now index.old counts.now ends.now flags.old flags.new result.accepted result.kept result.total result.rounds }
{
    match frame {
        Frame::Tiny => bindings_within::<TINY_TABLE, TINY_READ, TINY_WRITE>(
            file, index, counts, ends, firsts, NO_HINTS, flags,
        ),
        Frame::Small => bindings_within::<SMALL_TABLE, SMALL_READ, SMALL_WRITE>(
            file, index, counts, ends, firsts, NO_HINTS, flags,
        ),
        Frame::Modest => bindings_within::<MODEST_TABLE, MODEST_READ, MODEST_WRITE>(
            file, index, counts, ends, firsts, NO_HINTS, flags,
        ),
        Frame::Plain => bindings_within::<PLAIN_TABLE, PLAIN_READ, PLAIN_WRITE>(
            file, index, counts, ends, firsts, NO_HINTS, flags,
        ),
        Frame::Broad => bindings_within::<BROAD_TABLE, BROAD_READ, BROAD_WRITE>(
            file, index, counts, ends, firsts, FEW_HINTS, flags,
        ),
        Frame::Middle => bindings_within::<MIDDLE_TABLE, MIDDLE_READ, MIDDLE_WRITE>(
            file, index, counts, ends, firsts, HINTS, flags,
        ),
        Frame::Wide => bindings_within::<WIDE_TABLE, WIDE_READ, WIDE_WRITE>(
            file, index, counts, ends, firsts, NO_HINTS, flags,
        ),
        Frame::All => bindings_within::<TABLE, ALL_READ, ALL_WRITE>(
            file, index, counts, ends, firsts, HINTS, flags,
        ),
    }
}
