// The test of one binding against those that are kept, and its mark where it fails.
ghost use Rattle.std.specs.Prelude.{◌≡◌, ◌≤◌, ◌+◌, ◌/◌, ◌%◌, length, drop};
ghost use Rattle.index.specs.layout.Layout.{row_limit, word_bits, test_users, test_cells};
ghost use Rattle.term_check.specs.Worlds.{answers_of, users_of};
ghost use Rattle.rounds.specs.tested.Tested.{Same, Writes, Freshens, Fails, TestsBinding, Retests};

use index::entries::place_at;
use index::layout::{
    LAST_TEST, MAX_BINDINGS, NODE_CELLS, PLACE_LIMIT, ROW_LIMIT, TEST_ANSWERS, TEST_USERS, WORD,
};
use marks::put_in;
use records::fields::byte_at;
use tables::reading::{end_of, own_of, symbol_of};
use term_check::check::check_term;
use term_check::parts::split_of;

// The sizes of a case: where the nodes begin in the flat table, how many goals and how many bindings there are.
#[derive(Clone, Copy)]
pub struct Sizes {
    pub nodes: usize,
    pub goals: usize,
    pub bindings: usize,
}

impl Sizes {
    // How many bindings there are, a number below ROW_LIMIT.
    pub fn total(self) -> usize
        ensures { result ≡ self.bindings % row_limit }
    {
        self.bindings % ROW_LIMIT
    }

    // How many words a set of bindings has.
    pub fn words(self) -> usize
        ensures { result ≡ (self.bindings % row_limit + 31) / word_bits }
    {
        self.total().div_ceil(WORD)
    }
}

// Those that failed in a turn: the least binding, and one more than the greatest.
#[derive(Clone, Copy)]
pub struct Failures {
    pub least: usize,
    pub past: usize,
}

// The course of a turn: the number of the last test, and those that failed, if any did.
#[derive(Clone, Copy)]
pub struct Course {
    pub last: u32,
    pub failures: Option<Failures>,
}

impl Course {
    // The course after binding b failed in the last test, and is greater than those that failed before.
    fn with_failed(self, last: u32, b: usize) -> Course
        ensures { Fails self last b result }
    {
        let least = match self.failures {
            Some(failures) => failures.least,
            None => b,
        };
        let past = b % ROW_LIMIT + 1;
        Course {
            last,
            failures: Some(Failures { least, past }),
        }
    }
}

// A number for the test behind test number `last`; where there is none the answers are cleared, and the numbers begin again.
fn freshen(r: &[u32], w: &mut [u32], last: u32) -> u32
    ensures { (length w.new ≡ length w.old) × (users_of r.now w.new ≡ users_of r.now w.old) × Freshens (answers_of r.now w.old) last (answers_of r.now w.new) result }
{
    if last < LAST_TEST {
        return last + 1;
    }
    let split = split_of(r, w);
    w[split..].fill(0);
    1
}

// Writes the numbers of a test in front of the sets of candidates, but for those that say where users and answers begin. Copied by
// copy_from_slice they would go through memory twice, which is 3 of 100 instructions of a call with 1,024 bindings.
fn set_test(test: &[u32; TEST_USERS], r: &mut [u32])
    requires { test_users ≤ length r.old }
    ensures { Writes test.now r.old r.new }
{
    for (k, number) in test.iter().enumerate() {
        r[k] = *number;
    }
}

// Whether binding b holds against those that are kept: its nonterminal's body has the final state of its type. What a yes rests on
// is noted. Where there is no room for the numbers of a test there is none for notes.
fn holds(
    t: &[u16],
    firsts: &[u16],
    sizes: Sizes,
    r: &mut [u32],
    w: &mut [u32],
    stamp: u32,
    b: usize,
) -> bool
    ensures { (length w.new ≡ length w.old) × Same r.old r.new × TestsBinding t.now (drop test_cells r.old) firsts.now sizes (answers_of r.old w.old) (users_of r.old w.old) stamp b (answers_of r.old w.new) (users_of r.old w.new) result }
{
    if r.len() <= TEST_ANSWERS {
        return false;
    }
    let own = own_of(t, b);
    let first = place_at(firsts, symbol_of(t, b));
    let base = sizes.nodes % PLACE_LIMIT + first * NODE_CELLS;
    let number = b % MAX_BINDINGS;
    let words = sizes.words();
    let wide = (sizes.goals % ROW_LIMIT).div_ceil(WORD);
    let total = sizes.total();
    let test: [u32; TEST_USERS] = [
        own as u32,
        base as u32,
        number as u32,
        stamp,
        wide as u32,
        words as u32,
        total as u32,
    ];
    set_test(&test, r);
    let goal = end_of(t, own);
    check_term(t, r, w, 0, goal)
}

// Tests binding b where its flag says kept, and marks it where it fails. The course after the test is returned.
pub fn retest(
    t: &[u16],
    firsts: &[u16],
    sizes: Sizes,
    flags: &[u8],
    r: &mut [u32],
    w: &mut [u32],
    failed: &mut [u32],
    n: Course,
    b: usize,
) -> Course
    ensures { (length w.new ≡ length w.old) × Same r.old r.new × (length failed.new ≡ length failed.old) × Retests t.now (drop test_cells r.old) firsts.now sizes flags.now (answers_of r.old w.old) (users_of r.old w.old) failed.old n b (answers_of r.old w.new) (users_of r.old w.new) failed.new result }
{
    if byte_at(flags, b) == 0 {
        return n;
    }
    let stamp = freshen(r, w, n.last);
    if holds(t, firsts, sizes, r, w, stamp, b) {
        return Course { last: stamp, ..n };
    }
    put_in(failed, 0, b);
    n.with_failed(stamp, b)
}
