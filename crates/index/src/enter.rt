// The tables of the walk with one record more: stores, the argument counts of the sorts, the chains of the types.
ghost use Rattle.std.specs.Prelude.{◌≡◌, List, ℕ, ◌<◌};
ghost use Rattle.index.specs.entries.Chains.{hash_of_spec};
ghost use Rattle.index.specs.enter.Entering.{stored, lens_after, chains_after, Clears};

use crate::entries::place_at;
use crate::layout::{HASHES_AT, LAST_HASH, LINKS_AT};
use records::fields::word_at;

// Stores v at i of a table; a number of over two bytes, or a place past the end, changes nothing.
#[tactic(auto, unfolding(crate::specs::enter::Entering::stored))]
pub fn store(a: &mut [u16], i: usize, v: usize)
    ensures { a.new ≡ stored a.old i v }
{
    if let Ok(entry) = u16::try_from(v) {
        if i < a.len() {
            a[i] = entry;
        }
    }
}

// Sets n entries of a table, from number `from` on, to 0; a table that does not have all of them stays as it is.
pub fn clear(a: &mut [u16], from: usize, n: usize)
    ensures { Clears a.old from n a.new }
{
    if from <= a.len() && n <= a.len() - from {
        a[from..from + n].fill(0);
    }
}

// Enters the argument count of a sort with the payload p, after n others.
#[tactic(auto, unfolding(crate::specs::enter::Entering::lens_after))]
pub fn enter_sort(lens: &mut [u16], n: usize, p: &[u8])
    ensures { n < 65536 → lens.new ≡ lens_after lens.old 1 n p.now }
{
    if 65535 < n {
        return;
    }
    let to = word_at(p, 2);
    let arguments = place_at(lens, to);
    store(lens, n + 1, arguments + 1);
}

// Chains a type after n others by the hash h of its payload.
#[tactic(auto, using(crate::proofs::chains::Hashing::hash_few), unfolding(crate::specs::enter::Entering::chains_after))]
pub fn enter_type(index: &mut [u16], n: usize, h: usize)
    ensures { n < 65536 → (p : List ℕ) → h ≡ hash_of_spec p → index.new ≡ chains_after index.old 7 n p }
{
    if 65535 < n {
        return;
    }
    if LAST_HASH < h {
        return;
    }
    let head = HASHES_AT + h;
    let last = place_at(index, head);
    store(index, LINKS_AT + n, last);
    store(index, head, n + 1);
}
