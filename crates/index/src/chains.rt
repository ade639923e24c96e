// Types by the hash of their payloads, test 7.
ghost use Rattle.std.specs.Prelude.{◌≡◌};
ghost use Rattle.index.specs.entries.Chains.{hash_of_spec};
ghost use Rattle.index.specs.chains.Listing.{Listed};

use crate::entries::place_at;
use crate::layout::{HASHES_AT, LAST_HASH, LINKS_AT, TYPES_AT};
use crate::lookup::has_payload;
use records::fields::{byte_at, word_at};

// The hash of a payload, below 256.
#[tactic(auto, using(crate::proofs::chains::Hashing::mix_start, crate::proofs::chains::Hashing::mix_step, crate::proofs::chains::Hashing::mix_done))]
pub fn hash_of(p: &[u8]) -> usize
    ensures { result ≡ hash_of_spec p.now }
{
    let mut h = byte_at(p, 0) * 256;
    for i in 0..p.len() / 2 {
        let w = word_at(p, 2 * i);
        h = (h + w) * 40503 % 65536;
    }
    h / 256 % 256
}

// Whether one of the types that are chained in the index has the payload p, whose hash is h: only types of that hash are
// compared with it.
pub fn listed(file: &[u8], index: &[u16], h: usize, p: &[u8]) -> bool
    ensures { h ≡ hash_of_spec p.now → Listed file.now index.now p.now result }
{
    if LAST_HASH < h {
        return false;
    }
    let mut last = place_at(index, HASHES_AT + h);
    // Not a `for`: each step goes where the link of the one before leads.
    while 0 < last {
        let i = last - 1;
        if has_payload(file, index, TYPES_AT + i, p) {
            return true;
        }
        let before = place_at(index, LINKS_AT + i);
        // A chain only falls.
        if i < before {
            return false;
        }
        last = before;
    }
    false
}
