// The test of a rule record, 4 to 7.
ghost use Rattle.std.specs.Prelude.{◌≡◌, ℕ, ◌+◌, ◌≤◌, [], ◌∷◌, length, get_or};
ghost use Rattle.scheme.specs.Lists.{any};
ghost use Rattle.casefile.specs.Tables.{cells_of};
ghost use Rattle.casefile.specs.Refusals.{wrong_cell_spec};
ghost use Rattle.record_tests.specs.rule_record.Cells.{cell_from};
ghost use Rattle.index.specs.entries.Tests.{TestsRule};
ghost use Rattle.records.specs.refusal.Numbers.{code_of};

use index::entries::place_at;
use index::layout::{MAX_ARGUMENTS, MAX_BODY, MAX_NONTERMINALS, NODE, NONTERMINALS_AT};
use records::fields::{byte_at, word_at};
use records::refusal::Fault;

// How many entries the numbers of a body's nodes may name.
#[derive(Clone, Copy)]
struct Entries {
    constructors: usize,
    nonterminals: usize,
    parameters: usize,
}

impl Entries {
    // How many a tag's numbers have: 0 constructors, 1 nonterminals, else parameters.
    fn of_tag(self, tag: usize) -> usize
        ensures { result ≡ get_or (self.constructors ∷ self.nonterminals ∷ []) tag self.parameters }
    {
        match tag {
            0 => self.constructors,
            1 => self.nonterminals,
            _ => self.parameters,
        }
    }

    // Whether a node is out of range: its tag, its number, or its argument count.
    #[tactic(auto, unfolding(casefile::specs::Refusals::wrong_cell_spec))]
    fn exclude(self, node: &[u8]) -> bool
        ensures { result ≡ wrong_cell_spec self.constructors self.nonterminals self.parameters (cell_from node.now 0) }
    {
        let tag = byte_at(node, 0);
        let number = word_at(node, 1);
        let count = byte_at(node, 3);
        2 < tag || self.of_tag(tag) <= number || MAX_ARGUMENTS < count
    }

    // Whether a node of a body is out of range.
    fn exclude_any(self, body: &[u8]) -> bool
        ensures { result ≡ any (wrong_cell_spec self.constructors self.nonterminals self.parameters) (cells_of body.now) }
    {
        body.chunks_exact(NODE).any(|node| self.exclude(node))
    }
}

// Tests the payload p of a rule after n rules, with a given number of sorts, constructors and nonterminals.
pub fn test_rule(
    file: &[u8],
    index: &[u16],
    lens: &[u16],
    n: usize,
    constructors: usize,
    nonterminals: usize,
    p: &[u8],
) -> Result<(), Fault>
    ensures { (sorts : ℕ) → TestsRule file.now index.now lens.now n sorts constructors nonterminals p.now (code_of result) }
{
    if p.len() < NODE {
        return Err(Fault::WrongLength);
    }
    if p.len() % NODE != 0 {
        return Err(Fault::WrongLength);
    }
    if MAX_BODY < p.len() {
        return Err(Fault::OverLimit);
    }
    if nonterminals <= n {
        return Err(Fault::OutOfRange);
    }
    if MAX_NONTERMINALS <= n {
        return Err(Fault::OutOfRange);
    }
    let s = word_at(file, place_at(index, NONTERMINALS_AT + n));
    let entries = Entries {
        constructors,
        nonterminals,
        parameters: place_at(lens, s),
    };
    if entries.exclude_any(p) {
        return Err(Fault::OutOfRange);
    }
    Ok(())
}
