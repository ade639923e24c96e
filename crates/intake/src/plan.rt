// The tests of the plan over the whole file, 8 and 9.
ghost use Rattle.std.specs.Prelude.{◌≡◌, ◌||◌, not, List, ℕ, eqb};
ghost use Rattle.casefile.specs.Records.{Record};
ghost use Rattle.casefile.specs.Kinds.{states, nonterminal, rule, count};
ghost use Rattle.index.specs.entries.Known.{Known};
ghost use Rattle.intake.specs.plan.PlanTests.{TestsPlan};

use index::entries::{count_of, place_at, place_of};
use index::layout::{NONTERMINALS_AT, RULES_AT, Rows};
use records::fields::word_at;
use records::kind::Kind;
use records::refusal::{Fault, Refusal};
use rules::rules::first_wrong_body;

// Whether 8 is met: no states record, no nonterminal, or other than as many rules as nonterminals.
fn counts_wrong(counts: &[u16]) -> bool
    ensures { (file index lens : List ℕ) (rs : List Record) → Known file index lens counts.now rs → result ≡ (eqb (count states rs) 0 || eqb (count nonterminal rs) 0 || not (eqb (count rule rs) (count nonterminal rs))) }
{
    let states = count_of(counts, Kind::States);
    let nonterminals = count_of(counts, Kind::Nonterminal);
    let rules = count_of(counts, Kind::Rule);
    states == 0 || nonterminals == 0 || rules != nonterminals
}

// The tests of the plan, 8 and 9; `ends` gets the ends of the subterms of all bodies.
// `codes` and `depths` are tables to work in: what they hold does not matter, before or after.
pub(crate) fn test_plan(
    file: &[u8],
    index: &[u16],
    counts: &[u16],
    ends: &mut [u16],
    codes: &mut Rows,
    depths: &mut Rows,
) -> Result<(), Refusal>
    ensures { TestsPlan file.now index.now counts.now ends.old ends.new result }
{
    if counts_wrong(counts) {
        return Err(Fault::Incomplete.at(0));
    }
    let start = place_at(index, NONTERMINALS_AT);
    if word_at(file, start) != 0 {
        return Err(Fault::WrongBody.at(place_of(index, NONTERMINALS_AT)));
    }
    let sorts = count_of(counts, Kind::Sort);
    let constructors = count_of(counts, Kind::Constructor);
    let rules = count_of(counts, Kind::Rule);
    let wrong = first_wrong_body(
        file,
        index,
        sorts,
        constructors,
        rules,
        rules,
        ends,
        codes,
        depths,
    );
    match wrong {
        Some(f) => Err(Fault::WrongBody.at(place_of(index, RULES_AT + f))),
        None => Ok(()),
    }
}
