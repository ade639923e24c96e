// A record by its kind: its test, 3 to 7, and its entry in the tables of the walk where it passes.
ghost use Rattle.std.specs.Prelude.{◌≡◌, List, ℕ, ◌<◌, ◌≤◌};
ghost use Rattle.casefile.specs.Records;
ghost use Rattle.casefile.specs.Kinds;
ghost use Rattle.casefile.specs.Kinds.{number};
ghost use Rattle.casefile.specs.Tables.{state_count_spec};
ghost use Rattle.index.specs.entries.Index.{base, Indexed};
ghost use Rattle.index.specs.entries.Tests.{Fitting};
ghost use Rattle.records.specs.cursor.Reading.{part_of};
ghost use Rattle.records.specs.kind.Kinds.{kind_as};
ghost use Rattle.records.specs.refusal.Numbers.{code_of};
ghost use Rattle.walk.specs.kinds.Taking.{Adds, Taken};

use index::chains::hash_of;
use index::enter::{enter_sort, enter_type, store};
use index::entries::{count_of, place_at};
use index::layout::{
    BINDINGS_AT, CONSTRUCTORS_AT, NONTERMINALS_AT, PATH_AT, RULES_AT, SORTS_AT, STATES_AT,
    TRANSITIONS_AT, TYPES_AT,
};
use record_tests::once::{test_path, test_states};
use record_tests::ordered::{test_binding, test_transition};
use record_tests::rule_record::test_rule;
use record_tests::sort_record::test_sort;
use record_tests::symbols::{test_constructor, test_nonterminal};
use record_tests::type_record::test_type;
use records::cursor::Record;
use records::fields::byte_at;
use records::kind::Kind;
use records::refusal::Fault;

// How many states there are, by the n states records.
fn state_count(file: &[u8], index: &[u16], n: usize) -> usize
    ensures { (rs : List Records.Record) → Indexed file.now index.now Kinds.states n rs → Fitting Kinds.states n rs → n ≤ 1 → result ≡ state_count_spec rs }
{
    if n == 0 {
        0
    } else {
        byte_at(file, place_at(index, STATES_AT))
    }
}

// Where the entries of a kind begin in the index.
fn entries_at(kind: Kind) -> usize
    ensures { (result ≡ base (kind_as kind)) × (result < 65536) }
{
    match kind {
        Kind::Sort => SORTS_AT,
        Kind::Constructor => CONSTRUCTORS_AT,
        Kind::Nonterminal => NONTERMINALS_AT,
        Kind::Rule => RULES_AT,
        Kind::States => STATES_AT,
        Kind::Transition => TRANSITIONS_AT,
        Kind::Type => TYPES_AT,
        Kind::Binding => BINDINGS_AT,
        Kind::Path => PATH_AT,
    }
}

// Enters a record behind the others of its kind: the index gets where its payload begins, and the counts one more of the kind.
fn add_entry(index: &mut [u16], counts: &mut [u16], kind: Kind, start: usize)
    ensures { Adds index.old counts.old (kind_as kind) start index.new counts.new }
{
    let n = count_of(counts, kind);
    store(index, entries_at(kind) + n, start);
    store(counts, usize::from(kind), n + 1);
}

// A function for each kind: with one test and one entry for all kinds a file took 5 percent more instructions. The tables are lent
// one by one: once one that is lent in a struct is read, its entries are no longer known, so that each function took the struct apart.

// A record of a kind, here a sort, with the payload p, which begins at start: the first of 4 to 7 that is met, or none, and then
// the record is entered in the tables, behind the others of its kind. Where it is refused they stay as they are.
fn take_sort(
    file: &[u8],
    index: &mut [u16],
    lens: &mut [u16],
    counts: &mut [u16],
    start: usize,
    p: &[u8],
) -> Result<(), Fault>
    ensures { Taken file.now index.old lens.old counts.old (number Kinds.sort) start p.now index.new lens.new counts.new (code_of result) }
{
    let n = count_of(counts, Kind::Sort);
    test_sort(file, index, lens, n, p)?;
    add_entry(index, counts, Kind::Sort, start);
    enter_sort(lens, n, p);
    Ok(())
}

// The same for a constructor.
fn take_constructor(
    index: &mut [u16],
    counts: &mut [u16],
    start: usize,
    p: &[u8],
) -> Result<(), Fault>
    ensures { (file lens : List ℕ) → Taken file index.old lens counts.old (number Kinds.constructor) start p.now index.new lens counts.new (code_of result) }
{
    let n = count_of(counts, Kind::Constructor);
    test_constructor(n, p)?;
    add_entry(index, counts, Kind::Constructor, start);
    Ok(())
}

// The same for a nonterminal.
fn take_nonterminal(
    index: &mut [u16],
    counts: &mut [u16],
    start: usize,
    p: &[u8],
) -> Result<(), Fault>
    ensures { (file lens : List ℕ) → Taken file index.old lens counts.old (number Kinds.nonterminal) start p.now index.new lens counts.new (code_of result) }
{
    let n = count_of(counts, Kind::Nonterminal);
    let sorts = count_of(counts, Kind::Sort);
    test_nonterminal(sorts + 1, n, p)?;
    add_entry(index, counts, Kind::Nonterminal, start);
    Ok(())
}

// The same for a rule.
fn take_rule(
    file: &[u8],
    index: &mut [u16],
    lens: &[u16],
    counts: &mut [u16],
    start: usize,
    p: &[u8],
) -> Result<(), Fault>
    ensures { Taken file.now index.old lens.now counts.old (number Kinds.rule) start p.now index.new lens.now counts.new (code_of result) }
{
    let n = count_of(counts, Kind::Rule);
    let constructors = count_of(counts, Kind::Constructor);
    let nonterminals = count_of(counts, Kind::Nonterminal);
    test_rule(file, index, lens, n, constructors, nonterminals, p)?;
    add_entry(index, counts, Kind::Rule, start);
    Ok(())
}

// The same for the states.
fn take_states(index: &mut [u16], counts: &mut [u16], start: usize, p: &[u8]) -> Result<(), Fault>
    ensures { (file lens : List ℕ) → Taken file index.old lens counts.old (number Kinds.states) start p.now index.new lens counts.new (code_of result) }
{
    let n = count_of(counts, Kind::States);
    test_states(n, p)?;
    add_entry(index, counts, Kind::States, start);
    Ok(())
}

// The same for a transition.
fn take_transition(
    file: &[u8],
    index: &mut [u16],
    counts: &mut [u16],
    start: usize,
    p: &[u8],
) -> Result<(), Fault>
    ensures { (lens : List ℕ) → Taken file.now index.old lens counts.old (number Kinds.transition) start p.now index.new lens counts.new (code_of result) }
{
    let n = count_of(counts, Kind::Transition);
    let states = state_count(file, index, count_of(counts, Kind::States));
    let constructors = count_of(counts, Kind::Constructor);
    test_transition(file, index, n, states, constructors, p)?;
    add_entry(index, counts, Kind::Transition, start);
    Ok(())
}

// The same for a type; its hash serves the test and the entry.
fn take_type(
    file: &[u8],
    index: &mut [u16],
    counts: &mut [u16],
    start: usize,
    p: &[u8],
) -> Result<(), Fault>
    ensures { (lens : List ℕ) → Taken file.now index.old lens counts.old (number Kinds.type) start p.now index.new lens counts.new (code_of result) }
{
    let n = count_of(counts, Kind::Type);
    let states = state_count(file, index, count_of(counts, Kind::States));
    let h = hash_of(p);
    test_type(file, index, n, states, h, p)?;
    add_entry(index, counts, Kind::Type, start);
    enter_type(index, n, h);
    Ok(())
}

// The same for a binding.
fn take_binding(
    file: &[u8],
    index: &mut [u16],
    counts: &mut [u16],
    start: usize,
    p: &[u8],
) -> Result<(), Fault>
    ensures { (lens : List ℕ) → Taken file.now index.old lens counts.old (number Kinds.binding) start p.now index.new lens counts.new (code_of result) }
{
    let n = count_of(counts, Kind::Binding);
    let nonterminals = count_of(counts, Kind::Nonterminal);
    let types = count_of(counts, Kind::Type);
    test_binding(file, index, n, nonterminals, types, p)?;
    add_entry(index, counts, Kind::Binding, start);
    Ok(())
}

// The same for a path.
fn take_path(index: &mut [u16], counts: &mut [u16], start: usize, p: &[u8]) -> Result<(), Fault>
    ensures { (file lens : List ℕ) → Taken file index.old lens counts.old (number Kinds.path) start p.now index.new lens counts.new (code_of result) }
{
    let n = count_of(counts, Kind::Path);
    test_path(n, p)?;
    add_entry(index, counts, Kind::Path, start);
    Ok(())
}

// A record of a file, by its kind: the first of 3 to 7 that it meets, or none, and then it is entered in the tables, behind the
// others of its kind. Where it is refused they stay as they are.
pub(crate) fn take(
    file: &[u8],
    index: &mut [u16],
    lens: &mut [u16],
    counts: &mut [u16],
    found: Record,
) -> Result<(), Fault>
    ensures { Taken file.now index.old lens.old counts.old found.kind found.start (part_of file.now found.start found.len) index.new lens.new counts.new (code_of result) }
{
    let start = found.start;
    let p = found.payload(file);
    match Kind::try_from(found.kind)? {
        Kind::Sort => take_sort(file, index, lens, counts, start, p),
        Kind::Constructor => take_constructor(index, counts, start, p),
        Kind::Nonterminal => take_nonterminal(index, counts, start, p),
        Kind::Rule => take_rule(file, index, lens, counts, start, p),
        Kind::States => take_states(index, counts, start, p),
        Kind::Transition => take_transition(file, index, counts, start, p),
        Kind::Type => take_type(file, index, counts, start, p),
        Kind::Binding => take_binding(file, index, counts, start, p),
        Kind::Path => take_path(index, counts, start, p),
    }
}
