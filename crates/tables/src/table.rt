// The flat table of a file.
ghost use Rattle.tables.specs.Filling.{FillsTable};
ghost use Rattle.tables.specs.table.Parts.{FillsGroups};

use crate::automaton::fill_automaton;
use crate::nodes::fill_nodes;
use crate::types::{fill_bindings, fill_states, fill_types};
use goals::groups::fill_groups;
use index::entries::count_of;
use index::layout::{GROUPS_AT, MAX_STATES, PAIRS_AT, ROW_CELLS, ROWS_AT};
use records::kind::Kind;

// Enters the groups of n bindings by nonterminal.
fn enter_groups(file: &[u8], index: &[u16], n: usize, last: usize, t: &mut [u16])
    ensures { FillsGroups file.now index.now n last t.old t.new }
{
    if t.len() < PAIRS_AT {
        return;
    }
    fill_groups(file, index, n, last, &mut t[GROUPS_AT..PAIRS_AT]);
}

// Fills the table, and says where its nodes begin.
pub fn fill_table(
    file: &[u8],
    index: &[u16],
    counts: &[u16],
    ends: &[u16],
    firsts: &[u16],
    t: &mut [u16],
) -> usize
    ensures { FillsTable file.now index.now counts.now ends.now firsts.now t.old t.new result }
{
    let types = count_of(counts, Kind::Type);
    let bindings = count_of(counts, Kind::Binding);
    let nonterminals = count_of(counts, Kind::Nonterminal);
    let constructors = count_of(counts, Kind::Constructor);
    let rules = count_of(counts, Kind::Rule);
    let at = ROWS_AT + (types + MAX_STATES) * ROW_CELLS;
    enter_groups(file, index, bindings, nonterminals, t);
    fill_automaton(file, index, constructors, t);
    fill_states(t);
    fill_types(file, index, types, t);
    fill_bindings(file, index, bindings, t);
    fill_nodes(file, index, ends, firsts, rules, at, t);
    at
}
