// A code is that of the first test that a record meets: the proofs open these definitions.
#![tactic(auto, unfolding(index::specs::entries::Codes::code_for, casefile::specs::Refusals::wrong_length, casefile::specs::Refusals::too_many, casefile::specs::Refusals::too_large, casefile::specs::Refusals::out_of_range, casefile::specs::Refusals::misplaced))]

pub mod once;
pub mod ordered;
pub mod rule_record;
pub mod sort_record;
pub mod symbols;
pub mod type_record;
