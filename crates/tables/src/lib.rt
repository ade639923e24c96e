#![tactic(auto)]

pub mod automaton;
pub mod bits;
pub mod candidates;
pub mod nodes;
pub mod reading;
pub mod table;
pub mod types;
