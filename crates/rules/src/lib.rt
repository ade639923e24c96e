#![tactic(auto)]

pub mod first_nodes;
pub mod reading;
pub mod rules;
