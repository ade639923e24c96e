#![tactic(auto)]

pub mod groups;
