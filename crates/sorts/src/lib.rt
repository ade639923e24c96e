#![tactic(auto)]

pub mod codes;
pub mod steps;
