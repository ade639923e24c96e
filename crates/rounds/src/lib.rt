#![tactic(auto)]

pub mod dropping;
pub mod shrinking;
pub mod tested;
