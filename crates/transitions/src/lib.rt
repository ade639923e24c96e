#![tactic(auto)]

pub mod places;
pub mod rows;
pub mod table;
