#![tactic(auto)]

pub mod check;
pub mod heads;
pub mod hints;
pub mod masks;
pub mod notes;
pub mod parts;
