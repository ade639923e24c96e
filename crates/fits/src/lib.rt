#![tactic(auto)]

pub mod fits;
pub mod masks;
pub mod misfits;
