#![tactic(auto)]

pub mod evidence;
pub mod intake;
pub mod plan;
