#![tactic(auto)]

pub mod chains;
pub mod enter;
pub mod entries;
pub mod layout;
pub mod lookup;
pub mod repeats;
