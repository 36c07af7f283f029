// Small functions on lists and numbers that several crates share.
#![tactic(auto)]

pub mod copy;
pub mod find;
pub mod total;
