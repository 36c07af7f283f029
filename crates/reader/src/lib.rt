// Yard sheets read: bytes into four lists.
#![tactic(auto)]

pub mod line;
pub mod read;
