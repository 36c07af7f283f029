// The test of four lists: refusals 1 to 7. Wherever 1 to 6 are named, 26 and 27 are two of them, in the place of 3 (request 2.10).
#![tactic(auto)]

pub mod circle;
pub mod root;
pub mod test;
pub mod totals;
pub mod tree;
