// The figures bound and displaced (disturbed), and the longest plan of n nodes.
#![tactic(auto)]

pub mod bound;
pub mod displaced;
