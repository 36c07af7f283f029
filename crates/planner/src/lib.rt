// The planner: Algorithm 1 of the source over Algorithms 2 to 4, and the call.
#![tactic(auto)]

pub mod balance;
pub mod plan;
pub mod state;
