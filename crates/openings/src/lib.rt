// Every good opening (request 2.13): the moves with which some shortest plan starts.
#![tactic(auto)]

pub mod call;
pub mod edges;
pub mod list;
