// Wear within a stretch of moves (request 2.12).
#![tactic(auto)]

pub mod call;
pub mod count;
