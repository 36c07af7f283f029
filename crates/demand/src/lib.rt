// Demands (accounts) in code.
#![tactic(auto)]

pub mod call;
pub mod fill;
pub mod matched;
pub mod signed;
