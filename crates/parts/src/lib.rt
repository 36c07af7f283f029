// Two pushers at work (request 2.11): the parts into which a yard falls where every edge of demand 0 is cut, named and planned one after another.
#![tactic(auto)]

pub mod name;
pub mod plan;
