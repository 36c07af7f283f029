// Events at a node: a pebble arrives or leaves, a target is set or cleared, and the demand list is brought up to date.
#![tactic(auto)]

pub mod call;
mod counts;
mod update;
