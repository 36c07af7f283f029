// Algorithms 2 to 4 of the source, on tables of children and demands kept beside the pebbles.
#![tactic(auto)]

pub mod choose;
pub mod pebble;
pub mod state;
pub mod tree;
