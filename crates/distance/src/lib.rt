// The nearest pebble, and the pebbles within reach.
#![tactic(auto)]

pub mod call;
mod far;
mod look;
