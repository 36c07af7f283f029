// Laws and theorems about the definitions of model: no code. Any number: a crate has at least one item.
#![tactic(auto)]

pub const LAWS: usize = 0;
