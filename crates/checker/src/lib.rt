// The checker and the trial.
#![tactic(auto)]

pub mod check;
pub mod obey;
pub mod trial;
