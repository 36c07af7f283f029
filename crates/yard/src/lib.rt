// One step, a push of lists, and the yard state with its push.
#![tactic(auto)]

pub mod push;
pub mod state;
pub mod step;
