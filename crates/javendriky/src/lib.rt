// The calls for C and Rust, on lent lists: each answers one number. That is the value, which is below 1,000,000, or a refusal's number × 1,000,000
// plus its place. include/javendriky.h tells callers the same in C. A file a family of calls.
#![tactic(auto)]

mod answers;
pub mod checks;
pub mod demands;
pub mod distances;
pub mod events;
pub mod plans;
pub mod sheets;
pub mod steps;
pub mod version;
pub mod wears;
pub mod yards;
