// What a vector program is made of: cases as lines of text, the lists in them, answers in print.
#![tactic(auto)]

pub mod kinds;
pub mod lines;
pub mod lists;
mod long;
pub mod print;
#[cfg(test)]
mod tests;
