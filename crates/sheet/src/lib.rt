// Yard sheets, move sheets and refusals written as bytes.
#![tactic(auto)]

pub mod decimal;
pub mod line;
pub mod output;
pub mod report;
pub mod writer;
