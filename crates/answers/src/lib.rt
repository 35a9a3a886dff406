// Answers to label lines, and the lines that tell faults, written into a buffer of the caller's.
#![tactic(auto)]

pub mod answer;
pub mod faults;
mod row;
