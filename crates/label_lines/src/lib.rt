// Label lines: the parts of a line, the numbers in its fields, and what may be wrong with them.
#![tactic(auto)]

pub mod faults;
mod fields;
pub mod label;
pub mod parts;
