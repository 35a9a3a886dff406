// The line table: a row for each line of a source.
#![tactic(auto)]

pub mod line;
mod split;
pub mod table;
pub mod tally;
