// Lines of a source: what ends them, and how the next break is found.
#![tactic(auto)]

pub mod breaks;
pub mod cursor;
pub mod endings;
pub mod examples;
pub mod laws;
pub mod records;
pub mod text;
