// Windows with their bytes: readings of one span, and look-ups in them.
#![tactic(auto)]

pub mod contents;
pub mod reader;
mod walk;
