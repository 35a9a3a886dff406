// The answers to all label lines of an input, as one page.
#![tactic(auto)]

pub mod page;
