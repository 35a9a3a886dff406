// Line maps: what they tell of a text, and what is read through them.
#![tactic(auto)]

pub mod map;
pub mod place;
pub mod plain;
pub mod reading;
