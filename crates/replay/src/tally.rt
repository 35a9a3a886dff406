// How many answers agree, and how many differ in which way.
use crate::departures::{Departure, Outcome};
use std::fmt;

#[derive(Clone, Copy, Default)]
pub struct Tally {
    pub reads: u64,
    pub look_ups: u64,
    pub agree: u64,
    pub column: u64,
    pub empty_at_0: u64,
    pub otherwise: u64,
}

impl Tally {
    // One answer more.
    pub fn count(&mut self, outcome: Outcome) {
        let place = match outcome {
            Ok(()) => &mut self.agree,
            Err(Some(Departure::Column)) => &mut self.column,
            Err(Some(Departure::EmptyAtZero)) => &mut self.empty_at_0,
            Err(None) => &mut self.otherwise,
        };
        *place = place.saturating_add(1);
    }
}

impl fmt::Display for Tally {
    fn fmt<W: fmt::Write>(&self, f: &mut fmt::Formatter<W>) -> fmt::Result {
        let Tally {
            reads,
            look_ups,
            agree,
            column,
            empty_at_0,
            otherwise,
        } = *self;
        write!(
            f,
            "Replayed {reads} readings and {look_ups} look-ups: {agree} agree, {column} differ by the column, {empty_at_0} by the empty span at 0, and {otherwise} otherwise."
        )
    }
}
