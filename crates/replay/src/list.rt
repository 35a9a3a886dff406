// The list of the original's answers, held against this repository's.
use crate::departures::{Outcome, departure_of};
use crate::rows::{Answer, Row, bytes_of};
use crate::tally::Tally;
use call_runs::calls::{Call, Told};
use call_runs::run::run;
use label_lines::label::Label;
use line_maps::plain::PlainScan;
use lines::records::{Place, Window};
use payloads::reader::fresh_reading;
use std::alloc::Global;

// The list at one of its rows: the source that the rows before it named, and how their answers compare.
#[derive(Drop)]
pub struct List {
    heap: Global,
    source: Vec<u8>,
    tally: Tally,
}

impl List {
    pub fn new(heap: Global) -> List {
        List {
            heap,
            source: Vec::new(heap),
            tally: Tally::default(),
        }
    }

    pub fn tally(&self) -> Tally {
        self.tally
    }

    // How the row's answer compares; a row without one agrees.
    pub fn replay(&mut self, row: &str) -> anyhow::Result<Outcome> {
        let source = self.source.as_slice();
        let (agrees, label) = match Row::parse(row)? {
            Row::Comment => return Ok(Ok(())),
            Row::Source(hex) => {
                // The source before goes first, so that memory never holds the two.
                self.source = Vec::new(self.heap);
                self.source = bytes_of(self.heap, hex)?;
                return Ok(Ok(()));
            }
            Row::Read(label, answer) => {
                self.tally.reads = self.tally.reads.saturating_add(1);
                (reading_agrees(source, label, answer), label)
            }
            Row::Look(label, at, answer) => {
                self.tally.look_ups = self.tally.look_ups.saturating_add(1);
                (look_up_agrees(source, label, at, answer), label)
            }
        };
        let outcome = if agrees {
            Ok(())
        } else {
            Err(departure_of(source, label))
        };
        self.tally.count(outcome);
        Ok(outcome)
    }
}

// A reading agrees if the fresh reading and the read over a line map do.
fn reading_agrees(source: &[u8], label: Label, answer: Answer<Window>) -> bool {
    let payload = fresh_reading(source, label.span, label.context);
    let window = payload.map(|payload| payload.window());
    answer == Some(window)
        && ask(source, Call::Read(label.span, label.context)) == Told::Shown(window)
        && payload.is_none_or(|payload| payload.data().len() == payload.span().len() as usize)
}

// A look-up agrees if it does in the payload and, from the payload's start on, by a locate over a line map.
fn look_up_agrees(source: &[u8], label: Label, at: u32, answer: Answer<Place>) -> bool {
    let Some(payload) = fresh_reading(source, label.span, label.context) else {
        return false;
    };
    let place = payload.line_column_at(at);
    let located = place.is_none()
        || at < payload.span().offset()
        || ask(source, Call::Locate(at)) == Told::Located(place);
    answer == Some(place) && located
}

// What a call on the plain scan of the source tells.
fn ask(source: &[u8], call: Call) -> Told {
    let mut map = PlainScan::new(source);
    let mut told = [Told::Nothing; 1];
    let _ = run(&mut map, &mut [], &[call], &mut told);
    told[0]
}
