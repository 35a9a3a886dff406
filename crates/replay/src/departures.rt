// The two ways in which the original's answers depart from the rules. A label alone decides under which one it falls.
use label_lines::label::Label;
use lines::cursor::LineBreaks;
use payloads::reader::fresh_reading;

#[derive(Clone, Copy, PartialEq, Eq)]
pub enum Departure {
    // No lines before, one or more after, and a break that starts after the span: the original gives column 0.
    Column,
    // The empty span at 0: the original takes byte 0 for the byte before it.
    EmptyAtZero,
}

// How an answer compares: it agrees, or it differs, by a departure or otherwise.
pub type Outcome = Result<(), Option<Departure>>;

pub fn departure_of(source: &[u8], label: Label) -> Option<Departure> {
    let Label { span, context } = label;
    if span.offset() == 0 && span.is_empty() {
        return Some(Departure::EmptyAtZero);
    }
    let shown = context.before == 0
        && context.after > 0
        && fresh_reading(source, span, context).is_some();
    if shown && starts_a_break(source, span.offset() as u64 + span.len() as u64) {
        return Some(Departure::Column);
    }
    None
}

// Whether a break of the source starts at this place or later.
fn starts_a_break(source: &[u8], place: u64) -> bool {
    LineBreaks::new(source).any(|found| found.start as u64 >= place)
}
