// A label: a span and its context, as a line of four numbers.
ghost use Rattle.std.specs.Prelude.{◌≡◌, ◌≤◌, true, false, length};
ghost use Rattle.std.specs.Result.{result_map_both};
ghost use Rattle.label_lines.specs.Faults.{line_numbers};
ghost use Rattle.label_lines.specs.Labels.{unread, past_field, number_in, line_end_lem, label_of};

use crate::faults::{LineFault, Spot};
use crate::fields::field_number;
use crate::parts::{LabelReader, Part, Placed};
use lines::records::{Context, SourceSpan};
use std::marker::Model;

// How many bytes a label line has at most.
const MOST_BYTES: usize = 255;

// What is to be shown: a span, and how many lines around it.
#[derive(Clone, Copy, PartialEq, Eq, Debug)]
pub struct Label {
    pub span: SourceSpan,
    pub context: Context,
}

// The label in a line.
pub fn read_label(line: &[u8]) -> Result<Label, LineFault>
    ensures { result_map_both (λ label. label) line_numbers result ≡ label_of line.now }
{
    if line.len() > MOST_BYTES {
        return Err(LineFault::TooLong);
    }
    let mut fields = Fields::new(line);
    let offset = fields.number(1)?;
    let length = fields.number(2)?;
    let before = fields.number(3)?;
    let after = fields.number(4)?;
    fields.end()?;
    Ok(Label {
        span: SourceSpan::from((offset, length)),
        context: Context { before, after },
    })
}

// The fields of a line that are still to be read. The line is short, so each place in it has 32 bits.
#[derive(Drop)]
struct Fields<'a> {
    reader: LabelReader<'a>,
}

impl<'a> Model for Fields<'a> {
    ghost use Rattle.std.specs.Prelude.{◌≤◌, length};
    ghost use Rattle.label_lines.specs.Labels.{Unread, unread};

    ghost Value = { Unread };

    ghost view = { λ f. unread f.reader.line.now f.reader.at f.reader.due };

    ghost invariant = { λ f. length f.reader.line.now ≤ 255 };
}

#[tactic(auto, using(crate::proofs::Splitting::fields))]
impl<'a> Fields<'a> {
    fn new(line: &'a [u8]) -> Fields<'a>
        requires { length line.now ≤ 255 }
        ensures { result ≡ unread line.now 0 true }
    {
        Fields {
            reader: LabelReader::new(line),
        }
    }

    // The number in the next field, which has this number in the line. It is inlined as `field_number` is.
    #[inline(always)]
    fn number(&mut self, field: u32) -> Result<u32, LineFault>
        ensures told { result_map_both (λ n. n) line_numbers result ≡ number_in field self.old.size self.old.fields }
        ensures left { self.new ≡ past_field self.old }
    {
        let Placed { part, place } = match self.reader.next() {
            Placed {
                part: Part::Comma,
                ..
            } => self.reader.next(),
            other => other,
        };
        let spot = Spot {
            field,
            place: place as u32,
        };
        match part {
            Part::Field(bytes) => Ok(field_number(bytes, spot)?),
            Part::Comma | Part::End => Err(LineFault::Missing(spot)),
        }
    }

    // That no field is left.
    fn end(&mut self) -> Result<(), LineFault>
        requires { self.old.begins ≡ false }
        ensures { result_map_both (λ u. u) line_numbers result ≡ line_end_lem self.old.fields }
    {
        let Placed { part, place } = self.reader.next();
        match part {
            Part::End => Ok(()),
            Part::Field(_) | Part::Comma => Err(LineFault::FourthComma {
                place: place as u32,
            }),
        }
    }
}
