// The lines of a source, one after the other.
ghost use Rattle.std.specs.Prelude.{◌≡◌, ◌<◌, length, IfSome, Some};
ghost use Rattle.std.proofs.Props.{props};
ghost use Rattle.lines.specs.Breaks.{breaks, line_start_lem};
ghost use Rattle.listing.specs.Table.{ending_of_lem};

use crate::line::{Ending, Line};
use lines::breaks::next_break;
use lines::records::LineBreak;
use lines::text::Text;

// The next line's number and start; no start once the last line was given.
#[derive(Drop)]
pub(crate) struct Lines<'a> {
    text: Text<'a>,
    number: u32,
    start: Option<u32>,
    ghost starts: { IfSome start (λ s. line_start_lem (breaks text.slice.now) number ≡ Some s) } by { Prim.hlevel props },
}

impl<'a> Lines<'a> {
    ghost use Rattle.lines.specs.Breaks.{seen};
    ghost use Rattle.listing.specs.Table.{lines_of};
    ghost use Rattle.listing.specs.Left.{lines_left};

    // The lines of what a call sees of the source.
    pub(crate) fn new(source: &'a [u8]) -> Lines<'a>
        ensures { lines_left result ≡ lines_of (seen source.now) }
    {
        Lines {
            text: Text::new(source),
            number: 0,
            start: Some(0),
        }
    }
}

impl<'a> Iterator for Lines<'a> {
    ghost use Rattle.std.specs.Iterator.{YieldsFirst, item_count};
    ghost use Rattle.listing.specs.Left.{lines_left};

    type Item = Line;

    ghost next_gives = { YieldsFirst lines_left };

    ghost remaining = { item_count lines_left };

    fn next(&mut self) -> Option<Line> {
        let text = self.text.bytes();
        let number = self.number;
        let start = self.start?;
        match next_break(text, start as usize) {
            Some(found) => {
                self.number += 1;
                self.start = Some(found.next_line_start() as u32);
                Some(Line {
                    number,
                    start,
                    length: found.start - start,
                    ending: Some(ending_of(text, found)),
                })
            }
            None => {
                self.start = None;
                Some(Line {
                    number,
                    start,
                    length: self.text.len() - start,
                    ending: None,
                })
            }
        }
    }
}

// What a break is made of.
fn ending_of(text: &[u8], found: LineBreak) -> Ending
    requires { found.start < length text.now }
    ensures { result ≡ ending_of_lem text.now found }
{
    if found.start < found.end {
        Ending::CrLf
    } else if text[found.start as usize] == b'\r' {
        Ending::Cr
    } else {
        Ending::Lf
    }
}
