// The plain scan: a line map that keeps only the source, and goes over it from the front for each answer.
ghost use Rattle.std.specs.Prelude.{◌≡◌, length};
ghost use Rattle.lines.specs.Breaks.{seen, breaks, break_ending, line_of};

use crate::map::LineMap;
use lines::records::LineBreak;
use lines::text::Text;

#[derive(Drop)]
pub struct PlainScan<'a> {
    source: Text<'a>,
}

impl<'a> PlainScan<'a> {
    // A map of what a call sees of the source.
    pub fn new(source: &'a [u8]) -> PlainScan<'a>
        ensures { result.source.slice.now ≡ seen source.now }
    {
        PlainScan {
            source: Text::new(source),
        }
    }
}

impl<'a> LineMap for PlainScan<'a> {
    ghost text = { λ m. m.source.slice.now };

    ghost frontier = { λ _. 0 };

    ghost covered = { λ _ _ _ f. f ≡ 0 };

    ghost short = { λ m. m.source.short };

    fn length(&self) -> u32 {
        self.source.len()
    }

    fn line_index_of(&self, offset: u32) -> Option<u32> {
        if offset > self.length() {
            return None;
        }
        Some(line_of(self.source, offset))
    }

    fn line_start_of(&self, line: u32) -> Option<u32> {
        if line == 0 {
            return Some(0);
        }
        let found = nth_break(self.source, line - 1)?;
        Some(found.end + 1)
    }

    fn break_ending_line(&mut self, line: u32) -> Option<LineBreak> {
        nth_break(self.source, line)
    }

    fn cover(&mut self, offset: u32, before: u32) {}

    fn forget(&mut self) {}
}

// How many breaks of a text end before an offset.
fn line_of(text: Text, offset: u32) -> u32
    ensures { result ≡ line_of (breaks text.entry.slice.now) offset }
{
    text.breaks().take_while(|found| found.end < offset).count() as u32
}

// Break number `number` of a text.
fn nth_break(text: Text, number: u32) -> Option<LineBreak>
    ensures { result ≡ break_ending (breaks text.entry.slice.now) number }
{
    text.breaks().nth(number as usize)
}
