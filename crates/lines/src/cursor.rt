// A cursor over the breaks of a source.
ghost use Rattle.std.specs.Prelude.{◌≡◌, ◌≤◌, length};
ghost use Rattle.std.specs.Iterator.{item_count};
ghost use Rattle.lines.specs.Breaks.{seen, breaks};

use crate::breaks::next_break;
use crate::records::LineBreak;
use crate::text::Text;
use std::iter::FusedIterator;

// It stands at 0, then one past each break that it gave, and at the end once none is left.
#[derive(Drop)]
pub struct LineBreaks<'a> {
    input: Text<'a>,
    at: usize,
    ghost within: { at ≤ length input.slice.now },
}

impl<'a> LineBreaks<'a> {
    // A cursor over what a call sees of the source.
    pub fn new(source: &'a [u8]) -> LineBreaks<'a>
        ensures input { result.input.slice.now ≡ seen source.now }
        ensures at { result.at ≡ 0 }
    {
        Text::new(source).breaks()
    }
}

impl<'a> Text<'a> {
    ghost use Rattle.lines.specs.Cursor.{to_come};

    // A cursor over all of its breaks.
    pub fn breaks(&self) -> LineBreaks<'a>
        ensures all { to_come result ≡ breaks self.now.slice.now }
        ensures input { result.input.slice.now ≡ self.now.slice.now }
        ensures at { result.at ≡ 0 }
    {
        LineBreaks {
            input: *self,
            at: 0,
        }
    }
}

// The items are the breaks that are left.
impl<'a> Iterator for LineBreaks<'a> {
    ghost use Rattle.lines.specs.Cursor.{to_come, Gives};

    type Item = LineBreak;

    ghost next_gives = { Gives };

    ghost remaining = { item_count to_come };

    // The next break, and the cursor moves past it; none where none is left, and then for ever after.
    fn next(&mut self) -> Option<LineBreak> {
        let Some(found) = next_break(self.input.bytes(), self.at) else {
            self.at = self.input.bytes().len();
            return None;
        };
        self.at = found.next_line_start();
        Some(found)
    }
}

impl<'a> FusedIterator for LineBreaks<'a> {}
