// Calls on a line map, and what they told.
ghost use Rattle.std.specs.Prelude.{◌≡◌, ◌+◌, min};

use lines::records::{Context, Fault, Place, SourceSpan, Window};
use std::ops::Range;

// A part of a page: its first place and its length. What would lie past the page is no part of it. It is no slice, since
// the parts of a run may overlap.
#[derive(Clone, Copy)]
pub struct PagePart {
    pub start: usize,
    pub length: usize,
}

impl PagePart {
    // Where the part lies in a page of this length.
    pub fn within(self, page_length: usize) -> Range<usize>
        ensures start { result.start ≡ min self.start page_length }
        ensures end { result.end ≡ min (self.start + self.length) page_length }
    {
        let start = self.start.min(page_length);
        start..start + self.length.min(page_length - start)
    }
}

// A call, without the map. The output buffer of an answer is a part of a page that all calls of a run share.
#[derive(Clone, Copy)]
pub enum Call<'a> {
    Read(SourceSpan, Context),
    Locate(u32),
    Answer(&'a [u8], PagePart),
    Forget,
}

// What a call told.
#[derive(Clone, Copy, PartialEq, Eq, Debug)]
pub enum Told {
    Shown(Option<Window>),
    Located(Option<Place>),
    Answered(Result<usize, Fault>),
    Nothing,
}
