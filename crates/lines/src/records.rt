// The records of the scanner: spans, contexts, breaks, windows, places and faults.
ghost use Rattle.std.specs.Prelude.{◌≡◌, ◌+◌, ◌==◌};
ghost use Rattle.lines.specs.Spans.{span_of, span_between};

use std::ops::Range;

// A run of bytes in a source: the place of its first byte, and how many there are.
#[derive(Clone, Copy, PartialEq, Eq, Debug)]
pub struct SourceSpan {
    offset: u32,
    length: u32,
}

impl SourceSpan {
    pub fn offset(&self) -> u32
        ensures { result ≡ self.now.offset }
    {
        self.offset
    }

    pub fn len(&self) -> u32
        ensures { result ≡ self.now.length }
    {
        self.length
    }

    // Whether the span has no bytes; it still points at a place.
    pub fn is_empty(&self) -> bool
        ensures { result ≡ (self.now.length == 0) }
    {
        self.len() == 0
    }
}

// From the place of the first byte and the length.
impl From<(u32, u32)> for SourceSpan {
    ghost from_gives = { λ p s. s ≡ span_of p.0 p.1 };

    fn from(pair: (u32, u32)) -> SourceSpan {
        SourceSpan {
            offset: pair.0,
            length: pair.1,
        }
    }
}

// From the place of the first byte and one past the last; empty where the end is not above the start.
impl From<Range<u32>> for SourceSpan {
    ghost from_gives = { λ p s. s ≡ span_between p.start p.end };

    fn from(range: Range<u32>) -> SourceSpan {
        SourceSpan {
            offset: range.start,
            length: range.end.saturating_sub(range.start),
        }
    }
}

// How many lines a window shows before and after its span.
#[derive(Clone, Copy, PartialEq, Eq, Debug)]
pub struct Context {
    pub before: u32,
    pub after: u32,
}

// A line break: the places of its first and last byte.
#[derive(Clone, Copy, PartialEq, Eq, Debug)]
pub struct LineBreak {
    pub start: u32,
    pub end: u32,
}

impl LineBreak {
    // Where the line after the break starts.
    pub fn next_line_start(&self) -> usize
        ensures { result ≡ self.now.end + 1 }
    {
        self.end as usize + 1
    }
}

// The part of a source that a span is shown in: where it starts, how many bytes it has, the line and the column of its
// start, and how many breaks end before its end.
#[derive(Clone, Copy, PartialEq, Eq, Debug)]
pub struct Window {
    pub start: u32,
    pub length: u32,
    pub line: u32,
    pub column: u32,
    pub line_count: u32,
}

// A line and a column in bytes, both from 0.
#[derive(Clone, Copy, PartialEq, Eq, Debug)]
pub struct Place {
    pub line: u64,
    pub column: u64,
}

// Why a call refused: the fault's number and layer, and the field and the place in the line that it is about, both 0
// where it is about the whole line. Numbers and no enum, as faults are written; each layer has an enum of its own.
#[derive(Clone, Copy, PartialEq, Eq, Debug)]
pub struct Fault {
    pub number: u32,
    pub layer: u32,
    pub field: u32,
    pub place: u32,
}
