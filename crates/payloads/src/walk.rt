// A walk through a text byte by byte, which knows the line and the column of where it stands.
ghost use Rattle.std.specs.Prelude.{◌≡◌, ◌+◌, ◌<◌, ◌≤◌, min, max, length};
ghost use Rattle.std.specs.Option.{unwrap_or};
ghost use Rattle.lines.specs.Breaks.{breaks, line_start_lem, line_of, column_of};

use lines::breaks::break_width;
use lines::text::Text;

#[derive(Drop)]
pub(crate) struct Walk<'a> {
    pub(crate) text: Text<'a>,
    // Where it stands, as an index, so that the compiler sees where a step needs no test of its own.
    pub(crate) at: usize,
    pub(crate) line: u32,
    pub(crate) column: u32,
    ghost within: { at ≤ length text.slice.now },
    ghost line_is: { line ≡ line_of (breaks text.slice.now) at },
    ghost column_is: { column ≡ column_of (breaks text.slice.now) at },
}

// That a step keeps the text stands in clauses: it relates a walk to the one before, which no type holds.
impl<'a> Walk<'a> {
    // A walk that stands at the front.
    pub(crate) fn new(text: Text<'a>) -> Walk<'a>
        ensures text { result.text.slice.now ≡ text.entry.slice.now }
        ensures at { result.at ≡ 0 }
    {
        Walk {
            text,
            at: 0,
            line: 0,
            column: 0,
        }
    }

    // Where it stands, in 32 bits.
    pub(crate) fn place(&self) -> u32
        ensures { result ≡ self.now.at }
    {
        self.at as u32
    }

    // One byte on. The CR of a pair changes neither line nor column, the last byte of a break begins a line, and any
    // other byte is a column.
    fn step(&mut self)
        requires { self.old.at < length self.old.text.slice.now }
        ensures text { self.new.text.slice.now ≡ self.old.text.slice.now }
        ensures at { self.new.at ≡ self.old.at + 1 }
    {
        let width = break_width(self.text.bytes(), self.at);
        self.at += 1;
        match width {
            0 => self.column += 1,
            1 => {
                self.line += 1;
                self.column = 0;
            }
            _ => {}
        }
    }

    // On to an offset, or to the end where that comes first; never back.
    pub(crate) fn to(&mut self, offset: u32)
        ensures text { self.new.text.slice.now ≡ self.old.text.slice.now }
        ensures at { self.new.at ≡ max self.old.at (min offset (length self.old.text.slice.now)) }
    {
        let end = (offset as usize).min(self.text.bytes().len());
        for _ in self.at..end {
            self.step();
        }
    }

    // On to the start of a line further down, or to the end where there is no such line. A loop of its own beside `to`: a
    // closure that says when to stop is no plainer.
    pub(crate) fn to_line(&mut self, line: u64)
        requires { self.old.line < line }
        ensures text { self.new.text.slice.now ≡ self.old.text.slice.now }
        ensures at { self.new.at ≡ unwrap_or (line_start_lem (breaks self.old.text.slice.now) line) (length self.old.text.slice.now) }
        ensures onward { self.old.at ≤ self.new.at }
    {
        while (self.line as u64) < line && self.at < self.text.bytes().len() {
            self.step();
        }
    }
}
