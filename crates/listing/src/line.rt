// A line of a source, as the line table lists it.
ghost use Rattle.std.specs.Prelude.{◌≡◌, Some};
ghost use Rattle.listing.specs.Table.{ending_text, line_text};

use std::fmt;

// What a line ends with; only the last line of a source has no ending.
#[derive(Clone, Copy, PartialEq, Eq, Debug)]
pub enum Ending {
    Lf,
    Cr,
    CrLf,
}

impl Ending {
    // The word that the table has for it.
    pub fn text(self) -> &'static str
        ensures { result.now ≡ ending_text (Some self) }
    {
        match self {
            Ending::Lf => "LF",
            Ending::Cr => "CR",
            Ending::CrLf => "CR LF",
        }
    }
}

impl fmt::Display for Ending {
    ghost output = { λ ending. Some (ending_text (Some ending)) };

    fn fmt<W: fmt::Write>(&self, f: &mut fmt::Formatter<W>) -> fmt::Result {
        f.write_str(self.text())
    }
}

// The number and the start of a line, from 0, and its length in bytes without its ending.
#[derive(Clone, Copy, PartialEq, Eq, Debug)]
pub struct Line {
    pub number: u32,
    pub start: u32,
    pub length: u32,
    pub ending: Option<Ending>,
}

impl Line {
    // The word that the table has for its ending; `none` where it has none.
    pub fn ending_text(self) -> &'static str
        ensures { result.now ≡ ending_text self.ending }
    {
        match self.ending {
            Some(ending) => ending.text(),
            None => "none",
        }
    }
}

// The line's row in the table.
impl fmt::Display for Line {
    ghost output = { λ line. Some (line_text line) };

    fn fmt<W: fmt::Write>(&self, f: &mut fmt::Formatter<W>) -> fmt::Result {
        let Line {
            number,
            start,
            length,
            ..
        } = *self;
        let ending = self.ending_text();
        write!(f, "{number},{start},{length},{ending}")
    }
}
