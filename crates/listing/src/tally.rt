// How many lines a table has, and how they end.
ghost use Rattle.std.specs.Prelude.{◌≡◌, ◌^◌, Some};
ghost use Rattle.listing.specs.Table.{IsBelow, counted, sentence_text};

use crate::line::Ending;
use std::fmt;

#[derive(Clone, Copy, Default, PartialEq, Eq, Debug)]
pub struct Tally {
    pub lines: u64,
    pub lf: u64,
    pub cr: u64,
    pub cr_lf: u64,
}

impl Tally {
    // Counts a line more.
    pub(crate) fn count(&mut self, ending: Option<Ending>)
        requires { IsBelow (2 ^ 33) self.old }
        ensures { self.new ≡ counted self.old ending }
    {
        self.lines += 1;
        match ending {
            Some(Ending::Lf) => self.lf += 1,
            Some(Ending::Cr) => self.cr += 1,
            Some(Ending::CrLf) => self.cr_lf += 1,
            None => {}
        }
    }
}

// What the table of a source of so many bytes says at its end.
#[derive(Clone, Copy, PartialEq, Eq, Debug)]
pub struct Closing {
    pub bytes: usize,
    pub tally: Tally,
}

impl fmt::Display for Closing {
    ghost output = { λ closing. Some (sentence_text closing.bytes closing.tally) };

    fn fmt<W: fmt::Write>(&self, f: &mut fmt::Formatter<W>) -> fmt::Result {
        let bytes = self.bytes;
        let Tally {
            lines,
            lf,
            cr,
            cr_lf,
        } = self.tally;
        write!(
            f,
            "Listed {bytes} bytes as {lines} lines, ended by {lf} LF, {cr} CR and {cr_lf} CR LF."
        )
    }
}
