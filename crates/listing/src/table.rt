// The line table of a source, as text.
ghost use Rattle.std.specs.Prelude.{◌≡◌, IfOk, string_bytes};
ghost use Rattle.lines.specs.Breaks.{seen};
ghost use Rattle.listing.specs.Table.{table_text};

use crate::split::Lines;
use crate::tally::{Closing, Tally};
use lines::text::seen_bytes;
use std::alloc::{AllocError, Global};
use std::fmt::Write;

// The table: a row for each line, and a closing sentence.
pub fn line_table(heap: Global, source: &[u8]) -> Result<String, AllocError>
    ensures { IfOk result (λ s. string_bytes s ≡ table_text (seen source.now)) }
{
    let mut table = String::new(heap);
    let mut tally = Tally::default();
    for line in Lines::new(source) {
        writeln!(table, "{line}")?;
        tally.count(line.ending);
    }
    let bytes = seen_bytes(source).len();
    writeln!(table, "{}", Closing { bytes, tally })?;
    Ok(table)
}
