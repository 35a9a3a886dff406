// The place of an offset, by any line map.
ghost use Rattle.std.specs.Prelude.{◌≡◌, ◌≤◌};
ghost use Rattle.lines.specs.Breaks.{place};

use crate::map::LineMap;
use lines::records::Place;

// The line and column of an offset, none past the end. It learns about the text from the map alone.
pub fn locate<M: LineMap>(map: &mut M, offset: u32) -> Option<Place>
    ensures told { result ≡ place (M.text map.old) offset }
    ensures kept { M.text map.new ≡ M.text map.old }
    ensures onward { M.frontier map.old ≤ M.frontier map.new }
{
    let line = map.line_index_of(offset)?;
    let start = map.line_start_of(line)?;
    // As in `open`: a function of the two arms would have a clause as long as its body.
    let at = match map.break_ending_line(line) {
        Some(found) => offset.min(found.start),
        None => offset,
    };
    Some(Place {
        line: line as u64,
        column: (at - start) as u64,
    })
}
