// The answer to a label line, and the line that tells a fault.
ghost use Rattle.std.specs.Prelude.{◌≡◌, ◌≤◌};
ghost use Rattle.std.specs.Result.{result_map_both};
ghost use Rattle.answers.specs.Faults.{answer_numbers};
ghost use Rattle.answers.specs.Written.{window_text, fault_text, filled, count_in, line_for, answered, buffer_after};

use crate::faults::AnswerFault;
use crate::row::{Row, put, row};
use itoa::Buffer;
use label_lines::label::read_label;
use line_maps::map::LineMap;
use line_maps::reading::read;
use lines::records::{Fault, Window};

// How many bytes a line to write has at most: five numbers of ten digits, each with the comma or LF after it.
pub const LONGEST_LINE: usize = 55;

// Writes start, length, line, column and line_count of the label's window into the first bytes of the buffer and
// answers how many bytes those are. With a fault the buffer is left as it came.
pub fn answer<M: LineMap>(map: &mut M, line: &[u8], out: &mut [u8]) -> Result<usize, AnswerFault>
    ensures told { result_map_both (λ n. n) answer_numbers result ≡ answered out.old (line_for (M.text map.old) line.now) }
    ensures out { out.new ≡ buffer_after out.old (line_for (M.text map.old) line.now) }
    ensures kept { M.text map.new ≡ M.text map.old }
    ensures onward { M.frontier map.old ≤ M.frontier map.new }
{
    let label = read_label(line)?;
    let window = read(map, label.span, label.context).ok_or(AnswerFault::NoWindow)?;
    put(window_row(window).as_str(), out).ok_or(AnswerFault::ShortBuffer)
}

// Writes the numbers of a fault into the first bytes of the buffer and answers how many bytes those are, or none where
// the buffer is shorter, which is then left as it came.
pub fn write_fault(fault: Fault, out: &mut [u8]) -> Option<usize>
    ensures count { result ≡ count_in out.old (fault_text fault) }
    ensures out { out.new ≡ filled out.old (fault_text fault) }
{
    put(fault_row(fault).as_str(), out)
}

// The line to write for a window.
fn window_row(window: Window) -> Row
    ensures { result.bytes ≡ window_text window }
{
    let mut digits = Buffer::new();
    row(
        digits.format(window.start),
        [window.length, window.line, window.column, window.line_count],
    )
}

// The line to write for a fault.
fn fault_row(fault: Fault) -> Row
    ensures { result.bytes ≡ fault_text fault }
{
    row(
        "fault",
        [fault.number, fault.layer, fault.field, fault.place],
    )
}
