// The window of a span, by any line map.
ghost use Rattle.std.specs.Prelude.{◌≡◌, ℕ, ◌+◌, ◌≤◌, length, MatchOption, OnSome};
ghost use Rattle.lines.specs.Breaks.{breaks, break_ending, line_of, column_of};
ghost use Rattle.lines.specs.Windows.{window, window_line, window_start, window_end_lem};
ghost use Rattle.line_maps.specs.Answers.{Reached};

use crate::map::LineMap;
use lines::records::{Context, LineBreak, SourceSpan, Window};

// The window of a span and its context, or none where there is no window. It learns about the text from the map alone:
// it asks for the line of the offset, for starts of lines at or before it, and then for break after break from that
// line on, counting lines as it goes. Span and context come one by one, as to the reader of payloads, and the test
// whether there is a window is the reader's, here of what the map tells.
pub fn read<M: LineMap>(map: &mut M, span: SourceSpan, context: Context) -> Option<Window>
    ensures told { result ≡ window (M.text map.old) span context }
    ensures kept { M.text map.new ≡ M.text map.old }
    ensures onward { M.frontier map.old ≤ M.frontier map.new }
    ensures covers { OnSome result (Reached (M.covered map.old span.offset context.before) (M.frontier map.new)) }
{
    let length = map.length();
    let offset = span.offset();
    let end = offset as u64 + span.len() as u64;
    if end > length as u64 + 1 {
        return None;
    }
    if context.before == 0 && offset > length {
        return None;
    }
    map.cover(offset, context.before);
    let line = map.line_index_of(offset.min(length))?;
    let found = map.break_ending_line(line);
    let first = open(map, offset, context.before, line, found)?;
    let last = close(map, length, end, context.after, line, found);
    Some(Window {
        start: first.start,
        length: last.end - first.start,
        line: first.line,
        column: first.column,
        line_count: last.line_count,
    })
}

// Where a window starts, with its line and column; the reader of payloads has one too, as private.
#[derive(Clone, Copy)]
struct Opening {
    start: u32,
    line: u32,
    column: u32,
}

// The opening of the window of a span at this offset, which is on this line; `found` is the break that ends it. A struct
// of the two would be taken apart at once, here and in `close`.
fn open<M: LineMap>(
    map: &M,
    offset: u32,
    before: u32,
    line: u32,
    found: Option<LineBreak>,
) -> Option<Opening>
    requires line { line ≡ line_of (breaks (M.text map.now)) offset }
    requires found { found ≡ break_ending (breaks (M.text map.now)) line }
    ensures told { MatchOption result ⊥ (λ first. (first.start ≡ window_start (breaks (M.text map.now)) offset before) × (first.line ≡ window_line (breaks (M.text map.now)) offset before) × (first.column ≡ column_of (breaks (M.text map.now)) (window_start (breaks (M.text map.now)) offset before))) }
{
    if before == 0 {
        let start = map.line_start_of(line)?;
        let at = match found {
            Some(next) => offset.min(next.start),
            None => offset,
        };
        return Some(Opening {
            start: offset,
            line,
            column: at - start,
        });
    }
    let first = line.saturating_sub(before);
    let start = map.line_start_of(first)?;
    Some(Opening {
        start,
        line: first,
        column: 0,
    })
}

// Where a window ends, and how many breaks end before that.
#[derive(Clone, Copy)]
struct Closing {
    end: u32,
    line_count: u32,
}

// The end of the window of a span that ends before `end` and begins on this line; `found` is the break that ends it. The
// loop is the original's, and the end is what `break` hands out; it counts lines, and no index.
fn close<M: LineMap>(
    map: &mut M,
    total: u32,
    end: u64,
    after: u32,
    line: u32,
    found: Option<LineBreak>,
) -> Closing
    requires total { total ≡ length (M.text map.old) }
    requires end { end ≤ total + 1 }
    requires line { line ≤ line_of (breaks (M.text map.old)) end }
    requires found { found ≡ break_ending (breaks (M.text map.old)) line }
    ensures end { result.end ≡ window_end_lem (length (M.text map.old)) (breaks (M.text map.old)) end after }
    ensures lines { result.line_count ≡ line_of (breaks (M.text map.old)) result.end }
    ensures kept { M.text map.new ≡ M.text map.old }
    ensures onward { M.frontier map.old ≤ M.frontier map.new }
{
    let mut next = found;
    let mut passed = line;
    let mut cut = end;
    let mut left = after;
    let window_end = loop {
        match next {
            None => break (if after == 0 {
                cut.min(total as u64)
            } else {
                total as u64
            }),
            Some(found) => {
                if (found.start as u64) < end {
                    cut = cut.max(found.next_line_start() as u64);
                } else if after == 0 {
                    break cut;
                } else if left == 0 {
                    passed += 1;
                    break found.next_line_start() as u64;
                } else {
                    left -= 1;
                }
            }
        }
        passed += 1;
        next = map.break_ending_line(passed);
    };
    Closing {
        end: window_end as u32,
        line_count: passed,
    }
}
