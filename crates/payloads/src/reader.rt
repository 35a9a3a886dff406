// A reading of one span with its context, byte by byte: slow, plain, and what every faster one is compared with.
ghost use Rattle.std.specs.Prelude.{◌≡◌, ◌+◌, ◌≤◌, min, length, IfSome, MatchOption};
ghost use Rattle.std.specs.Option.{option_map, unwrap_or};
ghost use Rattle.lines.specs.Breaks.{seen, breaks, line_start_lem, line_of, column_of};
ghost use Rattle.lines.specs.Windows.{window as the_window, window_line, window_start, window_end_lem, cut_after_lem};
ghost use Rattle.payloads.specs.Contents.{shown};
ghost use Rattle.payloads.specs.Law.{Agrees, Holds};
ghost use Rattle.payloads.specs.Readings.{reading};

use crate::contents::{SpanContents, contents};
use crate::walk::Walk;
use lines::breaks::break_width;
use lines::records::{Context, SourceSpan, Window};
use lines::text::Text;

// One reading to be made: a source, a span and a context. It keeps no line starts, so it goes over the source again
// where it has to find the first line of its window.
#[derive(Drop)]
pub struct SpanReader<'a> {
    input: Text<'a>,
    span: SourceSpan,
    context: Context,
}

impl<'a> SpanReader<'a> {
    pub fn new(source: &'a [u8], span: SourceSpan, context: Context) -> SpanReader<'a>
        ensures input { result.input.slice.now ≡ seen source.now }
        ensures span { result.span ≡ span }
        ensures context { result.context ≡ context }
    {
        SpanReader {
            input: Text::new(source),
            span,
            context,
        }
    }

    // The payload of the span's window, or none where there is no window. It uses the reader up.
    pub fn read(self) -> Option<SpanContents<'a>>
        ensures { option_map shown result ≡ reading self.entry.input.slice.now self.entry.span self.entry.context }
    {
        let window = self.window()?;
        contents(self.input.bytes(), window)
    }

    // The window of the span and its context.
    fn window(&self) -> Option<Window>
        ensures { result ≡ the_window self.now.input.slice.now self.now.span self.now.context }
    {
        let SpanReader {
            input,
            span,
            context,
        } = self;
        let offset = span.offset();
        let end = offset as u64 + span.len() as u64;
        let length = input.len();
        if end > length as u64 + 1 || (context.before == 0 && offset > length) {
            return None;
        }
        let mut walk = Walk::new(*input);
        walk.to(offset);
        let first = open(&walk, offset, context.before);
        close(&mut walk, end, context.after);
        Some(Window {
            start: first.start,
            length: walk.place() - first.start,
            line: first.line,
            column: first.column,
            line_count: walk.line,
        })
    }
}

// A fresh reading: the read of a new reader. Where it answers, the look-up in its payload, the place by the text and a
// fresh reading of no length without context agree at every offset from its start to its end. A span wholly inside the
// source is answered, and the data holds every byte of it.
pub fn fresh_reading<'a>(
    source: &'a [u8],
    span: SourceSpan,
    context: Context,
) -> Option<SpanContents<'a>>
    ensures told { option_map shown result ≡ reading (seen source.now) span context }
    ensures agrees { IfSome result (λ p. Agrees (seen source.now) (shown p)) }
    ensures holds { span.offset + span.length ≤ length (seen source.now) → MatchOption result ⊥ (λ p. Holds (seen source.now) span (shown p)) }
{
    SpanReader::new(source, span, context).read()
}

// Where a window starts, with its line and column.
#[derive(Clone, Copy)]
struct Opening {
    start: u32,
    line: u32,
    column: u32,
}

// The opening of the window of a span at this offset, from a walk that has come to it.
fn open(walk: &Walk, offset: u32, before: u32) -> Opening
    requires at { walk.now.at ≡ min offset (length walk.now.text.slice.now) }
    requires within { before ≡ 0 → offset ≤ length walk.now.text.slice.now }
    ensures start { result.start ≡ window_start (breaks walk.now.text.slice.now) offset before }
    ensures line { result.line ≡ window_line (breaks walk.now.text.slice.now) offset before }
    ensures column { result.column ≡ column_of (breaks walk.now.text.slice.now) (window_start (breaks walk.now.text.slice.now) offset before) }
    ensures upto { result.start ≤ walk.now.at }
{
    if before == 0 {
        return Opening {
            start: offset,
            line: walk.line,
            column: walk.column,
        };
    }
    let line = walk.line.saturating_sub(before);
    Opening {
        start: line_start(walk.text, line),
        line,
        column: 0,
    }
}

// The start of a line, found from the front; the length where there is no such line.
fn line_start(text: Text, line: u32) -> u32
    ensures { result ≡ unwrap_or (line_start_lem (breaks text.entry.slice.now) line) (length text.entry.slice.now) }
{
    if line == 0 {
        return 0;
    }
    let mut walk = Walk::new(text);
    walk.to_line(line as u64);
    walk.place()
}

// Goes on to the end of the window of a span that ends before `end`.
fn close(walk: &mut Walk, end: u64, after: u32)
    requires { walk.old.at ≤ end }
    ensures text { walk.new.text.slice.now ≡ walk.old.text.slice.now }
    ensures at { walk.new.at ≡ window_end_lem (length walk.old.text.slice.now) (breaks walk.old.text.slice.now) end after }
    ensures onward { walk.old.at ≤ walk.new.at }
{
    let length = walk.text.len();
    if end > length as u64 {
        walk.to(length);
        return;
    }
    let cut = cut_after(walk.text.bytes(), end as usize);
    walk.to(cut as u32);
    if after > 0 {
        let line = walk.line as u64 + after as u64 + 1;
        walk.to_line(line);
    }
}

// The place, or one past the break that it is inside. It asks for a break of two bytes, as `lower` does, and not whether
// `lower` moves the place, since `end + 1` rests on the two.
fn cut_after(text: &[u8], end: usize) -> usize
    requires { end ≤ length text.now }
    ensures cut { result ≡ cut_after_lem (breaks text.now) end }
    ensures from { end ≤ result }
    ensures within { result ≤ length text.now }
{
    if end > 0 && break_width(text, end - 1) == 2 {
        return end + 1;
    }
    end
}
