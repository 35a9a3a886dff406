// A window with its bytes, and the look-up of an offset in it.
ghost use Rattle.std.specs.Prelude.{◌≡◌, ◌^◌, ◌<◌};
ghost use Rattle.std.specs.Option.{option_map};
ghost use Rattle.lines.specs.Breaks.{seen};
ghost use Rattle.lines.specs.Payloads.{payload, place_after_lem, look_up};
ghost use Rattle.lines.specs.Spans.{span_of};
ghost use Rattle.payloads.specs.Contents.{shown};

use lines::breaks::lower;
use lines::records::{Place, SourceSpan, Window};
use lines::text::{Text, seen_bytes};

// The payload of a window: its numbers, and its data, which is a part of the caller's source and no copy.
#[derive(Clone, Copy)]
pub struct SpanContents<'a> {
    bytes: &'a [u8],
    numbers: Window,
}

// The payload of a window in a source, or none where the window reaches past what is seen of it.
pub fn contents<'a>(source: &'a [u8], window: Window) -> Option<SpanContents<'a>>
    ensures { option_map shown result ≡ payload (seen source.now) window }
{
    let start = window.start as usize;
    let bytes = seen_bytes(source).get(start..start + window.length as usize)?;
    Some(SpanContents {
        bytes,
        numbers: window,
    })
}

impl<'a> SpanContents<'a> {
    // The bytes of the window.
    pub fn data(&self) -> &'a [u8]
        ensures { result.now ≡ self.now.bytes.now }
    {
        self.bytes
    }

    // The window itself.
    pub fn window(&self) -> Window
        ensures { result ≡ self.now.numbers }
    {
        self.numbers
    }

    // Where the window starts and how many bytes it has.
    pub fn span(&self) -> SourceSpan
        ensures { result ≡ span_of self.now.numbers.start self.now.numbers.length }
    {
        let Window { start, length, .. } = self.window();
        SourceSpan::from((start, length))
    }

    // The line of the window's start, from 0.
    pub fn line(&self) -> u32
        ensures { result ≡ self.now.numbers.line }
    {
        let Window { line, .. } = self.window();
        line
    }

    // The column of the window's start, from 0.
    pub fn column(&self) -> u32
        ensures { result ≡ self.now.numbers.column }
    {
        self.window().column
    }

    // How many breaks of the source end before the window's end.
    pub fn line_count(&self) -> u32
        ensures { result ≡ self.now.numbers.line_count }
    {
        self.window().line_count
    }

    // The place of an offset of the source, by the payload alone: none past its end, and the place of its start before it.
    pub fn line_column_at(&self, offset: u32) -> Option<Place>
        ensures { result ≡ look_up (shown self.now) offset }
    {
        let span = self.span();
        if offset as u64 > span.offset() as u64 + span.len() as u64 {
            return None;
        }
        let at = offset.saturating_sub(span.offset()) as usize;
        Some(self.place_after(lower(self.data(), at)))
    }

    // The place after so many of its bytes.
    fn place_after(&self, count: usize) -> Place
        requires { count < 2 ^ 32 }
        ensures { result ≡ place_after_lem self.now.bytes.now self.now.numbers.line self.now.numbers.column count }
    {
        let end = self.data().len().min(count);
        let mut place = Place {
            line: self.line() as u64,
            column: self.column() as u64 + count as u64,
        };
        for found in Text::new(&self.data()[..end]).breaks() {
            place = Place {
                line: place.line + 1,
                column: (count as u64).saturating_sub(found.next_line_start() as u64),
            };
        }
        place
    }
}
