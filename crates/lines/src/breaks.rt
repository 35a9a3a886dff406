// The breaks of a source: how wide one is, and where the next one lies.
ghost use Rattle.std.specs.Prelude.{◌≡◌, drop};
ghost use Rattle.lines.specs.Breaks.{seen, breaks, next_break_lem, lowered};
ghost use Rattle.lines.specs.LineRule.{width};

use crate::endings::next_ending;
use crate::records::LineBreak;
use crate::text::seen_bytes;

// The line rule on bytes: how many bytes the break has that begins at this place, 0 where none does.
pub fn break_width(text: &[u8], at: usize) -> usize
    ensures { result ≡ width (drop at text.now) }
{
    match text.get(at) {
        Some(b'\r') if text.get(at + 1) == Some(&b'\n') => 2,
        Some(b'\r' | b'\n') => 1,
        _ => 0,
    }
}

// The offset, or inside a break the place of the break's first byte. No break has more than two bytes, so an offset is
// inside one where one of two bytes begins right before it.
pub fn lower(text: &[u8], offset: usize) -> usize
    ensures { result ≡ lowered (breaks text.now) offset }
{
    if offset > 0 && break_width(text, offset - 1) == 2 {
        return offset - 1;
    }
    offset
}

// The first break of a source that does not end before the offset.
pub fn next_break(source: &[u8], from: usize) -> Option<LineBreak>
    ensures { result ≡ next_break_lem (breaks (seen source.now)) from }
{
    let text = seen_bytes(source);
    let start = next_ending(text, lower(text, from));
    let width = break_width(text, start);
    if width == 0 {
        return None;
    }
    Some(LineBreak {
        start: start as u32,
        end: (start + width - 1) as u32,
    })
}
