// Readings and look-ups as flags and rows of numbers, for programs in other languages that compare or measure. They take
// and tell numbers one by one, since that is what C has.
#![tactic(auto)]

ghost use Rattle.std.specs.Prelude.{◌≡◌};
ghost use Rattle.lines.specs.Breaks.{seen};
ghost use Rattle.lines.specs.Spans.{span_of};
ghost use Rattle.payloads.specs.Readings.{reading};
ghost use Rattle.c_boundary.specs.Rows.{context_of, hash_of, read_flag, read_row, look_flag, look_row, flag_if, row_if};

use lines::records::{Context, SourceSpan};
use payloads::reader::fresh_reading;

// Reads a span: 1 and the payload's start, length, line, column, line_count, data length and data hash in the first
// seven numbers of `out`; 0, with `out` as it came, where there is none or `out` is shorter.
pub fn port_read(
    source: &[u8],
    offset: u32,
    length: u32,
    before: u32,
    after: u32,
    out: &mut [u32],
) -> u32
    ensures told { result ≡ flag_if out.old 7 (read_flag (reading (seen source.now) (span_of offset length) (context_of before after))) }
    ensures wrote { out.new ≡ row_if out.old 7 (read_row (reading (seen source.now) (span_of offset length) (context_of before after)) out.old) }
{
    if out.len() < 7 {
        return 0;
    }
    match fresh_reading(
        source,
        SourceSpan::from((offset, length)),
        Context { before, after },
    ) {
        Some(read) => {
            let span = read.span();
            let data = read.data();
            out[0] = span.offset();
            out[1] = span.len();
            out[2] = read.line();
            out[3] = read.column();
            out[4] = read.line_count();
            out[5] = data.len() as u32;
            out[6] = hash(data);
            1
        }
        None => 0,
    }
}

// Reads a span and looks an offset up in its payload: 0 where there is no payload or `out` is shorter than two, 1 where
// the look-up answers none, and 2 with line and column in the first two numbers of `out`; else `out` is as it came.
pub fn port_look_up(
    source: &[u8],
    offset: u32,
    length: u32,
    before: u32,
    after: u32,
    at: u32,
    out: &mut [u64],
) -> u32
    ensures told { result ≡ flag_if out.old 2 (look_flag (reading (seen source.now) (span_of offset length) (context_of before after)) at) }
    ensures wrote { out.new ≡ row_if out.old 2 (look_row (reading (seen source.now) (span_of offset length) (context_of before after)) at out.old) }
{
    if out.len() < 2 {
        return 0;
    }
    match fresh_reading(
        source,
        SourceSpan::from((offset, length)),
        Context { before, after },
    ) {
        Some(read) => match read.line_column_at(at) {
            Some(place) => {
                out[0] = place.line;
                out[1] = place.column;
                2
            }
            None => 1,
        },
        None => 0,
    }
}

// The FNV-1a hash of 32 bits.
fn hash(bytes: &[u8]) -> u32
    ensures { result ≡ hash_of bytes.now }
{
    let mut h: u32 = 2_166_136_261;
    for byte in bytes {
        h = (h ^ u32::from(*byte)).wrapping_mul(16_777_619);
    }
    h
}
