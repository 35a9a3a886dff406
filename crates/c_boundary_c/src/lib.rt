// The C boundary: what `c_boundary` answers, under the names that C calls. A slice goes over as its place and its length.
// The functions stand here once more, since a crate is a library or a static library.
#![tactic(auto)]

ghost use Rattle.std.specs.Prelude.{◌≡◌};
ghost use Rattle.lines.specs.Breaks.{seen};
ghost use Rattle.lines.specs.Spans.{span_of};
ghost use Rattle.payloads.specs.Readings.{reading};
ghost use Rattle.c_boundary.specs.Rows.{context_of, read_flag, read_row, look_flag, look_row, flag_if, row_if};

// Reads a span: 1 and the payload's start, length, line, column, line_count, data length and data hash in the first
// seven numbers of `out`; 0, with `out` as it came, where there is none or `out` is shorter.
#[unsafe(no_mangle)]
pub extern "C" fn port_read(
    source: &[u8],
    offset: u32,
    length: u32,
    before: u32,
    after: u32,
    out: &mut [u32],
) -> u32
    ensures told { result ≡ flag_if out.old 7 (read_flag (reading (seen source.now) (span_of offset length) (context_of before after))) }
    ensures wrote { out.new ≡ row_if out.old 7 (read_row (reading (seen source.now) (span_of offset length) (context_of before after)) out.old) }
{
    c_boundary::port_read(source, offset, length, before, after, out)
}

// Reads a span and looks an offset up in its payload: 0 where there is no payload or `out` is shorter than two, 1 where
// the look-up answers none, and 2 with line and column in the first two numbers of `out`; else `out` is as it came.
#[unsafe(no_mangle)]
pub extern "C" fn port_look_up(
    source: &[u8],
    offset: u32,
    length: u32,
    before: u32,
    after: u32,
    at: u32,
    out: &mut [u64],
) -> u32
    ensures told { result ≡ flag_if out.old 2 (look_flag (reading (seen source.now) (span_of offset length) (context_of before after)) at) }
    ensures wrote { out.new ≡ row_if out.old 2 (look_row (reading (seen source.now) (span_of offset length) (context_of before after)) at out.old) }
{
    c_boundary::port_look_up(source, offset, length, before, after, at, out)
}
