// Runs readings, payloads and look-ups on examples.
#![tactic(auto)]

use lines::records::{Context, Place, SourceSpan, Window};
use payloads::contents::{SpanContents, contents};
use payloads::reader::fresh_reading;

// A row of a table: offset, length, before and after of a query, and start, length, line, column and line_count of the
// window that it should have, which are short as arrays.
type Row = ([u32; 4], [u32; 5]);

fn read(source: &[u8], query: [u32; 4]) -> Option<SpanContents<'_>> {
    let [offset, length, before, after] = query;
    fresh_reading(
        source,
        SourceSpan::from((offset, length)),
        Context { before, after },
    )
}

// Whether a payload has these numbers, and that part of the source as its data.
fn has(payload: &SpanContents, source: &[u8], numbers: [u32; 5]) -> bool {
    let [start, length, line, column, line_count] = numbers;
    let window = Window {
        start,
        length,
        line,
        column,
        line_count,
    };
    let first = start as usize;
    payload.window() == window
        && source
            .get(first..first + length as usize)
            .is_some_and(|data| data == payload.data())
}

// Whether every row's reading is as it should be.
fn all_read(source: &[u8], rows: &[Row]) -> bool {
    rows.iter().all(|(query, numbers)| {
        read(source, *query).is_some_and(|payload| has(&payload, source, *numbers))
    })
}

// Whether an offset has this place in the payload of a window.
fn looks_up(source: &[u8], window: Window, offset: u32, place: Option<Place>) -> bool {
    contents(source, window).is_some_and(|payload| payload.line_column_at(offset) == place)
}

#[cfg(test)]
mod tests {
    use super::*;

    const SCALE: &[u8] = b"Do\r\nRe\rMi\nFa";

    const MOST: u32 = 4_294_967_295;

    fn at(line: u64, column: u64) -> Option<Place> {
        Some(Place { line, column })
    }

    fn window(start: u32, length: u32, line: u32, column: u32, line_count: u32) -> Window {
        Window {
            start,
            length,
            line,
            column,
            line_count,
        }
    }

    #[test]
    fn worked_windows(rt: HostRuntime) {
        assert!(rt;
            all_read(
                SCALE,
                &[
                    ([7, 2, 0, 0], [7, 2, 2, 0, 2]),
                    ([8, 1, 0, 0], [8, 1, 2, 1, 2]),
                    ([8, 1, 1, 1], [4, 8, 1, 0, 3]),
                    ([8, 1, 0, 1], [8, 4, 2, 1, 3]),
                    ([3, 0, 0, 0], [3, 1, 0, 2, 1]),
                    ([2, 1, 0, 0], [2, 2, 0, 2, 1]),
                    ([0, 0, 0, 0], [0, 0, 0, 0, 0]),
                    ([12, 1, 0, 0], [12, 0, 3, 2, 3]),
                    ([13, 0, 1, 0], [7, 5, 2, 0, 3]),
                    ([0, 12, MOST, MOST], [0, 12, 0, 0, 3]),
                ],
            )
        );
        assert!(rt; all_read(b"", &[([0, 1, 0, 0], [0, 0, 0, 0, 0])]));
        assert!(rt;
            all_read(
                b"\nLa\nTi",
                &[
                    ([0, 0, 0, 1], [0, 4, 0, 0, 2]),
                    ([0, 1, 0, 1], [0, 6, 0, 0, 2]),
                ],
            )
        );
    }

    #[test]
    fn spans_without_a_window(rt: HostRuntime) {
        assert!(rt; read(SCALE, [13, 0, 0, 0]).is_none());
        assert!(rt; read(SCALE, [13, 1, 1, 0]).is_none());
        assert!(rt; read(b"", [1, 0, 0, 0]).is_none());
        assert!(rt; read(SCALE, [MOST, MOST, 1, 1]).is_none());
        assert!(rt; read(SCALE, [0, MOST, 0, 0]).is_none());
    }

    #[test]
    fn look_ups(rt: HostRuntime) {
        let third = window(4, 8, 1, 0, 3);
        assert!(rt; looks_up(SCALE, third, 9, at(2, 2)));
        assert!(rt; looks_up(SCALE, third, 0, at(1, 0)));
        assert!(rt; looks_up(SCALE, third, 13, None));
        assert!(rt; looks_up(SCALE, window(0, 12, 0, 0, 3), 3, at(0, 2)));
        // data that begins with the LF of a pair
        assert!(rt; looks_up(SCALE, window(3, 3, 0, 2, 1), 4, at(1, 0)));
        assert!(rt; looks_up(b"\n", window(0, 1, 0, 7, 1), 1, at(1, 0)));
    }

    // Numbers that no reading gives, in a window made by hand.
    #[test]
    fn windows_made_by_hand(rt: HostRuntime) {
        assert!(rt;
            looks_up(
                SCALE,
                window(0, 12, MOST, MOST, 0),
                2,
                at(4_294_967_295, 4_294_967_297),
            )
        );
        assert!(rt;
            looks_up(
                SCALE,
                window(0, 12, MOST, MOST, 0),
                12,
                at(4_294_967_298, 2),
            )
        );
        assert!(rt; contents(SCALE, window(12, 0, 0, 0, 0)).is_some());
        assert!(rt; contents(SCALE, window(12, 1, 0, 0, 0)).is_none());
        assert!(rt; contents(SCALE, window(MOST, MOST, 0, 0, 0)).is_none());
    }
}
