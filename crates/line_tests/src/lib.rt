// Runs the finding of breaks on examples.
#![tactic(auto)]

use lines::cursor::LineBreaks;
use lines::records::LineBreak;

// Whether the cursor gives exactly these breaks, and then none for ever after.
fn gives(source: &[u8], breaks: &[(u32, u32)]) -> bool {
    let mut cursor = LineBreaks::new(source);
    for (start, end) in breaks {
        if cursor.next()
            != Some(LineBreak {
                start: *start,
                end: *end,
            })
        {
            return false;
        }
    }
    cursor.next().is_none() && cursor.next().is_none()
}

#[cfg(test)]
mod tests {
    use super::*;
    use lines::breaks::{break_width, lower, next_break};
    use lines::endings::next_ending;
    use lines::records::SourceSpan;
    use std::process::Abort;
    use std::test::Fail;

    #[test]
    fn breaks_of_small_sources(rt: HostRuntime) {
        assert!(rt; gives(b"", &[]));
        assert!(rt; gives(b"Do", &[]));
        assert!(rt; gives(b"Do\r\nRe\rMi\nFa", &[(2, 3), (6, 6), (9, 9)]));
        assert!(rt; gives(b"\n", &[(0, 0)]));
        assert!(rt; gives(b"\r", &[(0, 0)]));
        assert!(rt; gives(b"\r\n", &[(0, 1)]));
        assert!(rt; gives(b"\n\n\n", &[(0, 0), (1, 1), (2, 2)]));
        assert!(rt; gives(b"\r\r\r", &[(0, 0), (1, 1), (2, 2)]));
    }

    #[test]
    fn breaks_that_touch(rt: HostRuntime) {
        assert!(rt; gives(b"Do\r", &[(2, 2)]));
        assert!(rt; gives(b"\r\r\n", &[(0, 0), (1, 2)]));
        assert!(rt; gives(b"\n\r", &[(0, 0), (1, 1)]));
        assert!(rt; gives(b"\r\n\n", &[(0, 1), (2, 2)]));
        assert!(rt; gives(b"\r\n\r\n", &[(0, 1), (2, 3)]));
        assert!(rt; gives(b"\n\r\n\r", &[(0, 0), (1, 2), (3, 3)]));
        assert!(rt; gives(b"\x0b\x0c\xc2\x85\xe2\x80\xa8", &[]));
    }

    // One break in a source of 700 bytes, found from its start, from right before the break and from inside it.
    fn found_at(rt: &impl Abort, at: usize, bytes: &[u8]) -> Result<(), Fail> {
        let mut source = [b'x'; 700];
        assert!(rt; at < 600);
        let end = match bytes {
            [byte] => {
                source[at] = *byte;
                at
            }
            [first, last] => {
                source[at] = *first;
                source[at + 1] = *last;
                at + 1
            }
            _ => return Err(Fail::new("a break has one or two bytes")),
        };
        let found = Some(LineBreak {
            start: at as u32,
            end: end as u32,
        });
        assert_eq!(rt; next_ending(&source, 0), at);
        assert_eq!(rt; next_break(&source, 0), found);
        assert_eq!(rt; next_break(&source, at.saturating_sub(1)), found);
        assert_eq!(rt; next_break(&source, end), found);
        assert_eq!(rt; next_break(&source, end + 1), None);
        assert_eq!(rt; lower(&source, end), at);
        assert_eq!(rt; break_width(&source, at), bytes.len());
        assert_eq!(rt; break_width(&source, at + 2), 0);
        Ok(())
    }

    const AROUND: [usize; 24] = [
        0, 1, 14, 15, 16, 17, 31, 32, 63, 64, 65, 95, 96, 97, 111, 112, 255, 256, 257, 351, 352,
        353, 512, 598,
    ];

    #[test]
    fn breaks_around_block_boundaries(rt: HostRuntime) -> Result<(), Fail> {
        for at in AROUND {
            found_at(&rt, at, b"\n")?;
            found_at(&rt, at, b"\r")?;
            found_at(&rt, at, b"\r\n")?;
        }
        Ok(())
    }

    #[test]
    fn looking_past_the_end(rt: HostRuntime) {
        assert_eq!(rt; next_ending(b"x\n", 2), 2);
        assert_eq!(rt; next_ending(b"x\n", 9), 2);
        assert_eq!(rt; next_break(b"x\n", 9), None);
        assert_eq!(rt; lower(b"\r\n", 9), 9);
        assert_eq!(rt; break_width(b"\n", 9), 0);
    }

    #[test]
    fn spans(rt: HostRuntime) {
        let pair = SourceSpan::from((7, 2));
        assert_eq!(rt; pair.offset(), 7);
        assert_eq!(rt; pair.len(), 2);
        assert!(rt; !pair.is_empty());
        assert_eq!(rt; SourceSpan::from(7..9), pair);
        assert_eq!(rt; SourceSpan::from(7..7).len(), 0);
        assert_eq!(rt; SourceSpan::from(9..7), SourceSpan::from((9, 0)));
        assert!(rt; SourceSpan::from(9..7).is_empty());
    }
}
