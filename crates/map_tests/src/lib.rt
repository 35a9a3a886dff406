// Runs calls over line maps, among them an odd one.
#![tactic(auto)]

pub mod forgetful;

#[cfg(test)]
mod tests {
    use crate::forgetful::Forgetful;
    use call_runs::calls::{Call, Told};
    use call_runs::run::run;
    use line_maps::map::LineMap;
    use line_maps::plain::PlainScan;
    use lines::records::{Context, Place, SourceSpan, Window};
    use std::process::Abort;

    const SCALE: &[u8] = b"Do\r\nRe\rMi\nFa";

    fn ask(offset: u32, length: u32, before: u32, after: u32) -> Call<'static> {
        Call::Read(
            SourceSpan::from((offset, length)),
            Context { before, after },
        )
    }

    fn shown(start: u32, length: u32, line: u32, column: u32, line_count: u32) -> Told {
        Told::Shown(Some(Window {
            start,
            length,
            line,
            column,
            line_count,
        }))
    }

    // The worked windows with places between them, in an order nobody would choose.
    fn agrees<M: LineMap>(rt: &impl Abort, map: &mut M) {
        let calls = [
            ask(13, 0, 1, 0),
            Call::Locate(3),
            ask(8, 1, 0, 1),
            ask(13, 0, 0, 0),
            Call::Forget,
            ask(0, 0, 0, 0),
            Call::Locate(12),
            ask(2, 1, 0, 0),
            ask(8, 1, 1, 1),
            Call::Locate(13),
        ];
        let expected = [
            shown(7, 5, 2, 0, 3),
            Told::Located(Some(Place { line: 0, column: 2 })),
            shown(8, 4, 2, 1, 3),
            Told::Shown(None),
            Told::Nothing,
            shown(0, 0, 0, 0, 0),
            Told::Located(Some(Place { line: 3, column: 2 })),
            shown(2, 2, 0, 2, 1),
            shown(4, 8, 1, 0, 3),
            Told::Located(None),
        ];
        let mut told = [Told::Nothing; 10];
        assert_eq!(rt; run(map, &mut [], &calls, &mut told), 10);
        assert_eq!(rt; told, expected);
    }

    #[test]
    fn plain_scan(rt: HostRuntime) {
        let mut map = PlainScan::new(SCALE);
        agrees(&rt, &mut map);
    }

    #[test]
    fn forgetful_map(rt: HostRuntime) {
        let mut map = Forgetful::new(PlainScan::new(SCALE));
        agrees(&rt, &mut map);
    }

    #[test]
    fn forgetful_map_of_a_forgetful_map(rt: HostRuntime) {
        let mut map = Forgetful::new(Forgetful::new(PlainScan::new(SCALE)));
        agrees(&rt, &mut map);
    }

    // Only as many calls are run as there are places for what they tell.
    #[test]
    fn fewer_places_than_calls(rt: HostRuntime) {
        let mut map = PlainScan::new(SCALE);
        let calls = [Call::Locate(0), Call::Locate(1)];
        let mut told = [Told::Nothing; 1];
        assert_eq!(rt; run(&mut map, &mut [], &calls, &mut told), 1);
        assert_eq!(rt; told, [Told::Located(Some(Place { line: 0, column: 0 }))]);
        assert_eq!(rt; run(&mut map, &mut [], &[], &mut told), 0);
    }
}
