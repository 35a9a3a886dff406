// Runs calls with answers over line maps, among them an odd one.
#![tactic(auto)]

#[cfg(test)]
mod tests {
    use answer_pages::page::answer_page;
    use call_runs::calls::{Call, PagePart, Told};
    use call_runs::run::run;
    use line_maps::map::LineMap;
    use line_maps::plain::PlainScan;
    use lines::records::{Context, Fault, Place, SourceSpan, Window};
    use map_tests::forgetful::Forgetful;
    use std::alloc::Global;
    use std::process::Abort;
    use std::test::*;

    const SCALE: &[u8] = b"Do\r\nRe\rMi\nFa";

    // `ask` and `shown` are as in `map_tests`: the values of a test stay in its crate.
    fn ask(offset: u32, length: u32, before: u32, after: u32) -> Call<'static> {
        Call::Read(
            SourceSpan::from((offset, length)),
            Context { before, after },
        )
    }

    fn shown(start: u32, length: u32, line: u32, column: u32, line_count: u32) -> Told {
        Told::Shown(Some(Window {
            start,
            length,
            line,
            column,
            line_count,
        }))
    }

    fn answer(line: &'static [u8], start: usize, length: usize) -> Call<'static> {
        Call::Answer(line, PagePart { start, length })
    }

    fn refused(number: u32, layer: u32, field: u32, place: u32) -> Told {
        Told::Answered(Err(Fault {
            number,
            layer,
            field,
            place,
        }))
    }

    // Answers into parts of one page: the second is written over the end of the first, a part that is too short, one
    // past the page and one of a label that is refused stay as they came. The worked windows follow, with places between
    // them, in an order nobody would choose.
    fn answers<M: LineMap>(rt: &impl Abort, map: &mut M) {
        let calls = [
            answer(b"8,1,1,1", 2, 12),
            answer(b"8,1,0,1", 9, 10),
            Call::Forget,
            answer(b"8,1,0,1", 19, 9),
            answer(b"8,1,1,1", 30, 20),
            answer(b"8,,0,0", 0, 20),
            answer(b"13,0,0,0", 0, 20),
            ask(13, 0, 1, 0),
            Call::Locate(3),
            ask(8, 1, 0, 1),
            ask(13, 0, 0, 0),
            Call::Forget,
            ask(0, 0, 0, 0),
            Call::Locate(12),
            ask(2, 1, 0, 0),
            ask(8, 1, 1, 1),
            Call::Locate(13),
        ];
        let expected = [
            Told::Answered(Ok(10)),
            Told::Answered(Ok(10)),
            Told::Nothing,
            refused(6, 4, 0, 0),
            refused(6, 4, 0, 0),
            refused(1, 1, 2, 2),
            refused(5, 3, 0, 0),
            shown(7, 5, 2, 0, 3),
            Told::Located(Some(Place { line: 0, column: 2 })),
            shown(8, 4, 2, 1, 3),
            Told::Shown(None),
            Told::Nothing,
            shown(0, 0, 0, 0, 0),
            Told::Located(Some(Place { line: 3, column: 2 })),
            shown(2, 2, 0, 2, 1),
            shown(4, 8, 1, 0, 3),
            Told::Located(None),
        ];
        let mut told = [Told::Nothing; 17];
        let mut page = [b'.'; 28];
        assert_eq!(rt; run(map, &mut page, &calls, &mut told), 17);
        assert_eq!(rt; told, expected);
        assert_eq!(rt; page, *b"..4,8,1,08,4,2,1,3\n.........");
    }

    #[test]
    fn plain_scan(rt: HostRuntime) {
        let mut map = PlainScan::new(SCALE);
        answers(&rt, &mut map);
    }

    #[test]
    fn forgetful_map(rt: HostRuntime) {
        let mut map = Forgetful::new(PlainScan::new(SCALE));
        answers(&rt, &mut map);
    }

    #[test]
    fn forgetful_map_of_a_forgetful_map(rt: HostRuntime) {
        let mut map = Forgetful::new(Forgetful::new(PlainScan::new(SCALE)));
        answers(&rt, &mut map);
    }

    // The page of the worked labels, whose lines end in all three ways; the empty last one is no label.
    fn prints<M: LineMap>(rt: &impl Abort, heap: Global, map: &mut M) -> Result<(), Fail> {
        let labels = b"8,1,1,1\n8,1,0,1\r\n13,0,0,0\r8,,0,0\n8,1,0\n";
        let page = answer_page(heap, map, labels)?;
        assert_eq!(rt;
            page.as_slice(),
            b"4,8,1,0,3\n8,4,2,1,3\nfault,5,3,0,0\nfault,1,1,2,2\nfault,4,2,4,5\n".as_slice()
        );
        Ok(())
    }

    #[test]
    fn worked_page(rt: HostRuntime) -> Result<(), Fail> {
        let mut map = PlainScan::new(SCALE);
        prints(&rt, rt.alloc(), &mut map)
    }

    #[test]
    fn worked_page_of_a_forgetful_map(rt: HostRuntime) -> Result<(), Fail> {
        let mut map = Forgetful::new(PlainScan::new(SCALE));
        prints(&rt, rt.alloc(), &mut map)
    }

    // Only as many calls are run as there are places for what they tell, and the page is written by those alone.
    #[test]
    fn fewer_places_than_calls(rt: HostRuntime) {
        let mut map = PlainScan::new(SCALE);
        let mut told = [Told::Nothing; 1];
        let calls = [Call::Locate(0), Call::Locate(1)];
        assert_eq!(rt; run(&mut map, &mut [], &calls, &mut told), 1);
        assert_eq!(rt; told, [Told::Located(Some(Place { line: 0, column: 0 }))]);
        assert_eq!(rt; run(&mut map, &mut [], &[], &mut told), 0);
        let calls = [answer(b"8,1,1,1", 0, 10), answer(b"8,1,0,1", 10, 10)];
        let mut page = [b'.'; 20];
        assert_eq!(rt; run(&mut map, &mut page, &calls, &mut told), 1);
        assert_eq!(rt; told, [Told::Answered(Ok(10))]);
        assert_eq!(rt; page, *b"4,8,1,0,3\n..........");
        assert_eq!(rt; run(&mut map, &mut page, &[], &mut told), 0);
    }
}
