// Runs of calls: any list of calls on any line map, each on the map and the page as the one before left them.
ghost use Rattle.std.specs.Prelude.{◌≡◌, ℕ, ◌≤◌, min, length, take, drop};
ghost use Rattle.answers.specs.Written.{line_for, answered, buffer_after};
ghost use Rattle.call_runs.specs.Reference.{buffer_at, with_buffer_lem, reference, handed_in, page_after, Moved, Went};
ghost use Rattle.call_runs.specs.RunLaw.{Lawful};

use crate::calls::{Call, PagePart, Told};
use answers::answer::answer;
use line_maps::map::LineMap;
use line_maps::place::locate;
use line_maps::reading::read;
use lines::records::Fault;

// Runs as many of the calls as there are places for what they tell, and answers how many. Whatever the map, its state,
// the page and the calls, each call tells what a reference tells that is given the text, that one call and its output
// buffer alone, the buffer is left as the reference leaves it, and the law of runs holds of all that was told. What is
// told goes into a slice of the caller's, so that a run cannot fail.
pub fn run<M: LineMap>(map: &mut M, page: &mut [u8], calls: &[Call], told: &mut [Told]) -> usize
    ensures count { result ≡ min (length calls.now) (length told.old) }
    ensures law { Lawful (M.text map.old) page.old page.new (take result calls.now) (take result told.new) }
    ensures rest { drop result told.new ≡ drop result told.old }
    ensures kept { M.text map.new ≡ M.text map.old }
    ensures went { Went (take result calls.now) (M.frontier map.old) (M.frontier map.new) }
{
    let count = calls.len().min(told.len());
    let asked = &calls[..count];
    // By index: after a loop over `told.iter_mut()` zipped with the calls, no proof knows what stands in the places. The
    // calls too, and not by `iter().enumerate()`, so that where the loop begins is a number that a must-fail edit turns.
    for i in 0..asked.len() {
        told[i] = serve(map, page, asked[i]);
    }
    count
}

// One call. A match on its kind, since a call is data that the law speaks of.
pub fn serve<M: LineMap>(map: &mut M, page: &mut [u8], call: Call) -> Told
    ensures told { result ≡ reference (M.text map.old) (handed_in page.old call.entry) call.entry }
    ensures page { page.new ≡ page_after (M.text map.old) page.old call.entry }
    ensures kept { M.text map.new ≡ M.text map.old }
    ensures moved { Moved call.entry (M.frontier map.old) (M.frontier map.new) }
{
    match call {
        Call::Read(span, context) => Told::Shown(read(map, span, context)),
        Call::Locate(offset) => Told::Located(locate(map, offset)),
        Call::Answer(line, part) => Told::Answered(answer_into(map, line, page, part)),
        Call::Forget => {
            map.forget();
            Told::Nothing
        }
    }
}

// The answer to a label line, with a part of the page as its output buffer.
fn answer_into<M: LineMap>(
    map: &mut M,
    line: &[u8],
    page: &mut [u8],
    part: PagePart,
) -> Result<usize, Fault>
    ensures told { result ≡ answered (buffer_at page.old part) (line_for (M.text map.old) line.now) }
    ensures page { page.new ≡ with_buffer_lem page.old part (buffer_after (buffer_at page.old part) (line_for (M.text map.old) line.now)) }
    ensures kept { M.text map.new ≡ M.text map.old }
    ensures onward { M.frontier map.old ≤ M.frontier map.new }
{
    let places = part.within(page.len());
    answer(map, line, &mut page[places]).map_err(Fault::from)
}
