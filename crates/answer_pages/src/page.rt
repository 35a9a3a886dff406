// The page of answers to the label lines of an input.
ghost use Rattle.std.specs.Prelude.{◌≡◌, ◌+◌, ◌^◌, ◌<◌, ◌≤◌, [], ◌∷◌, ◌++◌, map, IfOk, Some, vec_len, OnOk};
ghost use Rattle.lines.specs.Breaks.{seen};
ghost use Rattle.answers.specs.Written.{fault_text};
ghost use Rattle.answer_pages.specs.Pages.{labels_in, page_for};
ghost use Rattle.answer_pages.specs.Slots.{slot, Asked, asked_by, slots_from, shown_by, gathered};

use answers::answer::{LONGEST_LINE, write_fault};
use call_runs::calls::{Call, PagePart, Told};
use call_runs::run::run;
use line_maps::map::LineMap;
use lines::records::Fault;
use lines::text::Text;
use std::alloc::{AllocError, Global};

// For each label line of the input, in order, its answer or the line that tells its fault. All labels are answered in
// one run on the map, each into a slot of its own.
pub fn answer_page<M: LineMap>(
    heap: Global,
    map: &mut M,
    input: &[u8],
) -> Result<Vec<u8>, AllocError>
    ensures page { IfOk result (λ page. page.items ≡ page_for (M.text map.old) (seen input.now)) }
    ensures kept { M.text map.new ≡ M.text map.old }
    ensures onward { M.frontier map.old ≤ M.frontier map.new }
{
    let calls = label_calls(heap, input)?;
    let mut told = vec![in heap; Told::Nothing; calls.len()]?;
    let mut slots = vec![in heap; 0u8; calls.len() * LONGEST_LINE]?;
    let _ = run(map, &mut slots, &calls, &mut told);
    gather(heap, &slots, &told)
}

// A call for each label line of an input. An empty last line is none, and the bytes of each are needed, so that it does
// not go by the lines of the line table.
fn label_calls<'a>(heap: Global, input: &'a [u8]) -> Result<Vec<Call<'a>>, AllocError>
    ensures { IfOk result (λ calls. (map asked_by calls.items ≡ slots_from 0 (labels_in (seen input.now))) × (vec_len calls < 2 ^ 33)) }
{
    let text = Text::new(input);
    let bytes = text.bytes();
    let mut calls = Vec::new(heap);
    let mut start = 0;
    for found in text.breaks() {
        push_call(&mut calls, &bytes[start..found.start as usize])?;
        start = found.next_line_start();
    }
    if start < bytes.len() {
        push_call(&mut calls, &bytes[start..])?;
    }
    Ok(calls)
}

// One call more: this line, into the next slot.
fn push_call<'a>(calls: &mut Vec<Call<'a>>, line: &'a [u8]) -> Result<(), AllocError>
    requires { vec_len calls.old < 2 ^ 33 }
    ensures { OnOk result ((map asked_by calls.new.items ≡ map asked_by calls.old.items ++ Some (record { line = line.now; part = slot (vec_len calls.old) }) ∷ []) × (vec_len calls.new ≡ vec_len calls.old + 1)) }
{
    let part = PagePart {
        start: calls.len() * LONGEST_LINE,
        length: LONGEST_LINE,
    };
    calls.push(Call::Answer(line, part))?;
    Ok(())
}

// The page, taken over slot by slot by what was told of each.
fn gather(heap: Global, slots: &[u8], told: &[Told]) -> Result<Vec<u8>, AllocError>
    ensures { IfOk result (λ page. page.items ≡ gathered slots.now told.now) }
{
    let mut page = Vec::new(heap);
    for (slot, one) in slots.chunks(LONGEST_LINE).zip(told) {
        push_told(&mut page, slot, *one)?;
    }
    Ok(page)
}

// What was told of a slot, if it is one of an answer: the line that was written into it, or the line of the fault.
fn push_told(page: &mut Vec<u8>, slot: &[u8], told: Told) -> Result<(), AllocError>
    ensures { OnOk result (page.new.items ≡ page.old.items ++ shown_by slot.now told) }
{
    match told {
        Told::Answered(Ok(count)) => page.extend_from_slice(&slot[..count.min(slot.len())]),
        Told::Answered(Err(fault)) => push_fault(page, fault),
        Told::Shown(_) | Told::Located(_) | Told::Nothing => Ok(()),
    }
}

// The line that tells a fault.
fn push_fault(page: &mut Vec<u8>, fault: Fault) -> Result<(), AllocError>
    ensures { OnOk result (page.new.items ≡ page.old.items ++ fault_text fault) }
{
    let mut line = [0; LONGEST_LINE];
    let count = write_fault(fault, &mut line).unwrap_or(0);
    page.extend_from_slice(&line[..count])
}
