// Answers the label lines of standard input over source.txt in the current folder: a line for each, with the window of
// the label or its fault.
#![tactic(auto)]

use answer_pages::page::answer_page;
use anyhow::bail;
use exits::exit_code;
use inputs::{Filled, fill, fill_from_file};
use line_maps::plain::PlainScan;
use std::io::Write;
use std::process::ExitCode;

fn main(rt: HostRuntime) -> ExitCode {
    exit_code(&rt, "labels", answer_labels(&rt))
}

// Prints the answers to the first 16,384 bytes of labels over the first 65,536 of the source; where either is longer,
// that is an error, told once they are printed.
fn answer_labels(rt: &HostRuntime) -> anyhow::Result<()> {
    // Inputs lie in arrays of a fixed size.
    let mut source_bytes = [0u8; 65_536];
    let mut input_bytes = [0u8; 16_384];
    let source = fill_from_file(rt, "source.txt", &mut source_bytes)?;
    let input = fill(&mut rt.stdin(), &mut input_bytes)?;
    let mut map = PlainScan::new(source.bytes_in(&source_bytes));
    let page = answer_page(rt.alloc(), &mut map, input.bytes_in(&input_bytes))?;
    rt.stdout().write_all(page.as_slice())?;
    told_whole(source, input)
}

// What was cut, as an error.
fn told_whole(source: Filled, input: Filled) -> anyhow::Result<()> {
    match (source, input) {
        (Filled::Whole(_), Filled::Whole(_)) => Ok(()),
        (Filled::Cut, Filled::Whole(_)) => {
            bail!("only the first 65,536 bytes of source.txt were read")
        }
        (Filled::Whole(_), Filled::Cut) => bail!(
            "only the first 16,384 bytes of standard input were read, so that the last label may be cut"
        ),
        (Filled::Cut, Filled::Cut) => bail!(
            "only the first 65,536 bytes of source.txt and 16,384 of standard input were read"
        ),
    }
}
