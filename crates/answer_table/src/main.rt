// Reads a table of label lines and faults from standard input and prints what each row gives.
#![tactic(auto)]

mod rows;

use exits::exit_code;
use rows::Table;
use std::io::{BufRead, BufReader};
use std::process::ExitCode;

fn main(rt: HostRuntime) -> ExitCode {
    exit_code(&rt, "answer_table", print_table(&rt))
}

// Prints a line for each row that asks something; the first malformed row ends it.
fn print_table(rt: &HostRuntime) -> anyhow::Result<()> {
    let heap = rt.alloc();
    let mut table = Table::new(heap);
    for row in BufReader::new(heap, rt.stdin())?.lines(heap) {
        if let Some(result) = table.result(row?.as_str())? {
            rt.println(result)?;
        }
    }
    Ok(())
}
