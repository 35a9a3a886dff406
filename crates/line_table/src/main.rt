// Lists the lines of source.txt in the current folder: where each starts, how long it is and how it ends.
#![tactic(auto)]

use anyhow::bail;
use exits::exit_code;
use inputs::{Filled, fill_from_file};
use listing::table::line_table;
use std::process::ExitCode;

fn main(rt: HostRuntime) -> ExitCode {
    exit_code(&rt, "line_table", list(&rt))
}

// Prints the table of the first 65,536 bytes; a longer source is an error, told once they are listed.
fn list(rt: &HostRuntime) -> anyhow::Result<()> {
    // Inputs lie in arrays of a fixed size.
    let mut bytes = [0u8; 65_536];
    let source = fill_from_file(rt, "source.txt", &mut bytes)?;
    rt.print(line_table(rt.alloc(), source.bytes_in(&bytes))?)?;
    if source == Filled::Cut {
        bail!("source.txt has more than 65,536 bytes: only the first 65,536 are listed");
    }
    Ok(())
}
