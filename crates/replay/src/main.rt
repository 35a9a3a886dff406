// Replays a fixed list of the original's answers from standard input and says what agrees and what differs as intended.
#![tactic(auto)]

mod departures;
mod list;
mod rows;
mod tally;

use anyhow::bail;
use exits::exit_code;
use list::List;
use std::io::{BufRead, BufReader};
use std::process::ExitCode;

fn main(rt: HostRuntime) -> ExitCode {
    exit_code(&rt, "replay", replay(&rt))
}

fn replay(rt: &HostRuntime) -> anyhow::Result<()> {
    let heap = rt.alloc();
    let mut list = List::new(heap);
    for row in BufReader::new(heap, rt.stdin())?.lines(heap) {
        let row = row?;
        if list.replay(row.as_str())? == Err(None) {
            eprintln!(rt; "replay: differs: {row}")?;
        }
    }
    rt.println(list.tally())?;
    if list.tally().otherwise > 0 {
        bail!("an answer differs otherwise than intended");
    }
    Ok(())
}
