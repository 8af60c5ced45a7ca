// Plays a trace from the standard input into a receiver over a panel, and prints a line for each record.
#![tactic(auto)]

use records::lists::TRACE_LIMIT;
use std::io::{Read, Write};
use trace::plays::play;

fn run(rt: &HostRuntime) -> anyhow::Result<()> {
    // one byte more than is read: a buffer that is full would be made larger to look for another
    let mut input = Vec::with_capacity(rt.alloc(), TRACE_LIMIT + 1)?;
    rt.stdin().take(TRACE_LIMIT as u64).read_to_end(&mut input)?;
    let text = play(rt.alloc(), input.as_slice())?;
    rt.stdout().write_all(text.as_slice())?;
    Ok(())
}

fn main(rt: HostRuntime) -> anyhow::Result<()> {
    run(&rt)
}
