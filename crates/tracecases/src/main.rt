// Plays a list of traces from the standard input, and prints each one's lines under a heading.
#![tactic(auto)]

mod cases;
mod tellings;

use std::io::{Read, Write};
use tellings::tell_cases;

fn run(rt: &HostRuntime) -> anyhow::Result<()> {
    let mut input = Vec::new(rt.alloc());
    rt.stdin().read_to_end(&mut input)?;
    let text = tell_cases(rt.alloc(), input.as_slice())?;
    rt.stdout().write_all(text.as_slice())?;
    Ok(())
}

fn main(rt: HostRuntime) -> anyhow::Result<()> {
    run(&rt)
}
