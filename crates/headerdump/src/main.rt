// Prints what headers in hexadecimal say, one a line; the slot size is the argument.
#![tactic(auto)]

mod answers;
mod lines;
mod shows;
mod texts;

use anyhow::Context;
use std::env;
use std::io::{Read, Write};
use texts::dump_text;

// The slot size that the first argument gives.
fn slot_size(rt: &HostRuntime) -> anyhow::Result<u32> {
    let word = env::args(rt)?.nth(1).context("the slot size is missing")?;
    Ok(word.as_str().parse::<u32>()?)
}

fn run(rt: &HostRuntime) -> anyhow::Result<()> {
    let slot_size = slot_size(rt)?;
    let mut input = Vec::new(rt.alloc());
    rt.stdin().read_to_end(&mut input)?;
    let text = dump_text(rt.alloc(), input.as_slice(), slot_size)?;
    rt.stdout().write_all(text.as_bytes())?;
    Ok(())
}

fn main(rt: HostRuntime) -> anyhow::Result<()> {
    run(&rt)
}
