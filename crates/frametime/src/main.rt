// Tells in which millisecond each of four displays shows a broadcast trigger time.
#![tactic(auto)]

mod answers;
mod lines;
mod texts;
mod timings;

use anyhow::{Context, ensure};
use std::env;
use std::io::{Read, Write};
use texts::{Pair, told_text};

const USAGE: &str = "give a period and a delay in milliseconds";

// The pairs of a period and a delay that the arguments give, in milliseconds.
fn pairs(rt: &HostRuntime) -> anyhow::Result<Vec<Pair>> {
    let mut pairs = Vec::new(rt.alloc());
    let mut words = env::args(rt)?.skip(1);
    while let Some(word) = words.next() {
        let period = word.as_str().parse::<u64>()?;
        let delay = words.next().context(USAGE)?.as_str().parse::<u64>()?;
        pairs.push(Pair { period, delay })?;
    }
    ensure!(!pairs.is_empty(), USAGE);
    Ok(pairs)
}

// Each pair is told about the whole input.
fn run(rt: &HostRuntime) -> anyhow::Result<()> {
    let pairs = pairs(rt)?;
    let mut input = Vec::new(rt.alloc());
    rt.stdin().read_to_end(&mut input)?;
    let text = told_text(rt.alloc(), pairs.as_slice(), input.as_slice())?;
    rt.stdout().write_all(text.as_bytes())?;
    Ok(())
}

fn main(rt: HostRuntime) -> anyhow::Result<()> {
    run(&rt)
}
