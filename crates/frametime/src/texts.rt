// What the program writes: for each pair of settings a heading, and the answers to the lines of the input.
ghost use Rattle.std.specs.Prelude.{◌≡◌, ◌++◌, IfOk, OnOk, string_bytes};
ghost use Rattle.frametime.specs.Told.{answer_line, lines_from, pair_told, told};

use crate::lines::Answer;
use crate::timings::Timing;
use std::alloc::{AllocError, Global};

// A period and a delay in milliseconds as they are asked for, in range or not.
#[derive(Clone, Copy)]
pub struct Pair {
    pub period: u64,
    pub delay: u64,
}

// The number of the input's first line.
const FIRST_LINE: usize = 1;

// Writes the answer to the line of that number.
fn write_answer(text: &mut String, number: usize, answer: &Answer) -> Result<(), AllocError>
    ensures { OnOk result (string_bytes text.new ≡ string_bytes text.old ++ answer_line number answer.now) }
{
    match answer {
        Ok(shown) => writeln!(text, "{number} {shown}"),
        Err(reason) => writeln!(text, "{number} {reason}"),
    }
}

// Writes the answers, each to a line of the input.
fn write_answers(text: &mut String, all: &[Answer]) -> Result<(), AllocError>
    ensures { OnOk result (string_bytes text.new ≡ string_bytes text.old ++ lines_from FIRST_LINE all.now) }
{
    for (i, answer) in all.iter().enumerate() {
        write_answer(text, i + FIRST_LINE, answer)?;
    }
    Ok(())
}

// A pair, and its answers to the lines of the input or the refusal of a setting.
pub fn pair_text(heap: Global, pair: Pair, input: &[u8]) -> Result<String, AllocError>
    ensures { IfOk result (λ t. string_bytes t ≡ pair_told pair.period pair.delay input.now) }
{
    let Pair { period, delay } = pair;
    let mut text = String::new(heap);
    writeln!(text, "period {period} delay {delay}")?;
    match Timing::new(period, delay) {
        Ok(timing) => write_answers(&mut text, timing.answers(heap, input)?.as_slice())?,
        Err(reason) => writeln!(text, "{reason}")?,
    }
    Ok(text)
}

// The text of all pairs, each about the whole input.
pub fn told_text(heap: Global, pairs: &[Pair], input: &[u8]) -> Result<String, AllocError>
    ensures { IfOk result (λ t. string_bytes t ≡ told pairs.now input.now) }
{
    let mut all = String::new(heap);
    for pair in pairs {
        all.push_str(pair_text(heap, *pair, input)?.as_str())?;
    }
    Ok(all)
}
