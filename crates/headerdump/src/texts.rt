// What the program writes: a line for each line of the input.
ghost use Rattle.std.specs.Prelude.{◌≡◌, ◌++◌, IfOk, OnOk, string_bytes};
ghost use Rattle.headerdump.specs.Dumped.{line_text, lines_from, dumped};
ghost use Rattle.headerdump.specs.Lines.{line_of};
ghost use Rattle.hexpairs.specs.Lines.{lines_of};
ghost use Rattle.hexpairs.specs.Text.{bytes_of};

use crate::lines::read_line;
use crate::shows::Values;
use hexpairs::hex_bytes;
use hexpairs::lines::lines_of;
use std::alloc::{AllocError, Global};

// The number of the input's first line.
const FIRST_LINE: usize = 1;

// Writes what the line of that number says.
fn write_line(
    heap: Global,
    text: &mut String,
    number: usize,
    line: &[u8],
    slot_size: u32,
) -> Result<(), AllocError>
    ensures { OnOk result (string_bytes text.new ≡ string_bytes text.old ++ line_text number (line_of (bytes_of line.now) slot_size)) }
{
    let bytes = hex_bytes(heap, line)?;
    match read_line(&bytes, slot_size) {
        Ok(header) => writeln!(text, "{number} {}", Values(header)),
        Err(reason) => writeln!(text, "{number} {reason}"),
    }
}

// Writes what each line of the input says.
fn write_lines(
    heap: Global,
    text: &mut String,
    input: &[u8],
    slot_size: u32,
) -> Result<(), AllocError>
    ensures { OnOk result (string_bytes text.new ≡ string_bytes text.old ++ lines_from slot_size FIRST_LINE (lines_of input.now)) }
{
    for (i, line) in lines_of(input).enumerate() {
        write_line(heap, text, i + FIRST_LINE, line, slot_size)?;
    }
    Ok(())
}

// The text of a whole input, for slots of that size.
pub fn dump_text(heap: Global, input: &[u8], slot_size: u32) -> Result<String, AllocError>
    ensures { IfOk result (λ t. string_bytes t ≡ dumped slot_size input.now) }
{
    let mut text = String::new(heap);
    write_lines(heap, &mut text, input, slot_size)?;
    Ok(text)
}
