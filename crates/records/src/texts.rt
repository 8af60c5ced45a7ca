// Lines as text: four numbers parted by spaces, and a line feed behind them.
ghost use Rattle.std.specs.Prelude.{◌≡◌, ◌+◌, ◌<◌, ◌≤◌, [], ◌∷◌, ◌++◌, drop, decimal, IfOk};
ghost use Rattle.records.specs.Texts.{line_text, text_of};

use crate::facts::Line;
use itoa::write_digits;
use std::alloc::{AllocError, Global};

// Four numbers of at most 20 digits, and a byte behind each.
const LONGEST_LINE: usize = 84;

// Writes a number and the byte behind it before `end`, and answers where they start.
fn write_field(n: u64, behind: u8, text: &mut [u8; LONGEST_LINE], end: usize) -> usize
    requires within { (21 ≤ end) × (end ≤ 84) }
    ensures near { (end ≤ result + 21) × (result < end) }
    ensures written { drop result text.new ≡ decimal n ++ behind ∷ drop end text.old }
{
    text[end - 1] = behind;
    write_digits(n, text, end - 1)
}

// Writes a line and its line feed at the end of the text, and answers where they start. A trace has thousands of lines: written so,
// from the last digit to the first, each costs a third of what it costs by its `Display`.
fn write_line(line: &Line, text: &mut [u8; LONGEST_LINE]) -> usize
    ensures within { result < 84 }
    ensures written { drop result text.new ≡ line_text line.now ++ 10 ∷ [] }
{
    let at = write_field(line.since, b'\n', text, LONGEST_LINE);
    let at = write_field(u64::from(line.accession), b' ', text, at);
    let at = write_field(u64::from(line.refusal), b' ', text, at);
    write_field(line.number as u64, b' ', text, at)
}

// The lines as one text.
pub fn text_of(heap: Global, lines: &[Line]) -> Result<Vec<u8>, AllocError>
    ensures { IfOk result (λ v. v.items ≡ text_of lines.now) }
{
    let mut all = Vec::new(heap);
    let mut text = [0; LONGEST_LINE];
    for line in lines {
        let start = write_line(line, &mut text);
        all.extend_from_slice(&text[start..])?;
    }
    Ok(all)
}
