// The text of all cases: a heading for each, and what is printed of its trace.
ghost use Rattle.std.specs.Prelude.{◌≡◌, ◌++◌, IfOk, OnOk};
ghost use Rattle.trace.specs.Printed.{printed};
ghost use Rattle.tracecases.specs.Cases.{seen};
ghost use Rattle.tracecases.specs.Told.{case_told, heading, told};
ghost use Rattle.tracecases.specs.Written.{TellsEach};

use crate::cases::{Case, read_case};
use std::alloc::{AllocError, Global};
use trace::plays::play;

// Writes the line above a case's own.
fn write_heading(text: &mut Vec<u8>, name: &[u8]) -> Result<(), AllocError>
    ensures { OnOk result (text.new.items ≡ text.old.items ++ heading name.now) }
{
    text.extend_from_slice(b"# ")?;
    text.extend_from_slice(name)?;
    text.extend_from_slice(b"\n")?;
    Ok(())
}

// Writes what is printed of a trace.
fn write_lines(heap: Global, text: &mut Vec<u8>, trace: &[u8]) -> Result<(), AllocError>
    ensures { OnOk result (text.new.items ≡ text.old.items ++ printed trace.now) }
{
    let lines = play(heap, trace)?;
    text.extend_from_slice(lines.as_slice())?;
    Ok(())
}

// Writes a case: its heading, and the lines of its trace.
pub fn write_case(heap: Global, text: &mut Vec<u8>, case: Case<'_>) -> Result<(), AllocError>
    ensures { OnOk result (text.new.items ≡ text.old.items ++ case_told (seen case.entry)) }
{
    write_heading(text, case.name)?;
    write_lines(heap, text, case.trace)
}

// The text of all cases of an input, up to one that runs past the end.
pub fn tell_cases(heap: Global, input: &[u8]) -> Result<Vec<u8>, AllocError>
    ensures value { IfOk result (λ v. v.items ≡ told input.now) }
    ensures law { IfOk result (λ v. TellsEach input.now v.items) }
{
    let mut text = Vec::new(heap);
    let mut left = input;
    while let Some((case, rest)) = read_case(left) {
        write_case(heap, &mut text, case)?;
        left = rest;
    }
    Ok(text)
}
