ghost use Rattle.std.specs.Prelude.{◌≡◌, ℕ, List, ◌++◌, IfOk, OnOk};
ghost use Rattle.script.specs.Texts.{lines, Within};
ghost use Rattle.script.specs.Verdicts.{Verdict, Judged};
ghost use Rattle.readback.specs.Telling.{fault_told, line_told, LinesTold, EachLineIsToldAsItWasUnderstood};

use bounded::Bounded;
use script::{LINE_BYTES, Lines, check, read, write};
use std::alloc::{AllocError, Global};

// Appends the line that tells a fault, by its number: a line's fault and a text's refusal are told alike.
fn tell_fault(out: &mut Vec<u8>, number: u32, cause: u8, field: u8) -> Result<(), AllocError>
    ensures { OnOk result (out.new.items ≡ out.old.items ++ fault_told number cause field) }
{
    // Made apart and appended, since `write!` to a `Vec` would hide in an `io::Error` that only memory can run out.
    let told = format!(in *out.allocator(); "{number},FAULT,{cause},{field}\n")?;
    out.extend_from_slice(told.as_bytes())
}

// Appends a line's number and, after a comma, the line written again from its command, or its fault.
fn tell_line(out: &mut Vec<u8>, number: u32, line: &[u8]) -> Result<(), AllocError>
    ensures { OnOk result ((v : Verdict) × Judged line.now v × (out.new.items ≡ out.old.items ++ line_told number v)) }
{
    match read(line) {
        Ok(command) => {
            // `write` fills bytes that it is lent.
            let mut again = [0; LINE_BYTES];
            // What was read can be written.
            let n = write(command, &mut again).unwrap();
            let head = format!(in *out.allocator(); "{number},")?;
            out.extend_from_slice(head.as_bytes())?;
            out.extend_from_slice(&again[..n])
        }
        Err(fault) => tell_fault(out, number, u8::from(fault), fault.field()),
    }
}

// Appends what is told of each line of a text.
fn tell_lines(out: &mut Vec<u8>, text: &[u8]) -> Result<(), AllocError>
    requires { Within text.now }
    ensures { OnOk result ((body : List ℕ) × LinesTold 1 (lines text.now) body × (out.new.items ≡ out.old.items ++ body)) }
{
    for (number, line) in (1..).zip(Lines::new(text)) {
        tell_line(out, number, line)?;
    }
    Ok(())
}

/// What is told of a whole text.
pub fn read_back(heap: Global, text: &[u8]) -> Result<Vec<u8>, AllocError>
    ensures { IfOk result (λ told. EachLineIsToldAsItWasUnderstood text.now told.items) }
{
    let mut out = Vec::new(heap);
    match check(text, &mut Bounded::new(&mut [])) {
        Ok(faults) => {
            tell_lines(&mut out, text)?;
            let count = Lines::new(text).count();
            let last = format!(in heap; "LINES,{count},FAULTS,{faults}\n")?;
            out.extend_from_slice(last.as_bytes())?;
        }
        Err(refusal) => tell_fault(&mut out, 0, u8::from(refusal), 0)?,
    }
    Ok(out)
}
