ghost use Rattle.std.specs.Prelude.{◌≡◌, length, MatchResult};
ghost use Rattle.script.specs.Format.{meaning};
ghost use Rattle.script.specs.Numbers.{write_number};
ghost use Rattle.script.specs.Verdicts.{Written, Unwritten};

use crate::command::Command;
use crate::draft::put_line;
use crate::faults::LineFault;
use crate::form::LINE_BYTES;
use crate::reading::read;
use bounded::Bounded;

/// Why a command is not written. An unknown word is none of the reasons, so this is not a line's fault.
#[derive(Clone, Copy, PartialEq, Eq, Debug)]
pub enum WriteRefusal {
    /// Its line would have over 80 bytes before its end byte, or a byte outside 32 to 126.
    Malformed = 8,
    /// Its line would have another number of fields: the text of a note has a comma.
    FieldCount = 10,
    /// One of its values is out of range.
    BadField = 11,
    /// Its line is longer than the bytes handed in.
    NoRoom = 12,
}

/// The number by which the refusal is told.
impl From<WriteRefusal> for u8 {
    ghost from_gives = { λ e n. n ≡ write_number e };

    fn from(refusal: WriteRefusal) -> u8 {
        refusal as u8
    }
}

/// Writes a command's line, end byte included, at the start of `out` and answers its length, as no memory is taken.
/// The bytes after it stay; at a refusal all do.
pub fn write(command: Command<'_>, out: &mut [u8]) -> Result<usize, WriteRefusal>
    ensures { MatchResult result (λ n. Written out.old (meaning command.entry) n out.new) (λ e. (out.new ≡ out.old) × Unwritten (meaning command.entry) (length out.old) e) }
{
    let mut store = [0; LINE_BYTES];
    let mut draft = Bounded::new(&mut store);
    // What the draft has no place for is over 80 bytes.
    put_line(&mut draft, command).map_err(|_| WriteRefusal::Malformed)?;
    let line = draft.as_slice();
    // The line is judged as any line is. No `From` maps its fault, since an unknown word can't come here alone.
    if let Err(fault) = read(line) {
        return Err(match fault {
            LineFault::Malformed => WriteRefusal::Malformed,
            LineFault::UnknownWord => unreachable!(),
            LineFault::FieldCount => WriteRefusal::FieldCount,
            LineFault::BadField { .. } => WriteRefusal::BadField,
        });
    }
    let n = line.len();
    if out.len() < n {
        return Err(WriteRefusal::NoRoom);
    }
    out[..n].copy_from_slice(line);
    Ok(n)
}
