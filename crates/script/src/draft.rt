ghost use Rattle.std.specs.Prelude.{[], ◌∷◌, map, decimal};
ghost use Rattle.script.specs.Drafts.{Wrote};
ghost use Rattle.script.specs.Format.{mask, shown, marks, meaning, fields, commas, line};

use crate::command::{Command, Mask};
use bounded::{Bounded, Full};

// The functions here take the list that they write to. As methods of a type of its own they would say the same of it, and
// the one bounded list, which takes no memory, serves both for this and for faulty lines.

fn put(draft: &mut Bounded<'_, u8>, b: u8) -> Result<(), Full>
    ensures { Wrote draft.old (b ∷ []) draft.new result }
{
    draft.push(b)
}

// Byte by byte, as each may find the list full.
fn put_all(draft: &mut Bounded<'_, u8>, bytes: &[u8]) -> Result<(), Full>
    ensures { Wrote draft.old bytes.now draft.new result }
{
    for b in bytes {
        put(draft, *b)?;
    }
    Ok(())
}

fn put_mask(draft: &mut Bounded<'_, u8>, m: Mask) -> Result<(), Full>
    ensures { Wrote draft.old (shown mask (marks m.rigs m.set)) draft.new result }
{
    let mut left = m.set;
    for _ in 0..m.rigs {
        // 0 or 1, so that the cast is exact.
        put(draft, b'0' + (left % 2) as u8)?;
        left /= 2;
    }
    Ok(())
}

// The digits of a number. (Written here, so that no crate that prints them has to be trusted.)
fn put_decimal(draft: &mut Bounded<'_, u8>, n: u16) -> Result<(), Full>
    ensures { Wrote draft.old (decimal n) draft.new result }
{
    if n >= 10 {
        put_decimal(draft, n / 10)?;
    }
    put(draft, b'0' + (n % 10) as u8)
}

// A number after its comma.
fn put_number(draft: &mut Bounded<'_, u8>, n: u16) -> Result<(), Full>
    ensures { Wrote draft.old (44 ∷ decimal n) draft.new result }
{
    put(draft, b',')?;
    put_decimal(draft, n)
}

// Each of the numbers, after its comma.
fn put_numbers(draft: &mut Bounded<'_, u8>, numbers: &[u16]) -> Result<(), Full>
    ensures { Wrote draft.old (commas (map decimal numbers.now)) draft.new result }
{
    for n in numbers {
        put_number(draft, *n)?;
    }
    Ok(())
}

// The fields of a command, each after its comma.
fn put_fields(draft: &mut Bounded<'_, u8>, command: Command<'_>) -> Result<(), Full>
    ensures { Wrote draft.old (commas (fields (meaning command.entry))) draft.new result }
{
    match command {
        Command::Hall { rigs, types } => put_numbers(draft, &[rigs, types]),
        Command::PumpType(m) => {
            put(draft, b',')?;
            put_mask(draft, m)
        }
        Command::Add { kind, count } | Command::Withdraw { kind, count } => {
            put_numbers(draft, &[kind, count])
        }
        Command::Take { rig } | Command::Shut { rig } | Command::Open { rig } => {
            put_numbers(draft, &[rig])
        }
        Command::Report => Ok(()),
        Command::Note(text) => {
            put(draft, b',')?;
            put_all(draft, text)
        }
    }
}

// The command's line, end byte included.
pub(crate) fn put_line(draft: &mut Bounded<'_, u8>, command: Command<'_>) -> Result<(), Full>
    ensures { Wrote draft.old (line (meaning command.entry)) draft.new result }
{
    put_all(draft, command.word().name())?;
    put_fields(draft, command)?;
    put(draft, b'\n')
}
