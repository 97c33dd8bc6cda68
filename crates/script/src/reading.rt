ghost use Rattle.std.specs.Prelude.{◌≡◌, ℕ, List, ◌∷◌, length, IfOk, MatchOption, MatchResult, ◌≢◌};
ghost use Rattle.script.specs.Format.{name, shape, meaning};
ghost use Rattle.script.specs.Parts.{parts, Ends, after, Says, Misfit};
ghost use Rattle.script.specs.Verdicts.{Judged, verdict, Tidy};
ghost use Rattle.script.specs.Verdicts.{TheLineHasNoOtherVerdict, AnAcceptedLineIsTheOnlyLineOfItsCommand};

use crate::command::{Command, Word};
use crate::faults::LineFault;
use crate::fields::{Count, Fields, count_commas, cut_field};
use crate::form::front_of;

// The command word, and what follows it: nothing, or a comma and the fields.
fn read_word(front: &[u8]) -> Option<(Word, &[u8])>
    ensures { MatchOption result ((w : Word) (fs : List (List ℕ)) → parts front.now ≢ name w ∷ fs) (λ x. Ends x.1.now × (parts front.now ≡ name x.0 ∷ after x.1.now)) }
{
    // A word is short, so that the comma after it is looked for no further: a faulty line may be long, and have none.
    let (first, _) = cut_field(&front[..front.len().min(Word::LEN_MAX + 1)]);
    let word = Word::named(first)?;
    let (_, rest) = front.split_at(first.len());
    match rest {
        [] | [b',', ..] => Some((word, rest)),
        _ => None,
    }
}

// The command with this word and the fields that follow, which are as many as the word takes.
fn read_fields(word: Word, rest: &[u8]) -> Result<Command<'_>, LineFault>
    requires { length (after rest.now) ≡ length (shape word) }
    ensures { MatchResult result (λ c. Says word (after rest.now) (meaning c) × Tidy c) (λ e. Misfit (shape word) (after rest.now) e) }
{
    let mut fields = Fields::new(rest);
    match word {
        Word::Hall => Ok(Command::Hall {
            rigs: fields.next_value()?,
            types: fields.next_value()?,
        }),
        Word::PumpType => Ok(Command::PumpType(fields.next_value()?)),
        Word::Add => Ok(Command::Add {
            kind: fields.next_value()?,
            count: fields.next_value::<Count>()?.0,
        }),
        Word::Withdraw => Ok(Command::Withdraw {
            kind: fields.next_value()?,
            count: fields.next_value::<Count>()?.0,
        }),
        Word::Take => Ok(Command::Take {
            rig: fields.next_value()?,
        }),
        Word::Shut => Ok(Command::Shut {
            rig: fields.next_value()?,
        }),
        Word::Open => Ok(Command::Open {
            rig: fields.next_value()?,
        }),
        Word::Report => Ok(Command::Report),
        Word::Note => Ok(Command::Note(fields.next_bytes())),
    }
}

// The format's verdict on a line.
fn judge(line: &[u8]) -> Result<Command<'_>, LineFault>
    ensures judged { Judged line.now (verdict result) }
    ensures tidy { IfOk result Tidy }
{
    let front = front_of(line).ok_or(LineFault::Malformed)?;
    let (word, rest) = read_word(front).ok_or(LineFault::UnknownWord)?;
    if count_commas(rest) != word.arity() {
        return Err(LineFault::FieldCount);
    }
    read_fields(word, rest)
}

/// Reads one line, its end byte included: the command that it says, or the fault that it has.
pub fn read(line: &[u8]) -> Result<Command<'_>, LineFault>
    ensures judged { Judged line.now (verdict result) }
    ensures exact { TheLineHasNoOtherVerdict line.now (verdict result) }
    ensures only { AnAcceptedLineIsTheOnlyLineOfItsCommand line.now (verdict result) }
    ensures tidy { IfOk result Tidy }
{
    judge(line)
}
