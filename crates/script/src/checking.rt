ghost use Rattle.std.specs.Prelude.{◌≡◌, MatchOption, MatchResult};
ghost use Rattle.script.specs.Format.{Meaning};
ghost use Rattle.script.specs.Numbers.{text_number};
ghost use Rattle.script.specs.Texts.{TheListIsExactlyTheFaultyLines, RefusedUntouched};
ghost use Rattle.script.specs.Verdicts.{Judged, accepted, faulty};

use crate::faults::FaultyLine;
use crate::lines::Lines;
use crate::reading::read;
use bounded::Bounded;

/// Why a text is not checked.
#[derive(Clone, Copy, PartialEq, Eq, Debug)]
pub enum TextRefusal {
    /// It has more than 65,536 bytes.
    TooLong = 7,
}

/// The number by which the refusal is told.
impl From<TextRefusal> for u8 {
    ghost from_gives = { λ e n. n ≡ text_number e };

    fn from(refusal: TextRefusal) -> u8 {
        refusal as u8
    }
}

/// The most bytes that a text may have.
pub const TEXT_MAX: usize = 65536;

// The entry for line `number`, if it is faulty.
fn faulty_line(number: u32, line: &[u8]) -> Option<FaultyLine>
    ensures { MatchOption result ((m : Meaning) × Judged line.now (accepted m)) (λ e. Judged line.now (faulty e.fault) × (e.line ≡ number)) }
{
    // By cases, since a line without a fault has a command to show for it.
    match read(line) {
        Ok(_) => None,
        Err(fault) => Some(FaultyLine {
            line: number,
            fault,
        }),
    }
}

/// Judges each line of a text alone: lists the faulty ones, in order, and answers how many there are.
/// The list starts empty; a short one holds the first of them.
pub fn check(text: &[u8], faults: &mut Bounded<'_, FaultyLine>) -> Result<usize, TextRefusal>
    ensures lender { faults.new.places.ghost_name ≡ faults.old.places.ghost_name }
    ensures cases { MatchResult result (λ n. TheListIsExactlyTheFaultyLines text.now faults.old n faults.new) (λ _. RefusedUntouched text.now faults.old faults.new) }
{
    if text.len() > TEXT_MAX {
        return Err(TextRefusal::TooLong);
    }
    faults.clear();
    let mut found = 0;
    for (number, line) in (1..).zip(Lines::new(text)) {
        if let Some(entry) = faulty_line(number, line) {
            // A full list keeps the first ones.
            let _ = faults.push(entry);
            found += 1;
        }
    }
    Ok(found)
}
