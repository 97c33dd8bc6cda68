ghost use Rattle.std.specs.Prelude.{ℕ, List, MatchBool, MatchOption};
ghost use Rattle.std.specs.List.{AllByRecursion};
ghost use Rattle.script.specs.Format.{Printable, WellFormed};

/// The most bytes that a line may have before its end byte.
pub(crate) const LINE_MAX: usize = 80;

/// The most bytes that a well-formed line has, its end byte among them.
pub const LINE_BYTES: usize = LINE_MAX + 1;

// All bytes are from 32 to 126.
fn is_printable(bytes: &[u8]) -> bool
    ensures { MatchBool result (AllByRecursion Printable bytes.now) (AllByRecursion Printable bytes.now → ⊥) }
{
    bytes.iter().all(|b| matches!(b, b' '..=b'~'))
}

// The bytes before the end byte, if the line is well formed.
pub(crate) fn front_of(line: &[u8]) -> Option<&[u8]>
    ensures { MatchOption result ((bytes : List ℕ) → WellFormed line.now bytes → ⊥) (λ x. WellFormed line.now x.now) }
{
    let [front @ .., b'\n'] = line else {
        return None;
    };
    (front.len() <= LINE_MAX && is_printable(front)).then_some(front)
}
