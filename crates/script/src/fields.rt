ghost use Rattle.std.specs.Prelude.{◌≡◌, ℕ, ◌+◌, ◌^◌, ◌<◌, List, [], ◌∷◌, length, count_by, MatchOption, MatchResult, ◌==◌};
ghost use Rattle.script.specs.Format.{Form, number, count, mask, Good, Fit, shown, marks, Commaless};
ghost use Rattle.script.specs.Parts.{parts, Ends, after, BadAt};
ghost use Rattle.script.specs.declared.faults.LineFault.TheVariants.{BadField};
ghost use Rattle.std.proofs.Common.{rules};

use crate::command::Mask;
use crate::faults::LineFault;

/// The greatest count.
const COUNT_MAX: u16 = 4096;

/// The most characters that a mask has.
const MASK_MAX: usize = 64;

/// The most digits that a number has, as 65,535.
const DIGITS_MAX: usize = 5;

/// What one field holds.
pub(crate) trait FieldValue: Sized {
    ghost form: { Form };

    // The value is in range, and the bytes are how it is written.
    ghost reads: { List ℕ → Self → Type 0 };

    // The value of a field, unless it is out of form or range.
    fn parse(field: &[u8]) -> Option<Self>
        ensures { MatchOption result (Good form field.now → ⊥) (λ v. reads field.now v) };

    ghost good: { (f : List ℕ) (v : Self) → reads f v → Good form f };
}

/// A number from 1 to 4,096.
#[derive(Clone, Copy)]
pub(crate) struct Count(pub(crate) u16);

// A number from 0 to 65,535.
impl FieldValue for u16 {
    ghost form = { number };

    ghost reads = { λ f n. Fit number n × (f ≡ shown number n) };

    ghost good = { Prim.search rules };

    // Digit by digit, as a field is bytes: `str::from_utf8` and `str::parse` cost several times as much.
    fn parse(field: &[u8]) -> Option<u16> {
        if let [b'0', _, ..] = field {
            return None;
        }
        if field.is_empty() || field.len() > DIGITS_MAX {
            return None;
        }
        let mut n: u32 = 0;
        for b in field {
            if !b.is_ascii_digit() {
                return None;
            }
            n = n * 10 + u32::from(*b - b'0');
        }
        u16::try_from(n).ok()
    }
}

impl FieldValue for Count {
    ghost form = { count };

    ghost reads = { λ f n. Fit count n.0 × (f ≡ shown count n.0) };

    ghost good = { Prim.search rules };

    fn parse(field: &[u8]) -> Option<Count> {
        let n = u16::parse(field)?;
        (1..=COUNT_MAX).contains(&n).then_some(Count(n))
    }
}

impl FieldValue for Mask {
    ghost form = { mask };

    ghost reads = { λ f m. Fit mask (marks m.rigs m.set) × (f ≡ shown mask (marks m.rigs m.set)) × (m.set < 2 ^ m.rigs) };

    ghost good = { λ f m h. (marks m.rigs m.set, h.0, h.1) };

    fn parse(field: &[u8]) -> Option<Mask> {
        if field.is_empty() || field.len() > MASK_MAX {
            return None;
        }
        let mut set: u64 = 0;
        for b in field.iter().rev() {
            let bit = match b {
                b'0' => 0,
                b'1' => 1,
                _ => return None,
            };
            set = set * 2 + bit;
        }
        Some(Mask {
            // At most 64: `try_from` would add a refusal that never comes.
            rigs: field.len() as u8,
            set,
        })
    }
}

// The bytes before the first comma, and the rest: nothing, or that comma and what follows it.
pub(crate) fn cut_field(bytes: &[u8]) -> (&[u8], &[u8])
    ensures cut { parts bytes.now ≡ result.0.now ∷ after result.1.now }
    ensures ends { Ends result.1.now }
    ensures whole { Commaless result.0.now }
{
    let end = bytes.iter().position(|b| *b == b',');
    bytes.split_at(end.unwrap_or(bytes.len()))
}

// How many fields follow, each after its comma.
pub(crate) fn count_commas(bytes: &[u8]) -> usize
    ensures { result ≡ count_by (λ b. b == 44) bytes.now }
{
    bytes.iter().filter(|b| **b == b',').count()
}

// The field after the comma that `rest` begins with, and what follows it.
fn next_field(rest: &[u8]) -> (&[u8], &[u8])
    requires { 0 < length (after rest.now) }
    ensures parts { after rest.now ≡ result.0.now ∷ after result.1.now }
    ensures ends { Ends result.1.now }
    ensures whole { Commaless result.0.now }
{
    cut_field(&rest[1..])
}

// The fields that follow the word, taken one after another.
#[derive(Drop)]
pub(crate) struct Fields<'a> {
    // Nothing, or a comma and the fields left.
    rest: &'a [u8],
    // The number of the first of them in the line.
    number: u8,
}

impl<'a> Fields<'a> {
    // The fields after the word, which is field 1.
    pub(crate) fn new(rest: &'a [u8]) -> Fields<'a>
        ensures rest { result.rest.now ≡ rest.now }
        ensures number { result.number ≡ 2 }
    {
        Fields { rest, number: 2 }
    }

    // The bytes of the next field.
    pub(crate) fn next_bytes(&mut self) -> &'a [u8]
        requires left { 0 < length (after self.old.rest.now) }
        requires few { self.old.number < 255 }
        ensures parts { after self.old.rest.now ≡ result.now ∷ after self.new.rest.now }
        ensures whole { Commaless result.now }
        ensures number { self.new.number ≡ self.old.number + 1 }
    {
        let (field, rest) = next_field(self.rest);
        self.rest = rest;
        self.number += 1;
        field
    }

    // The value of the next field.
    pub(crate) fn next_value<V: FieldValue>(&mut self) -> Result<V, LineFault>
        requires left { 0 < length (after self.old.rest.now) }
        requires few { self.old.number < 255 }
        ensures value { MatchResult result (λ v. (f : List ℕ) × V.FieldValue.reads f v × (after self.old.rest.now ≡ f ∷ after self.new.rest.now)) (λ e. (e ≡ BadField self.old.number) × BadAt V.FieldValue.form (after self.old.rest.now)) }
        ensures number { self.new.number ≡ self.old.number + 1 }
    {
        let field = self.number;
        V::parse(self.next_bytes()).ok_or(LineFault::BadField { field })
    }
}
