ghost use Rattle.std.specs.Prelude.{◌≡◌};
ghost use Rattle.sheet.specs.Meaning.{SheetMeaning, Lawful};
ghost use Rattle.sheet.specs.Answers.{Permits};

use rigset::RigSet;

/// The most pump types that a hall has: its types are numbered below this number.
pub const TYPES_MAX: usize = 64;

/// Why a sheet gives no permitted set. The value is the number by which the refusal is told.
#[derive(Clone, Copy, PartialEq, Eq, Debug)]
pub enum PermittedRefusal {
    /// The sheet has no type of that number.
    NoSuchType = 4,
}

/// The number by which the refusal is told. (Each refusal has such an impl: no macro can write its ghost member.)
impl From<PermittedRefusal> for u8 {
    ghost use Rattle.sheet.specs.Numbers.{permitted_number};

    ghost from_gives = { λ refusal n. n ≡ permitted_number refusal };

    fn from(refusal: PermittedRefusal) -> u8 {
        refusal as u8
    }
}

/// A sheet tells which rigs may test which pump type. It answers three questions, and asking changes nothing.
pub trait Sheet {
    /// What the sheet means.
    ghost meaning: { Self → SheetMeaning };

    /// From 1 to 64 rigs, from 1 to 64 types, and each permitted set within the rigs. (Above the calls, and so no law: a
    /// clause may name it too.)
    ghost lawful: { (s : Self) → Lawful (meaning s) };

    /// How many rigs there are.
    fn rigs(&self) -> usize
        ensures { result ≡ (meaning self.now).rigs };

    /// How many pump types there are.
    fn types(&self) -> usize
        ensures { result ≡ (meaning self.now).types };

    /// The rigs that may test pumps of a type; refused if there is no such type.
    fn permitted(&self, kind: usize) -> Result<RigSet, PermittedRefusal>
        ensures { Permits (meaning self.now) kind result };
}
