//! What is judged of the tables that a sheet is filled with.
ghost use Rattle.std.specs.Prelude.{◌≡◌, Decides};
ghost use Rattle.rigset.specs.Sets.{has, AllBelow};
ghost use Rattle.sheet.specs.Meaning.{Shaped, AllWithin};

use crate::interface::TYPES_MAX;
use rigset::{RIGS_MAX, RigSet};

/// Why a sheet or a layer was not filled. The value is the number by which the refusal is told.
#[derive(Clone, Copy, PartialEq, Eq, Debug)]
pub enum FillRefusal {
    /// The rigs or the types are not 1 to 64, or a table has not exactly one entry for each rig, or for each type.
    BadShape = 1,
    /// A 64-bit number names a rig that the sheet does not have.
    ForeignRig = 2,
    /// A table of rig numbers does not hold each rig exactly once.
    NotEachRigOnce = 3,
}

/// The number by which the refusal is told.
impl From<FillRefusal> for u8 {
    ghost use Rattle.sheet.specs.Numbers.{fill_number};

    ghost from_gives = { λ refusal n. n ≡ fill_number refusal };

    fn from(refusal: FillRefusal) -> u8 {
        refusal as u8
    }
}

/// Whether there are from 1 to 64 rigs and from 1 to 64 types.
pub fn is_shaped(rigs: usize, types: usize) -> bool
    ensures { Decides result (Shaped rigs types) }
{
    (1..=RIGS_MAX).contains(&rigs) && (1..=TYPES_MAX).contains(&types)
}

// Whether a number names only rigs below `rigs`.
fn is_within(rigs: usize, word: u64) -> bool
    ensures { Decides result (AllBelow rigs (has word)) }
{
    RigSet { word }.is_subset(RigSet::below(rigs))
}

/// Whether no number of the list names a rig that is not below `rigs`.
pub fn all_within(rigs: usize, sets: &[u64]) -> bool
    ensures { Decides result (AllWithin rigs sets.now) }
{
    // A loop: by `all`, a list of 32 sets took about one and a half times as long.
    for word in sets {
        if !is_within(rigs, *word) {
            return false;
        }
    }
    true
}
