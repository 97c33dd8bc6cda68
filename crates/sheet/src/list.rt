ghost use Rattle.std.specs.Prelude.{length};
ghost use Rattle.sheet.specs.Meaning.{Shaped, AllWithin};

use crate::interface::{PermittedRefusal, Sheet};
use crate::judging::{FillRefusal, all_within, is_shaped};
use rigset::RigSet;

const NO_RIG: [u64; 1] = [0];

/// A list of sets of rigs, lent by its owner: the set at place t is the permitted set of the type t.
#[derive(Drop)]
pub struct ListSheet<'a> {
    rigs: usize,
    sets: &'a [u64],
    ghost shaped: { Shaped rigs (length sets.now) },
    ghost within: { AllWithin rigs sets.now },
}

impl<'a> ListSheet<'a> {
    ghost use Rattle.std.specs.Prelude.{◌≡◌};
    ghost use Rattle.sheet.specs.Meaning.{listed, nothing_permitted};
    ghost use Rattle.sheet.specs.Answers.{Fills};
    ghost use Rattle.sheet.specs.Lists.{list_meaning, ListJudged};

    /// A first sheet, to be filled: one rig, and one type that it may not test.
    pub fn new() -> ListSheet<'a>
        ensures { list_meaning result ≡ nothing_permitted }
    {
        ListSheet {
            rigs: 1,
            sets: &NO_RIG,
        }
    }

    /// Takes other sets: there are as many types as sets. A refusal leaves the sheet as it was.
    pub fn fill(&mut self, rigs: usize, sets: &'a [u64]) -> Result<(), FillRefusal>
        ensures judged { ListJudged rigs sets.now result }
        ensures means { Fills list_meaning (listed rigs sets.now) self.old self.new result }
    {
        if !is_shaped(rigs, sets.len()) {
            return Err(FillRefusal::BadShape);
        }
        if !all_within(rigs, sets) {
            return Err(FillRefusal::ForeignRig);
        }
        *self = ListSheet { rigs, sets };
        Ok(())
    }
}

impl Sheet for ListSheet<'_> {
    ghost use Rattle.sheet.specs.Lists.{list_meaning};

    ghost meaning = { list_meaning };

    ghost lawful = { λ s. record { shaped = s.shaped; within = s.within } };

    fn rigs(&self) -> usize {
        self.rigs
    }

    fn types(&self) -> usize {
        self.sets.len()
    }

    fn permitted(&self, kind: usize) -> Result<RigSet, PermittedRefusal> {
        let word = *self.sets.get(kind).ok_or(PermittedRefusal::NoSuchType)?;
        Ok(RigSet { word })
    }
}
