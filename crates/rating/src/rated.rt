ghost use Rattle.std.specs.Prelude.{length};
ghost use Rattle.rigset.specs.Sets.{RigsAre, first_rigs, common};
ghost use Rattle.sheet.specs.Meaning.{Shaped};
ghost use Rattle.rating.specs.Ratings.{suits, rig_at};

use crate::ratings::{PumpRating, RigRating};
use rigset::RigSet;
use sheet::{FillRefusal, PermittedRefusal, Sheet, is_shaped};

// One rig without pressure, and one type of pump that needs some.
const NO_PRESSURE: [RigRating; 1] = [RigRating {
    pressure: 0,
    flow: 0,
    slowest: 0,
    fastest: 0,
}];

const SOME_PRESSURE: [PumpRating; 1] = [PumpRating {
    pressure: 1,
    flow: 0,
    speed: 0,
}];

/// Ratings lent by their owner: of each rig, and of the pumps of each type.
#[derive(Drop)]
pub struct RatingSheet<'a> {
    rigs: &'a [RigRating],
    pumps: &'a [PumpRating],
    ghost shaped: { Shaped (length rigs.now) (length pumps.now) },
}

// The rigs of the table that can test the pump. (A loop: a public call that took the test would ask that it may be called.)
fn suited(rigs: &[RigRating], pump: &PumpRating) -> RigSet
    ensures { RigsAre result.word (common (first_rigs (length rigs.now)) (λ r. suits (rig_at rigs.now r) pump.now)) }
{
    let mut set = RigSet::new();
    for (r, rig) in rigs.iter().enumerate() {
        if rig.suits(pump) {
            set.insert(r);
        }
    }
    set
}

impl<'a> RatingSheet<'a> {
    ghost use Rattle.sheet.specs.Meaning.{SameMeaning, nothing_permitted};
    ghost use Rattle.sheet.specs.Answers.{Fills};
    ghost use Rattle.rating.specs.Ratings.{rated};
    ghost use Rattle.rating.specs.Sheets.{rating_meaning, RatingsJudged};

    /// A first sheet, to be filled: one rig, and one type that it may not test.
    pub fn new() -> RatingSheet<'a>
        ensures { SameMeaning (rating_meaning result) nothing_permitted }
    {
        RatingSheet {
            rigs: &NO_PRESSURE,
            pumps: &SOME_PRESSURE,
        }
    }

    /// Takes other ratings. A refusal leaves the sheet as it was.
    pub fn fill(
        &mut self,
        rigs: &'a [RigRating],
        pumps: &'a [PumpRating],
    ) -> Result<(), FillRefusal>
        ensures judged { RatingsJudged rigs.now pumps.now result }
        ensures means { Fills rating_meaning (rated rigs.now pumps.now) self.old self.new result }
    {
        if !is_shaped(rigs.len(), pumps.len()) {
            return Err(FillRefusal::BadShape);
        }
        *self = RatingSheet { rigs, pumps };
        Ok(())
    }
}

impl Sheet for RatingSheet<'_> {
    ghost use Rattle.std.specs.Prelude.{length};
    ghost use Rattle.sheet.proofs.Lawfulness.{permitting_lawful};
    ghost use Rattle.rating.specs.Sheets.{rating_meaning};

    ghost meaning = { rating_meaning };

    ghost lawful = { λ s. permitting_lawful (length s.rigs.now) (length s.pumps.now) _ s.shaped };

    fn rigs(&self) -> usize {
        self.rigs.len()
    }

    fn types(&self) -> usize {
        self.pumps.len()
    }

    fn permitted(&self, kind: usize) -> Result<RigSet, PermittedRefusal> {
        let pump = self.pumps.get(kind).ok_or(PermittedRefusal::NoSuchType)?;
        Ok(suited(self.rigs, pump))
    }
}
