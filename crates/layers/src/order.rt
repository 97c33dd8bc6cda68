ghost use Rattle.std.specs.Prelude.{◌≡◌, ℕ, ◌<◌, ◌≤◌, length, Decides, refl};
ghost use Rattle.rigset.specs.Sets.{has, RigsAre, first_rigs, common};
ghost use Rattle.sheet.proofs.Lawfulness.{permitting_lawful};
ghost use Rattle.layers.specs.Layers.{StandsIn, EachOnce, rig_below, renumbered};
ghost use Rattle.layers.specs.Judgements.{OrderJudged};

use crate::layer::{Layer, Table};
use rigset::RigSet;
use sheet::{FillRefusal, PermittedRefusal, Sheet};

/// Other rig numbers, one entry for each rig: rig r is the rig that entry r names in the sheet below.
#[derive(Clone, Copy, PartialEq, Eq, Debug)]
pub struct Order<'a>(pub &'a [u8]);

/// A layer of other rig numbers over a sheet.
pub type Renumber<'a, S> = Layer<S, Order<'a>>;

impl Order<'_> {
    // The rigs that the table names.
    fn named(self) -> RigSet
        ensures { (r : ℕ) → r < 64 → Decides (has result.word r) (StandsIn self.entry.0.now (length self.entry.0.now) r) }
    {
        let mut set = RigSet::new();
        for rig in self.0 {
            set.insert(usize::from(*rig));
        }
        set
    }

    // Whether the table holds each rig once, where it has as many entries as there are rigs. It does if each is there at all.
    fn holds_each(self) -> bool
        requires { length self.0.now ≤ 64 }
        ensures { Decides result (EachOnce (length self.entry.0.now) self.entry.0.now) }
    {
        RigSet::below(self.0.len()).is_subset(self.named())
    }

    // The number that a rig has below.
    fn rig_below(self, rig: usize) -> usize
        ensures { result ≡ rig_below self.entry.0.now rig }
    {
        self.0.get(rig).map_or(rig, |below| usize::from(*below))
    }

    // The rigs above that are in the set below. (A loop: a public call that took the test would ask that it may be called.)
    fn set_above(self, rigs: usize, below: RigSet) -> RigSet
        ensures { RigsAre result.word (common (first_rigs rigs) (λ r. has below.word (rig_below self.entry.0.now r))) }
    {
        let mut set = RigSet::new();
        for rig in 0..rigs {
            if below.contains(self.rig_below(rig)) {
                set.insert(rig);
            }
        }
        set
    }
}

impl Table for Order<'_> {
    ghost changed = { λ t. renumbered t.0.now };

    ghost judged = { λ t m. OrderJudged m t.0.now };

    ghost keeps = { λ t. record { lawful = λ m l. permitting_lawful m.rigs m.types _ l.shaped; rigs = λ m. refl; types = λ m. refl } };

    fn unfilled() -> Self {
        Order(&[])
    }

    fn judge<S: Sheet>(&self, below: &S) -> Result<(), FillRefusal> {
        if self.0.len() != below.rigs() {
            return Err(FillRefusal::BadShape);
        }
        if !self.holds_each() {
            return Err(FillRefusal::NotEachRigOnce);
        }
        Ok(())
    }

    fn permitted<S: Sheet>(&self, below: &S, kind: usize) -> Result<RigSet, PermittedRefusal> {
        let set = below.permitted(kind)?;
        Ok(self.set_above(below.rigs(), set))
    }
}
