ghost use Rattle.std.specs.Prelude.{◌≡◌, ◌-◌, ◌^◌, slice_index_or, refl};
ghost use Rattle.sheet.proofs.Lawfulness.{narrowed_lawful};
ghost use Rattle.layers.specs.Layers.{approved_for, approved};
ghost use Rattle.layers.specs.Judgements.{ApprovalsJudged};

use crate::layer::{Layer, Table};
use rigset::RigSet;
use sheet::{FillRefusal, PermittedRefusal, Sheet, all_within};

/// Approvals, one 64-bit number for each type: of the rigs that the sheet below permits for a type, those in the type's
/// number stay permitted.
#[derive(Clone, Copy, PartialEq, Eq, Debug)]
pub struct Approvals<'a>(pub &'a [u64]);

/// A layer of approvals over a sheet.
pub type Approval<'a, S> = Layer<S, Approvals<'a>>;

impl Approvals<'_> {
    // The rigs approved for a type.
    fn of(self, kind: usize) -> RigSet
        ensures { result.word ≡ slice_index_or self.entry.0.now kind (2 ^ 64 - 1) }
    {
        RigSet {
            word: self.0.get(kind).copied().unwrap_or(u64::MAX),
        }
    }
}

impl Table for Approvals<'_> {
    ghost changed = { λ t. approved t.0.now };

    ghost judged = { λ t m. ApprovalsJudged m t.0.now };

    ghost keeps = { λ t. record { lawful = narrowed_lawful (approved_for t.0.now); rigs = λ m. refl; types = λ m. refl } };

    fn unfilled() -> Self {
        Approvals(&[])
    }

    fn judge<S: Sheet>(&self, below: &S) -> Result<(), FillRefusal> {
        if self.0.len() != below.types() {
            return Err(FillRefusal::BadShape);
        }
        if !all_within(below.rigs(), self.0) {
            return Err(FillRefusal::ForeignRig);
        }
        Ok(())
    }

    fn permitted<S: Sheet>(&self, below: &S, kind: usize) -> Result<RigSet, PermittedRefusal> {
        let set = below.permitted(kind)?;
        Ok(self.of(kind).intersection(set))
    }
}
