ghost use Rattle.std.specs.Prelude.{◌≡◌};
ghost use Rattle.levelling.specs.Sums.{size};
ghost use Rattle.rigset.specs.Sets.{limit, has, TakesLowest};
ghost use Rattle.std.specs.Iterator.{at_most};

use crate::set::RigSet;

/// Goes through the rigs of a set, from the lowest number up.
#[derive(Drop)]
pub struct Members {
    rest: RigSet,
}

impl RigSet {
    /// The rigs of the set, one after the other, from the lowest number up.
    pub fn members(self) -> Members
        ensures { result.rest ≡ self }
    {
        Members { rest: self }
    }
}

impl Iterator for Members {
    type Item = usize;

    ghost next_gives = { λ s rig t. TakesLowest s.rest.word rig t.rest.word };

    ghost remaining = { λ s. at_most (size limit (has s.rest.word)) };

    fn next(&mut self) -> Option<usize> {
        let rig = self.rest.lowest()?;
        self.rest.remove(rig);
        Some(rig)
    }
}
