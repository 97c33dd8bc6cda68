ghost use Rattle.std.specs.Prelude.{◌≡◌, ◌<◌, not, ◌&&◌, T, Decides, MatchOption, nat_lt};
ghost use Rattle.levelling.specs.Sums.{inside, size};
ghost use Rattle.levelling.specs.Levels.{no_rig};
ghost use Rattle.rigset.specs.Sets.{limit, has, RigsAre, rig_numbered, first_rigs, either, common, without, LowestOf};

/// The most rigs that a hall has: the rigs of a set are those below this number.
pub const RIGS_MAX: usize = 64;

/// A set of rigs: rig r counts 2 to the power r. Every word is one, so tables of sets are slices of numbers.
#[derive(Clone, Copy, PartialEq, Eq, Debug)]
pub struct RigSet {
    pub word: u64,
}

impl RigSet {
    /// The set of no rig.
    pub fn new() -> RigSet
        ensures { RigsAre result.word no_rig }
    {
        RigSet { word: 0 }
    }

    /// The set of the rigs below a number, of which there are at most 64.
    pub fn below(rigs: usize) -> RigSet
        ensures { RigsAre result.word (first_rigs rigs) }
    {
        if rigs < RIGS_MAX {
            RigSet {
                word: (1 << rigs) - 1,
            }
        } else {
            RigSet { word: u64::MAX }
        }
    }

    /// Whether no rig is in the set.
    pub fn is_empty(self) -> bool
        ensures { Decides result (RigsAre self.word no_rig) }
    {
        self.word == 0
    }

    /// Whether a rig is in the set. A number of 64 or more is no rig.
    pub fn contains(self, rig: usize) -> bool
        ensures answer { result ≡ has self.word rig }
        ensures within { T result → rig < 64 }
    {
        rig < RIGS_MAX && self.word >> rig & 1 == 1
    }

    /// Puts a rig into the set, and answers whether it is new there. A number of 64 or more is no rig, and changes nothing.
    pub fn insert(&mut self, rig: usize) -> bool
        ensures set { RigsAre self.new.word (either (has self.old.word) (rig_numbered rig)) }
        ensures answer { result ≡ (nat_lt rig 64 && not (has self.old.word rig)) }
    {
        if rig >= RIGS_MAX || self.contains(rig) {
            return false;
        }
        self.word |= 1 << rig;
        true
    }

    /// Takes a rig out of the set, and answers whether it was in it.
    pub fn remove(&mut self, rig: usize) -> bool
        ensures set { RigsAre self.new.word (without (has self.old.word) rig) }
        ensures answer { result ≡ has self.old.word rig }
    {
        // A copy, since what the word may be is not at hand behind a `&mut`.
        let before = *self;
        if !before.contains(rig) {
            return false;
        }
        self.word = before.word & !(1 << rig);
        true
    }

    /// The rigs of either set.
    pub fn union(self, other: RigSet) -> RigSet
        ensures { RigsAre result.word (either (has self.word) (has other.word)) }
    {
        RigSet {
            word: self.word | other.word,
        }
    }

    /// The rigs of both sets: their common part.
    pub fn intersection(self, other: RigSet) -> RigSet
        ensures { RigsAre result.word (common (has self.word) (has other.word)) }
    {
        RigSet {
            word: self.word & other.word,
        }
    }

    /// Whether each rig of this set is in the other.
    pub fn is_subset(self, other: RigSet) -> bool
        ensures { result ≡ inside limit (has self.word) (has other.word) }
    {
        self.word & other.word == self.word
    }

    /// How many rigs are in the set: the ones of its word.
    pub fn len(self) -> usize
        ensures { result ≡ size limit (has self.word) }
    {
        self.word.count_ones() as usize
    }

    /// The lowest-numbered rig: the trailing zeros of the word. An empty set has none.
    pub fn lowest(self) -> Option<usize>
        ensures { MatchOption result (RigsAre self.word no_rig) (LowestOf (has self.word)) }
    {
        if self.is_empty() {
            return None;
        }
        Some(self.word.trailing_zeros() as usize)
    }
}
