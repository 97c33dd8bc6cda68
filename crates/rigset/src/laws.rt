//! Laws of sets: what a word counts, and that no two words have the same rigs.
ghost use Rattle.rigset.specs.Laws.{ASetIsTheSumOfWhatItsRigsCount};
ghost use Rattle.rigset.specs.Laws.{SetsWithTheSameRigsAreTheSameNumber};

/// Each rig of a set counts 2 to the power of its number, and nothing else counts.
pub fn a_set_is_the_sum_of_what_its_rigs_count()
    ensures { ASetIsTheSumOfWhatItsRigsCount }
{}

/// Two words that agree on every rig are one number.
pub fn sets_with_the_same_rigs_are_the_same_number()
    ensures { SetsWithTheSameRigsAreTheSameNumber }
{}
