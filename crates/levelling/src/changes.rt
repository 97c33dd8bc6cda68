//! Theorems on changes that keep a placement level.
ghost use Rattle.levelling.specs.Theorems.{AddingToALowestRigOfItsSmallestTightGroupKeepsLevel};
ghost use Rattle.levelling.specs.Theorems.{RemovingFromAHighestDonorKeepsLevel};
ghost use Rattle.levelling.specs.Theorems.{TheDonorsOfAClassAreWhatAnyRigWithItsPumpReachesBackwards};
ghost use Rattle.levelling.specs.Theorems.{LeavingOutARigAndItsPumpsKeepsLevel};
ghost use Rattle.levelling.specs.Theorems.{LettingInARigKeepsLevelButForIt};
ghost use Rattle.levelling.specs.Theorems.{APullFromAHighestDonorKeepsLevelButForTheRig};
ghost use Rattle.levelling.specs.Theorems.{LevelWhenNoDonorToTheRigIsMoreThanOneHigher};

/// A pump can come so that only a lowest rig of the smallest tight group around its usable set rises, by one; then
/// the placement is level.
pub fn adding_to_a_lowest_rig_of_its_smallest_tight_group_keeps_level()
    ensures { AddingToALowestRigOfItsSmallestTightGroupKeepsLevel }
{}

/// A pump can go so that only a highest donor of its class falls, by one; then the placement is level.
pub fn removing_from_a_highest_donor_keeps_level()
    ensures { RemovingFromAHighestDonorKeepsLevel }
{}

/// The donors of a class are the donors to any rig that has a pump of it, and these are what that rig reaches
/// backwards.
pub fn the_donors_of_a_class_are_what_any_rig_with_its_pump_reaches_backwards()
    ensures { TheDonorsOfAClassAreWhatAnyRigWithItsPumpReachesBackwards }
{}

/// A rig is left out with the pumps on it; what is left is level.
pub fn leaving_out_a_rig_and_its_pumps_keeps_level()
    ensures { LeavingOutARigAndItsPumpsKeepsLevel }
{}

/// A rig is let in, at height 0; the placement is level but for this rig.
pub fn letting_in_a_rig_keeps_level_but_for_it()
    ensures { LettingInARigKeepsLevelButForIt }
{}

/// If a highest donor to the rig is more than one higher, pumps can move so that it falls by one and the rig rises
/// by one, and no other does; then still level but for the rig.
pub fn a_pull_from_a_highest_donor_keeps_level_but_for_the_rig()
    ensures { APullFromAHighestDonorKeepsLevelButForTheRig }
{}

/// With no donor more than one higher than the rig, level but for the rig is level.
pub fn level_when_no_donor_to_the_rig_is_more_than_one_higher()
    ensures { LevelWhenNoDonorToTheRigIsMoreThanOneHigher }
{}
