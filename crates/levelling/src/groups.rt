//! Theorems on groups of rigs: confined, tight, smallest tight.
ghost use Rattle.levelling.specs.Theorems.{ConfinedPumpsAreNeverMoreThanPlaced};
ghost use Rattle.levelling.specs.Theorems.{AGroupIsTightExactlyWhenClosed};
ghost use Rattle.levelling.specs.Theorems.{TheCommonPartAndUnionOfTightGroupsAreTight};
ghost use Rattle.levelling.specs.Theorems.{AnyRigsHaveOneSmallestTightGroup};
ghost use Rattle.levelling.specs.Theorems.{TightnessDependsOnlyOnUsableSetsStandingCountsAndHeights};

/// The pumps confined to a group are never more than those placed on its rigs.
pub fn confined_pumps_are_never_more_than_placed()
    ensures { ConfinedPumpsAreNeverMoreThanPlaced }
{}

/// A group is tight exactly when every class with a pump on it has its whole usable set in it.
pub fn a_group_is_tight_exactly_when_closed()
    ensures { AGroupIsTightExactlyWhenClosed }
{}

/// The common part of two tight groups is tight, and so is their union.
pub fn the_common_part_and_union_of_tight_groups_are_tight()
    ensures { TheCommonPartAndUnionOfTightGroupsAreTight }
{}

/// Around any rigs there is a smallest tight group, and only one.
pub fn any_rigs_have_one_smallest_tight_group()
    ensures { AnyRigsHaveOneSmallestTightGroup }
{}

/// Which pump stands where does not matter to tightness, so neither to smallest tight groups nor to being level.
pub fn tightness_depends_only_on_usable_sets_standing_counts_and_heights()
    ensures { TightnessDependsOnlyOnUsableSetsStandingCountsAndHeights }
{}
