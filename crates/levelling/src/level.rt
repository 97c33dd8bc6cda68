//! Theorems on level placements: that they are the best.
ghost use Rattle.levelling.specs.Theorems.{LevelIsACutAtEveryHeight};
ghost use Rattle.levelling.specs.Theorems.{PumpsThatCanBePlacedHaveALevelPlacement};
ghost use Rattle.levelling.specs.Theorems.{ALevelPlacementHasTheLeastExcess};
ghost use Rattle.levelling.specs.Theorems.{ALevelPlacementIsBestForEveryConvexCost};
ghost use Rattle.levelling.specs.Theorems.{ALargerFrameChangesNothing};
ghost use Rattle.levelling.specs.Theorems.{MoreUsableRigsNeverMeanMoreExcess};
ghost use Rattle.levelling.specs.Theorems.{TurnsWaitedAreTheSumOfTheExcesses};

/// A placement is level exactly when for every k a tight group holds every rig higher than k and none lower than k.
pub fn level_is_a_cut_at_every_height()
    ensures { LevelIsACutAtEveryHeight }
{}

/// Where each class that stands can use some rig, there is a level placement.
pub fn pumps_that_can_be_placed_have_a_level_placement()
    ensures { PumpsThatCanBePlacedHaveALevelPlacement }
{}

/// No placement of the same pumps has less excess above any k than a level one.
pub fn a_level_placement_has_the_least_excess()
    ensures { ALevelPlacementHasTheLeastExcess }
{}

/// No placement of the same pumps costs less than a level one, whatever convex cost a queue has by its height.
pub fn a_level_placement_is_best_for_every_convex_cost()
    ensures { ALevelPlacementIsBestForEveryConvexCost }
{}

/// A hall is the same hall if it is given more classes, of which no pump stands, and more rigs, which no standing
/// pump can use.
pub fn a_larger_frame_changes_nothing()
    ensures { ALargerFrameChangesNothing }
{}

/// Classes that can use more rigs never have a larger least excess.
pub fn more_usable_rigs_never_mean_more_excess()
    ensures { MoreUsableRigsNeverMeanMoreExcess }
{}

/// Half of height × (height − 1), summed over the rigs, is the sum over k ≥ 1 of the excess above k.
pub fn turns_waited_are_the_sum_of_the_excesses()
    ensures { TurnsWaitedAreTheSumOfTheExcesses }
{}
