//! Theorems on the bottleneck: the smallest tight group around the highest rigs.
ghost use Rattle.levelling.specs.Theorems.{NoGroupConfinesMoreThanTheGreatestHeightARig};
ghost use Rattle.levelling.specs.Theorems.{TheBottleneckConfinesMoreThanOneLessARig};
ghost use Rattle.levelling.specs.Theorems.{RoundedUpNoGroupIsDenserThanTheBottleneck};
ghost use Rattle.levelling.specs.Theorems.{LevelPlacementsOfTheSamePumpsAgree};

/// With L the greatest height, a group of n rigs confines at most L × n pumps.
pub fn no_group_confines_more_than_the_greatest_height_a_rig()
    ensures { NoGroupConfinesMoreThanTheGreatestHeightARig }
{}

/// If a pump stands, the bottleneck of a level placement, of m rigs, confines more than (L − 1) × m pumps.
pub fn the_bottleneck_confines_more_than_one_less_a_rig()
    ensures { TheBottleneckConfinesMoreThanOneLessARig }
{}

/// If the bottleneck of a level placement has a density of at most n pumps a rig, n a whole number, so has every
/// group.
pub fn rounded_up_no_group_is_denser_than_the_bottleneck()
    ensures { RoundedUpNoGroupIsDenserThanTheBottleneck }
{}

/// Level placements of the same pumps have equally many rigs at each height, and the same bottleneck.
pub fn level_placements_of_the_same_pumps_agree()
    ensures { LevelPlacementsOfTheSamePumpsAgree }
{}
