//! The theory of levelling: why a level placement is the best one, and what keeps it level.
//! Promise: each function stands for the theorem of its name, which is its contract, over any number of classes and rigs.
//! Rests on nothing.
#![tactic(auto)]

mod bottleneck;
mod changes;
mod groups;
mod level;

pub use bottleneck::{
    level_placements_of_the_same_pumps_agree,
    no_group_confines_more_than_the_greatest_height_a_rig,
    rounded_up_no_group_is_denser_than_the_bottleneck,
    the_bottleneck_confines_more_than_one_less_a_rig,
};
pub use changes::{
    a_pull_from_a_highest_donor_keeps_level_but_for_the_rig,
    adding_to_a_lowest_rig_of_its_smallest_tight_group_keeps_level,
    leaving_out_a_rig_and_its_pumps_keeps_level, letting_in_a_rig_keeps_level_but_for_it,
    level_when_no_donor_to_the_rig_is_more_than_one_higher,
    removing_from_a_highest_donor_keeps_level,
    the_donors_of_a_class_are_what_any_rig_with_its_pump_reaches_backwards,
};
pub use groups::{
    a_group_is_tight_exactly_when_closed, any_rigs_have_one_smallest_tight_group,
    confined_pumps_are_never_more_than_placed, the_common_part_and_union_of_tight_groups_are_tight,
    tightness_depends_only_on_usable_sets_standing_counts_and_heights,
};
pub use level::{
    a_larger_frame_changes_nothing, a_level_placement_has_the_least_excess,
    a_level_placement_is_best_for_every_convex_cost, level_is_a_cut_at_every_height,
    more_usable_rigs_never_mean_more_excess, pumps_that_can_be_placed_have_a_level_placement,
    turns_waited_are_the_sum_of_the_excesses,
};
