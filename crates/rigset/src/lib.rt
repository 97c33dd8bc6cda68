//! Sets of rigs, each a 64-bit word in which rig r counts 2 to the power r.
//! Promise: every operation gives the set with just the rigs that its name says, and `len` is a sum over the rigs.
//! Rests on `levelling`, for groups of rigs and sums over them.
#![tactic(auto)]

mod laws;
mod members;
mod set;

pub use laws::{
    a_set_is_the_sum_of_what_its_rigs_count, sets_with_the_same_rigs_are_the_same_number,
};
pub use members::Members;
pub use set::{RIGS_MAX, RigSet};
