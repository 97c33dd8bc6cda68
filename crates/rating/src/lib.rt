//! The rating sheet: a rig may test the pumps whose ratings it can reach.
//! Promise: the permitted rigs of a type are exactly those with pressure, flow and speed range enough for it.
//! Rests on `sheet`, for the interface, on `rigset`, for sets of rigs, and on `levelling`, for groups of rigs.
#![tactic(auto)]

mod rated;
mod ratings;

pub use rated::RatingSheet;
pub use ratings::{PumpRating, RigRating};
