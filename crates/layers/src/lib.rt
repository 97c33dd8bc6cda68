//! Layers: sheets that stand on another sheet and change what it means.
//! Promise: a layer's answers are its own table applied to the meaning of the sheet below, whatever that is made of.
//! Rests on `sheet`, for the interface, on `rigset`, for sets of rigs, and on `levelling`, for groups of rigs.
#![tactic(auto)]

mod approvals;
mod layer;
mod order;

pub use approvals::{Approval, Approvals};
pub use layer::{Layer, Table};
pub use order::{Order, Renumber};
