//! Sheets: which rigs may test which pump type, whatever a sheet is made of.
//! Promise: the answers of a sheet are its meaning; its tables are refused for the first thing that is wrong, or accepted.
//! Rests on `rigset`, for sets of rigs, and on `levelling`, for groups of rigs.
#![tactic(auto)]

mod interface;
mod judging;
mod lent;
mod list;
mod reading;

pub use interface::{PermittedRefusal, Sheet, TYPES_MAX};
pub use judging::{FillRefusal, all_within, is_shaped};
pub use list::ListSheet;
pub use reading::{Reading, read_sheet};
