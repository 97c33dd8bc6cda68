//! Script lines: commands, reading a line, writing a line, checking a text.
//! Promise: a line is read as the one command whose line it is, or refused for the one fault that it has.
//! Rests on `bounded`, for the list of faulty lines and for the draft of a line.
#![tactic(auto)]

mod checking;
mod command;
mod draft;
mod faults;
mod fields;
mod form;
mod lines;
mod reading;
mod words;
mod writing;

pub use checking::{TEXT_MAX, TextRefusal, check};
pub use command::{Command, Mask};
pub use faults::{FaultyLine, LineFault};
pub use form::LINE_BYTES;
pub use lines::{Lines, first_line};
pub use reading::read;
pub use writing::{WriteRefusal, write};
