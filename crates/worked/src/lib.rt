//! Worked examples: what the calls answer on given lines, commands and texts.
//! Promise: none of its own; each example is run and compared.
//! Rests on `script` and `bounded`.
#![tactic(auto)]

#[cfg(test)]
mod checked;
#[cfg(test)]
mod written;
