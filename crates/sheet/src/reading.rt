ghost use Rattle.sheet.specs.Readings.{Reads};

use crate::interface::{Sheet, TYPES_MAX};
use rigset::RigSet;

/// What was read of a whole sheet: its rigs, its types, and the permitted set of each type. The places past the last
/// type have the empty set; memory is fixed, so there is a place for each type that a hall can have.
#[derive(Drop)]
pub struct Reading {
    pub rigs: usize,
    pub types: usize,
    pub permitted: [RigSet; TYPES_MAX],
}

/// Reads a whole sheet, whatever it is made of. Each question is asked once.
pub fn read_sheet<S: Sheet>(sheet: &S) -> Reading
    ensures { Reads (S.Sheet.meaning sheet.now) result }
{
    let rigs = sheet.rigs();
    let types = sheet.types();
    // A loop that writes by index: with `array::from_fn`, a list took nearly twice as long to read.
    let mut permitted = [RigSet::new(); TYPES_MAX];
    // No question is refused: each kind is below the number of types.
    for kind in 0..types {
        if let Ok(set) = sheet.permitted(kind) {
            permitted[kind] = set;
        }
    }
    Reading {
        rigs,
        types,
        permitted,
    }
}
