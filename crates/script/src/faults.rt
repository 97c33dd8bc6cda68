ghost use Rattle.std.specs.Prelude.{◌≡◌};
ghost use Rattle.script.specs.Numbers.{fault_number, fault_field};

/// What is wrong with a line.
#[derive(Clone, Copy, PartialEq, Eq, Debug)]
pub enum LineFault {
    /// Over 80 bytes before the end byte, no end byte, or another byte outside 32 to 126.
    Malformed,
    /// The first field is no command word.
    UnknownWord,
    /// The word takes another number of fields.
    FieldCount,
    /// A field is out of form or range: the leftmost such field. The command word is field 1.
    BadField { field: u8 },
}

impl LineFault {
    /// The field that the fault names: the command word is field 1, and 0 stands for the line as a whole, as faults are told.
    pub fn field(self) -> u8
        ensures { result ≡ fault_field self }
    {
        match self {
            LineFault::Malformed | LineFault::FieldCount => 0,
            LineFault::UnknownWord => 1,
            LineFault::BadField { field } => field,
        }
    }
}

/// The number by which the fault is told.
impl From<LineFault> for u8 {
    ghost from_gives = { λ f n. n ≡ fault_number f };

    fn from(fault: LineFault) -> u8 {
        match fault {
            LineFault::Malformed => 8,
            LineFault::UnknownWord => 9,
            LineFault::FieldCount => 10,
            LineFault::BadField { .. } => 11,
        }
    }
}

/// A faulty line of a text, by its number from 1.
#[derive(Clone, Copy, PartialEq, Eq, Debug)]
pub struct FaultyLine {
    pub line: u32,
    pub fault: LineFault,
}
