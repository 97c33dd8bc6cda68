/// A command word.
#[derive(Clone, Copy, PartialEq, Eq, Debug)]
pub(crate) enum Word {
    Hall,
    PumpType,
    Add,
    Withdraw,
    Take,
    Shut,
    Open,
    Report,
    Note,
}

/// The characters of a mask, one for each of `rigs` rigs: rig r has a 1 where `set`, in which rig r
/// counts 2 to the power r, holds it. Bits of `set` past the last rig are no part of the mask; `==` and
/// `Debug` are of the fields, and so tell them. A mask that was read has none. (A number, so that this crate needs no sets.)
#[derive(Clone, Copy, PartialEq, Eq, Debug)]
pub struct Mask {
    pub rigs: u8,
    pub set: u64,
}

/// What a line says. The text of a note is a part of the line that was read.
#[derive(Clone, Copy, PartialEq, Eq, Debug)]
pub enum Command<'a> {
    Hall { rigs: u16, types: u16 },
    PumpType(Mask),
    Add { kind: u16, count: u16 },
    Withdraw { kind: u16, count: u16 },
    Take { rig: u16 },
    Shut { rig: u16 },
    Open { rig: u16 },
    Report,
    Note(&'a [u8]),
}
