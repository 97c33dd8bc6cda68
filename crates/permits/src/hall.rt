//! A small hall, and what it permits, worked out by hand.
//!
//! By the ratings, type 0 may go to rigs 0, 1 and 2: each of its values meets one of their limits exactly. Type 1 may go to
//! rig 1, as it needs one bar more than rigs 0 and 2 have; type 2 to rig 0, as it has too much flow for rig 1 and is too slow
//! for rig 2; type 3 to rigs 0 and 1, as it is too fast for rig 2. Rig 3 has its speeds written backwards and may test
//! nothing.
//!
//! The approvals name rigs 0, 2 and 3 for type 0, rig 1 for type 1, rigs 1 and 3 for type 2 and every rig for type 3. What
//! is left is rigs 0 and 2 for type 0, rig 1 for type 1, none for type 2, and rigs 0 and 1 for type 3.
//!
//! By the order, rig 0 above is rig 2 below, rig 1 is rig 0, rig 2 is rig 3 and rig 3 is rig 1. So above, type 0 may go to
//! rigs 0 and 1, type 1 to rig 3, type 2 to none, and type 3 to rigs 1 and 3.
use rating::{PumpRating, RigRating};

pub const RIGS: [RigRating; 4] = [
    RigRating {
        pressure: 350,
        flow: 200,
        slowest: 500,
        fastest: 3000,
    },
    RigRating {
        pressure: 420,
        flow: 100,
        slowest: 800,
        fastest: 1800,
    },
    RigRating {
        pressure: 350,
        flow: 200,
        slowest: 1500,
        fastest: 1500,
    },
    RigRating {
        pressure: 420,
        flow: 400,
        slowest: 1800,
        fastest: 1500,
    },
];

pub const PUMPS: [PumpRating; 4] = [
    PumpRating {
        pressure: 350,
        flow: 100,
        speed: 1500,
    },
    PumpRating {
        pressure: 351,
        flow: 100,
        speed: 1500,
    },
    PumpRating {
        pressure: 100,
        flow: 200,
        speed: 800,
    },
    PumpRating {
        pressure: 100,
        flow: 50,
        speed: 1800,
    },
];

pub const APPROVALS: [u64; 4] = [0b1101, 0b0010, 0b1010, 0b1111];

pub const ORDER: [u8; 4] = [2, 0, 3, 1];
