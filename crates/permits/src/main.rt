//! Prints who may go where in a small hall, worked out by hand in `hall.rt`, and then what is refused and why.
//! Promise: what is read of a list, or of a pile of three, is what its tables mean, or the first refusal.
//! Rests on `rating`, `layers` and `sheet`, and on `rigset` and `levelling` below them.
#![tactic(auto)]

use sheet::{ListSheet, PermittedRefusal, Reading, Sheet};
use std::fmt::Display;
use std::{fmt, io};

mod hall;
mod piles;

use hall::{APPROVALS, ORDER, PUMPS, RIGS};
use piles::{read_list, read_pile};

/// What was read of a sheet, as it is printed: its numbers, and then the permitted rigs of each type.
#[derive(Drop)]
struct Listing(Reading);

impl Display for Listing {
    fn fmt<W: fmt::Write>(&self, f: &mut fmt::Formatter<W>) -> fmt::Result {
        let Reading {
            rigs,
            types,
            permitted,
        } = &self.0;
        write!(f, "{rigs} rigs, {types} types")?;
        for (kind, set) in permitted.iter().enumerate().take(*types) {
            write!(f, "\ntype {kind}:")?;
            for rig in set.members() {
                write!(f, " {rig}")?;
            }
        }
        Ok(())
    }
}

/// How many rigs a type may go to, as it is printed.
#[derive(Drop)]
struct RigCount(usize);

impl Display for RigCount {
    fn fmt<W: fmt::Write>(&self, f: &mut fmt::Formatter<W>) -> fmt::Result {
        write!(f, "{} rigs", self.0)
    }
}

// Prints an answer, or the number of the refusal.
fn tell<T: Display + Drop, E: Into<u8>>(
    rt: &HostRuntime,
    what: &str,
    answer: Result<T, E>,
) -> io::Result<()> {
    match answer {
        Ok(told) => println!(rt; "{what}: {told}"),
        Err(refusal) => {
            let number: u8 = refusal.into();
            println!(rt; "{what}: refused, {number}")
        }
    }
}

// Asks a list sheet that was not filled, with one type, how many rigs a type may go to.
fn ask(kind: usize) -> Result<RigCount, PermittedRefusal> {
    let set = ListSheet::new().permitted(kind)?;
    Ok(RigCount(set.len()))
}

// Reads the pile of the hall, and then piles with one table spoiled.
fn tell_piles(rt: &HostRuntime) -> io::Result<()> {
    let piles = [
        ("the pile", read_pile(&RIGS, &PUMPS, &APPROVALS, &ORDER)),
        ("no rig", read_pile(&[], &PUMPS, &APPROVALS, &ORDER)),
        (
            "an approval too many",
            read_pile(&RIGS, &PUMPS[..3], &APPROVALS, &ORDER),
        ),
        (
            "rig 4 approved",
            read_pile(&RIGS, &PUMPS, &[1, 2, 4, 16], &ORDER),
        ),
        (
            "three rigs in the order",
            read_pile(&RIGS, &PUMPS, &APPROVALS, &ORDER[..3]),
        ),
        (
            "rig 2 twice in the order",
            read_pile(&RIGS, &PUMPS, &APPROVALS, &[2, 0, 3, 2]),
        ),
        (
            "rig 4 in the order",
            read_pile(&RIGS, &PUMPS, &APPROVALS, &[2, 0, 3, 4]),
        ),
    ];
    for (what, read) in piles {
        tell(rt, what, read.map(Listing))?;
    }
    Ok(())
}

// Reads lists at the limits of rigs and types, and beyond.
fn tell_lists(rt: &HostRuntime) -> io::Result<()> {
    let lists = [
        ("a list", read_list(64, &[0, 1 << 63, 0b101])),
        ("rig 63 of 63", read_list(63, &[1 << 63])),
        ("65 rigs", read_list(65, &[1 << 63])),
        ("no type", read_list(1, &[])),
        ("65 types", read_list(1, &[1; 65])),
    ];
    for (what, read) in lists {
        tell(rt, what, read.map(Listing))?;
    }
    Ok(())
}

fn main(rt: HostRuntime) -> io::Result<()> {
    tell_piles(&rt)?;
    tell_lists(&rt)?;
    for (what, kind) in [("type 0 of 1", 0), ("type 1 of 1", 1)] {
        tell(&rt, what, ask(kind))?;
    }
    Ok(())
}
