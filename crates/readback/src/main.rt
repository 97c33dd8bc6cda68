//! Reads a script on standard input and writes each line as it was understood, or what is wrong with it.
//! Promise: the lines come in order, each by its number, written again from the command that was read.
//! Rests on `script`, for reading, writing and checking lines, and on `bounded`, for a list to check into.
#![tactic(auto)]

use script::TEXT_MAX;
use std::io::{self, Read, Write};

mod telling;

use telling::read_back;

fn main(rt: HostRuntime) -> io::Result<()> {
    let heap = rt.alloc();
    let mut text = Vec::new(heap);
    // One byte past the limit shows that a text is too long.
    rt.stdin().take(TEXT_MAX as u64 + 1).read_to_end(&mut text)?;
    let told = read_back(heap, &text)?;
    rt.stdout().write_all(&told)
}
