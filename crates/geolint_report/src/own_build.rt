//! What a running program is: what it was built from, and whether its stack has the room that it needs.
//!
//! `make dist` adds a text to each program, in a section that is not loaded: the commit, and the toolchain by which the program
//! was proved and compiled. A program that was built in a checkout has none.

mod place;
mod stack;

pub use place::{BuildPlace, build_place};
pub use stack::lacks_stack;
use std::{env, fs, io};

/// What the running program was built from, in whole lines: none where its file does not say it.
///
/// An error is answered where the file cannot be read, or no memory is left. What is in the file is no part of what is
/// proved, so no clause says what the lines are.
pub fn own_build(rt: &HostRuntime) -> io::Result<Vec<u8>> {
    let file = fs::read(rt, env::current_exe(rt)?)?;
    let mut lines = Vec::new(rt.alloc());
    if let Some(place) = build_place(file.as_slice()) {
        lines.extend_from_slice(&file.as_slice()[place.start..place.end])?;
    }
    Ok(lines)
}
