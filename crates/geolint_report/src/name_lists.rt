//! The names in a list of files, one after another, in the memory of one name.
//!
//! A list is read piece by piece. One byte ends each name of it: LF, or NUL as `git ls-files -z` writes it. An empty name is
//! left out. `specs/Listed.antt` says which names a list has, and `Names::next_into` gives each of them once, in order.

mod listed;
mod names;

pub use listed::{Listed, NameEnd};
pub use names::{LONGEST_NAME, Names};
