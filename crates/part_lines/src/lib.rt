//! The lines of JSON by which the parts of a file are joined: each says what was found of one part.
//!
//! [`put_line`] writes a line, and [`read_line`] reads it: [`written_lines_are_read`] and [`members_say_one_line`] say that this
//! leads back to the line. A line has a checksum, so that a changed byte is seen. [`join_lines`] makes the verdict of the whole from the
//! lines of all parts, in any order. It refuses lines that are not those of all parts of one file, checked in one way. [`join_notes`]
//! joins what they list of records.
#![tactic(auto)]

mod joining;
mod laws;
mod line;
mod notes;
mod reading;
mod sealing;
mod writing;

pub use joining::{Refusal, join_lines, parts_of};
pub use laws::{members_say_one_line, written_lines_are_read};
pub use line::{FileState, Listed, PartLine, Settings};
pub use notes::join_notes;
pub use reading::{NoLine, read_line};
pub use writing::put_line;
