//! The verdict of a text sequence (RFC 8142) or of newline-delimited texts from those of its parts, so that several machines can
//! each check some of it.
//!
//! A sequence is cut before a separator (RS) that no other separator precedes, and lines after an LF. `join` makes the verdict of
//! the whole from those of two such parts: the first record that is not valid decides, and numbers and places count from the start
//! of the whole. It is the verdict of one reading, whatever the parts are, and `joined_in_any_grouping` says that their grouping
//! does not matter. `joined_findings` says what is found in each record of the whole.

mod laws;
mod moved;
mod verdicts;

pub use laws::{joined_findings, joined_in_any_grouping, joined_judgements, joined_lines};
pub use verdicts::join;
