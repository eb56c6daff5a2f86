//! A text sequence (RFC 8142) or newline-delimited texts, checked in N parts, each by a separate process, and their verdicts joined.
//!
//! The records of a part are those that begin in its range of bytes. [`check_part`] finds where a part begins and ends, and
//! checks its bytes alone. [`join_parts`] makes the verdict of the whole from those of all parts. Where the source tells its
//! bytes, that is the verdict of one reading of the whole. [`joined_notes`] says what is reported of its records. [`collections`] does
//! so with one FeatureCollection.
#![tactic(auto)]

mod checked;
pub mod collections;
mod cuts;
mod joining;
mod laws;
mod ranges;
mod window;

pub use checked::{CheckedPart, ListedPart, check_part};
pub use joining::{Misfit, join_parts};
pub use laws::{joined_notes, parts_make_the_text};
pub use ranges::Share;
