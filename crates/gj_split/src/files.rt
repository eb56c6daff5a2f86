//! The features or the records of a file, written to separate files.
//!
//! [`split_file`] reads `NAME` and writes `PREFIX.valid.geojsons` and `PREFIX.broken.geojsons`, a text sequence (RFC 8142) each, as
//! [`crate::split`] splits the features, or [`crate::split_records`] the records. `PREFIX.broken.json` has a line of
//! JSON for each feature or record of the second.

mod file_ranges;
mod judged;
mod part_file;
mod source;
mod writing;

pub use part_file::Part;
pub use source::{Whole, split_source};
pub use writing::{Order, Undone, Written, split_file};
