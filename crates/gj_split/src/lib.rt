//! Splits the features of a GeoJSON text into two text sequences (RFC 8142): those without a fault, and the others. The
//! records of a text sequence, and newline-delimited texts, are split in the same way.
//!
//! [`split`] reads a text once and copies the bytes of each feature, unchanged, to one of two writers, as soon as the
//! feature has ended. It keeps no feature in memory, however many or long they are. Where the source and the writers
//! tell their bytes, and the text is JSON, the first holds a valid text sequence with as many records as features
//! without a fault, and both together hold each feature once, in order. [`split_records`] does so with each record of an
//! input: the first holds a valid text sequence with as many records as the input has valid ones.
//! [`files`] writes them to files.
#![tactic(auto)]

mod copy;
pub mod files;
pub mod laws;
mod lines;
mod ranges;
mod reading;
mod records;
mod scan;
mod splitter;

pub use ranges::{Ranges, Stop};
pub use reading::split;
pub use records::{Input, split_records};
pub use splitter::{Counts, Ended, Outputs};
