//! What is found of each feature or record of a file, and where its places stand.

pub mod cursor;
pub mod further;
pub mod id;
pub mod listing;
pub mod reading;
pub mod records;
pub mod spots;
pub mod tally;
pub mod text_path;
