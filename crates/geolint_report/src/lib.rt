//! What reads a source of GeoJSON and checks it, and what is reported of it.
//!
//! [`judge`](judge::judge) reads a source once and finds what its bytes are. [`find_sites`](rereading::find_sites) reads it
//! again for the lines, columns and paths of the places of that, and [`Cursors`](every::cursor::Cursors) for those of its
//! features. Where the source tells its bytes, what is found is the verdict of all of them (`specs/Judged.antt`), and each
//! place that is found stands where the definition says (`specs/Sites.antt`), however the bytes come in pieces.
//!
//! Beside that it has what both programs need of their system: [`own_build`], and the names in a list ([`name_lists`]).
#![tactic(auto)]

pub mod every;
pub mod feeds;
pub mod found;
pub mod hints;
pub mod judge;
pub mod line;
pub mod name_lists;
pub mod own_build;
pub mod progress;
pub mod reading_loop;
pub mod report;
pub mod rereading;
pub mod sites;
pub mod source;
pub mod texts;
mod written;
