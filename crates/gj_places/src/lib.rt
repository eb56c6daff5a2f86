//! Where a byte of a text stands for a reader of the text, and how bytes are shown to one.
//!
//! `Lines` counts the line and the column of a place, however the text comes in pieces (`specs/Lines.antt`). `json_string`
//! writes bytes as a JSON string that reads back as the same characters and has none that a terminal would obey. `Excerpt`
//! keeps the part of a line around a place in fixed memory, and `Recent` the last bytes of a text that is read once, for the
//! places among them.
#![tactic(auto)]

mod excerpt;
mod lines;
mod recent;
mod string;

pub use excerpt::{Excerpt, Shown, is_harmful};
pub use lines::Lines;
pub use recent::{Kept, Recent};
pub use string::json_string;
