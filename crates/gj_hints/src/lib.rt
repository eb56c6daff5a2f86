//! What a file that is not valid GeoJSON looks like, and what makes it right.
//!
//! `hint` guesses, by the first bytes of the file and those around a place, what the person has before them: a file of another
//! kind, bytes that only look like JSON, or latitude and longitude swapped. `specs/Hints.antt` says which bytes give which
//! hint. A hint is advice: it comes after the verdict, and no verdict depends on one. `expected_after` says what can follow where
//! a text is refused: `specs/Expected.antt` has what the words mean.
#![tactic(auto)]

mod bytes;
mod choice;
mod clues;
mod encoding;
mod expected;
mod kind;
mod number;
mod sign;
mod signs;
mod swapped;

pub use choice::{CHOICES, Choice};
pub use clues::{Clues, Wrong, hint};
pub use expected::{Expected, expected_after};
pub use kind::Hint;
