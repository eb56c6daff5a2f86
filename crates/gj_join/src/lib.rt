//! One FeatureCollection in parts, so that several machines can each check some of it. [`sequences`] does so with a text sequence and
//! with lines.
//!
//! A run is a part of a text: whole features, each after a comma. What it is depends on its bytes alone, and on nothing that stands
//! before it. [`RunLinter`] checks bytes for a run, and says what is found in it. [`whole_of`] makes the verdict of a text from that and
//! from the verdict of the text with spaces in its place: it is that of one reading, whatever the text is, wherever a feature has ended
//! before the run. [`Joiner`] reads a text so, and passes over its runs. [`after_brace`] guesses where a run may begin.
#![tactic(auto)]

mod joiner;
mod last_end;
mod laws;
mod run_linter;
mod seam;
pub mod sequences;
mod sum;
mod totals;
mod warnings;
mod whole;

pub use joiner::Joiner;
pub use laws::spaces_for_features;
pub use run_linter::RunLinter;
pub use seam::after_brace;
pub use sum::FeatureSum;
pub use warnings::warnings_at;
pub use whole::whole_of;
