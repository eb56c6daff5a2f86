//! The rules of GeoJSON (RFC 7946), and the linter that checks an input by them.
//!
//! A [`Linter`] takes an input in pieces of any size and returns its [`Verdict`]. It is a
//! [`Reader`](gj_json::Reader) that reports its events to [`Rules`]. These find the least fault of a
//! text: that of the least place, and at one place of the lowest number. Of a text without a fault they
//! report what is likely wrong in use: of each kind of warning how many there are, and the least place.
//! They keep one frame of a fixed size for each open object that has a role by its position, whatever
//! the length of the text and wherever an object's `type` stands.
//!
//! A [`FeatureLinter`] reports what is found in each feature of a text too, as soon as the feature has ended.
//! [`check_text`] returns the verdict of a text in memory, and writes few frames for a small one.
#![tactic(auto)]

mod feature;
pub mod feature_laws;
mod feature_linter;
mod feature_rules;
mod findings;
mod frame;
pub mod laws;
mod lazy_warned;
mod linter;
mod member_slots;
mod member_warnings;
mod mode;
mod opening;
pub mod record_laws;
mod records;
mod role;
mod rules;
mod sequence;
mod shapes;
mod text;
mod verdict;

pub use feature::{CleanFeature, Feature, FeatureSink, ForgetfulSink};
pub use feature_linter::FeatureLinter;
pub use feature_rules::FeatureRules;
pub use linter::{Linter, Progress};
pub use records::{Framing, Record, RecordSink, Records, Taken, Whole};
pub use rules::Rules;
pub use sequence::{SeqProgress, SeqVerdict, Sequence, one_sequence_verdict};
pub use text::check_text;
pub use verdict::{Verdict, one_verdict};
