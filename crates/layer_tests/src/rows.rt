//! Warnings and verdicts as rows write them.

use gj_coords::{Fault, Kind, Rule, Warnings};
use gj_json::{Cause, JsonFault};
use gj_rules::{SeqVerdict, Verdict};

/// Kinds of warnings, each with its place.
pub type Found = &'static [(Kind, u64)];

/// The warnings of a row.
pub fn warnings_at(found: &[(Kind, u64)]) -> Warnings {
    let mut warnings = Warnings::none();
    for (kind, place) in found {
        warnings = warnings.add(*kind, *place);
    }
    warnings
}

/// A verdict: the warnings of a text, the rule that it breaks and where, or why and where it is refused.
#[derive(Clone, Copy)]
pub enum Wanted {
    Valid(Found),
    Broken(Rule, u64),
    NotJson(Cause, u64),
}

impl Wanted {
    pub fn verdict(self) -> Verdict {
        match self {
            Wanted::Valid(found) => Verdict::Valid(warnings_at(found)),
            Wanted::Broken(rule, place) => Verdict::Broken(Fault { place, rule }),
            Wanted::NotJson(cause, place) => Verdict::NotJson(JsonFault { place, cause }),
        }
    }

    /// The verdict of so many records, or that of the record of this number.
    pub fn sequence_verdict(self, number: u64) -> SeqVerdict {
        match self.verdict() {
            Verdict::Valid(warnings) => SeqVerdict::Valid {
                records: number,
                warnings,
            },
            verdict => SeqVerdict::Record { number, verdict },
        }
    }
}
