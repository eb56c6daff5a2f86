//! What is reported of a record.
ghost use Rattle.std.specs.Prelude.{◌≡◌, ◌∷◌, ◌++◌, [], List};

use crate::sequence::SeqVerdict;
use crate::verdict::Verdict;
use gj_coords::laws::joined_warnings;

/// What is found in a record of an input.
#[derive(Clone, Copy, Debug, PartialEq, Eq)]
pub struct Record {
    /// Counted from 1. It is 0 for the bytes before the first RS of a text sequence, which are no record.
    pub number: u64,
    /// The place of its first byte: the byte offset in the input.
    pub place: u64,
    /// The place after its last byte. The LF that ends a text of a sequence is a byte of it, and the LF after a line is not.
    pub end: u64,
    /// What it is by itself, with all places from the start of the input.
    pub verdict: Verdict,
}

/// What records are reported to, in order.
pub trait RecordSink {
    /// The records that were reported to it so far may be these.
    ghost told: { Self → List Record → Type 0 };

    ghost use Rattle.gj_rules.specs.declared.records.record.Record.{Record};

    /// Takes the next record, with what is found in it.
    fn tell_record(&mut self, found: &Record)
        ensures { (records : List Record) → told self.old records → told self.new (records ++ found.now ∷ []) };
}

/// To which nothing that is reported matters.
#[derive(Drop)]
pub struct NoRecords;

impl RecordSink for NoRecords {
    ghost told = { λ _ _. Unit {0} };

    fn tell_record(&mut self, _found: &Record) {}
}

impl SeqVerdict {
    ghost use Rattle.gj_coords.specs.Internal.KeptWarnings.{no_warnings};
    ghost use Rattle.gj_rules.specs.declared.records.record.Record.{Record};
    ghost use Rattle.gj_rules.specs.declared.verdict.Verdict.{Verdict};
    ghost use Rattle.gj_rules.specs.RecordFindings.{after};

    /// The verdict with one record more: the first that is not valid decides it.
    pub(crate) fn after(self, found: &Record) -> SeqVerdict
        ensures { result ≡ after self found.now }
    {
        match (self, found.verdict) {
            (SeqVerdict::Valid { warnings, .. }, Verdict::Valid(more)) => SeqVerdict::Valid {
                records: found.number,
                warnings: warnings.join(more),
            },
            (SeqVerdict::Valid { .. }, verdict) => SeqVerdict::Record {
                number: found.number,
                verdict,
            },
            (decided, _) => decided,
        }
    }

    /// The verdict with one record more that is valid and has no warning.
    #[inline]
    pub(crate) fn count(&mut self, number: u64)
        ensures { (found : Record) → found.number ≡ number → found.verdict ≡ Verdict.Valid no_warnings → self.new ≡ after self.old found }
    {
        joined_warnings();
        if let SeqVerdict::Valid { records, .. } = self {
            *records = number;
        }
    }
}
