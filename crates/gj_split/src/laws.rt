//! Laws of the definitions of a split: each is the contract of a function that does nothing.
ghost use Rattle.std.specs.Prelude.{List, ℕ, length};
ghost use Rattle.std.specs.List.{AllByRecursion};
ghost use Rattle.gj_json.specs.Limits.{Allowed};
ghost use Rattle.gj_json.specs.Refusal.{IsAdmitted};
ghost use Rattle.gj_json.specs.Tree.{Text};
ghost use Rattle.gj_rules.specs.declared.records.framing.Framing.{Framing};
ghost use Rattle.gj_rules.specs.declared.records.record.Record.{Record};
ghost use Rattle.gj_rules.specs.RecordFindings.{AreAllFindings};
ghost use Rattle.gj_split.specs.RecordSplit.{split_records, all_records};
ghost use Rattle.gj_split.specs.Split.{split_of, sequence_of, all_features, IsMerged, IsJson, IsValidAlone, IsValidSequence};

use gj_json::{one_refusal, one_text};
use gj_rules::one_verdict;

/// Each feature without a fault is a valid text by its bytes alone, and as records they are a valid sequence.
pub fn valid_apart()
    ensures alone { (limits : Allowed) (text : Text) (bytes : List ℕ) → IsAdmitted limits text bytes →
        AllByRecursion (IsValidAlone limits.depth) (split_of bytes text).valid }
    ensures sequence { (limits : Allowed) (text : Text) (bytes : List ℕ) → IsAdmitted limits text bytes →
        IsValidSequence limits.depth (length (split_of bytes text).valid) (sequence_of (split_of bytes text).valid) }
{
    one_text();
    one_refusal();
    one_verdict();
}

/// Both parts together have each feature once, in order, and each is a JSON text by its bytes alone.
pub fn all_apart()
    ensures once { (text : Text) (bytes : List ℕ) → IsMerged (split_of bytes text).valid (split_of bytes text).broken (all_features bytes text) }
    ensures json { (limits : Allowed) (text : Text) (bytes : List ℕ) → IsAdmitted limits text bytes →
        AllByRecursion (IsJson limits.depth) (all_features bytes text) }
{}

/// The valid records of an input are a valid sequence with as many records.
pub fn valid_records_apart()
    ensures { (framing : Framing) (limits : Allowed) (bytes : List ℕ) (found : List Record) → AreAllFindings framing limits bytes found →
        IsValidSequence limits.depth (length (split_records bytes found).valid) (sequence_of (split_records bytes found).valid) }
{
    one_text();
    one_refusal();
    one_verdict();
}

/// Both parts together have the text of each record of an input once, in order.
pub fn all_records_apart()
    ensures { (framing : Framing) (limits : Allowed) (bytes : List ℕ) (found : List Record) → AreAllFindings framing limits bytes found →
        IsMerged (split_records bytes found).valid (split_records bytes found).broken (all_records framing limits bytes) }
{}
