//! What is found in the records of an input, beside what the input is: each contract is a law.
ghost use Rattle.std.specs.Prelude.{◌≡◌, ℕ, ◌≤◌, List};
ghost use Rattle.gj_json.specs.Limits.{Allowed};
ghost use Rattle.gj_rules.specs.declared.records.framing.Framing.{Framing};
ghost use Rattle.gj_rules.specs.declared.records.record.Record.{Record};
ghost use Rattle.gj_rules.specs.RecordFindings.{AreAllFindings, whole_of};
ghost use Rattle.gj_rules.specs.Sequence.{IsSequenceVerdict};

use crate::verdict::one_verdict;

/// Under any limits one list is found in the records of an input, and no other.
pub fn one_finding()
    ensures some { (framing : Framing) (limits : Allowed) (bytes : List ℕ) → (found : List Record) × AreAllFindings framing limits bytes found }
    ensures one { (framing : Framing) (limits : Allowed) (bytes : List ℕ) (first second : List Record) → AreAllFindings framing limits bytes first
        → AreAllFindings framing limits bytes second → first ≡ second }
{
    one_verdict();
}

/// A text sequence (RFC 8142) is what its records make it: valid where each of them is, with the warnings of all joined, and
/// else what the first of them is that is not.
pub fn sequence_by_records()
    ensures { (limits : Allowed) (bytes : List ℕ) (found : List Record) → 1 ≤ limits.bytes → AreAllFindings Framing.Sequence limits bytes found
        → IsSequenceVerdict limits bytes (whole_of found) }
{}
