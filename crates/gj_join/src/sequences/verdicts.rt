//! The verdict of an input of records from those of two parts of it.

ghost use Rattle.std.specs.Prelude.{◌≡◌, ◌++◌, ℕ, List, length, IfSome, IsSome};
ghost use Rattle.gj_json.specs.Limits.{Allowed};
ghost use Rattle.gj_join.specs.Joined.{Fit, NumbersFit, IsVerdictOf, joined_judgement, joined_verdict};
ghost use Rattle.gj_join.specs.Parts.{ArePartsOf, limits_after};
ghost use Rattle.gj_rules.specs.Sequence.{SequenceJudgement, SequenceSays};
ghost use Rattle.gj_rules.specs.declared.records.framing.Framing.{Framing};
ghost use Rattle.gj_rules.specs.declared.sequence.verdict.SeqVerdict.{SeqVerdict};

use crate::sequences::laws::{joined_judgements, joined_lines};
use crate::sequences::moved::{moved, moved_warnings};
use gj_coords::Warnings;
use gj_rules::{SeqVerdict, one_sequence_verdict};

/// The verdict of a text sequence (RFC 8142) or of newline-delimited texts, given those of two parts, of which the first has `end`
/// bytes.
///
/// The second part of a sequence begins with RS, and the first does not end with it. The first part of lines ends with LF. The
/// first part is shorter than the limit on the bytes of the whole, and the limit for the second part is what it leaves. `None`
/// where the number of a record goes past 64 bits or a place past 2^61, which those of such parts under the usual limits never do.
pub fn join(first: SeqVerdict, end: u64, second: SeqVerdict) -> Option<SeqVerdict>
    ensures joined { IfSome result (λ whole. (framing : Framing) (limits : Allowed) (part rest : List ℕ) → ArePartsOf framing limits part rest
        → end ≡ length part → IsVerdictOf framing limits part first → IsVerdictOf framing (limits_after limits end) rest second
        → IsVerdictOf framing limits (part ++ rest) whole) }
    ensures exact { IfSome result (λ whole. whole ≡ joined_verdict end first second) }
    ensures fits { Fit end first second → IsSome result }
{
    joined_judgements();
    joined_lines();
    one_sequence_verdict();
    said(first, end, second)
}

/// What the verdict of the whole says.
fn said(first: SeqVerdict, end: u64, second: SeqVerdict) -> Option<SeqVerdict>
    ensures exact { IfSome result (λ whole. whole ≡ joined_verdict end first second) }
    ensures says { IfSome result (λ whole. (one other : SequenceJudgement) → SequenceSays first one → SequenceSays second other
        → SequenceSays whole (joined_judgement end one other)) }
    ensures fits { Fit end first second → IsSome result }
{
    match first {
        SeqVerdict::Record { .. } => Some(first),
        SeqVerdict::Valid { records, warnings } => after_valid(records, warnings, end, second),
    }
}

/// The verdict of the whole where the first part is valid.
fn after_valid(records: u64, warnings: Warnings, end: u64, second: SeqVerdict) -> Option<SeqVerdict>
    ensures exact { IfSome result (λ whole. whole ≡ joined_verdict end (SeqVerdict.Valid records warnings) second) }
    ensures says { IfSome result (λ whole. (one other : SequenceJudgement) → SequenceSays (SeqVerdict.Valid records warnings) one → SequenceSays second other
        → SequenceSays whole (joined_judgement end one other)) }
    ensures fits { NumbersFit records end second → IsSome result }
{
    match second {
        SeqVerdict::Valid {
            records: more,
            warnings: others,
        } => match (records.checked_add(more), moved_warnings(others, end)) {
            (Some(records), Some(others)) => Some(SeqVerdict::Valid {
                records,
                warnings: warnings.join(others),
            }),
            _ => None,
        },
        SeqVerdict::Record { number, verdict } => {
            match (records.checked_add(number), moved(verdict, end)) {
                (Some(number), Some(verdict)) => Some(SeqVerdict::Record { number, verdict }),
                _ => None,
            }
        }
    }
}
