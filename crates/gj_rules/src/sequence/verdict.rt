//! The verdict of a text sequence, and a record's verdict as it counts in the input.
ghost use Rattle.std.specs.Prelude.{◌≡◌, ◌↔◌, ℕ, ◌+◌, ◌≤◌, ◌^◌, List};
ghost use Rattle.gj_json.specs.Limits.{Allowed};
ghost use Rattle.gj_rules.specs.Internal.ToldPlaces.{TellsPlace};

use crate::records::{Framing, RecordEnd};
use crate::verdict::{Verdict, one_verdict};
use gj_coords::{Fault, Warnings};
use gj_json::{Cause, JsonFault};

/// What a text sequence is, as a whole (RFC 8142).
#[derive(Clone, Copy, Debug, PartialEq, Eq)]
pub enum SeqVerdict {
    /// Each record is a GeoJSON text: how many there are, and what in them is likely wrong in use.
    Valid { records: u64, warnings: Warnings },
    /// The first record that is not valid, counted from 1, with its verdict. It is record 0 where a
    /// byte stands before the first record.
    Record { number: u64, verdict: Verdict },
}

ghost use Rattle.gj_rules.specs.RecordFindings.{ended_as};
ghost use Rattle.gj_rules.specs.Sequence.{if_ended, if_cut, shifted_verdict, SequenceJudgement, SequenceSays, IsSequenceVerdict};
ghost use Rattle.gj_rules.specs.SequenceJudgement.{IsSequenceJudgement};

/// Under any limits each input has one verdict as a sequence, and no other: the one that says what the sequence is, with the
/// list of the warnings of all records in turn. It does nothing: its contract is a law of the definitions.
pub fn one_sequence_verdict()
    ensures some { (limits : Allowed) (bytes : List ℕ) → (verdict : SeqVerdict) × IsSequenceVerdict limits bytes verdict }
    ensures one { (limits : Allowed) (bytes : List ℕ) (first second : SeqVerdict) → IsSequenceVerdict limits bytes first →
        IsSequenceVerdict limits bytes second → first ≡ second }
    ensures said { (limits : Allowed) (bytes : List ℕ) (verdict : SeqVerdict) → IsSequenceVerdict limits bytes verdict ↔
        ((judgement : SequenceJudgement) × IsSequenceJudgement limits bytes judgement × SequenceSays verdict judgement) }
{
    one_verdict();
}

/// The verdict of a record of `end` bytes, given that of its bytes: a text that is not ended
/// by LF is truncated.
pub fn if_ended(verdict: Verdict, ended: bool, end: u64) -> Verdict
    ensures { result ≡ if_ended ended end verdict }
{
    match verdict {
        Verdict::NotJson(fault) => Verdict::NotJson(fault),
        _ if ended => verdict,
        _ => Verdict::NotJson(JsonFault {
            place: end,
            cause: Cause::Truncated,
        }),
    }
}

/// The verdict of a record that the limit on the input's length cuts off, given that of its bytes: a refusal by one of them
/// stands, and all else is too long.
pub fn if_cut(verdict: Verdict, end: u64) -> Verdict
    ensures { result ≡ if_cut end verdict }
{
    match verdict {
        Verdict::NotJson(
            JsonFault {
                cause: Cause::Syntax | Cause::Depth,
                ..
            },
        ) => verdict,
        _ => Verdict::NotJson(JsonFault {
            place: end,
            cause: Cause::Length,
        }),
    }
}

/// The verdict of a record by how it ends, given that of its bytes.
pub fn ended_as(
    verdict: Verdict,
    framing: Framing,
    ending: RecordEnd,
    ended: bool,
    end: u64,
) -> Verdict
    ensures { result ≡ ended_as framing ending ended end verdict }
{
    match (framing, ending) {
        (_, RecordEnd::Limit) => if_cut(verdict, end),
        (Framing::Sequence, _) => if_ended(verdict, ended, end),
        (Framing::Lines, _) => verdict,
    }
}

/// The verdict with each place `by` bytes further on.
pub fn shifted(verdict: Verdict, by: u64) -> Verdict
    requires { (place : ℕ) → TellsPlace place verdict → place + by ≤ 2 ^ 61 }
    ensures { result ≡ shifted_verdict by verdict }
{
    match verdict {
        Verdict::Valid(warnings) => Verdict::Valid(warnings.shifted(by)),
        Verdict::Broken(fault) => Verdict::Broken(Fault {
            place: fault.place + by,
            rule: fault.rule,
        }),
        Verdict::NotJson(fault) => Verdict::NotJson(JsonFault {
            place: fault.place + by,
            cause: fault.cause,
        }),
    }
}
