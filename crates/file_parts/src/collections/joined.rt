//! The verdict of a text of which parts were checked.

ghost use Rattle.std.specs.Prelude.{◌≡◌, ◌≤◌, List, ℕ, IfOk, IfSome, length};
ghost use Rattle.std.specs.List.{All};
ghost use Rattle.gj_rules.specs.Verdict.{IsVerdict};
ghost use Rattle.gj_json.specs.Limits.{Allowed};
ghost use Rattle.geolint_report.specs.Judged.{CountsFailure};
ghost use Rattle.file_parts.specs.Sums.{IsTruePart, sum_of};
ghost use Rattle.file_parts.specs.Internal.Reading.{IsAt, HasReached};

use crate::CheckedPart;
use geolint_report::judge::PIECE;
use geolint_report::reading_loop::Counts;
use geolint_report::source::Rewind;
use gj_join::{FeatureSum, Joiner};
use gj_json::Limits;
use gj_rules::{Progress, SeqVerdict, Verdict};
use std::io;

/// What is found of a text from its parts.
#[derive(Clone, Copy)]
pub struct Joined {
    pub verdict: Verdict,
    /// How many of the parts were passed over.
    pub passed: u64,
}

/// The verdict of a text, given what was found in the features of its parts. The source is read but for those parts that begin right
/// after a feature.
///
/// Where the parts are true, it is the verdict of one reading, whichever parts there are, in any order. Only where they are in
/// their order, and none is missing, it is not read as a whole.
pub fn join_features<S: Rewind, C: Counts>(
    source: &mut S,
    limits: Limits,
    parts: &[CheckedPart],
    counts: &mut C,
) -> io::Result<Joined>
    ensures verdict { IfOk result (λ joined. IfSome (S.text source.old) (λ text. All (IsTruePart limits text) parts.now
        → IsVerdict limits text joined.verdict)) }
    ensures passed { IfOk result (λ joined. joined.passed ≤ length parts.now) }
    ensures text { S.text source.new ≡ S.text source.old }
    ensures failed { CountsFailure (S.failed_reads source.old) (S.failed_reads source.new) result }
{
    let mut joiner = Joiner::new(limits);
    let mut passed = 0u64;
    for part in parts {
        if let Some(sum) = sum_of(part) {
            match feed_to(source, &mut joiner, sum.begin, counts)? {
                Progress::Open => passed += u64::from(joiner.pass_over(&sum)),
                Progress::Refused(fault) => return Ok(Joined {
                    verdict: Verdict::NotJson(fault),
                    passed,
                }),
            }
        }
    }
    let verdict = match feed_to(source, &mut joiner, limits.bytes() + 1, counts)? {
        Progress::Open => joiner.end(),
        Progress::Refused(fault) => Verdict::NotJson(fault),
    };
    source.expect_unchanged()?;
    Ok(Joined { verdict, passed })
}

/// What was found in the features of a part, where it has some.
fn sum_of(part: &CheckedPart) -> Option<FeatureSum>
    ensures { result ≡ sum_of part.now }
{
    match part.verdict {
        SeqVerdict::Valid { records, warnings } if part.begin < part.end => Some(FeatureSum {
            begin: part.begin,
            end: part.end,
            features: records,
            warnings,
        }),
        _ => None,
    }
}

/// Feeds the bytes of the source from where the joiner stands up to a place, or to the end of the source.
fn feed_to<S: Rewind, C: Counts>(
    source: &mut S,
    joiner: &mut Joiner,
    until: u64,
    counts: &mut C,
) -> io::Result<Progress>
    ensures fed { IfOk result (λ progress. IfSome (S.text source.old) (λ text. (limits : Allowed) (place : ℕ) → IsAt limits text joiner.old place
        → HasReached limits text until joiner.new progress)) }
    ensures text { S.text source.new ≡ S.text source.old }
    ensures failed { CountsFailure (S.failed_reads source.old) (S.failed_reads source.new) result }
{
    let mut piece = [0; PIECE];
    let mut place = joiner.offset();
    while place < until {
        let count = source.read_from(place, &mut piece)?;
        let taken = count.min((until - place) as usize);
        if taken == 0 {
            return Ok(Progress::Open);
        }
        match joiner.feed(&piece[..taken]) {
            Progress::Open => counts.add_bytes(taken),
            Progress::Refused(fault) => return Ok(Progress::Refused(fault)),
        }
        place += taken as u64;
    }
    Ok(Progress::Open)
}
