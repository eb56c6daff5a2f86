//! What is found in the features of one part of a text.

ghost use Rattle.std.specs.Prelude.{◌≡◌, IfOk, IfSome};
ghost use Rattle.geolint_report.specs.Judged.{CountsFailure};
ghost use Rattle.file_parts.specs.Likely.{HasRun};
ghost use Rattle.file_parts.specs.Sums.{IsTruePart, part_of};

use crate::collections::likely::likely_place;
use crate::collections::runs::{no_features, read_run};
use crate::{CheckedPart, Share};
use geolint_report::reading_loop::Counts;
use geolint_report::source::Rewind;
use gj_join::FeatureSum;
use gj_json::Limits;
use gj_rules::SeqVerdict;
use std::io;

/// Checks the features of a part of a source of `size` bytes: those from the first likely place in its range on, up to the first in
/// the next range, as long as no rule is broken. The limit on the bytes is that of the whole.
///
/// Its places count from the first byte of the source, and its `records` are features. Where the range has no place that is likely to be
/// between two features, the part has no byte. An error is returned where a read failed or the source has changed.
pub fn check_features<S: Rewind, C: Counts>(
    source: &mut S,
    size: u64,
    share: Share,
    limits: Limits,
    counts: &mut C,
) -> io::Result<CheckedPart>
    ensures part { IfOk result (λ part. IfSome (S.text source.old) (λ text. IsTruePart limits text part)) }
    ensures run { IfOk result (λ part. IfSome (S.text source.old) (λ text. HasRun limits text share size part)) }
    ensures text { S.text source.new ≡ S.text source.old }
    ensures failed { CountsFailure (S.failed_reads source.old) (S.failed_reads source.new) result }
{
    let until = share.until(size);
    let sum = match likely_place(source, share.from(size), until, limits)? {
        Some(begin) => {
            let end = likely_place(source, until, size, limits)?.unwrap_or(size);
            read_run(source, limits, begin, end, u64::MAX, counts)?.sum
        }
        None => no_features(until),
    };
    source.expect_unchanged()?;
    Ok(part_of(sum))
}

/// The sum as what is found of a part.
fn part_of(sum: FeatureSum) -> CheckedPart
    ensures { result ≡ part_of sum }
{
    CheckedPart {
        begin: sum.begin,
        end: sum.end,
        verdict: SeqVerdict::Valid {
            records: sum.features,
            warnings: sum.warnings,
        },
    }
}
