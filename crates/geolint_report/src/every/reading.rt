//! The first reading of a file of which each feature or each record is reported.
ghost use Rattle.std.specs.Prelude.{◌≡◌, [], IfOk, None};
ghost use Rattle.geolint_report.specs.declared.judge.Finding.{Finding};
ghost use Rattle.geolint_report.specs.declared.judge.Reading.{Reading};
ghost use Rattle.geolint_report.specs.Every.{ListsFor};
ghost use Rattle.geolint_report.specs.Spots.{FollowedFrom};
ghost use Rattle.geolint_report.specs.Judged.{CountsFailure, Finds, JudgesRead, framing_in};

use crate::every::listing::{Asked, Listing};
use crate::every::records::judge_records;
use crate::every::spots::{Follower, Unplaced};
use crate::judge::{Finding, PIECE, Reading};
use crate::progress::Meter;
use crate::source::Source;
use gj_json::Limits;
use gj_rules::record_laws::sequence_by_records;
use gj_rules::{FeatureLinter, Framing, Progress, Verdict};
use std::alloc::Global;
use std::io;

/// What a file is, as [`judge`](crate::judge::judge) finds it where more than yes or no is asked, and what is reported of its
/// features or its records.
pub fn judge_every<S: Source>(
    alloc: Global,
    reader: &mut S,
    limits: Limits,
    reading: Reading,
    asked: Asked,
    meter: &mut Meter,
) -> io::Result<(Finding, Listing)>
    ensures found { (reading ≡ Reading.Quick → ⊥) → IfOk result (λ found. Finds reading limits (S.remaining reader.old) (S.remaining reader.new) found.0) }
    ensures listed { IfOk result (λ found. ListsFor (framing_in reading) found.0 limits (S.remaining reader.old) found.1) }
    ensures text { S.text reader.new ≡ S.text reader.old }
    ensures failed { CountsFailure (S.failed_reads reader.old) (S.failed_reads reader.new) result }
{
    judge_followed(alloc, reader, limits, reading, asked, meter, &mut Unplaced)
}

/// What a source is, as [`judge_every`] finds it, with a follower that gets its bytes as they come: it knows where the places of
/// what is reported stand, without a second reading.
pub fn judge_followed<S: Source, F: Follower>(
    alloc: Global,
    reader: &mut S,
    limits: Limits,
    reading: Reading,
    asked: Asked,
    meter: &mut Meter,
    follower: &mut F,
) -> io::Result<(Finding, Listing)>
    ensures found { (reading ≡ Reading.Quick → ⊥) → IfOk result (λ found. Finds reading limits (S.remaining reader.old) (S.remaining reader.new) found.0) }
    ensures listed { IfOk result (λ found. ListsFor (framing_in reading) found.0 limits (S.remaining reader.old) found.1) }
    ensures text { S.text reader.new ≡ S.text reader.old }
    ensures failed { CountsFailure (S.failed_reads reader.old) (S.failed_reads reader.new) result }
    ensures followed { F.follows follower.old [] → IfOk result (λ found.
        FollowedFrom (S.remaining reader.old) (S.remaining reader.new) (F.follows follower.new)) }
{
    match reading {
        Reading::Text | Reading::Quick => {
            match judge_features(alloc, reader, limits, asked, meter, follower) {
                Ok(found) => Ok((Finding::Text(found.0), found.1)),
                Err(error) => Err(error),
            }
        }
        Reading::Sequence => {
            let _most = limits.bytes();
            sequence_by_records();
            match judge_records(
                alloc,
                reader,
                limits,
                Framing::Sequence,
                asked,
                meter,
                follower,
            ) {
                Ok(found) => Ok((Finding::Sequence(found.0), found.1)),
                Err(error) => Err(error),
            }
        }
        Reading::Lines => match judge_records(
            alloc,
            reader,
            limits,
            Framing::Lines,
            asked,
            meter,
            follower,
        ) {
            Ok(found) => Ok((Finding::Sequence(found.0), found.1)),
            Err(error) => Err(error),
        },
    }
}

/// The verdict of one text, as [`judge`](crate::judge::judge) finds it, and what is reported of its features. No read
/// follows a refusal.
pub fn judge_features<S: Source, F: Follower>(
    alloc: Global,
    reader: &mut S,
    limits: Limits,
    asked: Asked,
    meter: &mut Meter,
    follower: &mut F,
) -> io::Result<(Verdict, Listing)>
    ensures verdict { IfOk result (λ found. JudgesRead limits (S.remaining reader.old) (S.remaining reader.new) found.0) }
    ensures listed { IfOk result (λ found. ListsFor None (Finding.Text found.0) limits (S.remaining reader.old) found.1) }
    ensures text { S.text reader.new ≡ S.text reader.old }
    ensures failed { CountsFailure (S.failed_reads reader.old) (S.failed_reads reader.new) result }
    ensures followed { F.follows follower.old [] → IfOk result (λ found.
        FollowedFrom (S.remaining reader.old) (S.remaining reader.new) (F.follows follower.new)) }
{
    let _most = limits.bytes();
    let mut linter = FeatureLinter::new(limits, Listing::new(alloc, asked));
    let mut piece = [0; PIECE];
    let mut offset = 0u64;
    loop {
        match reader.read_piece(&mut piece) {
            Err(error) => return Err(error),
            Ok(0) => return Ok(linter.finish()),
            Ok(count) => {
                offset += count as u64;
                meter.add_bytes(count);
                let progress = linter.feed(&piece[..count]);
                follower.follow(&piece[..count], linter.sink().notes());
                match progress {
                    Progress::Open => {}
                    Progress::Refused(_) => return Ok(linter.finish()),
                }
            }
        }
    }
}
