//! The first reading of a file of which each record is reported: a text sequence, or newline-delimited texts.
ghost use Rattle.std.specs.Prelude.{◌≡◌, [], IfOk, Some};
ghost use Rattle.geolint_report.specs.Every.{ListsBy};
ghost use Rattle.geolint_report.specs.Spots.{FollowedFrom};
ghost use Rattle.geolint_report.specs.Judged.{CountsFailure, JudgesRecords};

use crate::every::listing::{Asked, Listing};
use crate::every::spots::Follower;
use crate::judge::PIECE;
use crate::progress::Meter;
use crate::source::Source;
use gj_json::Limits;
use gj_rules::{Framing, Records, SeqVerdict};
use std::alloc::Global;
use std::io;

/// What the records of a reader are as a whole, and what is reported of each of them. It is read to its end, or beyond the limit.
pub fn judge_records<S: Source, F: Follower>(
    alloc: Global,
    reader: &mut S,
    limits: Limits,
    framing: Framing,
    asked: Asked,
    meter: &mut Meter,
    follower: &mut F,
) -> io::Result<(SeqVerdict, Listing)>
    ensures verdict { IfOk result (λ found. JudgesRecords framing limits (S.remaining reader.old) (S.remaining reader.new) found.0) }
    ensures listed { IfOk result (λ found. ListsBy (Some framing) limits (S.remaining reader.old) found.1) }
    ensures text { S.text reader.new ≡ S.text reader.old }
    ensures failed { CountsFailure (S.failed_reads reader.old) (S.failed_reads reader.new) result }
    ensures followed { F.follows follower.old [] → IfOk result (λ found.
        FollowedFrom (S.remaining reader.old) (S.remaining reader.new) (F.follows follower.new)) }
{
    let _most = limits.bytes();
    let mut records = Records::new(framing, limits);
    let mut listing = Listing::new(alloc, asked);
    let mut piece = [0; PIECE];
    let mut offset = 0u64;
    loop {
        match reader.read_piece(&mut piece) {
            Err(error) => return Err(error),
            Ok(0) => {
                let verdict = records.finish(&mut listing);
                follower.follow(b"", listing.notes());
                return Ok((verdict, listing));
            }
            Ok(count) => {
                offset += count as u64;
                meter.add_bytes(count);
                records.feed(&piece[..count], &mut listing);
                follower.follow(&piece[..count], listing.notes());
                if records.is_over() {
                    let verdict = records.finish(&mut listing);
                    follower.follow(b"", listing.notes());
                    return Ok((verdict, listing));
                }
            }
        }
    }
}
