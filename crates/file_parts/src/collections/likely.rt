//! Where a part may begin.

ghost use Rattle.std.specs.Prelude.{◌≡◌, ◌<◌, ◌≤◌, ◌^◌, ◌↔◌, IfOk, IfSome, IsTrue};
ghost use Rattle.std.specs.Io.{ReadsAtMost};
ghost use Rattle.geolint_report.specs.Judged.{CountsFailure};
ghost use Rattle.file_parts.specs.Internal.Reading.{IsFilled};
ghost use Rattle.file_parts.specs.Likely.{IsGood, IsLikely};

use crate::collections::runs::{ReadRun, read_run};
use geolint_report::judge::PIECE;
use geolint_report::reading_loop::Uncounted;
use geolint_report::source::Rewind;
use gj_join::after_brace;
use gj_json::Limits;
use gj_rules::Progress;
use std::io;

/// How far the bytes before and after a comma between two features are looked at together.
const SEAM: usize = 256;

/// A place is tried by so many bytes at the least.
const TRIAL: u64 = 65536;

/// And by so many at the most.
const LONG_TRIAL: u64 = 1 << 20;

/// So many bytes are read for all trials of a search at the most, and one trial more.
const ALL_TRIALS: u64 = 16 << 20;

/// The first place from `from` on, and before `until`, where a feature seems to have ended, and another one to follow: the features from
/// there on are read for a while. It depends on the bytes and on `from` alone, so that a part ends where the next one begins.
///
/// It is a guess: whatever it answers, what is said of the features from there on is true.
pub fn likely_place<S: Rewind>(
    source: &mut S,
    from: u64,
    until: u64,
    limits: Limits,
) -> io::Result<Option<u64>>
    ensures likely { IfOk result (λ found. IfSome (S.text source.old) (λ text. IsLikely limits text from until found)) }
    ensures range { IfOk result (λ found. IfSome found (λ place. (from ≤ place) × (place < until))) }
    ensures text { S.text source.new ≡ S.text source.old }
    ensures failed { CountsFailure (S.failed_reads source.old) (S.failed_reads source.new) result }
{
    // No run begins beyond the limit.
    let last = until.min(limits.bytes() + 1);
    let mut piece = [0; PIECE];
    let mut tried = 0u64;
    let mut place = from;
    while place < last && tried <= ALL_TRIALS {
        let count = fill(source, place, &mut piece)?;
        match after_brace(&piece[..count]) {
            Some(index) => {
                let found = place + index as u64;
                if found >= last {
                    return Ok(None);
                }
                let most = found + LONG_TRIAL;
                let run = read_run(source, limits, found, most, TRIAL, &mut Uncounted)?;
                if is_good(&run) {
                    return Ok(Some(found));
                }
                tried = tried.saturating_add(run.reached.saturating_sub(found));
                place = found;
            }
            None if count > SEAM => place += (count - SEAM) as u64,
            None => return Ok(None),
        }
    }
    Ok(None)
}

/// Whether a trial shows features, and nothing after them that is refused.
fn is_good(run: &ReadRun) -> bool
    ensures { IsTrue result ↔ IsGood run.now }
{
    match run.progress {
        Progress::Open => run.sum.features > 0,
        Progress::Refused(_) => false,
    }
}

/// Reads from a place on until the piece is full or the source ends: one read may give less.
fn fill<S: Rewind>(source: &mut S, place: u64, piece: &mut [u8]) -> io::Result<usize>
    requires { place ≤ 2 ^ 60 }
    ensures bound { ReadsAtMost result piece.new }
    ensures bytes { IfOk result (λ count. IfSome (S.text source.old) (λ text. IsFilled text place count piece.new)) }
    ensures text { S.text source.new ≡ S.text source.old }
    ensures failed { CountsFailure (S.failed_reads source.old) (S.failed_reads source.new) result }
{
    let mut count = 0;
    while count < piece.len() {
        let more = source.read_from(place + count as u64, &mut piece[count..])?;
        if more == 0 {
            return Ok(count);
        }
        count += more;
    }
    Ok(count)
}
