//! Reads a run of features.

ghost use Rattle.std.specs.Prelude.{◌≡◌, ◌⊎◌, ◌<◌, ◌≤◌, false, IfOk, IfSome, IsSome, IsTrue};
ghost use Rattle.geolint_report.specs.Judged.{CountsFailure};
ghost use Rattle.gj_rules.specs.Linter.{refusal_in};
ghost use Rattle.file_parts.specs.ReadRuns.{IsEnough, ReadsTo};
ghost use Rattle.file_parts.specs.Sums.{IsSumIn};

use geolint_report::judge::PIECE;
use geolint_report::reading_loop::Counts;
use geolint_report::source::Rewind;
use gj_coords::Warnings;
use gj_join::{FeatureSum, RunLinter};
use gj_json::Limits;
use gj_rules::Progress;
use std::io;

/// A run of features, as far as it was read.
#[derive(Clone, Copy)]
pub struct ReadRun {
    pub sum: FeatureSum,
    /// The byte offset after the last byte that was read.
    pub reached: u64,
    /// Whether what follows the features is refused as JSON after them.
    pub progress: Progress,
}

/// Reads the bytes from one place up to another, as if a feature of the text had ended at the first, until they can lengthen the run no
/// more, or once it has a feature and `enough` bytes were read.
pub fn read_run<S: Rewind, C: Counts>(
    source: &mut S,
    limits: Limits,
    begin: u64,
    end: u64,
    enough: u64,
    counts: &mut C,
) -> io::Result<ReadRun>
    ensures sum { IfOk result (λ run. IfSome (S.text source.old) (λ text. IsSumIn limits.depth text run.sum)) }
    ensures read { IfOk result (λ run. IfSome (S.text source.old) (λ text. ReadsTo limits text begin end enough run)) }
    ensures text { S.text source.new ≡ S.text source.old }
    ensures failed { CountsFailure (S.failed_reads source.old) (S.failed_reads source.new) result }
{
    let Some(mut linter) = RunLinter::new(limits, begin) else {
        return Ok(ReadRun {
            sum: no_features(begin),
            reached: begin,
            progress: Progress::Open,
        });
    };
    let mut piece = [0; PIECE];
    let mut run = ReadRun {
        sum: linter.sum(),
        reached: begin,
        progress: Progress::Open,
    };
    let mut is_open = true;
    while is_open && run.reached < end {
        let count = source.read_from(run.reached, &mut piece)?;
        let taken = count.min((end - run.reached) as usize);
        let progress = linter.feed(&piece[..taken]);
        counts.add_bytes(taken);
        run = ReadRun {
            sum: linter.sum(),
            reached: run.reached + taken as u64,
            progress,
        };
        is_open = goes_on(&run, begin, enough, taken, linter.has_ended());
    }
    Ok(run)
}

/// Whether more is to be read of a run, given how many bytes came at last, and whether a feature with a fault has ended.
fn goes_on(run: &ReadRun, begin: u64, enough: u64, taken: usize, has_ended: bool) -> bool
    requires { begin ≤ run.now.reached }
    ensures stops { result ≡ false → (taken ≡ 0) ⊎ (IsEnough begin enough run.now ⊎ (IsSome (refusal_in run.now.progress) ⊎ IsTrue has_ended)) }
    ensures some { IsTrue result → 0 < taken }
{
    match run.progress {
        Progress::Open => {
            let is_enough = run.reached - begin >= enough && run.sum.features > 0;
            taken > 0 && !is_enough && !has_ended
        }
        Progress::Refused(_) => false,
    }
}

/// The sum of no bytes.
pub fn no_features(place: u64) -> FeatureSum
    ensures { (result.begin ≡ place) × (result.end ≡ place) × (result.features ≡ 0) }
{
    FeatureSum {
        begin: place,
        end: place,
        features: 0,
        warnings: Warnings::none(),
    }
}
