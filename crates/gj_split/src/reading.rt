//! Reads a text once, and splits its features as they end.
ghost use Rattle.std.specs.Prelude.{◌≡◌, ℕ, List, [], length, Some, None, IfOk, OnOk, IsErr};
ghost use Rattle.gj_json.specs.declared.fault.JsonFault.{JsonFault};
ghost use Rattle.gj_json.specs.Refusal.{IsAdmitted};
ghost use Rattle.gj_json.specs.Tree.{Text};
ghost use Rattle.gj_rules.specs.Verdict.{IsVerdict};
ghost use Rattle.gj_rules.specs.FeatureLinter.{StandsFor, limits_of, refusal_of};
ghost use Rattle.gj_split.specs.Holding.{AreHeld, AreKnown};
ghost use Rattle.gj_split.specs.Internal.HeldRecords.{IsRead};
ghost use Rattle.gj_split.specs.Split.{split_of, IsValidSequence};

use crate::laws::valid_apart;
use crate::ranges::{Ranges, Stop};
use crate::splitter::{Ended, Outputs, Splitter, Stopping};
use gj_json::{Limits, one_refusal};
use gj_rules::{FeatureLinter, FeatureSink, Progress, Verdict};
use std::io::Write;

/// The most bytes of a read.
const PIECE: usize = 16384;

/// Splits the features of a text: it writes each one without a fault as a record of one text sequence (RFC 8142), and
/// each other one as a record of a second. The bytes of a feature stay as they are.
///
/// Of a text that is refused as JSON, it writes the features before the refusal. Where a read or a write fails, no more
/// is written: each record that is counted is whole, and the last of a writer may be cut off.
pub fn split<R: Ranges, V: Write + Drop, B: Write + Drop, L: Write + Drop>(
    source: &R,
    limits: Limits,
    outputs: Outputs<V, B, L>,
) -> Ended<Verdict, V, B, L>
    ensures verdict { IfOk result.outcome (λ verdict. (bytes : List ℕ) → AreKnown R.text (V.contents outputs.valid) (B.contents outputs.broken) bytes →
        IsVerdict limits bytes verdict) }
    ensures apart { OnOk result.outcome ((bytes : List ℕ) (text : Text) → AreKnown R.text (V.contents outputs.valid) (B.contents outputs.broken) bytes →
        IsAdmitted limits text bytes → AreHeld (split_of bytes text) (V.contents result.outputs.valid) (B.contents result.outputs.broken) result.counts) }
    ensures sequence { OnOk result.outcome ((bytes held : List ℕ) (text : Text) → AreKnown R.text (V.contents outputs.valid) (B.contents outputs.broken) bytes →
        IsAdmitted limits text bytes → V.contents result.outputs.valid ≡ Some held → IsValidSequence limits.depth (length (split_of bytes text).valid) held) }
{
    valid_apart();
    one_refusal();
    let mut linter = FeatureLinter::new(limits, Splitter::new(source, outputs));
    match feed_all(source, &mut linter) {
        None => finished(linter),
        Some(stop) => stopped(linter, stop),
    }
}

/// Feeds the text to a linter, up to its end or to a byte that is refused. It returns what stopped it before that.
fn feed_all<R: Ranges, S: FeatureSink + Stopping>(
    source: &R,
    linter: &mut FeatureLinter<S>,
) -> Option<Stop>
    requires { refusal_of linter.old ≡ None }
    ensures limits { limits_of linter.new ≡ limits_of linter.old }
    ensures read { result ≡ None → (bytes : List ℕ) → R.text ≡ Some bytes → StandsFor S.told linter.old [] → IsRead S.told linter.new bytes }
{
    let mut piece = [0; PIECE];
    let mut at = 0u64;
    for _turn in 0..u64::MAX {
        match source.read_at(at, &mut piece) {
            Err(error) => return Some(Stop::Read(error)),
            Ok(0) => return None,
            Ok(count) => {
                match at.checked_add(count as u64) {
                    None => return Some(Stop::Changed),
                    Some(next) => at = next,
                }
                match linter.feed(&piece[..count]) {
                    Progress::Refused(_fault) => return None,
                    Progress::Open => {
                        if linter.sink().has_stopped() {
                            return Some(Stop::Changed);
                        }
                    }
                }
            }
        }
    }
    Some(Stop::Changed)
}

/// Ends a split after the last byte, after the byte that was refused, or after a write that failed.
fn finished<'a, R: Ranges, V: Write + Drop, B: Write + Drop, L: Write + Drop>(
    linter: FeatureLinter<Splitter<'a, R, V, B, L>>,
) -> Ended<Verdict, V, B, L>
    ensures verdict { IfOk result.outcome (λ verdict. (bytes : List ℕ) →
        StandsFor ⟦<Splitter<'a, R, V, B, L> as FeatureSink>⟧.told linter.entry bytes → IsVerdict (limits_of linter.entry) bytes verdict) }
    ensures refused { (fault : JsonFault) → refusal_of linter.entry ≡ Some fault → IfOk result.outcome (λ verdict. verdict ≡ Verdict.NotJson fault) }
    ensures apart { OnOk result.outcome ((bytes : List ℕ) (text : Text) → R.text ≡ Some bytes →
        StandsFor ⟦<Splitter<'a, R, V, B, L> as FeatureSink>⟧.told linter.entry bytes → IsAdmitted (limits_of linter.entry) text bytes →
        AreHeld (split_of bytes text) (V.contents result.outputs.valid) (B.contents result.outputs.broken) result.counts) }
{
    let (verdict, splitter) = linter.finish();
    splitter.end(Ok(verdict))
}

/// Ends a split after a read or a write that failed. A failure of the linter's sink comes first.
fn stopped<'a, R: Ranges, V: Write + Drop, B: Write + Drop, L: Write + Drop>(
    linter: FeatureLinter<Splitter<'a, R, V, B, L>>,
    stop: Stop,
) -> Ended<Verdict, V, B, L>
    ensures { IsErr result.outcome }
{
    let (_, splitter) = linter.finish();
    splitter.end(Err(stop))
}
