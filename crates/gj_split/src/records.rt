//! Reads an input once, and splits its records as they end.
ghost use Rattle.std.specs.Prelude.{◌≡◌, ◌↔◌, ℕ, ◌<◌, List, [], length, Some, None, IfOk, OnOk, IsTrue};
ghost use Rattle.gj_rules.specs.declared.records.record.Record.{Record};
ghost use Rattle.gj_rules.specs.RecordFindings.{AreAllFindings, IsWholeVerdict};
ghost use Rattle.gj_rules.specs.RecordsStand.{StandsFor, framing_of, limits_of};
ghost use Rattle.gj_split.specs.Holding.{AreHeld, AreKnown};
ghost use Rattle.gj_split.specs.Internal.HeldOfRecords.{AreRead};
ghost use Rattle.gj_split.specs.RecordSplit.{split_records};
ghost use Rattle.gj_split.specs.Split.{IsValidSequence};

use crate::laws::valid_records_apart;
use crate::ranges::{Ranges, Stop};
use crate::splitter::{Ended, Outputs, Splitter, Stopping};
use gj_json::Limits;
use gj_rules::record_laws::one_finding;
use gj_rules::{Framing, RecordSink, Records, SeqVerdict};
use std::io::Write;

/// The most bytes of a read.
const PIECE: usize = 16384;

/// What an input is whose records were split.
#[derive(Clone, Copy)]
pub struct Input {
    /// All its records are valid, or this is the first that is not.
    pub verdict: SeqVerdict,
    /// Whether it is longer than allowed. Its records are then those of the bytes that are allowed.
    pub is_cut: bool,
}

/// Splits the records of an input: it writes each valid one as a record of one text sequence (RFC 8142), and each other one
/// as a record of a second. The bytes of a text stay as they are, between RS and LF.
///
/// Where a read or a write fails, no more is written: each record that is counted is whole, and the last of a writer may be
/// cut off.
pub fn split_records<R: Ranges, V: Write + Drop, B: Write + Drop, L: Write + Drop>(
    source: &R,
    framing: Framing,
    limits: Limits,
    outputs: Outputs<V, B, L>,
) -> Ended<Input, V, B, L>
    ensures verdict { IfOk result.outcome (λ input. (bytes : List ℕ) → AreKnown R.text (V.contents outputs.valid) (B.contents outputs.broken) bytes →
        IsWholeVerdict framing limits bytes input.verdict) }
    ensures cut { IfOk result.outcome (λ input. (bytes : List ℕ) → AreKnown R.text (V.contents outputs.valid) (B.contents outputs.broken) bytes →
        IsTrue input.is_cut ↔ (limits.bytes < length bytes)) }
    ensures apart { OnOk result.outcome ((bytes : List ℕ) (found : List Record) → AreKnown R.text (V.contents outputs.valid) (B.contents outputs.broken) bytes →
        AreAllFindings framing limits bytes found
        → AreHeld (split_records bytes found) (V.contents result.outputs.valid) (B.contents result.outputs.broken) result.counts) }
    ensures sequence { OnOk result.outcome ((bytes held : List ℕ) (found : List Record)
        → AreKnown R.text (V.contents outputs.valid) (B.contents outputs.broken) bytes → AreAllFindings framing limits bytes found
        → V.contents result.outputs.valid ≡ Some held → IsValidSequence limits.depth (length (split_records bytes found).valid) held) }
{
    valid_records_apart();
    let mut records = Records::new(framing, limits);
    let mut splitter = Splitter::of_records(source, outputs);
    match feed_records(source, &mut records, &mut splitter) {
        None => finished_records(records, splitter),
        Some(stop) => splitter.end(Err(stop)),
    }
}

/// Feeds an input to its records, up to its end or to a byte beyond the limit. It returns what stopped it before that.
fn feed_records<R: Ranges, S: RecordSink + Stopping>(
    source: &R,
    records: &mut Records,
    sink: &mut S,
) -> Option<Stop>
    ensures framing { framing_of records.new ≡ framing_of records.old }
    ensures limits { limits_of records.new ≡ limits_of records.old }
    ensures read { result ≡ None → (bytes : List ℕ) → R.text ≡ Some bytes → StandsFor records.old [] [] → S.told sink.old []
        → AreRead (S.told sink.new) records.new bytes }
{
    let mut piece = [0; PIECE];
    let mut at = 0u64;
    for _turn in 0..u64::MAX {
        match source.read_at(at, &mut piece) {
            Err(error) => return Some(Stop::Read(error)),
            Ok(0) => return None,
            Ok(count) => {
                match at.checked_add(count as u64) {
                    None => return Some(Stop::Changed),
                    Some(next) => at = next,
                }
                records.feed(&piece[..count], sink);
                if sink.has_stopped() {
                    return Some(Stop::Changed);
                }
                if records.is_over() {
                    return None;
                }
            }
        }
    }
    Some(Stop::Changed)
}

/// Ends a split after the last byte, or after one beyond the limit.
fn finished_records<'a, R: Ranges, V: Write + Drop, B: Write + Drop, L: Write + Drop>(
    records: Records,
    splitter: Splitter<'a, R, V, B, L>,
) -> Ended<Input, V, B, L>
    ensures verdict { IfOk result.outcome (λ input. (bytes : List ℕ) →
        AreRead (⟦<Splitter<'a, R, V, B, L> as RecordSink>⟧.told splitter.entry) records bytes
        → IsWholeVerdict (framing_of records) (limits_of records) bytes input.verdict) }
    ensures cut { IfOk result.outcome (λ input. (bytes : List ℕ) →
        AreRead (⟦<Splitter<'a, R, V, B, L> as RecordSink>⟧.told splitter.entry) records bytes
        → IsTrue input.is_cut ↔ ((limits_of records).bytes < length bytes)) }
    ensures apart { OnOk result.outcome ((bytes : List ℕ) (found : List Record) → R.text ≡ Some bytes →
        AreRead (⟦<Splitter<'a, R, V, B, L> as RecordSink>⟧.told splitter.entry) records bytes
        → AreAllFindings (framing_of records) (limits_of records) bytes found
        → AreHeld (split_records bytes found) (V.contents result.outputs.valid) (B.contents result.outputs.broken) result.counts) }
{
    one_finding();
    let mut told = splitter;
    let is_cut = records.is_over();
    let verdict = records.finish(&mut told);
    told.end(Ok(Input { verdict, is_cut }))
}
