//! Writes each feature, or each record of an input, that a linter reports.
ghost use Rattle.std.specs.Prelude.{◌≡◌, ℕ, List, [], ◌∷◌, Some, OnOk, IfOk, is_some};
ghost use Rattle.std.specs.Io.KnownBytes.{Appends, Keeps};
ghost use Rattle.gj_split.specs.Internal.HeldRecords.{WritesRecord};
ghost use Rattle.gj_split.specs.Internal.ToldFeatures.{told_end, EndsKnown};
ghost use Rattle.gj_split.specs.Lines.{feature_line, record_line};
ghost use Rattle.gj_split.specs.RecordSplit.{found_text};
ghost use Rattle.gj_split.specs.Split.{bytes_between, record_of};

use crate::copy::copy_between;
use crate::lines::{put_feature, put_record};
use crate::ranges::{Ranges, Stop};
use crate::scan::{end_of_value, expect_flat};
use gj_rules::{Feature, FeatureSink, Record, RecordSink, Verdict};
use std::io::{self, Write};

/// The byte before a record (RFC 8142, section 2): RS.
const SEPARATOR: u8 = 0x1E;

/// The number of records that were written.
#[derive(Clone, Copy, Debug, Default, PartialEq, Eq)]
pub struct Counts {
    pub valid: u64,
    pub broken: u64,
}

/// The writers of the records.
#[derive(Drop)]
pub struct Outputs<V, B, L> {
    /// Each feature without a fault, or each valid record.
    pub valid: V,
    /// Each other one.
    pub broken: B,
    /// A line for each of these.
    pub list: L,
}

/// The result of a split.
#[derive(Drop)]
pub struct Ended<T, V, B, L> {
    /// What the text or the input is, or why it was not read to its end.
    pub outcome: Result<T, Stop>,
    pub counts: Counts,
    pub outputs: Outputs<V, B, L>,
}

/// A sink that can stop before the text has ended.
pub trait Stopping {
    fn has_stopped(&self) -> bool;
}

/// Writes each reported feature or record to its writer, until a read or a write fails.
#[derive(Drop)]
pub struct Splitter<'a, R, V, B, L> {
    source: &'a R,
    outputs: Outputs<V, B, L>,
    counts: Counts,
    stop: Option<Stop>,
}

impl<'a, R: Ranges, V: Write, B: Write, L: Write> Splitter<'a, R, V, B, L> {
    ghost use Rattle.std.specs.Prelude.{◌≡◌, OnOk, IfOk, Ok, ◌++◌, ◌∷◌, List, ℕ, [], None};
    ghost use Rattle.gj_rules.specs.declared.feature.Feature.{Feature};
    ghost use Rattle.gj_rules.specs.declared.records.record.Record.{Record};
    ghost use Rattle.gj_split.specs.Holding.{AreKnown};
    ghost use Rattle.gj_split.specs.Internal.HeldRecords.{Holds};
    ghost use Rattle.gj_split.specs.Internal.HeldOfRecords.{HoldsRecords};

    /// A splitter before the first feature.
    pub fn new(source: &'a R, outputs: Outputs<V, B, L>) -> Self
        ensures held { (bytes : List ℕ) → AreKnown R.text (V.contents outputs.valid) (B.contents outputs.broken) bytes →
            ⟦<Splitter<'a, R, V, B, L> as FeatureSink>⟧.told result [] }
    {
        Splitter {
            source,
            outputs,
            counts: Counts::default(),
            stop: None,
        }
    }

    /// A splitter before the first record.
    pub fn of_records(source: &'a R, outputs: Outputs<V, B, L>) -> Self
        ensures held { (bytes : List ℕ) → AreKnown R.text (V.contents outputs.valid) (B.contents outputs.broken) bytes →
            ⟦<Splitter<'a, R, V, B, L> as RecordSink>⟧.told result [] }
    {
        Splitter {
            source,
            outputs,
            counts: Counts::default(),
            stop: None,
        }
    }

    /// Ends the split, given what the text or the input is, or why it was not read to its end.
    pub fn end<T: Drop>(mut self, outcome: Result<T, Stop>) -> Ended<T, V, B, L>
        ensures outcome { IfOk result.outcome (λ given. (self.entry.stop ≡ None) × (outcome ≡ Ok given)) }
        ensures held { OnOk result.outcome ((Keeps (V.contents self.entry.outputs.valid) (V.contents result.outputs.valid))
            × (Keeps (B.contents self.entry.outputs.broken) (B.contents result.outputs.broken)) × (result.counts ≡ self.entry.counts)) }
    {
        let outcome = match self.stop.take() {
            Some(stop) => Err(stop),
            None => outcome,
        };
        let outcome = match outcome {
            Ok(given) => match self.flush() {
                Ok(()) => Ok(given),
                Err(error) => Err(Stop::Write(error)),
            },
            Err(stop) => Err(stop),
        };
        Ended {
            outcome,
            counts: self.counts,
            outputs: self.outputs,
        }
    }

    /// Flushes the writers.
    fn flush(&mut self) -> io::Result<()>
        ensures valid { Keeps (V.contents self.old.outputs.valid) (V.contents self.new.outputs.valid) }
        ensures broken { Keeps (B.contents self.old.outputs.broken) (B.contents self.new.outputs.broken) }
        ensures counts { self.new.counts ≡ self.old.counts }
        ensures stop { self.new.stop ≡ self.old.stop }
    {
        self.outputs.valid.flush()?;
        self.outputs.broken.flush()?;
        self.outputs.list.flush()
    }

    /// Writes a feature, and counts it once it is written.
    fn put(&mut self, feature: &Feature) -> Result<(), Stop>
        ensures stop { self.new.stop ≡ self.old.stop }
        ensures held { OnOk result ((features : List Feature) → self.old.stop ≡ None →
            Holds R.text self.old.stop (V.contents self.old.outputs.valid) (B.contents self.old.outputs.broken) self.old.counts features →
            Holds R.text self.new.stop (V.contents self.new.outputs.valid) (B.contents self.new.outputs.broken)
            self.new.counts (features ++ feature.now ∷ [])) }
        ensures listed { OnOk result (Appends (L.contents self.old.outputs.list) (L.contents self.new.outputs.list) (feature_line feature.now)) }
    {
        match feature.fault {
            None => {
                write_record(self.source, feature, &mut self.outputs.valid)?;
                self.counts.valid = self.counts.valid.saturating_add(1);
                Ok(())
            }
            Some(_) => {
                write_record(self.source, feature, &mut self.outputs.broken)?;
                self.counts.broken = self.counts.broken.saturating_add(1);
                match put_feature(feature, &mut self.outputs.list) {
                    Ok(()) => Ok(()),
                    Err(error) => Err(Stop::Write(error)),
                }
            }
        }
    }

    /// Writes a record, and counts it once it is written.
    fn put_record(&mut self, found: &Record) -> Result<(), Stop>
        ensures stop { self.new.stop ≡ self.old.stop }
        ensures held { OnOk result ((records : List Record) → self.old.stop ≡ None →
            HoldsRecords R.text self.old.stop (V.contents self.old.outputs.valid) (B.contents self.old.outputs.broken) self.old.counts records →
            HoldsRecords R.text self.new.stop (V.contents self.new.outputs.valid) (B.contents self.new.outputs.broken)
            self.new.counts (records ++ found.now ∷ [])) }
        ensures listed { OnOk result (Appends (L.contents self.old.outputs.list) (L.contents self.new.outputs.list) (record_line found.now)) }
    {
        match found.verdict {
            Verdict::Valid(_) => {
                write_found(self.source, found, &mut self.outputs.valid)?;
                self.counts.valid = self.counts.valid.saturating_add(1);
                Ok(())
            }
            _ => {
                write_found(self.source, found, &mut self.outputs.broken)?;
                self.counts.broken = self.counts.broken.saturating_add(1);
                match put_record(found, &mut self.outputs.list) {
                    Ok(()) => Ok(()),
                    Err(error) => Err(Stop::Write(error)),
                }
            }
        }
    }
}

impl<'a, R: Ranges, V: Write, B: Write, L: Write> FeatureSink for Splitter<'a, R, V, B, L> {
    ghost use Rattle.gj_split.specs.Internal.HeldRecords.{Holds};

    ghost told = { λ s features. Holds R.text s.stop (V.contents s.outputs.valid) (B.contents s.outputs.broken) s.counts features };

    fn tell_feature(&mut self, feature: &Feature) {
        if self.stop.is_none() {
            if let Err(stop) = self.put(feature) {
                self.stop = Some(stop);
            }
        }
    }
}

impl<'a, R: Ranges, V: Write, B: Write, L: Write> RecordSink for Splitter<'a, R, V, B, L> {
    ghost use Rattle.gj_split.specs.Internal.HeldOfRecords.{HoldsRecords};

    ghost told = { λ s records. HoldsRecords R.text s.stop (V.contents s.outputs.valid) (B.contents s.outputs.broken) s.counts records };

    fn tell_record(&mut self, found: &Record) {
        if self.stop.is_none() {
            if let Err(stop) = self.put_record(found) {
                self.stop = Some(stop);
            }
        }
    }
}

impl<'a, R, V, B, L> Stopping for Splitter<'a, R, V, B, L> {
    /// Whether a read or a write has failed.
    fn has_stopped(&self) -> bool
        ensures { result ≡ is_some self.now.stop }
    {
        self.stop.is_some()
    }
}

/// Writes the bytes of a feature as a record: RS, the text, LF.
fn write_record<R: Ranges, W: Write>(source: &R, feature: &Feature, out: &mut W) -> Result<(), Stop>
    ensures { OnOk result ((bytes : List ℕ) → R.text ≡ Some bytes → WritesRecord bytes feature.now (W.contents out.old) (W.contents out.new)) }
{
    let end = end_of(source, feature)?;
    write_byte(out, SEPARATOR)?;
    copy_between(source, feature.place, end, out)?;
    write_byte(out, b'\n')
}

/// Writes the text of a record of an input as a record: RS, the text, LF.
fn write_found<R: Ranges, W: Write>(source: &R, found: &Record, out: &mut W) -> Result<(), Stop>
    ensures { OnOk result ((bytes : List ℕ) → R.text ≡ Some bytes
        → Appends (W.contents out.old) (W.contents out.new) (record_of (found_text bytes found.now))) }
{
    let end = end_of_text(source, found)?;
    write_byte(out, SEPARATOR)?;
    copy_between(source, found.place, end, out)?;
    write_byte(out, b'\n')
}

/// The byte offset after the text of a record: the LF that ends it is no byte of the text.
fn end_of_text<R: Ranges>(source: &R, found: &Record) -> Result<u64, Stop>
    ensures { IfOk result (λ end. (bytes : List ℕ) → R.text ≡ Some bytes → bytes_between found.now.place end bytes ≡ found_text bytes found.now) }
{
    if found.end <= found.place {
        return Ok(found.end);
    }
    let last = found.end - 1;
    let mut byte = [0; 1];
    match source.read_at(last, &mut byte) {
        Err(error) => Err(Stop::Read(error)),
        Ok(0) => Err(Stop::Changed),
        Ok(_count) => {
            if byte[0] == b'\n' {
                Ok(last)
            } else {
                Ok(found.end)
            }
        }
    }
}

/// The byte offset after the last byte of a feature.
fn end_of<R: Ranges>(source: &R, feature: &Feature) -> Result<u64, Stop>
    ensures end { IfOk result (λ end. (bytes : List ℕ) → R.text ≡ Some bytes → end ≡ told_end bytes feature.now) }
    ensures known { OnOk result ((bytes : List ℕ) → R.text ≡ Some bytes → EndsKnown bytes feature.now) }
{
    match feature.close {
        Some(close) => match close.checked_add(1) {
            Some(end) => Ok(end),
            None => Err(Stop::Changed),
        },
        None => {
            expect_flat(source, feature.place)?;
            end_of_value(source, feature.place)
        }
    }
}

fn write_byte<W: Write>(out: &mut W, byte: u8) -> Result<(), Stop>
    ensures { OnOk result (Appends (W.contents out.old) (W.contents out.new) (byte ∷ [])) }
{
    match out.write_all(&[byte]) {
        Ok(()) => Ok(()),
        Err(error) => Err(Stop::Write(error)),
    }
}
