//! The records of an input that comes in pieces, each checked separately.
ghost use Rattle.std.specs.Prelude.{◌≡◌, ◌↔◌, ℕ, ◌+◌, ◌<◌, ◌≤◌, ◌++◌, ◌∷◌, [], List, length, take, false, true, not, IsTrue};

mod framing;
mod open_record;
mod record;

use crate::sequence::SeqVerdict;
use crate::verdict::{Verdict, one_verdict};
use framing::run_before;
pub use framing::{Framing, RecordEnd};
use gj_coords::Warnings;
use gj_json::{Cause, JsonFault, Limits};
use open_record::OpenRecord;
pub(crate) use record::NoRecords;
pub use record::{Record, RecordSink};

/// What was taken of a piece.
#[derive(Clone, Copy, Debug, PartialEq, Eq)]
pub struct Taken {
    /// How many of its bytes.
    pub count: usize,
    /// Whether a record was reported, which ended there.
    pub told: bool,
}

/// What an input is as a whole.
#[derive(Clone, Copy, Debug, PartialEq, Eq)]
pub struct Whole {
    pub verdict: SeqVerdict,
    /// Whether a record was reported that the end of the input ends.
    pub told: bool,
}

/// Checks each record of an input that comes in pieces of any size, in the memory of one record's linter, and reports what
/// is found in it as soon as it has ended. A record that is not valid ends at the next separator, as any other does (RFC 7464,
/// section 2.3, on which RFC 8142 rests).
#[derive(Drop)]
pub struct Records {
    pub(crate) record: OpenRecord,
    /// Of the records that were reported.
    whole: SeqVerdict,
    limits: Limits,
    /// That of the open record.
    pub(crate) number: u64,
    framing: Framing,
    /// Whether the open record has no byte so far that counts.
    is_void: bool,
    /// Whether a byte came that is beyond the limit.
    is_over: bool,
    ghost within: { record.end ≤ limits.bytes },
    ghost few: { number ≤ record.end + 1 },
    ghost some_byte: { 1 ≤ limits.bytes },
}

impl Records {
    ghost use Rattle.gj_rules.specs.declared.records.framing.Framing.{Framing};
    ghost use Rattle.gj_rules.specs.declared.records.framing.RecordEnd.{RecordEnd};
    ghost use Rattle.gj_rules.specs.declared.records.record.Record.{Record};
    ghost use Rattle.gj_rules.specs.Internal.BytesBefore.{has_byte};
    ghost use Rattle.gj_rules.specs.Internal.OpenRecord.{StandsFor as RecordStandsFor, refused_in, refused_part};
    ghost use Rattle.gj_rules.specs.Internal.ToldRecords.{TellsOne, Keeps, KeepsAll};
    ghost use Rattle.gj_coords.specs.Internal.KeptWarnings.{no_warnings};
    ghost use Rattle.gj_rules.specs.RecordFindings.{IsOwnVerdict, IsNumberedVerdict, IsWholeVerdict, whole_of};
    ghost use Rattle.gj_rules.specs.Records.{part_at, separator_of, counts};
    ghost use Rattle.gj_rules.specs.RecordsStand.{StandsFor, limits_of, framing_of, HaveTold, HaveToldIf, HaveToldAll, HaveToldAllIf};
    ghost use Rattle.gj_rules.specs.Sequence.{is_valid_sequence};

    /// Before the first byte of an input. The depth is allowed to each record, and the number of bytes to the whole input.
    pub fn new(framing: Framing, limits: Limits) -> Records
        ensures stands { StandsFor result [] [] }
        ensures framing { framing_of result ≡ framing }
        ensures limits { limits_of result ≡ limits }
    {
        let _least = limits.bytes();
        Records {
            record: OpenRecord::new(limits),
            whole: SeqVerdict::Valid {
                records: 0,
                warnings: Warnings::none(),
            },
            limits,
            number: framing.first_number(),
            framing,
            is_void: true,
            is_over: false,
        }
    }

    /// Begins anew, in place: little is written.
    pub fn begin_again(&mut self, framing: Framing, limits: Limits)
        ensures stands { StandsFor self.new [] [] }
        ensures framing { framing_of self.new ≡ framing }
        ensures limits { limits_of self.new ≡ limits }
    {
        let _least = limits.bytes();
        self.record.begin_under(limits);
        self.whole = SeqVerdict::Valid {
            records: 0,
            warnings: Warnings::none(),
        };
        self.limits = limits;
        self.number = framing.first_number();
        self.framing = framing;
        let has_bytes = false;
        self.is_void = !has_bytes;
        self.is_over = has_bytes;
    }

    /// Takes the next bytes of the input, and reports to the sink each record that ends in them. The first byte beyond the limit
    /// ends the open record, which is then too long, and all after that is passed over.
    pub fn feed<S: RecordSink>(&mut self, piece: &[u8], sink: &mut S)
        ensures told { (bytes : List ℕ) (before found : List Record) → StandsFor self.old bytes found → S.told sink.old (before ++ found)
            → HaveTold (S.told sink.new) self.new (bytes ++ piece.now) before found }
        ensures framing { framing_of self.new ≡ framing_of self.old }
        ensures limits { limits_of self.new ≡ limits_of self.old }
    {
        let mut at = 0;
        while at < piece.len() {
            if self.is_over {
                return;
            }
            at += self.take(&piece[at..], sink).count;
        }
    }

    /// Takes the next bytes of the input, up to the end of the next record, which it reports to the sink; where none ends in the
    /// piece, all of it. So one record at the most is reported to the sink.
    pub fn feed_one<S: RecordSink>(&mut self, piece: &[u8], sink: &mut S) -> Taken
        ensures within { result.count ≤ length piece.now }
        ensures all { result.told ≡ false → result.count ≡ length piece.now }
        ensures told { (bytes : List ℕ) (before found : List Record) → StandsFor self.old bytes found → S.told sink.old (before ++ found)
            → HaveToldIf result.told (S.told sink.new) self.new (bytes ++ take result.count piece.now) before found }
        ensures framing { framing_of self.new ≡ framing_of self.old }
        ensures limits { limits_of self.new ≡ limits_of self.old }
    {
        let mut at = 0;
        while at < piece.len() {
            if self.is_over {
                break;
            }
            let taken = self.take(&piece[at..], sink);
            at += taken.count;
            if taken.told {
                return Taken {
                    count: at,
                    told: true,
                };
            }
        }
        Taken {
            count: piece.len(),
            told: false,
        }
    }

    /// Takes the next byte, or the next bytes of the open record.
    pub(crate) fn take<S: RecordSink>(&mut self, rest: &[u8], sink: &mut S) -> Taken
        requires some { 0 < length rest.now }
        requires live { self.old.is_over ≡ false }
        ensures some { 0 < result.count }
        ensures within { result.count ≤ length rest.now }
        ensures one { result.told ≡ true → result.count ≡ 1 }
        ensures told { (bytes : List ℕ) (before found : List Record) → StandsFor self.old bytes found → S.told sink.old (before ++ found)
            → HaveToldIf result.told (S.told sink.new) self.new (bytes ++ take result.count rest.now) before found }
        ensures keeps { Keeps self.old self.new }
    {
        let offset = self.record.end();
        if offset == self.limits.bytes() {
            self.tell_open(RecordEnd::Limit, offset, sink);
            self.is_over = true;
            return Taken {
                count: 1,
                told: true,
            };
        }
        let separator = self.framing.separator();
        if rest[0] == separator {
            let told = self.separate(sink);
            return Taken { count: 1, told };
        }
        let run = run_before(separator, rest, self.limits.bytes() - offset);
        self.take_run(&rest[..run]);
        Taken {
            count: run,
            told: false,
        }
    }

    /// Takes bytes of the open record.
    fn take_run(&mut self, run: &[u8])
        requires some { 0 < length run.now }
        requires room { self.old.record.end + length run.now ≤ self.old.limits.bytes }
        requires plain { has_byte (separator_of self.old.framing) run.now ≡ false }
        requires live { self.old.is_over ≡ false }
        ensures stands { (bytes : List ℕ) (found : List Record) → StandsFor self.old bytes found → StandsFor self.new (bytes ++ run.now) found }
        ensures keeps { Keeps self.old self.new }
    {
        let _most = self.limits.bytes();
        self.is_void = self.framing.stays_void(self.is_void, run);
        self.record.feed(run);
    }

    /// Takes a separator: it ends the open record, where that is one, and returns whether it is.
    fn separate<S: RecordSink>(&mut self, sink: &mut S) -> bool
        requires room { self.old.record.end < self.old.limits.bytes }
        requires live { self.old.is_over ≡ false }
        ensures told { (bytes : List ℕ) (before found : List Record) → StandsFor self.old bytes found → S.told sink.old (before ++ found)
            → HaveToldIf result (S.told sink.new) self.new (bytes ++ separator_of self.old.framing ∷ []) before found }
        ensures keeps { Keeps self.old self.new }
    {
        let _most = self.limits.bytes();
        let next = self.record.end() + 1;
        if self.is_void {
            self.record.begin_again(next);
            self.number = self.number.max(1);
            return false;
        }
        self.tell_parted(next, sink);
        self.number += 1;
        self.is_void = true;
        true
    }

    /// Reports the open record, which a separator ends.
    fn tell_parted<S: RecordSink>(&mut self, next: u64, sink: &mut S)
        requires next { next ≤ self.old.limits.bytes }
        requires on { self.old.record.end ≤ next }
        ensures { TellsOne (S.told sink.old) (S.told sink.new) RecordEnd.Separator next self.old self.new }
    {
        if self.number == 0 {
            self.tell_open(RecordEnd::Separator, next, sink)
        } else if self.record.is_clean_as(self.framing) {
            self.tell_clean(next, sink)
        } else {
            self.tell_open(RecordEnd::Separator, next, sink)
        }
    }

    /// Reports the open record, which is valid and has no warning, as most are. Little is written.
    fn tell_clean<S: RecordSink>(&mut self, next: u64, sink: &mut S)
        requires next { next ≤ self.old.limits.bytes }
        requires on { self.old.record.end ≤ next }
        requires numbered { 0 < self.old.number }
        requires clean { (given : List ℕ) → RecordStandsFor self.old.record given
            → IsOwnVerdict self.old.framing self.old.record.limits.depth (part_at self.old.record.start given RecordEnd.Separator) (Verdict.Valid no_warnings) }
        ensures { TellsOne (S.told sink.old) (S.told sink.new) RecordEnd.Separator next self.old self.new }
    {
        let _most = self.limits.bytes();
        let found = Record {
            number: self.number,
            place: self.record.start(),
            end: self.record.end(),
            verdict: Verdict::Valid(Warnings::none()),
        };
        self.record.begin_again(next);
        self.whole.count(self.number);
        sink.tell_record(&found);
    }

    /// Reports the open record. The next one, which has no byte yet, begins at the place.
    fn tell_open<S: RecordSink>(&mut self, ending: RecordEnd, next: u64, sink: &mut S)
        requires next { next ≤ self.old.limits.bytes }
        requires on { self.old.record.end ≤ next }
        ensures { TellsOne (S.told sink.old) (S.told sink.new) ending next self.old self.new }
    {
        let _most = self.limits.bytes();
        let number = self.number;
        let place = self.record.start();
        let end_place = self.record.end();
        let verdict = self.close(ending, next);
        let found = Record {
            number,
            place,
            end: end_place,
            verdict,
        };
        self.whole = self.whole.after(&found);
        sink.tell_record(&found);
    }

    /// What the open record is. No text is allowed before the first separator of a sequence.
    fn close(&mut self, ending: RecordEnd, next: u64) -> Verdict
        requires next { next ≤ self.old.limits.bytes }
        requires on { self.old.record.end ≤ next }
        ensures verdict { (given : List ℕ) → RecordStandsFor self.old.record given
            → IsNumberedVerdict self.old.framing self.old.record.limits.depth self.old.number (part_at self.old.record.start given ending) result }
        ensures stands { RecordStandsFor self.new.record [] }
        ensures start { self.new.record.start ≡ next }
        ensures end { self.new.record.end ≡ next }
        ensures limits { self.new.record.limits ≡ self.old.record.limits }
        ensures rest { KeepsAll self.old self.new }
        ensures whole { self.new.whole ≡ self.old.whole }
    {
        let _most = self.limits.bytes();
        if self.number > 0 {
            return self.record.close_as(self.framing, ending, next);
        }
        let place = self.record.start();
        self.record.begin_again(next);
        Verdict::NotJson(JsonFault {
            place,
            cause: Cause::Syntax,
        })
    }

    /// Reports the last record, and returns what the input is as a whole: all its records are valid, with the warnings of all, or
    /// one is the first that is not.
    pub fn finish<S: RecordSink>(mut self, sink: &mut S) -> SeqVerdict
        ensures told { (bytes : List ℕ) (before found : List Record) → StandsFor self bytes found → S.told sink.old (before ++ found)
            → HaveToldAll (S.told sink.new) (framing_of self) (limits_of self) bytes before found result }
    {
        self.end(sink).verdict
    }

    /// As `finish`, in place. What they stand for afterwards is not said.
    #[inline(never)]
    pub fn end<S: RecordSink>(&mut self, sink: &mut S) -> Whole
        ensures told { (bytes : List ℕ) (before found : List Record) → StandsFor self.old bytes found → S.told sink.old (before ++ found)
            → HaveToldAllIf result.told (S.told sink.new) (framing_of self.old) (limits_of self.old) bytes before found result.verdict }
    {
        if self.counts_at_end() {
            let next = self.record.end();
            self.tell_open(RecordEnd::Input, next, sink);
            return Whole {
                verdict: self.whole,
                told: true,
            };
        }
        Whole {
            verdict: self.whole,
            told: false,
        }
    }

    /// Whether the open record counts where the input ends: a separator of a sequence begins a record, even if no byte follows.
    fn counts_at_end(&self) -> bool
        ensures over { self.now.is_over ≡ true → result ≡ false }
        ensures live { self.now.is_over ≡ false → result ≡ counts self.now.framing self.now.number RecordEnd.Input self.now.is_void }
    {
        if self.is_over {
            return false;
        }
        match self.framing {
            Framing::Sequence => !self.is_void || self.number > 0,
            Framing::Lines => !self.is_void,
        }
    }

    /// The place of the byte of the open record that is refused, once there was one. Before the first separator of a sequence that
    /// is any byte.
    #[inline]
    pub(crate) fn refused_at(&self) -> Option<u64>
        ensures { result ≡ refused_part self.now.number self.now.is_void (refused_in self.now.record) }
    {
        if self.number == 0 && !self.is_void {
            return Some(0);
        }
        self.record.refused_at()
    }

    /// How many bytes were taken, of those that are allowed.
    pub fn offset(&self) -> u64
        ensures { (bytes : List ℕ) (found : List Record) → StandsFor self.now bytes found → result ≡ length (take (limits_of self.now).bytes bytes) }
    {
        self.record.end()
    }

    /// Whether a byte came that is beyond the limit: no further one matters.
    pub fn is_over(&self) -> bool
        ensures beyond { (bytes : List ℕ) (found : List Record) → StandsFor self.now bytes found → IsTrue result ↔ ((limits_of self.now).bytes < length bytes) }
        ensures lasting { (bytes more : List ℕ) (found : List Record) → StandsFor self.now bytes found → IsTrue result
            → StandsFor self.now (bytes ++ more) found }
    {
        self.is_over
    }

    /// Whether a record that was reported is not valid, as the one that the limit cuts off: what the input is as a whole is known
    /// then, whatever follows.
    pub fn is_decided(&self) -> bool
        ensures lasting { (bytes more : List ℕ) (found : List Record) → StandsFor self.now bytes found → IsTrue result
            → IsWholeVerdict (framing_of self.now) (limits_of self.now) (bytes ++ more) (whole_of found) }
        ensures valid { (bytes : List ℕ) (found : List Record) → StandsFor self.now bytes found → is_valid_sequence (whole_of found) ≡ not result }
        ensures within { (bytes : List ℕ) (found : List Record) → StandsFor self.now bytes found → result ≡ false → length bytes ≤ (limits_of self.now).bytes }
        ensures live { result ≡ false → self.now.is_over ≡ false }
    {
        one_verdict();
        match self.whole {
            SeqVerdict::Record { .. } => true,
            SeqVerdict::Valid { .. } => self.is_over,
        }
    }
}
