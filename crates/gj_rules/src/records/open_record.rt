//! The record of an input that is open.
ghost use Rattle.std.specs.Prelude.{◌≡◌, ℕ, ◌+◌, ◌<◌, ◌≤◌, ◌^◌, ◌++◌, [], List, length, None, IsTrue};
ghost use Rattle.gj_rules.specs.Linter.{StandsFor as LinterStandsFor};

use super::framing::{Framing, LINE_FEED, RECORD_SEPARATOR, RecordEnd};
use crate::laws::places_within;
use crate::linter::Linter;
use crate::sequence::verdict::{ended_as, shifted};
use crate::verdict::Verdict;
use gj_json::{Limits, bytes_taken};

/// The most bytes of a record: no record reaches it.
const MOST_BYTES: u64 = 1 << 60;

/// What a record is read under.
fn record_limits(limits: Limits) -> Limits
    ensures { result ≡ record { depth = limits.depth; bytes = 2 ^ 60 } }
{
    match Limits::new(limits.depth(), MOST_BYTES) {
        Some(limits) => limits,
        None => limits,
    }
}

/// The bytes of a record so far, and where they stand in the input.
#[derive(Drop)]
pub struct OpenRecord {
    linter: Linter,
    /// What a record is read under: its length is not limited.
    limits: Limits,
    /// The place of its first byte.
    start: u64,
    /// The place after its last byte.
    end: u64,
    /// Its last byte, or RS where it has none.
    last: u8,
    ghost wide: { limits.bytes ≡ 2 ^ 60 },
    ghost within: { end ≤ 2 ^ 60 },
    ghost fed: { ∥ ((bytes : List ℕ) × LinterStandsFor linter bytes × (start + length bytes ≡ end)) ∥₁ },
}

impl OpenRecord {
    ghost use Rattle.gj_json.specs.Open.{open_at};
    ghost use Rattle.gj_json.specs.Text.{IsText, IsTextWithin};
    ghost use Rattle.gj_json.specs.Tree.{Text};
    ghost use Rattle.gj_rules.specs.Judged.{judged_at};
    ghost use Rattle.gj_rules.specs.Linter.{refusal_of};
    ghost use Rattle.gj_rules.specs.Internal.OpenRecord.{StandsFor, refused_in};
    ghost use Rattle.gj_coords.specs.Internal.KeptWarnings.{no_warnings};
    ghost use Rattle.gj_rules.specs.declared.records.framing.RecordEnd.{RecordEnd};
    ghost use Rattle.gj_rules.specs.RecordFindings.{IsOwnVerdict};

    /// A record without a byte, at the start of an input under these limits.
    pub fn new(limits: Limits) -> OpenRecord
        ensures stands { StandsFor result [] }
        ensures limits { result.limits ≡ record { depth = limits.depth; bytes = 2 ^ 60 } }
        ensures start { result.start ≡ 0 }
        ensures end { result.end ≡ 0 }
    {
        let limits = record_limits(limits);
        OpenRecord {
            linter: Linter::new(limits),
            limits,
            start: 0,
            end: 0,
            last: RECORD_SEPARATOR,
        }
    }

    /// The place of its first byte.
    #[inline]
    pub fn start(&self) -> u64
        ensures { result ≡ self.now.start }
    {
        self.start
    }

    /// The place after its last byte: how many bytes of the input were taken.
    #[inline]
    pub fn end(&self) -> u64
        ensures value { result ≡ self.now.end }
        ensures small { result ≤ 2 ^ 60 }
    {
        self.end
    }

    /// Takes its next bytes, none of which is a separator.
    pub fn feed(&mut self, run: &[u8])
        requires some { 0 < length run.now }
        requires room { self.old.end + length run.now ≤ 2 ^ 60 }
        ensures stands { (bytes : List ℕ) → StandsFor self.old bytes → StandsFor self.new (bytes ++ run.now) }
        ensures start { self.new.start ≡ self.old.start }
        ensures end { self.new.end ≡ self.old.end + length run.now }
        ensures limits { self.new.limits ≡ self.old.limits }
    {
        self.linter.feed(run);
        self.end += run.len() as u64;
        self.last = run[run.len() - 1];
    }

    /// The place of its byte that is refused, once there was one.
    #[inline]
    pub fn refused_at(&self) -> Option<u64>
        ensures { result ≡ refused_in self.now }
    {
        match self.linter.refusal() {
            Some(fault) => Some(self.start + fault.place),
            None => None,
        }
    }

    /// Answers its verdict as a record that is framed so and ends so, with all places from the start of the input. The next
    /// record, which has no byte yet, begins at the place.
    pub fn close_as(&mut self, framing: Framing, ending: RecordEnd, next: u64) -> Verdict
        requires { next ≤ 2 ^ 60 }
        ensures verdict { (bytes : List ℕ) → StandsFor self.old bytes →
            IsOwnVerdict framing self.old.limits.depth (record { start = self.old.start; bytes = bytes; end = ending }) result }
        ensures stands { StandsFor self.new [] }
        ensures start { self.new.start ≡ next }
        ensures end { self.new.end ≡ next }
        ensures limits { self.new.limits ≡ self.old.limits }
    {
        places_within();
        let verdict = self.linter.finish_and_begin(self.limits);
        let ended = self.last == LINE_FEED;
        let own = ended_as(verdict, framing, ending, ended, self.end - self.start);
        let verdict = shifted(own, self.start);
        self.start = next;
        self.end = next;
        self.last = RECORD_SEPARATOR;
        verdict
    }

    /// Whether it is valid and has no warning, as most are, as a record that is framed so, where a separator ends it.
    #[inline]
    pub fn is_clean_as(&self, framing: Framing) -> bool
        ensures { (bytes : List ℕ) → StandsFor self.now bytes → IsTrue result →
            IsOwnVerdict framing self.now.limits.depth
            (record { start = self.now.start; bytes = bytes; end = RecordEnd.Separator })
            (Verdict.Valid no_warnings) }
    {
        match framing {
            Framing::Sequence => self.last == LINE_FEED && self.linter.is_clean(),
            Framing::Lines => self.linter.is_clean(),
        }
    }

    /// Begins the next record at the place, without a byte yet. Little is written.
    pub fn begin_again(&mut self, next: u64)
        requires { next ≤ 2 ^ 60 }
        ensures stands { StandsFor self.new [] }
        ensures start { self.new.start ≡ next }
        ensures end { self.new.end ≡ next }
        ensures limits { self.new.limits ≡ self.old.limits }
    {
        self.linter.begin_again(self.limits);
        self.start = next;
        self.end = next;
        self.last = RECORD_SEPARATOR; // It has no byte.
    }

    /// Begins anew at the start of an input under these limits, in place.
    pub fn begin_under(&mut self, limits: Limits)
        ensures stands { StandsFor self.new [] }
        ensures limits { self.new.limits ≡ record { depth = limits.depth; bytes = 2 ^ 60 } }
        ensures start { self.new.start ≡ 0 }
        ensures end { self.new.end ≡ 0 }
    {
        self.limits = record_limits(limits);
        self.begin_again(0);
    }

    /// How many arrays and objects are open in it.
    pub fn levels(&self) -> u16
        ensures { (bytes rest : List ℕ) (text : Text) → StandsFor self.now bytes → refusal_of self.now.linter ≡ None → IsText text (bytes ++ rest) →
            result ≡ open_at (length bytes) text }
    {
        bytes_taken();
        self.linter.levels()
    }

    /// How many of the open objects have a role by their position.
    pub fn judged(&self) -> u16
        ensures { (bytes rest : List ℕ) (text : Text) → StandsFor self.now bytes → refusal_of self.now.linter ≡ None
            → IsTextWithin self.now.limits.depth text (bytes ++ rest) →
            result ≡ judged_at (length bytes) text }
    {
        bytes_taken();
        self.linter.judged()
    }
}
