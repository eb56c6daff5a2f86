//! A text sequence that comes in pieces, checked record by record up to the first that is not valid (RFC 8142).
ghost use Rattle.std.specs.Prelude.{◌≡◌, ℕ, ◌<◌, ◌≤◌, ◌++◌, ◌∷◌, [], List, length, take, None, false, true, not, ◌||◌, is_some};
ghost use Rattle.gj_rules.specs.declared.records.framing.Framing.{Framing};

pub(crate) mod verdict;

use crate::records::{Framing, NoRecords, Records};
use crate::verdict::one_verdict;
use gj_json::Limits;
pub use verdict::{SeqVerdict, one_sequence_verdict};

/// What a piece of a sequence shows.
#[derive(Clone, Copy, Debug, PartialEq, Eq)]
pub enum SeqProgress {
    /// No byte so far decides that a record is not valid.
    Open,
    /// A byte decided that a record is not valid, and so is every sequence that begins so.
    Decided,
}

/// Checks a text sequence that comes in pieces of any size, in the memory of one record's linter.
#[derive(Drop)]
pub struct Sequence {
    records: Records,
    /// The place of the byte that decided, once there was one: nothing after it is taken.
    decided: Option<u64>,
    ghost framing: { records.framing ≡ Framing.Sequence },
    ghost live: { (is_some decided || not records.is_over) ≡ true },
}

impl Sequence {
    ghost use Rattle.gj_json.specs.Open.{open_at};
    ghost use Rattle.gj_json.specs.Text.{IsText, IsTextWithin};
    ghost use Rattle.gj_json.specs.Tree.{Text};
    ghost use Rattle.gj_rules.specs.Judged.{judged_at};
    ghost use Rattle.gj_rules.specs.Sequence.{SequenceRecord, IsSequenceVerdict, IsDecidedAt, records_of};
    ghost use Rattle.gj_rules.specs.SequenceStands.{StandsFor, limits_of, is_decided, says_decided, Answers};

    /// Before the first byte of a sequence. The depth is allowed to each record, and the number of bytes to
    /// the whole input.
    pub fn new(limits: Limits) -> Sequence
        ensures stands { StandsFor result [] }
        ensures limits { limits_of result ≡ limits }
    {
        one_verdict();
        Sequence {
            records: Records::new(Framing::Sequence, limits),
            decided: None,
        }
    }

    /// Takes the next bytes of the input, up to one that decides that a record is not valid. From then on
    /// each call returns the same and changes nothing.
    pub fn feed(&mut self, piece: &[u8]) -> SeqProgress
        ensures stands { (bytes : List ℕ) → StandsFor self.old bytes → StandsFor self.new (bytes ++ piece.now) }
        ensures answer { (bytes : List ℕ) → StandsFor self.old bytes → Answers (limits_of self.old) (bytes ++ piece.now) result }
        ensures limits { limits_of self.new ≡ limits_of self.old }
        ensures decided { is_decided self.new ≡ says_decided result }
        ensures again { is_decided self.old ≡ true → (self.new ≡ self.old) × (result ≡ SeqProgress.Decided) }
    {
        let mut at = 0;
        while at < piece.len() {
            if self.decided.is_some() {
                return SeqProgress::Decided;
            }
            at += self.take(&piece[at..]);
        }
        match self.decided {
            None => SeqProgress::Open,
            Some(_) => SeqProgress::Decided,
        }
    }

    /// Takes the next byte, or the next bytes of the open record; returns how many.
    fn take(&mut self, rest: &[u8]) -> usize
        requires some { 0 < length rest.now }
        requires live { self.old.decided ≡ None }
        ensures some { 0 < result }
        ensures within { result ≤ length rest.now }
        ensures stands { (bytes : List ℕ) → StandsFor self.old bytes → StandsFor self.new (bytes ++ take result rest.now) }
        ensures limits { limits_of self.new ≡ limits_of self.old }
    {
        one_verdict();
        let place = self.records.offset();
        let taken = self.records.take(rest, &mut NoRecords);
        if self.records.is_decided() {
            self.decided = Some(place);
            return taken.count;
        }
        self.decided = self.records.refused_at();
        taken.count
    }

    /// The verdict of the input that was fed, however it came in pieces.
    // Not in line: it has room for a record more, which its caller should not have.
    #[inline(never)]
    pub fn finish(mut self) -> SeqVerdict
        ensures { (bytes : List ℕ) → StandsFor self bytes → IsSequenceVerdict (limits_of self) bytes result }
    {
        one_sequence_verdict();
        self.records.end(&mut NoRecords).verdict
    }

    /// How many bytes were taken: the place of the byte that decided, once there was one.
    pub fn offset(&self) -> u64
        ensures taken { (bytes : List ℕ) → StandsFor self.now bytes → is_decided self.now ≡ false → result ≡ length bytes }
        ensures decided { (bytes : List ℕ) → StandsFor self.now bytes → is_decided self.now ≡ true → IsDecidedAt (limits_of self.now) bytes result }
    {
        self.decided.unwrap_or(self.records.offset())
    }

    /// How many arrays and objects are open in the open record; none before the first record.
    pub fn levels(&self) -> u16
        ensures none { (bytes : List ℕ) → StandsFor self.now bytes → is_decided self.now ≡ false → records_of (limits_of self.now) bytes ≡ [] → result ≡ 0 }
        ensures open { (bytes rest : List ℕ) (before : List SequenceRecord) (last : SequenceRecord) (text : Text) → StandsFor self.now bytes
            → is_decided self.now ≡ false
            → records_of (limits_of self.now) bytes ≡ before ++ last ∷ [] → IsText text (last.bytes ++ rest) → result ≡ open_at (length last.bytes) text }
    {
        if self.records.number == 0 {
            return 0;
        }
        self.records.record.levels()
    }

    /// How many of the open objects have a role by their position.
    pub fn judged(&self) -> u16
        ensures none { (bytes : List ℕ) → StandsFor self.now bytes → is_decided self.now ≡ false → records_of (limits_of self.now) bytes ≡ [] → result ≡ 0 }
        ensures open { (bytes rest : List ℕ) (before : List SequenceRecord) (last : SequenceRecord) (text : Text) → StandsFor self.now bytes
            → is_decided self.now ≡ false
            → records_of (limits_of self.now) bytes ≡ before ++ last ∷ [] → IsTextWithin (limits_of self.now).depth text (last.bytes ++ rest)
            → result ≡ judged_at (length last.bytes) text }
    {
        if self.records.number == 0 {
            return 0;
        }
        self.records.record.judged()
    }
}
