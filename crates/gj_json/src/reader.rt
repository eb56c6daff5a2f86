//! The reader: it takes the bytes of a text and reports its events (RFC 8259).
ghost use Rattle.std.specs.Prelude.{◌≡◌, ℕ, ◌+◌, ◌^◌, ◌≤◌, ◌++◌, ◌∷◌, [], List, length, take, IfOk, IsTrue, MatchResult, Some, None, Ok, Err};
ghost use Rattle.gj_json.specs.Internal.Transitions.{IsMode};
ghost use Rattle.gj_json.specs.Internal.OpenLevels.{levels_in};

use crate::content::Content;
use crate::cut_position::CutPosition;
use crate::event::Event;
use crate::fault::{Cause, JsonFault};
use crate::levels::Levels;
use crate::limits::{Limits, MOST_LEVELS};
use crate::mode::{Mode, Move};
use crate::move_events::last_event;
use crate::name_lengths::NameLengths;
use crate::positions::MOST_POSITIONS;
use crate::sink::{EventPair, EventSink};
use arrayvec::ArrayVec;
use gj_number::Literal;

/// Reads a text, a byte or a piece of any size at a time.
///
/// It keeps where it stands in the grammar and one bit for each level that is open, whatever the length of the text.
#[derive(Clone, Copy)]
pub struct Reader {
    limits: Limits,
    offset: u64,
    /// The place of the literal name, number, string or name that is under way.
    start: u64,
    levels: Levels,
    /// The number that is under way.
    literal: Literal,
    /// The string or the name that is under way.
    content: Content,
    mode: Mode,
    fault: Option<JsonFault>,
    /// How long the names of members are whose events do not matter to the sink.
    names: NameLengths,
    /// Room for positions that are read at once. What is in it between two calls says nothing.
    positions: [CutPosition; MOST_POSITIONS],
    /// How many arrays after the first of an array are taken by themselves: one where no positions were found last. Nothing rests
    /// on it.
    alone: u8,
    ghost sound: { IsMode mode },
    ghost within: { offset ≤ limits.bytes },
    ghost small: { limits.bytes ≤ 2 ^ 60 },
    ghost nested: { length (levels_in levels) ≤ limits.depth },
}

impl Reader {
    ghost use Rattle.gj_json.specs.declared.event.Event.{Event};
    ghost use Rattle.gj_json.specs.declared.fault.JsonFault.{JsonFault};
    ghost use Rattle.gj_json.specs.Tree.{Text};
    ghost use Rattle.gj_json.specs.Text.{IsText};
    ghost use Rattle.gj_json.specs.Events.{events_by};
    ghost use Rattle.gj_json.specs.Open.{open_at};
    ghost use Rattle.gj_json.specs.Refusal.{IsRefusal};
    ghost use Rattle.gj_json.specs.Reader.{StandsFor, limits_of, refusal_of, offset_of, levels_of, Answers, Completed, HearsBy, FinishAnswers};
    ghost use Rattle.gj_json.specs.Internal.FedReader.{HearsTwo};

    /// A reader of a text under these limits, before its first byte.
    pub fn new(limits: Limits) -> Self
        ensures stands { StandsFor result [] }
        ensures limits { limits_of result ≡ limits }
        ensures offset { offset_of result ≡ 0 }
        ensures open { refusal_of result ≡ None }
        ensures levels { levels_of result ≡ 0 }
        ensures events { (text : Text) (rest : List ℕ) → IsText text rest → events_by 0 text ≡ [] }
    {
        Reader {
            limits,
            offset: 0,
            start: 0,
            levels: Levels::new(),
            literal: Literal::new(),
            content: Content::new(),
            mode: Mode::TextDue,
            fault: None,
            names: NameLengths::none(),
            positions: [CutPosition::blank(); MOST_POSITIONS],
            alone: 0,
        }
    }

    /// Takes a piece of the text, of any size, and reports to the sink the events that are complete in it, in order.
    ///
    /// It is what `push` of each byte in turn leaves and reports, up to a byte that is refused. The bytes before that one
    /// are taken; from then on each call returns the same fault and changes nothing.
    pub fn feed<S: EventSink>(&mut self, piece: &[u8], sink: &mut S) -> Result<(), JsonFault>
        ensures stands { (bytes : List ℕ) → StandsFor self.old bytes → StandsFor self.new (bytes ++ piece.now) }
        ensures answer { (bytes : List ℕ) → StandsFor self.old bytes → Answers (limits_of self.old) (bytes ++ piece.now) result }
        ensures heard { (bytes : List ℕ) (events : List Event) → refusal_of self.old ≡ None → StandsFor self.old bytes → S.heard sink.old events
            → HearsBy (S.heard sink.new) events bytes piece.now result }
        ensures limits { limits_of self.new ≡ limits_of self.old }
        ensures on { offset_of self.old ≤ offset_of self.new }
        ensures refusal { MatchResult result (λ done. refusal_of self.new ≡ None) (λ fault. refusal_of self.new ≡ Some fault) }
        ensures again { (fault : JsonFault) → refusal_of self.old ≡ Some fault → (self.new ≡ self.old) × (sink.new ≡ sink.old) × (result ≡ Err fault) }
    {
        if let Some(fault) = self.fault {
            return Err(fault);
        }
        let room = self.limits.bytes() - self.offset;
        if piece.len() as u64 <= room {
            return self.take_piece(piece, sink);
        }
        match self.take_piece(&piece[..room as usize], sink) {
            Ok(()) => Err(self.refuse(Cause::Length)),
            Err(fault) => Err(fault),
        }
    }

    /// Takes the next byte, and returns the events that it completes, two at the most.
    ///
    /// A byte that is refused is not taken; from then on each call returns the same fault and changes nothing.
    pub fn push(&mut self, byte: u8) -> Result<ArrayVec<Event, 2>, JsonFault>
        ensures stands { (bytes : List ℕ) → StandsFor self.old bytes → StandsFor self.new (bytes ++ byte ∷ []) }
        ensures answer { (bytes : List ℕ) → StandsFor self.old bytes → Answers (limits_of self.old) (bytes ++ byte ∷ []) result }
        ensures events { (bytes : List ℕ) → StandsFor self.old bytes
            → IfOk result (λ found. Completed (length bytes) (length bytes + 1) (bytes ++ byte ∷ []) found.items) }
        ensures limits { limits_of self.new ≡ limits_of self.old }
        ensures refusal { MatchResult result (λ found. refusal_of self.new ≡ None) (λ fault. refusal_of self.new ≡ Some fault) }
        ensures again { (fault : JsonFault) → refusal_of self.old ≡ Some fault → (self.new ≡ self.old) × (result ≡ Err fault) }
    {
        let mut told = EventPair::new();
        match self.take_next(byte, &mut told) {
            Ok(_) => Ok(told.events),
            Err(fault) => Err(fault),
        }
    }

    /// Takes the next byte, as [`Reader::push`] does, and reports to the sink the events that it completes.
    fn take_next<S: EventSink>(&mut self, byte: u8, sink: &mut S) -> Result<Move, JsonFault>
        ensures stands { (bytes : List ℕ) → StandsFor self.old bytes → StandsFor self.new (bytes ++ byte ∷ []) }
        ensures answer { (bytes : List ℕ) → StandsFor self.old bytes → Answers (limits_of self.old) (bytes ++ byte ∷ []) result }
        ensures told { (bytes : List ℕ) (events : List Event) → StandsFor self.old bytes → S.heard sink.old events
            → IfOk result (λ done. HearsTwo (S.heard sink.new) events bytes byte) }
        ensures limits { limits_of self.new ≡ limits_of self.old }
        ensures on { offset_of self.old ≤ offset_of self.new }
        ensures refusal { MatchResult result (λ done. refusal_of self.new ≡ None) (λ fault. refusal_of self.new ≡ Some fault) }
        ensures again { (fault : JsonFault) → refusal_of self.old ≡ Some fault → (self.new ≡ self.old) × (result ≡ Err fault) }
    {
        if let Some(refused) = self.fault {
            return Err(refused);
        }
        if self.offset == self.limits.bytes() {
            return Err(self.refuse(Cause::Length));
        }
        self.take_byte(byte, sink)
    }

    /// Ends the text. Only now has a number at its end ended, which is the event that is returned.
    pub fn finish(self) -> Result<Option<Event>, JsonFault>
        ensures answer { (bytes : List ℕ) → StandsFor self bytes → FinishAnswers (limits_of self) bytes result }
        ensures again { (fault : JsonFault) → refusal_of self ≡ Some fault → result ≡ Err fault }
    {
        if let Some(earlier) = self.fault {
            return Err(earlier);
        }
        let may_end = self.literal.may_end();
        let value = self.literal.value();
        match last_event(self.mode, self.levels.inner(), may_end, value, self.start) {
            Some(found) => Ok(found),
            None => Err(self.fault_here(Cause::Truncated)),
        }
    }

    /// Whether [`Reader::finish`] would return `Ok(None)`: the text may end here, and no event waits for its end.
    #[inline]
    pub fn is_whole(&self) -> bool
        ensures live { IsTrue result → refusal_of self.now ≡ None }
        ensures answer { (bytes : List ℕ) → StandsFor self.now bytes → IsTrue result → FinishAnswers (limits_of self.now) bytes (Ok None) }
        ensures whole { (bytes : List ℕ) → StandsFor self.now bytes → FinishAnswers (limits_of self.now) bytes (Ok None) → IsTrue result }
    {
        match self.mode {
            Mode::ValueDone => self.fault.is_none() && self.levels.inner().is_none(),
            _ => false,
        }
    }

    /// The refusal, once there was one: that of every input that begins with the bytes that were given.
    pub fn refusal(&self) -> Option<JsonFault>
        ensures value { result ≡ refusal_of self.now }
        ensures lasting { (bytes more : List ℕ) (fault : JsonFault) → StandsFor self.now bytes → refusal_of self.now ≡ Some fault
            → IsRefusal (limits_of self.now) (bytes ++ more) fault }
    {
        self.fault
    }

    /// How many bytes were taken: the place of the refused one, once there was one.
    pub fn offset(&self) -> u64
        ensures value { result ≡ offset_of self.now }
        ensures taken { (bytes : List ℕ) → StandsFor self.now bytes → refusal_of self.now ≡ None → result ≡ length bytes }
        ensures refused { (bytes : List ℕ) (fault : JsonFault) → StandsFor self.now bytes → refusal_of self.now ≡ Some fault → result ≡ fault.place }
    {
        self.offset
    }

    /// How many arrays and objects are open after the bytes that were taken.
    pub fn levels(&self) -> u16
        ensures value { result ≡ levels_of self.now }
        ensures open { (bytes rest : List ℕ) (text : Text) → StandsFor self.now bytes → IsText text (take (offset_of self.now) bytes ++ rest)
            → result ≡ open_at (offset_of self.now) text }
        ensures small { result ≤ MOST_LEVELS }
    {
        self.levels.len()
    }
}

mod again;
mod bytes;
mod flats;
mod heads;
mod ignored;
mod members;
mod pieces;
mod place;
mod positions;
mod rows;
mod runs;
mod spaces;
mod tokens;
