//! One byte, from what the reader keeps.

ghost use Rattle.std.specs.Prelude.{◌≡◌, ◌+◌, ◌≤◌, ◌<◌, ◌++◌, ◌∷◌, [], false, List, length, Some, None, Err};
ghost use Rattle.gj_number.specs.Grammar.{BeginsNumber};
ghost use Rattle.gj_number.specs.Literal.{StandsFor as LiteralStandsFor};
ghost use Rattle.gj_json.specs.Internal.Transitions.{IsMode, IsMove, IsStringState};
ghost use Rattle.gj_json.specs.Internal.OpenLevels.{levels_in, outer_of};
ghost use Rattle.gj_json.specs.Internal.ToldEvents.{event_at, in_number, text_state, Ends};
ghost use Rattle.gj_json.specs.declared.event.What.{What};
ghost use Rattle.gj_json.specs.declared.mode.StringState.TheVariants.{Plain};
ghost use Rattle.gj_json.specs.declared.mode.Mode.TheVariants.{NumberOn, ValueDone};

use super::Reader;
use crate::event::{Event, What};
use crate::fault::{Cause, JsonFault};
use crate::levels::Level;
use crate::limits::MOST_LEVELS;
use crate::mode::{Ending, Mode, Move, StringMove, StringState};
use crate::move_events::{is_on, tell_move};
use crate::moves::{after_value, next, opened_mode};
use crate::sink::EventSink;
use crate::strings::next_string;
use gj_number::{Decimal, Literal, Step};

/// The number that the byte begins, where it begins one.
fn literal_of(byte: u8) -> Literal
    ensures { BeginsNumber (byte ∷ []) → LiteralStandsFor result (byte ∷ []) }
{
    let mut literal = Literal::new();
    let _ = literal.push(byte);
    literal
}

impl Reader {
    ghost use Rattle.gj_json.specs.declared.event.Event.{Event};
    ghost use Rattle.gj_json.specs.Internal.FedReader.{GoesOn};
    ghost use Rattle.gj_json.specs.Internal.ReaderStep.{Applied, IsRefusedWith, told_on, Passes, opened, move_by, made_by, Takes};

    pub(super) fn fault_here(&self, cause: Cause) -> JsonFault
        ensures { result ≡ record { place = self.now.offset; cause = cause } }
    {
        JsonFault {
            place: self.offset,
            cause,
        }
    }

    pub(super) fn refuse(&mut self, cause: Cause) -> JsonFault
        ensures refused { IsRefusedWith cause self.old self.new result }
        ensures literal { self.new.literal ≡ self.old.literal }
        ensures content { self.new.content ≡ self.old.content }
    {
        let fault = self.fault_here(cause);
        self.fault = Some(fault);
        fault
    }

    #[inline(always)]
    fn go(&mut self, mode: Mode)
        requires room { self.old.offset < self.old.limits.bytes }
        requires sound { IsMode mode }
        ensures passes { Passes mode (levels_in self.old.levels) self.old self.new }
        ensures literal { self.new.literal ≡ self.old.literal }
        ensures content { self.new.content ≡ self.old.content }
    {
        if !is_on(self.mode) {
            self.start = self.offset;
        }
        self.mode = mode;
        self.offset += 1;
    }

    fn open(&mut self, level: Level)
        requires room { self.old.offset < self.old.limits.bytes }
        requires deep { length (levels_in self.old.levels) < self.old.limits.depth }
        requires narrow { self.old.limits.depth ≤ MOST_LEVELS }
        ensures passes { Passes (opened level) (level ∷ levels_in self.old.levels) self.old self.new }
        ensures literal { self.new.literal ≡ self.old.literal }
        ensures content { self.new.content ≡ self.old.content }
    {
        self.levels.push(level);
        self.go(opened_mode(level));
    }

    fn close(&mut self)
        requires room { self.old.offset < self.old.limits.bytes }
        ensures passes { Passes ValueDone (outer_of (levels_in self.old.levels)) self.old self.new }
        ensures literal { self.new.literal ≡ self.old.literal }
        ensures content { self.new.content ≡ self.old.content }
    {
        self.levels.pop();
        self.go(Mode::ValueDone);
    }

    #[inline(always)]
    fn apply(&mut self, made: Move) -> Result<Move, JsonFault>
        requires live { self.old.fault ≡ None }
        requires room { self.old.offset < self.old.limits.bytes }
        requires sound { IsMove made }
        ensures applied { Applied made self.old self.new result }
        ensures literal { self.new.literal ≡ self.old.literal }
        ensures content { self.new.content ≡ self.old.content }
    {
        match made {
            Move::Refuse => return Err(self.refuse(Cause::Syntax)),
            Move::Go(mode, _) => self.go(mode),
            Move::Open(level) => {
                if self.levels.len() == self.limits.depth() {
                    return Err(self.refuse(Cause::Depth));
                }
                self.open(level);
            }
            Move::Close(_) => self.close(),
        }
        Ok(made)
    }

    /// Takes a byte that goes on in no number and ends no character of a string, and reports what it ends, opens or closes.
    ///
    /// The mode is handed in so that each caller's is known where it is inlined.
    #[inline(always)]
    fn take_other<S: EventSink>(
        &mut self,
        mode: Mode,
        byte: u8,
        sink: &mut S,
    ) -> Result<Move, JsonFault>
        requires live { self.old.fault ≡ None }
        requires room { self.old.offset < self.old.limits.bytes }
        requires mode { mode ≡ self.old.mode }
        ensures applied { Applied (move_by self.old Ends byte) self.old self.new result }
        ensures literal { self.new.literal ≡ self.old.literal }
        ensures content { self.new.content ≡ self.old.content }
        ensures heard { (events : List Event) → S.heard sink.old events → S.heard sink.new (events ++ told_on result (made_by self.old Ends byte)) }
    {
        let start = self.start;
        let offset = self.offset;
        let made = next(mode, self.levels.inner(), &self.content, byte);
        if let Err(fault) = self.apply(made) {
            return Err(fault);
        }
        tell_move(sink, made, start, offset);
        Ok(made)
    }

    /// Takes the byte after the number under way, which has this value, and reports the number before all else.
    #[inline(always)]
    fn take_after_number<S: EventSink>(
        &mut self,
        byte: u8,
        value: Option<Decimal>,
        sink: &mut S,
    ) -> Result<Move, JsonFault>
        requires live { self.old.fault ≡ None }
        requires room { self.old.offset < self.old.limits.bytes }
        requires number { self.old.mode ≡ NumberOn }
        ensures applied { Applied (move_by self.old Ends byte) self.old self.new result }
        ensures heard { (events : List Event) → S.heard sink.old events
            → S.heard sink.new (events ++ told_on result (event_at self.old.start (What.Number value) ∷ made_by self.old Ends byte)) }
    {
        let start = self.start;
        let offset = self.offset;
        let made = after_value(self.levels.inner(), byte);
        if let Err(fault) = self.apply(made) {
            return Err(fault);
        }
        sink.tell(Event {
            place: start,
            what: What::Number(value),
        });
        tell_move(sink, made, start, offset);
        Ok(made)
    }

    /// Takes a byte while a number is under way.
    fn take_in_number<S: EventSink>(&mut self, byte: u8, sink: &mut S) -> Result<Move, JsonFault>
        requires live { self.old.fault ≡ None }
        requires room { self.old.offset < self.old.limits.bytes }
        requires number { self.old.mode ≡ NumberOn }
        ensures { Takes (S.heard sink.old) (S.heard sink.new) self.old self.new byte result }
    {
        match self.literal.push(byte) {
            Step::Goes => {
                self.go(Mode::NumberOn);
                Ok(Move::Go(Mode::NumberOn, Ending::Nothing))
            }
            Step::Ends => {
                if self.literal.may_end() {
                    let value = self.literal.value();
                    self.take_after_number(byte, value, sink)
                } else {
                    Err(self.refuse(Cause::Syntax))
                }
            }
        }
    }

    /// Takes a byte while a string or a name is under way: how far its character under way has come, and the mode between
    /// two of its characters.
    #[inline(always)]
    fn take_in_text<S: EventSink>(
        &mut self,
        state: StringState,
        between: Mode,
        byte: u8,
        sink: &mut S,
    ) -> Result<Move, JsonFault>
        requires live { self.old.fault ≡ None }
        requires room { self.old.offset < self.old.limits.bytes }
        requires sound { IsStringState state }
        requires text { GoesOn self.old.mode state between Plain }
        ensures { Takes (S.heard sink.old) (S.heard sink.new) self.old self.new byte result }
    {
        match next_string(state, byte) {
            StringMove::Reads(character) => {
                self.content.push(character);
                self.go(between);
                Ok(Move::Go(between, Ending::Nothing))
            }
            _ => self.take_other(self.mode, byte, sink),
        }
    }

    /// Takes a byte while no number, no string and no name is under way.
    #[inline(always)]
    fn take_between<S: EventSink>(
        &mut self,
        mode: Mode,
        byte: u8,
        sink: &mut S,
    ) -> Result<Move, JsonFault>
        requires live { self.old.fault ≡ None }
        requires room { self.old.offset < self.old.limits.bytes }
        requires mode { mode ≡ self.old.mode }
        requires number { in_number self.old.mode ≡ false }
        requires text { text_state self.old.mode ≡ None }
        ensures { Takes (S.heard sink.old) (S.heard sink.new) self.old self.new byte result }
    {
        let made = match self.take_other(mode, byte, sink) {
            Ok(made) => made,
            Err(fault) => return Err(fault),
        };
        match self.mode {
            Mode::NumberOn => self.literal = literal_of(byte),
            Mode::StringOn(_) | Mode::NameOn(_) => self.content.clear(),
            _ => {}
        }
        Ok(made)
    }

    /// Takes a byte that the limit on the bytes allows, reports the events that it completes, and returns the move that it makes.
    pub(super) fn take_byte<S: EventSink>(
        &mut self,
        byte: u8,
        sink: &mut S,
    ) -> Result<Move, JsonFault>
        requires live { self.old.fault ≡ None }
        requires room { self.old.offset < self.old.limits.bytes }
        ensures { Takes (S.heard sink.old) (S.heard sink.new) self.old self.new byte result }
    {
        match self.mode {
            Mode::NumberOn => self.take_in_number(byte, sink),
            Mode::StringOn(state) => self.take_in_text(
                state,
                Mode::StringOn(StringState::Plain),
                byte,
                sink,
            ),
            Mode::NameOn(state) => self.take_in_text(
                state,
                Mode::NameOn(StringState::Plain),
                byte,
                sink,
            ),
            Mode::ValueDue => self.take_between(Mode::ValueDue, byte, sink),
            Mode::ValueDone => self.take_between(Mode::ValueDone, byte, sink),
            Mode::ArrayOpened => self.take_between(Mode::ArrayOpened, byte, sink),
            Mode::NameDue => self.take_between(Mode::NameDue, byte, sink),
            Mode::ColonDue => self.take_between(Mode::ColonDue, byte, sink),
            mode => self.take_between(mode, byte, sink),
        }
    }
}
