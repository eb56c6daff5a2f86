//! Whole tokens, from what the reader keeps: one after another, as long as each stands whole in the piece and is of the
//! usual kind. Where `HEARS` is false, no event matters: what strings, names and numbers say is then not looked for, and a string or
//! a name may have any characters.

ghost use Rattle.std.specs.Prelude.{◌≡◌, ◌+◌, ◌-◌, ◌^◌, ◌≤◌, ◌<◌, ◌++◌, ◌∷◌, [], true, List, length, take, None, Some};
ghost use Rattle.gj_number.specs.Grammar.{IsNumber};
ghost use Rattle.gj_number.specs.Value.{value_of};
ghost use Rattle.gj_json.specs.Internal.QuietBytes.{Leads};
ghost use Rattle.gj_json.specs.Bytes.{open_bracket, open_brace, quote};
ghost use Rattle.gj_json.specs.Internal.FlatParts.{awaits};
ghost use Rattle.gj_json.specs.Internal.OpenLevels.{levels_in, outer_of};
ghost use Rattle.gj_json.specs.Internal.ReaderStep.{opened};
ghost use Rattle.gj_json.specs.Internal.ToldEvents.{event_at, closing_of};
ghost use Rattle.gj_json.specs.Internal.WholeTokens.{bracket_of, end_of, may_begin, names};
ghost use Rattle.gj_json.specs.declared.levels.Level.TheVariants.{Array};
ghost use Rattle.gj_json.specs.declared.mode.Mode.TheVariants.{ValueDone, ValueDue, ColonDue};

use super::Reader;
use super::flats::is_due;
use crate::constant::Constant;
use crate::event::{Event, What};
use crate::flats::white_end;
use crate::lanes::white_run;
use crate::levels::Level;
use crate::mode::{Mode, Move};
use crate::move_events::{closing, is_on, opening, what_of};
use crate::moves::{after_value, opened_mode};
use crate::names::{name_of, type_of};
use crate::sink::EventSink;
use crate::tokens::{constant_run, plain_quoted_run, quoted_run};
use crate::usual::{usual_name, usual_text};
use gj_number::{Decimal, Literal, Short, number_run, read_decimal};

/// A piece of fewer bytes is taken byte by byte.
const SHORTEST: usize = 16;

/// How many bytes the colon has that stands at the start of a piece, with the white space around it, or 0.
#[inline(always)]
fn colon_run(piece: &[u8]) -> usize
    ensures within { result ≤ length piece.now }
    ensures leads { 0 < result → Leads ColonDue (take result piece.now) ValueDue }
{
    let white = white_run(piece);
    if white >= piece.len() || piece[white] != b':' {
        return 0;
    }
    white_end(piece, white + 1)
}

/// A number of more bytes with the byte after it is hardly one that is reported at once.
pub(super) const LONG: usize = 20;

/// Whether a short piece may end in the number that it starts with, since each of its bytes is allowed in one.
#[inline(always)]
fn is_cut(piece: &[u8]) -> bool {
    if piece.len() > LONG {
        return false;
    }
    for byte in piece {
        match byte {
            b'0'..=b'9' | b'-' | b'.' => {}
            _ => return false,
        }
    }
    true
}

/// Whether no number stands after the bracket that the piece starts with, or after one space more: mostly another array does.
#[inline(always)]
pub(super) fn begins_otherwise(piece: &[u8]) -> bool {
    piece.len() > 2 && (piece[1] > b'9' || piece[1] == b' ' && piece[2] > b'9')
}

/// The bracket that closes a level.
#[inline(always)]
fn closing_bracket(level: Level) -> u8
    ensures { result ≡ end_of level }
{
    match level {
        Level::Array => b']',
        Level::Object => b'}',
    }
}

impl Reader {
    ghost use Rattle.gj_json.specs.declared.event.Event.{Event};
    ghost use Rattle.gj_json.specs.Internal.FedReader.{IsOpenFor, Passed, FeedsAll, FeedsAny, FeedsToken, OfPrefix, IsReady, IsReadyFor};
    ghost use Rattle.gj_json.specs.Internal.WholeTokens.{Lands};

    /// Takes a string of plain characters that is a value: how many bytes, or 0.
    #[inline(never)]
    fn take_plain_text<S: EventSink>(&mut self, piece: &[u8], sink: &mut S) -> usize
        requires { IsReadyFor awaits quote self.old piece.now }
        ensures passed { 0 < result → Passed result ValueDone self.old self.new }
        ensures taken { OfPrefix (FeedsAll (S.heard sink.old) (S.heard sink.new) self.old self.new) piece.now result }
    {
        let count = plain_quoted_run(piece);
        if count == 0 {
            return 0;
        }
        sink.tell(Event {
            place: self.offset,
            what: What::Text(type_of(&piece[1..count - 1])),
        });
        self.skip(count, Mode::ValueDone)
    }

    /// As `take_plain_text`, at once where the string is a usual one.
    #[inline(always)]
    fn take_text<S: EventSink>(&mut self, piece: &[u8], sink: &mut S) -> usize
        requires { IsReadyFor awaits quote self.old piece.now }
        ensures passed { 0 < result → Passed result ValueDone self.old self.new }
        ensures taken { OfPrefix (FeedsAll (S.heard sink.old) (S.heard sink.new) self.old self.new) piece.now result }
    {
        let usual = usual_text(piece);
        if usual.count == 0 {
            return self.take_plain_text(piece, sink);
        }
        sink.tell(Event {
            place: self.offset,
            what: What::Text(usual.word),
        });
        self.skip(usual.count, Mode::ValueDone)
    }

    /// Takes a string of any characters that is a value: how many bytes, or 0.
    #[inline(always)]
    fn pass_text(&mut self, piece: &[u8]) -> usize
        requires { IsReadyFor awaits quote self.old piece.now }
        ensures passed { 0 < result → Passed result ValueDone self.old self.new }
        ensures taken { OfPrefix (FeedsAny self.old self.new) piece.now result }
    {
        let count = quoted_run(piece);
        if count == 0 {
            return 0;
        }
        self.skip(count, Mode::ValueDone)
    }

    /// Takes a string that is a value, and where events matter, only one of plain characters: how many bytes, or 0.
    #[inline(always)]
    fn take_string<S: EventSink, const HEARS: bool>(&mut self, piece: &[u8], sink: &mut S) -> usize
        requires { IsReadyFor awaits quote self.old piece.now }
        ensures passed { 0 < result → Passed result ValueDone self.old self.new }
        ensures taken { OfPrefix (FeedsToken HEARS (S.heard sink.old) (S.heard sink.new) self.old self.new) piece.now result }
    {
        if HEARS {
            self.take_text(piece, sink)
        } else {
            self.pass_text(piece)
        }
    }

    /// Takes a name of plain characters and its colon, with the white space around that: how many bytes, or 0.
    #[inline(never)]
    pub(super) fn take_plain_name<S: EventSink>(&mut self, piece: &[u8], sink: &mut S) -> usize
        requires { IsReady names self.old piece.now }
        ensures mode { 0 < result → self.new.mode ≡ ValueDue }
        ensures taken { OfPrefix (FeedsAll (S.heard sink.old) (S.heard sink.new) self.old self.new) piece.now result }
    {
        if piece[0] != b'"' {
            return 0;
        }
        let name = plain_quoted_run(piece);
        if name == 0 {
            return 0;
        }
        let colon = colon_run(&piece[name..]);
        if colon == 0 {
            return 0;
        }
        sink.tell(Event {
            place: self.offset,
            what: What::Name(name_of(&piece[1..name - 1])),
        });
        self.skip(name + colon, Mode::ValueDue)
    }

    /// Takes a name of any characters and its colon, with the white space around that: how many bytes, or 0.
    #[inline(always)]
    pub(super) fn pass_name(&mut self, piece: &[u8]) -> usize
        requires { IsReadyFor names quote self.old piece.now }
        ensures mode { 0 < result → self.new.mode ≡ ValueDue }
        ensures levels { self.new.levels ≡ self.old.levels }
        ensures taken { OfPrefix (FeedsAny self.old self.new) piece.now result }
    {
        let name = quoted_run(piece);
        if name == 0 {
            return 0;
        }
        let colon = colon_run(&piece[name..]);
        if colon == 0 {
            return 0;
        }
        self.skip(name + colon, Mode::ValueDue)
    }

    /// As `take_plain_name`, at once where the name is a usual one with its colon after it.
    #[inline(always)]
    pub(super) fn take_named<S: EventSink>(&mut self, piece: &[u8], sink: &mut S) -> usize
        requires { IsReady names self.old piece.now }
        ensures mode { 0 < result → self.new.mode ≡ ValueDue }
        ensures taken { OfPrefix (FeedsAll (S.heard sink.old) (S.heard sink.new) self.old self.new) piece.now result }
    {
        let usual = usual_name(piece);
        if usual.count == 0 {
            return self.take_plain_name(piece, sink);
        }
        let colon = white_end(&piece[usual.count..], 1);
        sink.tell(Event {
            place: self.offset,
            what: What::Name(usual.known),
        });
        self.skip(usual.count + colon, Mode::ValueDue)
    }

    /// Takes the literal name, and the byte after it: how many bytes, or 0.
    #[inline(always)]
    fn take_constant<S: EventSink>(&mut self, which: Constant, piece: &[u8], sink: &mut S) -> usize
        requires takes { IsOpenFor self.old piece.now }
        requires due { awaits self.old.mode ≡ true }
        ensures all { OfPrefix (FeedsAll (S.heard sink.old) (S.heard sink.new) self.old self.new) piece.now result }
        ensures any { OfPrefix (FeedsAny self.old self.new) piece.now result }
    {
        let count = constant_run(which, piece);
        if count == 0 {
            return 0;
        }
        sink.tell(Event {
            place: self.offset,
            what: what_of(which),
        });
        self.skip(count, Mode::ValueDone);
        count + self.take_next_end(&piece[count..], sink)
    }

    /// Takes the bracket that opens a level: 1, or 0 where it opens one level too many.
    #[inline(always)]
    pub(super) fn take_open<S: EventSink>(
        &mut self,
        level: Level,
        piece: &[u8],
        sink: &mut S,
    ) -> usize
        requires { IsReadyFor may_begin (bracket_of level) self.old piece.now }
        ensures lands { 0 < result → Lands 1 (opened level) (level ∷ levels_in self.old.levels) self.old self.new }
        ensures all { OfPrefix (FeedsAll (S.heard sink.old) (S.heard sink.new) self.old self.new) piece.now result }
        ensures any { OfPrefix (FeedsAny self.old self.new) piece.now result }
    {
        if self.levels.len() >= self.limits.depth() {
            return 0;
        }
        sink.tell(Event {
            place: self.offset,
            what: opening(level),
        });
        self.levels.push(level);
        self.skip(1, opened_mode(level))
    }

    /// As `take_open`, with the bracket that closes the level where it comes at once, and the byte after that: how many bytes, or 0.
    #[inline(always)]
    pub(super) fn take_container<S: EventSink>(
        &mut self,
        level: Level,
        piece: &[u8],
        sink: &mut S,
    ) -> usize
        requires { IsReadyFor may_begin (bracket_of level) self.old piece.now }
        ensures all { OfPrefix (FeedsAll (S.heard sink.old) (S.heard sink.new) self.old self.new) piece.now result }
        ensures any { OfPrefix (FeedsAny self.old self.new) piece.now result }
    {
        let opened = self.take_open(level, piece, sink);
        if opened == 0 || piece.len() < 2 || piece[1] != closing_bracket(level) {
            return opened;
        }
        let closed = self.take_close(level, 1, sink);
        opened + closed + self.take_next_end(&piece[opened + closed..], sink)
    }

    /// Takes `count` bytes, of which the last closes the innermost level, which is this.
    #[inline(always)]
    pub(super) fn take_close<S: EventSink>(
        &mut self,
        level: Level,
        count: usize,
        sink: &mut S,
    ) -> usize
        requires some { 0 < count }
        requires room { self.old.offset + count ≤ self.old.limits.bytes }
        ensures count { result ≡ count }
        ensures lands { Lands count ValueDone (outer_of (levels_in self.old.levels)) self.old self.new }
        ensures heard { (events : List Event) → S.heard sink.old events
            → S.heard sink.new (events ++ event_at (self.old.offset + count - 1) (closing_of level) ∷ []) }
    {
        sink.tell(Event {
            place: self.offset + count as u64 - 1,
            what: closing(level),
        });
        self.levels.pop();
        self.skip(count, Mode::ValueDone)
    }

    /// Takes the number that the piece starts with, whose length is given, and the byte after it: how many bytes, or 0 where that
    /// byte ends no value.
    #[inline(always)]
    fn end_number<S: EventSink, const HEARS: bool>(
        &mut self,
        count: usize,
        value: Option<Decimal>,
        piece: &[u8],
        sink: &mut S,
    ) -> usize
        requires within { count < length piece.now }
        requires number { IsNumber (take count piece.now) }
        requires value { HEARS ≡ true → value_of (take count piece.now) ≡ value }
        requires takes { IsOpenFor self.old piece.now }
        requires due { awaits self.old.mode ≡ true }
        ensures { OfPrefix (FeedsToken HEARS (S.heard sink.old) (S.heard sink.new) self.old self.new) piece.now result }
    {
        let event = Event {
            place: self.offset,
            what: What::Number(value),
        };
        if piece[count] == b',' {
            return match self.levels.inner() {
                Some(Level::Array) => {
                    sink.tell(event);
                    self.skip(count + 1, Mode::ValueDue)
                }
                Some(Level::Object) => {
                    sink.tell(event);
                    self.skip(count + 1, Mode::NameDue)
                }
                None => 0,
            };
        }
        match after_value(self.levels.inner(), piece[count]) {
            Move::Go(mode, _) => {
                sink.tell(event);
                self.skip(count + 1, mode)
            }
            Move::Close(level) => {
                sink.tell(event);
                self.take_close(level, count + 1, sink)
            }
            _ => 0,
        }
    }

    /// Takes a number of any style and the byte after it: how many bytes, or 0.
    #[inline(never)]
    pub(super) fn take_any_number<S: EventSink, const HEARS: bool>(
        &mut self,
        piece: &[u8],
        sink: &mut S,
    ) -> usize
        requires takes { IsOpenFor self.old piece.now }
        requires due { awaits self.old.mode ≡ true }
        ensures { OfPrefix (FeedsToken HEARS (S.heard sink.old) (S.heard sink.new) self.old self.new) piece.now result }
    {
        if is_cut(piece) {
            return 0;
        }
        let mut literal = Literal::new();
        let count = literal.push_piece(piece);
        if count == piece.len() || !literal.may_end() {
            return 0;
        }
        self.end_number::<S, HEARS>(count, literal.value(), piece, sink)
    }

    /// Takes a number and the byte after it, at once where it is an ordinary one: how many bytes, or 0.
    #[inline(always)]
    fn take_number<S: EventSink, const HEARS: bool>(&mut self, piece: &[u8], sink: &mut S) -> usize
        requires takes { IsOpenFor self.old piece.now }
        requires due { awaits self.old.mode ≡ true }
        ensures { OfPrefix (FeedsToken HEARS (S.heard sink.old) (S.heard sink.new) self.old self.new) piece.now result }
    {
        if !HEARS {
            let count = number_run(piece);
            if count == 0 {
                return 0;
            }
            return self.end_number::<S, HEARS>(count, None, piece, sink);
        }
        let mut value = Short::zero().decimal();
        let count = read_decimal(piece, &mut value);
        if count == 0 {
            return self.take_any_number::<S, HEARS>(piece, sink);
        }
        self.end_number::<S, HEARS>(count, Some(value), piece, sink)
    }

    /// Takes the byte after a value, where it is a comma, a closing bracket or white space, and with a comma the space before the
    /// name after it: how many bytes, or 0.
    #[inline(always)]
    pub(super) fn take_end<S: EventSink>(&mut self, piece: &[u8], sink: &mut S) -> usize
        requires some { 0 < length piece.now }
        requires takes { IsOpenFor self.old piece.now }
        requires done { self.old.mode ≡ ValueDone }
        ensures all { OfPrefix (FeedsAll (S.heard sink.old) (S.heard sink.new) self.old self.new) piece.now result }
        ensures any { OfPrefix (FeedsAny self.old self.new) piece.now result }
    {
        if piece[0] == b',' {
            return match self.levels.inner() {
                Some(Level::Array) => self.skip(1, Mode::ValueDue),
                Some(Level::Object) => {
                    let taken = self.skip(1, Mode::NameDue);
                    taken + self.skip_space(&piece[taken..])
                }
                None => 0,
            };
        }
        match after_value(self.levels.inner(), piece[0]) {
            Move::Go(mode, _) => self.skip(1, mode),
            Move::Close(level) => self.take_close(level, 1, sink),
            _ => 0,
        }
    }

    /// Takes the byte after a value as `take_end`, where the piece begins with it: how many bytes, or 0.
    #[inline(always)]
    pub(super) fn take_next_end<S: EventSink>(&mut self, piece: &[u8], sink: &mut S) -> usize
        requires takes { IsOpenFor self.old piece.now }
        ensures all { OfPrefix (FeedsAll (S.heard sink.old) (S.heard sink.new) self.old self.new) piece.now result }
        ensures any { OfPrefix (FeedsAny self.old self.new) piece.now result }
    {
        if piece.is_empty() {
            return 0;
        }
        match self.mode {
            Mode::ValueDone => self.take_end(piece, sink),
            _ => 0,
        }
    }

    /// Takes an array of numbers, or the bracket that opens an array: how many bytes, or 0.
    #[inline(always)]
    fn take_array<S: EventSink>(&mut self, piece: &[u8], sink: &mut S) -> usize
        requires { IsReadyFor awaits open_bracket self.old piece.now }
        ensures { OfPrefix (FeedsAll (S.heard sink.old) (S.heard sink.new) self.old self.new) piece.now result }
    {
        if begins_otherwise(piece) {
            return self.take_container(Level::Array, piece, sink);
        }
        let flats = self.take_flats(piece, sink);
        if flats > 0 || !self.may_open() {
            return flats;
        }
        self.take_rows(piece, sink)
    }

    /// Takes a value that is whole with the byte after it, or the bracket that opens one: how many bytes, or 0.
    #[inline(always)]
    pub(super) fn take_value<S: EventSink, const HEARS: bool>(
        &mut self,
        piece: &[u8],
        sink: &mut S,
    ) -> usize
        requires { IsReady awaits self.old piece.now }
        ensures { OfPrefix (FeedsToken HEARS (S.heard sink.old) (S.heard sink.new) self.old self.new) piece.now result }
    {
        match piece[0] {
            b'"' => {
                let text = self.take_string::<S, HEARS>(piece, sink);
                if text == 0 || text == piece.len() {
                    return text;
                }
                text + self.take_end(&piece[text..], sink)
            }
            b'{' => {
                if HEARS {
                    self.take_object(piece, sink)
                } else {
                    self.take_container(Level::Object, piece, sink)
                }
            }
            b'[' => {
                if HEARS {
                    self.take_array(piece, sink)
                } else {
                    self.take_container(Level::Array, piece, sink)
                }
            }
            b'n' => self.take_constant(Constant::Null, piece, sink),
            b't' => self.take_constant(Constant::True, piece, sink),
            b'f' => self.take_constant(Constant::False, piece, sink),
            _ => self.take_number::<S, HEARS>(piece, sink),
        }
    }

    /// Takes the white space at the start of the piece: how many bytes. One byte after a value, as at the end of a record, is
    /// taken as any other byte there.
    #[inline(never)]
    pub(super) fn take_white<S: EventSink>(&mut self, piece: &[u8], sink: &mut S) -> usize
        requires some { 0 < length piece.now }
        requires takes { IsOpenFor self.old piece.now }
        ensures all { OfPrefix (FeedsAll (S.heard sink.old) (S.heard sink.new) self.old self.new) piece.now result }
        ensures any { OfPrefix (FeedsAny self.old self.new) piece.now result }
    {
        if piece.len() > 1 {
            return self.skip_white(piece);
        }
        self.take_next_end(piece, sink)
    }

    /// Takes a token that is whole at the start of the piece, or the white space there: how many bytes, or 0 where there is
    /// none or no event matters to the sink.
    #[inline(always)]
    fn take_token<S: EventSink>(&mut self, piece: &[u8], sink: &mut S) -> usize
        requires some { 0 < length piece.now }
        requires takes { IsOpenFor self.old piece.now }
        ensures { OfPrefix (FeedsAll (S.heard sink.old) (S.heard sink.new) self.old self.new) piece.now result }
    {
        if piece[0] <= b' ' {
            return self.take_white(piece, sink);
        }
        match self.mode {
            Mode::ValueDone => self.take_ends(piece, sink),
            Mode::NameDue | Mode::ObjectOpened => {
                if sink.ignored() > 0 {
                    return 0;
                }
                let named = self.take_member(piece, sink);
                if named == piece.len() || !is_due(self.mode) {
                    return named;
                }
                named + self.take_value::<S, true>(&piece[named..], sink)
            }
            Mode::ValueDue | Mode::ArrayOpened => {
                if sink.ignored() > 0 {
                    return 0;
                }
                self.take_value::<S, true>(piece, sink)
            }
            _ => 0,
        }
    }

    /// Whether a container has just been opened in which no event matters to the sink.
    #[inline(always)]
    pub(super) fn is_ignored<S: EventSink>(&self, sink: &S) -> bool {
        match self.mode {
            Mode::ObjectOpened | Mode::ArrayOpened => sink.ignored() > 0,
            _ => false,
        }
    }

    /// Whether a container has just been opened whose events the sink may miss, where it closes in the piece.
    #[inline(always)]
    pub(super) fn may_be_missed<S: EventSink>(&self, sink: &S) -> bool {
        match self.mode {
            Mode::ObjectOpened | Mode::ArrayOpened => sink.may_miss(),
            _ => false,
        }
    }

    /// Takes the tokens that are whole at the start of the piece, one after another, as far as their events matter to the
    /// sink: how many bytes.
    #[inline(never)]
    pub(super) fn take_tokens<S: EventSink>(&mut self, piece: &[u8], sink: &mut S) -> usize
        requires takes { IsOpenFor self.old piece.now }
        ensures { OfPrefix (FeedsAll (S.heard sink.old) (S.heard sink.new) self.old self.new) piece.now result }
    {
        let mut at = 0;
        while at < piece.len() {
            let count = self.take_token(&piece[at..], sink);
            if count == 0 {
                return at;
            }
            at += count;
            if self.may_be_missed(sink) {
                return at;
            }
        }
        at
    }

    /// Takes the bracket that opens the text's object, where that is due: 1, or 0.
    #[inline(always)]
    fn take_beginning<S: EventSink>(&mut self, piece: &[u8], sink: &mut S) -> usize
        requires some { 0 < length piece.now }
        requires takes { IsOpenFor self.old piece.now }
        ensures { OfPrefix (FeedsAll (S.heard sink.old) (S.heard sink.new) self.old self.new) piece.now result }
    {
        match self.mode {
            Mode::TextDue => {
                if piece[0] == b'{' {
                    self.take_open(Level::Object, piece, sink)
                } else {
                    0
                }
            }
            _ => 0,
        }
    }

    /// Takes the tokens that are whole at the start of the piece, the text's first bracket among them: how many bytes, and
    /// at once none where no token is due or the piece is short.
    #[inline(always)]
    pub(super) fn take_if_token<S: EventSink>(&mut self, piece: &[u8], sink: &mut S) -> usize
        requires takes { IsOpenFor self.old piece.now }
        ensures { OfPrefix (FeedsAll (S.heard sink.old) (S.heard sink.new) self.old self.new) piece.now result }
    {
        if piece.len() < SHORTEST || is_on(self.mode) {
            return 0;
        }
        let begun = self.take_beginning(piece, sink);
        begun + self.take_tokens(&piece[begun..], sink)
    }
}
