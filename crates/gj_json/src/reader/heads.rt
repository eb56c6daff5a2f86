//! The beginnings of features and geometries, taken at once.

ghost use Rattle.std.specs.Prelude.{◌≡◌, ◌+◌, ◌^◌, ◌≤◌, ◌<◌, true, length, None};
ghost use Rattle.gj_json.specs.Bytes.{open_bracket, open_brace};
ghost use Rattle.gj_json.specs.Internal.FlatParts.{awaits};
ghost use Rattle.gj_json.specs.Internal.OpenLevels.{levels_in};
ghost use Rattle.gj_json.specs.Internal.WholeHeads.{IsEnclosed, IsFound, IsLocatedAt};
ghost use Rattle.gj_json.specs.Internal.WholeTokens.{names};
ghost use Rattle.gj_json.specs.declared.limits.TheConstants.{MOST_LEVELS};
ghost use Rattle.gj_json.specs.declared.mode.Mode.TheVariants.{ValueDone};
ghost use Rattle.gj_json.specs.declared.names.Word.{Word};

use super::Reader;
use super::flats::begins_array;
use crate::event::{Event, What};
use crate::flat::Flat;
use crate::flats::read_lone_flat;
use crate::head::{Head, Located, Opened, Typed};
use crate::heads::{
    UsualLocated, following_typed, gap_end, properties_run, usual_located, usual_typed,
};
use crate::late_points::late_point;
use crate::levels::Level;
use crate::mode::Mode;
use crate::names::Word;
use crate::sink::EventSink;

/// Whether a byte looks like the first of the name of an object's type, with a space before the name or none.
#[inline(always)]
fn may_be_typed(piece: &[u8]) -> bool {
    piece.len() > 3 && (piece[2] == b't' || piece[3] == b't')
}

/// Whether a few bytes look like the end of a feature, after the byte that ends its last member, with a space before it or none.
#[inline(always)]
fn may_end_feature(piece: &[u8]) -> bool {
    piece.len() > 2
        && (piece[1] == b'}' && piece[2] == b','
            || piece[1] == b' ' && piece[2] == b'}' && piece[0] == b'}')
}

/// Whether a few bytes look like the name of a geometry, with a name after the bracket of its object.
#[inline(always)]
fn may_be_geometry(piece: &[u8]) -> bool {
    piece.len() > 14
        && piece[1] == b'g'
        && (piece[12] == b'"' || piece[13] == b'"' || piece[12] == b'{' && piece[14] == b'"')
}

/// Whether such bytes look like a geometry that begins by its coordinates.
#[inline(always)]
fn may_be_late_point(piece: &[u8]) -> bool {
    piece.len() > 14 && (piece[13] == b'c' || piece[14] == b'c')
}

/// Whether a few bytes look like the name `properties` with the bracket of an object after it.
#[inline(always)]
fn may_be_properties(piece: &[u8]) -> bool {
    piece.len() > 14 && piece[1] == b'p' && (piece[13] == b'{' || piece[14] == b'{')
}

/// Reads the position of a Point that stands at an index, before the bracket that closes its object, in a piece that begins at the
/// place `start`: the index of that bracket, or 0. A byte of white space may stand between them.
#[inline(always)]
fn point_end(piece: &[u8], at: usize, start: u64, flat: &mut Flat) -> usize
    requires within { at ≤ length piece.now }
    requires small { start + length piece.now ≤ 2 ^ 60 }
    ensures within { 0 < result → result < length piece.now }
    ensures enclosed { 0 < result → IsEnclosed flat.new start at result piece.now }
{
    let rest = &piece[at..];
    if !begins_array(rest) {
        return 0;
    }
    let Some(count) = read_lone_flat(rest, start + at as u64, flat) else {
        return 0;
    };
    let close = gap_end(piece, at + count);
    if close >= piece.len() || piece[close] != b'}' {
        return 0;
    }
    close
}

impl Reader {
    ghost use Rattle.gj_json.specs.Internal.FedReader.{IsOpenFor, FeedsAll, OfPrefix, IsReady, IsReadyFor};

    /// Takes the bracket that opens an object, and its type where it begins by a usual one: how many bytes, or 0 where it opens one
    /// level too many.
    #[inline(never)]
    fn take_typed<S: EventSink>(&mut self, piece: &[u8], sink: &mut S) -> usize
        requires { IsReadyFor awaits open_brace self.old piece.now }
        ensures { OfPrefix (FeedsAll (S.heard sink.old) (S.heard sink.new) self.old self.new) piece.now result }
    {
        let typed = usual_typed(piece);
        if typed.count == 0 || self.levels.len() >= self.limits.depth() {
            return self.take_open(Level::Object, piece, sink);
        }
        sink.tell_head(Head::Object(Typed {
            place: self.offset,
            name_at: self.offset + typed.name_at as u64,
            word_at: self.offset + typed.word_at as u64,
            word: typed.word,
        }));
        self.levels.push(Level::Object);
        self.skip(typed.count, Mode::NameDue)
    }

    /// Takes the beginning of an object. A look at two bytes mostly shows whether it may begin by its type.
    #[inline(always)]
    pub(super) fn take_object<S: EventSink>(&mut self, piece: &[u8], sink: &mut S) -> usize
        requires { IsReadyFor awaits open_brace self.old piece.now }
        ensures { OfPrefix (FeedsAll (S.heard sink.old) (S.heard sink.new) self.old self.new) piece.now result }
    {
        if may_be_typed(piece) {
            return self.take_typed(piece, sink);
        }
        self.take_container(Level::Object, piece, sink)
    }

    /// Takes the byte after a value, and where it closes the last member of a feature also the end of the feature, the comma and
    /// the beginning of the next: how many bytes, or 0.
    #[inline(never)]
    fn take_next_feature<S: EventSink>(&mut self, piece: &[u8], sink: &mut S) -> usize
        requires some { 0 < length piece.now }
        requires takes { IsOpenFor self.old piece.now }
        requires done { self.old.mode ≡ ValueDone }
        ensures { OfPrefix (FeedsAll (S.heard sink.old) (S.heard sink.new) self.old self.new) piece.now result }
    {
        if piece[0] != b'}' || !self.levels.is_in_feature() {
            return self.take_end(piece, sink);
        }
        let taken = self.take_close(Level::Object, 1, sink);
        taken + self.take_feature_end(&piece[taken..], sink)
    }

    /// Takes the byte after a value. A look at two bytes mostly shows whether a feature may end there.
    #[inline(always)]
    pub(super) fn take_ends<S: EventSink>(&mut self, piece: &[u8], sink: &mut S) -> usize
        requires some { 0 < length piece.now }
        requires takes { IsOpenFor self.old piece.now }
        requires done { self.old.mode ≡ ValueDone }
        ensures { OfPrefix (FeedsAll (S.heard sink.old) (S.heard sink.new) self.old self.new) piece.now result }
    {
        if may_end_feature(piece) {
            return self.take_next_feature(piece, sink);
        }
        self.take_end(piece, sink)
    }

    /// Takes a name and its colon, where it is `properties` with the bracket that opens its object, and the whole tokens in that
    /// object if their events do not matter to the sink: how many bytes, or 0.
    #[inline(never)]
    fn take_properties<S: EventSink>(&mut self, piece: &[u8], sink: &mut S) -> usize
        requires { IsReady names self.old piece.now }
        ensures { OfPrefix (FeedsAll (S.heard sink.old) (S.heard sink.new) self.old self.new) piece.now result }
    {
        let count = properties_run(piece);
        if count == 0 || self.levels.len() >= self.limits.depth() {
            return self.take_named(piece, sink);
        }
        sink.tell_head(Head::Properties(Opened {
            place: self.offset,
            bracket: self.offset + count as u64 - 1,
        }));
        self.levels.push(Level::Object);
        self.skip(count, Mode::ObjectOpened);
        count + self.pass_ignored(&piece[count..], sink)
    }

    /// Takes the end of a feature with the comma after it and the beginning of the next: how many bytes, or 0.
    #[inline(always)]
    fn take_feature_end<S: EventSink>(&mut self, piece: &[u8], sink: &mut S) -> usize
        requires takes { IsOpenFor self.old piece.now }
        requires done { self.old.mode ≡ ValueDone }
        ensures { OfPrefix (FeedsAll (S.heard sink.old) (S.heard sink.new) self.old self.new) piece.now result }
    {
        let next = following_typed(piece);
        if next.typed.count == 0 || !self.levels.is_in_element() {
            return 0;
        }
        sink.tell(Event {
            place: self.offset + next.close as u64,
            what: What::CloseObject,
        });
        let place = self.offset + next.at as u64;
        sink.tell_head(Head::Object(Typed {
            place,
            name_at: place + next.typed.name_at as u64,
            word_at: place + next.typed.word_at as u64,
            word: next.typed.word,
        }));
        self.skip(next.at + next.typed.count, Mode::NameDue)
    }

    /// The beginning of a member `geometry`, which starts at the next byte.
    #[inline(always)]
    fn located_here(&self, usual: &UsualLocated) -> Located
        requires within { self.now.offset + usual.now.count ≤ 2 ^ 60 }
        requires bracket { usual.now.bracket < usual.now.name_at }
        requires name { usual.now.name_at < usual.now.word_at }
        requires word { usual.now.word_at ≤ usual.now.count }
        requires coordinates { usual.now.coordinates ≤ usual.now.count }
        ensures { IsLocatedAt self.now.offset usual.now result }
    {
        Located {
            place: self.offset,
            typed: Typed {
                place: self.offset + usual.bracket as u64,
                name_at: self.offset + usual.name_at as u64,
                word_at: self.offset + usual.word_at as u64,
                word: usual.word,
            },
            coordinates: self.offset + usual.coordinates as u64,
        }
    }

    /// Takes the beginning of a member `geometry`: how many bytes.
    #[inline(always)]
    fn take_located<S: EventSink>(
        &mut self,
        piece: &[u8],
        usual: &UsualLocated,
        sink: &mut S,
    ) -> usize
        requires takes { IsOpenFor self.old piece.now }
        requires due { names self.old.mode ≡ true }
        requires deep { length (levels_in self.old.levels) < self.old.limits.depth }
        requires shallow { self.old.limits.depth ≤ MOST_LEVELS }
        requires found { IsFound piece.now usual.now }
        ensures { OfPrefix (FeedsAll (S.heard sink.old) (S.heard sink.new) self.old self.new) piece.now result }
    {
        sink.tell_head(Head::Geometry(self.located_here(usual)));
        self.levels.push(Level::Object);
        self.skip(usual.count, Mode::ValueDue)
    }

    /// Takes a member `geometry` that is a whole Point, with the end of the feature and the beginning of the next where they
    /// follow: how many bytes. Where its position is not taken at once, only its beginning is taken.
    #[inline(always)]
    fn take_point<S: EventSink>(
        &mut self,
        piece: &[u8],
        usual: &UsualLocated,
        sink: &mut S,
    ) -> usize
        requires takes { IsOpenFor self.old piece.now }
        requires due { names self.old.mode ≡ true }
        requires deep { length (levels_in self.old.levels) < self.old.limits.depth }
        requires shallow { self.old.limits.depth ≤ MOST_LEVELS }
        requires found { IsFound piece.now usual.now }
        requires point { usual.now.word ≡ Word.Point }
        ensures { OfPrefix (FeedsAll (S.heard sink.old) (S.heard sink.new) self.old self.new) piece.now result }
    {
        let mut flat = Flat::blank();
        let end = point_end(piece, usual.count, self.offset, &mut flat);
        if end == 0 || self.levels.len() + 1 >= self.limits.depth() {
            return self.take_located(piece, usual, sink);
        }
        sink.tell_point(&self.located_here(usual), &flat, self.offset + end as u64);
        let taken = self.skip(end + 1, Mode::ValueDone);
        taken + self.take_feature_end(&piece[taken..], sink)
    }

    /// Takes a member `geometry` that is a whole Point whose coordinates stand before its type: how many bytes, or 0. Where there is
    /// none, a name of plain characters and its colon are taken.
    #[inline(never)]
    fn take_late_point<S: EventSink>(&mut self, piece: &[u8], sink: &mut S) -> usize
        requires { IsReady names self.old piece.now }
        ensures { OfPrefix (FeedsAll (S.heard sink.old) (S.heard sink.new) self.old self.new) piece.now result }
    {
        if self.levels.len() + 1 >= self.limits.depth() {
            return self.take_plain_name(piece, sink);
        }
        let mut flat = Flat::blank();
        let Some(point) = late_point(piece, self.offset, &mut flat) else {
            return self.take_plain_name(piece, sink);
        };
        sink.tell_late_point(&point, &flat);
        self.skip((point.close - self.offset) as usize + 1, Mode::ValueDone)
    }

    /// Takes a name and its colon, where it is that of a geometry with what comes before its coordinates, or with all of a Point:
    /// how many bytes, or 0.
    #[inline(never)]
    fn take_geometry<S: EventSink>(&mut self, piece: &[u8], sink: &mut S) -> usize
        requires { IsReady names self.old piece.now }
        ensures { OfPrefix (FeedsAll (S.heard sink.old) (S.heard sink.new) self.old self.new) piece.now result }
    {
        let usual = usual_located(piece);
        if usual.count == 0 && may_be_late_point(piece) {
            return self.take_late_point(piece, sink);
        }
        if usual.count == 0 || self.levels.len() >= self.limits.depth() {
            return self.take_named(piece, sink);
        }
        match usual.word {
            Word::Point => self.take_point(piece, &usual, sink),
            _ => self.take_located(piece, &usual, sink),
        }
    }

    /// Takes a name and its colon, with what comes at once after them where it is the name of a geometry or of properties: how many
    /// bytes, or 0.
    #[inline(always)]
    pub(super) fn take_member<S: EventSink>(&mut self, piece: &[u8], sink: &mut S) -> usize
        requires { IsReady names self.old piece.now }
        ensures { OfPrefix (FeedsAll (S.heard sink.old) (S.heard sink.new) self.old self.new) piece.now result }
    {
        if may_be_geometry(piece) {
            return self.take_geometry(piece, sink);
        }
        if may_be_properties(piece) {
            return self.take_properties(piece, sink);
        }
        self.take_named(piece, sink)
    }
}
