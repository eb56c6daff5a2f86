//! Arrays of numbers, taken at once.

ghost use Rattle.std.specs.Prelude.{◌≡◌, ◌+◌, ◌-◌, ◌^◌, ◌≤◌, ◌<◌, true, length, drop, get_or, None, Some, IsTrue};
ghost use Rattle.gj_json.specs.Bytes.{open_bracket};
ghost use Rattle.gj_json.specs.Internal.FlatParts.{awaits, IsDueAt};
ghost use Rattle.gj_json.specs.Internal.OpenLevels.{levels_in, inner_of};
ghost use Rattle.gj_json.specs.declared.levels.Level.TheVariants.{Array};

use super::Reader;
use super::positions::arrays_before_next;
use crate::flat::Flat;
use crate::flats::{comma_run, read_flat, read_lone_flat};
use crate::levels::Level;
use crate::mode::Mode;
use crate::separators::Separators;
use crate::sink::EventSink;

/// Whether an array may begin here, in a text that has begun.
#[inline(always)]
pub(super) fn is_due(mode: Mode) -> bool
    ensures { result ≡ awaits mode }
{
    match mode {
        Mode::ValueDue | Mode::ArrayOpened => true,
        _ => false,
    }
}

/// Whether an opening bracket follows.
#[inline(always)]
pub(super) fn begins_array(piece: &[u8]) -> bool
    ensures within { IsTrue result → 1 ≤ length piece.now }
    ensures bracket { IsTrue result → get_or piece.now 0 0 ≡ open_bracket }
{
    !piece.is_empty() && piece[0] == b'['
}

impl Reader {
    ghost use Rattle.gj_json.specs.Internal.FedReader.{IsOpenFor, FeedsAll, OfPrefix};

    /// Whether the innermost level is an array.
    #[inline(always)]
    pub(super) fn is_in_array(&self) -> bool
        ensures { IsTrue result → inner_of (levels_in self.now.levels) ≡ Some Array }
    {
        match self.levels.inner() {
            Some(Level::Array) => true,
            _ => false,
        }
    }

    /// Whether an array may be opened here.
    #[inline(always)]
    pub(super) fn may_open(&self) -> bool
        ensures due { IsTrue result → awaits self.now.mode ≡ true }
        ensures deep { IsTrue result → length (levels_in self.now.levels) < self.now.limits.depth }
    {
        is_due(self.mode) && self.levels.len() < self.limits.depth()
    }

    /// Takes the arrays of two or three ordinary numbers that are whole at the start of the piece, one after another:
    /// how many bytes. Outside an array there is one at the most.
    #[inline(never)]
    pub(super) fn take_flats<S: EventSink>(&mut self, piece: &[u8], sink: &mut S) -> usize
        requires takes { IsOpenFor self.old piece.now }
        ensures { OfPrefix (FeedsAll (S.heard sink.old) (S.heard sink.new) self.old self.new) piece.now result }
    {
        if !begins_array(piece) || !self.may_open() {
            return 0;
        }
        if self.is_in_array() {
            self.take_several(piece, sink)
        } else {
            self.take_single(piece, sink)
        }
    }

    /// Such an array outside an array.
    #[inline(never)]
    fn take_single<S: EventSink>(&mut self, piece: &[u8], sink: &mut S) -> usize
        requires next { IsDueAt self.old.mode piece.now }
        requires takes { IsOpenFor self.old piece.now }
        requires deep { length (levels_in self.old.levels) < self.old.limits.depth }
        ensures { OfPrefix (FeedsAll (S.heard sink.old) (S.heard sink.new) self.old self.new) piece.now result }
    {
        let mut flat = Flat::blank();
        let Some(count) = read_lone_flat(piece, self.offset, &mut flat) else {
            return 0;
        };
        sink.tell_flat(&flat);
        self.skip(count, Mode::ValueDone)
    }

    /// Takes the positions after an array that are written as it is, where no more arrays are to come before they are looked for: how
    /// many bytes. The array was read from the start of another piece, which goes on with this one.
    #[inline(always)]
    fn take_next_positions<S: EventSink>(
        &mut self,
        piece: &[u8],
        before: &[u8],
        flat: &Flat,
        left: &mut u8,
        sink: &mut S,
    ) -> usize
        requires rest { piece.now ≡ drop (length before.now - length piece.now) before.now }
        requires within { length piece.now ≤ length before.now }
        requires next { IsDueAt self.old.mode piece.now }
        requires takes { IsOpenFor self.old piece.now }
        requires deep { length (levels_in self.old.levels) < self.old.limits.depth }
        requires inner { inner_of (levels_in self.old.levels) ≡ Some Array }
        ensures next { IsDueAt self.new.mode (drop result piece.now) }
        ensures levels { self.new.levels ≡ self.old.levels }
        ensures taken { OfPrefix (FeedsAll (S.heard sink.old) (S.heard sink.new) self.old self.new) piece.now result }
    {
        if *left > 0 {
            *left -= 1;
            return 0;
        }
        let Some(separators) = Separators::of(before, flat, before.len() - piece.len()) else {
            return 0;
        };
        let many = self.take_positions(piece, &separators, sink);
        *left = arrays_before_next(many);
        self.alone = (*left).min(1);
        many
    }

    /// Such arrays within an array, each with a comma after it and the white space after that.
    #[inline(never)]
    fn take_several<S: EventSink>(&mut self, piece: &[u8], sink: &mut S) -> usize
        requires next { IsDueAt self.old.mode piece.now }
        requires takes { IsOpenFor self.old piece.now }
        requires deep { length (levels_in self.old.levels) < self.old.limits.depth }
        requires inner { inner_of (levels_in self.old.levels) ≡ Some Array }
        ensures { OfPrefix (FeedsAll (S.heard sink.old) (S.heard sink.new) self.old self.new) piece.now result }
    {
        let mut flat = Flat::blank();
        let mut rest = piece;
        let mut begins = true;
        let mut left = self.alone;
        while begins {
            let Some(count) = read_flat(rest, self.offset, &mut flat) else {
                return piece.len() - rest.len();
            };
            sink.tell_flat(&flat);
            let comma = comma_run(&rest[count..]);
            if comma == 0 {
                self.skip(count, Mode::ValueDone);
                return piece.len() - rest.len() + count;
            }
            self.skip(count + comma, Mode::ValueDue);
            let before = rest;
            rest = &rest[count + comma..];
            begins = begins_array(rest);
            if begins {
                let many = self.take_next_positions(rest, before, &flat, &mut left, sink);
                rest = &rest[many..];
            }
        }
        piece.len() - rest.len()
    }
}
