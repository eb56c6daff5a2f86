//! Members of objects in which no event matters to the sink: where they are written as most are, each is taken at once.

ghost use Rattle.std.specs.Prelude.{◌≡◌, ◌⊎◌, ◌+◌, ◌^◌, ◌<◌, true, length, take, get_or, None};
ghost use Rattle.gj_json.specs.Bytes.{quote, colon, space};
ghost use Rattle.gj_json.specs.Internal.FlatParts.{awaits};
ghost use Rattle.gj_json.specs.Internal.WholeTokens.{names, IsString};
ghost use Rattle.gj_json.specs.declared.lanes.TheConstants.{LANES};
ghost use Rattle.gj_json.specs.declared.reader.members.TheConstants.{ROOM};

use super::Reader;
use crate::lanes::LANES;
use crate::levels::Level;
use crate::mode::Mode;
use crate::sink::NoEvents;
use crate::tokens::{begins_quoted, quoted_run, scalar_run};

/// A piece of fewer bytes has no room for a short name, what comes after it, and what is looked at of the value.
const ROOM: usize = 2 * LANES + 8;

impl Reader {
    ghost use Rattle.gj_json.specs.Internal.FedReader.{IsOpenFor, FeedsAny, OfPrefix, IsReady, IsReadyFor};

    /// Takes a value that is whole with the byte after it, or the bracket that opens one: how many bytes, or 0.
    #[inline(never)]
    fn pass_value(&mut self, piece: &[u8]) -> usize
        requires { IsReady awaits self.old piece.now }
        ensures { OfPrefix (FeedsAny self.old self.new) piece.now result }
    {
        self.take_value::<NoEvents, false>(piece, &mut NoEvents)
    }

    /// Takes a name of any characters and its colon, with the white space around that, and the value after them, or the bracket
    /// that opens it: how many bytes, or 0.
    #[inline(never)]
    fn pass_any_member(&mut self, piece: &[u8]) -> usize
        requires { IsReadyFor names quote self.old piece.now }
        ensures { OfPrefix (FeedsAny self.old self.new) piece.now result }
    {
        let name = self.pass_name(piece);
        if name == 0 || name == piece.len() {
            return name;
        }
        name + self.pass_value(&piece[name..])
    }

    /// Takes a name of so many bytes, its colon, and the value that stands at an index, with the byte after it, or the bracket that
    /// opens it: how many bytes. A usual value is taken with the name, and with the space after its comma.
    #[inline(always)]
    fn pass_named(&mut self, piece: &[u8], name: usize, value: usize) -> usize
        requires wide { value + LANES < length piece.now }
        requires quoted { IsString (take name piece.now) }
        requires colon { get_or piece.now name 0 ≡ colon }
        requires between { (value ≡ name + 1) ⊎ ((value ≡ name + 2) × (get_or piece.now (name + 1) 0 ≡ space)) }
        requires takes { IsOpenFor self.old piece.now }
        requires due { names self.old.mode ≡ true }
        ensures { OfPrefix (FeedsAny self.old self.new) piece.now result }
    {
        let end = value + scalar_run(&piece[value..]);
        if end > value && self.levels.is_in_object() {
            if piece[end] == b',' {
                if piece[end + 1] == b' ' {
                    return self.skip(end + 2, Mode::NameDue);
                }
                return self.skip(end + 1, Mode::NameDue);
            }
            if piece[end] == b'}' {
                return self.take_close(Level::Object, end + 1, &mut NoEvents);
            }
            if piece[end] == b' ' && piece[end + 1] == b'}' {
                self.skip(end + 1, Mode::ValueDone);
                return end + 1 + self.take_close(Level::Object, 1, &mut NoEvents);
            }
        }
        self.skip(value, Mode::ValueDue);
        value + self.pass_value(&piece[value..])
    }

    /// As `pass_any_member`, at once where the name has its colon after it, with one space after that or none. How long it is, is noted.
    // The two calls at the end let the processor foresee which it is: the place of the value does not wait for that byte.
    #[inline(never)]
    fn pass_near_member(&mut self, piece: &[u8]) -> usize
        requires { IsReadyFor names quote self.old piece.now }
        ensures { OfPrefix (FeedsAny self.old self.new) piece.now result }
    {
        let name = quoted_run(piece);
        if name == 0 || name + 2 + LANES >= piece.len() || piece[name] != b':' {
            return self.pass_any_member(piece);
        }
        self.names.note(name - 2);
        if piece[name + 1] == b' ' {
            return self.pass_named(piece, name, name + 2);
        }
        self.pass_named(piece, name, name + 1)
    }

    /// As `pass_near_member`. Mostly the name is as long as the last one at its place. Its end is then known before its characters
    /// are looked at, so that what is read after it does not wait for that.
    // As in `pass_near_member`, there are two calls at the end.
    #[inline(always)]
    fn pass_member(&mut self, piece: &[u8]) -> usize
        requires { IsReadyFor names quote self.old piece.now }
        ensures { OfPrefix (FeedsAny self.old self.new) piece.now result }
    {
        if piece.len() < ROOM {
            return self.pass_any_member(piece);
        }
        let count = self.names.expect_next();
        let name = count + 2;
        if !begins_quoted(piece, count) || piece[name] != b':' {
            return self.pass_near_member(piece);
        }
        if piece[name + 1] == b' ' {
            return self.pass_named(piece, name, name + 2);
        }
        self.pass_named(piece, name, name + 1)
    }

    /// Takes a member at the start of the piece, or the white space there: how many bytes.
    #[inline(always)]
    fn pass_member_or_white(&mut self, piece: &[u8]) -> usize
        requires { IsReady names self.old piece.now }
        ensures { OfPrefix (FeedsAny self.old self.new) piece.now result }
    {
        if piece[0] == b'"' {
            self.pass_member(piece)
        } else {
            self.skip_white(piece)
        }
    }

    /// Takes members from the start of the piece, one after another, with the white space between them: how many bytes. It goes
    /// on where a comma is taken with the value before it.
    #[inline(always)]
    pub(super) fn pass_members(&mut self, piece: &[u8]) -> usize
        requires takes { IsOpenFor self.old piece.now }
        requires due { names self.old.mode ≡ true }
        ensures { OfPrefix (FeedsAny self.old self.new) piece.now result }
    {
        let mut at = 0;
        while at < piece.len() {
            let count = self.pass_member_or_white(&piece[at..]);
            at += count;
            if count == 0 {
                return at;
            }
            match self.mode {
                Mode::NameDue => {}
                _ => return at,
            }
        }
        at
    }
}
