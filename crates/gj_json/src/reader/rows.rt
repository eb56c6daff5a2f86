//! Arrays of numbers that are not reported at once: of one number or of four and more, or of unusual ones.

ghost use Rattle.std.specs.Prelude.{◌≡◌, ◌+◌, ◌^◌, ◌<◌, true, length, get_or, None, Some, IsTrue};
ghost use Rattle.gj_json.specs.Bytes.{open_bracket};
ghost use Rattle.gj_json.specs.Internal.FlatParts.{awaits};
ghost use Rattle.gj_json.specs.Internal.OpenLevels.{levels_in, inner_of};
ghost use Rattle.gj_json.specs.declared.levels.Level.TheVariants.{Array};

use super::Reader;
use super::flats::{begins_array, is_due};
use super::tokens::{LONG, begins_otherwise};
use crate::event::{Event, What};
use crate::levels::Level;
use crate::mode::Mode;
use crate::sink::EventSink;
use gj_number::{Short, read_decimal};

/// How many numbers an array has at the least that is not reported at once.
const MANY: u8 = 4;

/// How many numbers an array has with one more, of `count` bytes. One that is not reported at once counts as many.
#[inline(always)]
fn numbers_with(count: usize, numbers: u8) -> u8 {
    if count > LONG || numbers >= MANY {
        MANY
    } else {
        numbers + 1
    }
}

/// Whether an array of so many numbers is not reported at once.
#[inline(always)]
fn is_row(numbers: u8) -> bool {
    numbers < 2 || numbers >= MANY
}

/// What was taken of an array of numbers: how many bytes, and whether it has closed and is none that is reported at once.
#[derive(Clone, Copy)]
struct Row {
    count: usize,
    goes_on: bool,
}

impl Reader {
    ghost use Rattle.gj_json.specs.Internal.FedReader.{IsOpenFor, FeedsAll, OfPrefix, IsReadyFor};

    /// Takes the numbers of an array that has just been opened, and its closing bracket.
    #[inline(always)]
    fn take_numbers<S: EventSink>(&mut self, piece: &[u8], sink: &mut S) -> Row
        requires takes { IsOpenFor self.old piece.now }
        requires due { awaits self.old.mode ≡ true }
        requires inner { inner_of (levels_in self.old.levels) ≡ Some Array }
        ensures { OfPrefix (FeedsAll (S.heard sink.old) (S.heard sink.new) self.old self.new) piece.now result.count }
    {
        let mut at = 0;
        let mut numbers = 0;
        let mut value = Short::zero().decimal();
        while at < piece.len() && piece[at] > b' ' {
            let count = read_decimal(&piece[at..], &mut value);
            if count == 0 {
                let any = self.take_any_number::<S, true>(&piece[at..], sink);
                at += any;
                if any == 0 || !is_due(self.mode) || !self.is_in_array() {
                    return Row {
                        count: at,
                        goes_on: any > 0,
                    };
                }
                numbers = MANY;
                continue;
            }
            let end = piece[at + count];
            if end != b',' && end != b']' {
                return Row {
                    count: at,
                    goes_on: false,
                };
            }
            numbers = numbers_with(count, numbers);
            sink.tell(Event {
                place: self.offset,
                what: What::Number(Some(value)),
            });
            if end == b']' {
                return Row {
                    count: at + self.take_close(Level::Array, count + 1, sink),
                    goes_on: is_row(numbers),
                };
            }
            at += self.skip(count + 1, Mode::ValueDue);
        }
        Row {
            count: at,
            goes_on: false,
        }
    }

    /// Takes an array of numbers.
    #[inline(always)]
    fn take_row<S: EventSink>(&mut self, piece: &[u8], sink: &mut S) -> Row
        requires { IsReadyFor awaits open_bracket self.old piece.now }
        ensures { OfPrefix (FeedsAll (S.heard sink.old) (S.heard sink.new) self.old self.new) piece.now result.count }
    {
        let opened = self.take_open(Level::Array, piece, sink);
        if opened == 0 || self.is_ignored(sink) || self.may_be_missed(sink) {
            return Row {
                count: opened,
                goes_on: false,
            };
        }
        let row = self.take_numbers(&piece[opened..], sink);
        Row {
            count: opened + row.count,
            goes_on: row.goes_on,
        }
    }

    /// Whether an array begins here, and a number may stand in it first.
    #[inline(always)]
    fn begins_row(&self, piece: &[u8]) -> bool
        ensures some { IsTrue result → 0 < length piece.now }
        ensures begins { IsTrue result → get_or piece.now 0 0 ≡ open_bracket }
        ensures due { IsTrue result → awaits self.now.mode ≡ true }
    {
        begins_array(piece) && !begins_otherwise(piece) && is_due(self.mode)
    }

    /// Takes an array of numbers: how many bytes. Where it is not such as is reported at once, the arrays after it are taken
    /// so too, since they mostly are alike.
    #[inline(never)]
    pub(super) fn take_rows<S: EventSink>(&mut self, piece: &[u8], sink: &mut S) -> usize
        requires takes { IsOpenFor self.old piece.now }
        ensures { OfPrefix (FeedsAll (S.heard sink.old) (S.heard sink.new) self.old self.new) piece.now result }
    {
        let mut at = 0;
        while self.begins_row(&piece[at..]) {
            let row = self.take_row(&piece[at..], sink);
            at += row.count;
            if row.count == 0 || !row.goes_on {
                return at;
            }
            at += self.take_next_end(&piece[at..], sink);
        }
        at
    }
}
