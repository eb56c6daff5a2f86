//! The events of a byte, by the move that it makes.

ghost use Rattle.std.specs.Prelude.{◌≡◌, ◌++◌, List};
ghost use Rattle.std.specs.Option.{option_to_list};
ghost use Rattle.gj_json.specs.Internal.ToldEvents.{ending_event, move_event, opening_of, closing_of, is_on as is_on_of, last_event as last_event_of};
ghost use Rattle.gj_json.specs.Internal.PathTrail.{is_value as is_value_of};
ghost use Rattle.gj_json.specs.Events.{what_of as what_of_constant};
ghost use Rattle.gj_json.specs.declared.event.Event.{Event};

use crate::constant::Constant;
use crate::event::{Event, What};
use crate::levels::Level;
use crate::mode::{Ending, Mode, Move};
use crate::sink::EventSink;
use gj_number::Decimal;

/// Whether a literal name, a number, a string or a name is under way.
#[inline(always)]
pub fn is_on(mode: Mode) -> bool
    ensures { result ≡ is_on_of mode }
{
    match mode {
        Mode::ConstantOn(_, _) | Mode::NumberOn | Mode::StringOn(_) | Mode::NameOn(_) => true,
        _ => false,
    }
}

/// Whether a value that is no array and no object is under way.
pub fn is_value(mode: Mode) -> bool
    ensures { result ≡ is_value_of mode }
{
    match mode {
        Mode::ConstantOn(_, _) | Mode::NumberOn | Mode::StringOn(_) => true,
        _ => false,
    }
}

pub fn what_of(which: Constant) -> What
    ensures { result ≡ what_of_constant which }
{
    match which {
        Constant::Null => What::Null,
        Constant::True => What::True,
        Constant::False => What::False,
    }
}

pub fn opening(level: Level) -> What
    ensures { result ≡ opening_of level }
{
    match level {
        Level::Array => What::OpenArray,
        Level::Object => What::OpenObject,
    }
}

pub fn closing(level: Level) -> What
    ensures { result ≡ closing_of level }
{
    match level {
        Level::Array => What::CloseArray,
        Level::Object => What::CloseObject,
    }
}

/// The event of what a byte ends that began at `start`.
#[inline(always)]
fn event_of_ending(ending: Ending, start: u64) -> Option<Event>
    ensures { result ≡ ending_event ending start }
{
    let what = match ending {
        Ending::Nothing | Ending::Item => return None,
        Ending::Mark => {
            return Some(Event {
                place: 0,
                what: What::Mark,
            });
        }
        Ending::Literal(which) => what_of(which),
        Ending::Text(word) => What::Text(word),
        Ending::Name(known) => What::Name(known),
    };
    Some(Event { place: start, what })
}

/// The event of the byte at `offset` that makes this move, where what was under way began at `start`.
#[inline(always)]
fn event_of(made: Move, start: u64, offset: u64) -> Option<Event>
    ensures { result ≡ move_event made start offset }
{
    let what = match made {
        Move::Refuse => return None,
        Move::Go(_, ending) => return event_of_ending(ending, start),
        Move::Open(level) => opening(level),
        Move::Close(level) => closing(level),
    };
    Some(Event {
        place: offset,
        what,
    })
}

/// Reports what the byte at `offset` ends, opens or closes by this move.
#[inline(always)]
pub fn tell_move<S: EventSink>(sink: &mut S, made: Move, start: u64, offset: u64)
    ensures { (events : List Event) → S.heard sink.old events → S.heard sink.new (events ++ option_to_list (move_event made start offset)) }
{
    if let Some(event) = event_of(made, start, offset) {
        sink.tell(event);
    }
}

/// What is left to report where the text ends, or `None` where it cannot end: the number under way may end or not, and has
/// this value, and `start` is the place of what is under way.
pub fn last_event(
    mode: Mode,
    inner: Option<Level>,
    may_end: bool,
    value: Option<Decimal>,
    start: u64,
) -> Option<Option<Event>>
    ensures { result ≡ last_event_of mode inner may_end value start }
{
    if let Some(_) = inner {
        return None;
    }
    match mode {
        Mode::ValueDone => Some(None),
        Mode::NumberOn => {
            if may_end {
                Some(Some(Event {
                    place: start,
                    what: What::Number(value),
                }))
            } else {
                None
            }
        }
        _ => None,
    }
}
