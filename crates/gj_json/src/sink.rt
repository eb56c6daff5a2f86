//! What a reader reports its events to.
ghost use Rattle.std.specs.Prelude.{◌≡◌, ℕ, ◌≤◌, ◌<◌, ◌∷◌, ◌++◌, [], List, length, take, IsTrue, false};

use crate::cut_position::CutPosition;
use crate::event::{Event, What};
use crate::flat::Flat;
use crate::head::{Head, LatePoint, Located, Typed};
use crate::names::{Known, Word};
use arrayvec::ArrayVec;

/// What a reader reports its events to, in order.
pub trait EventSink {
    /// The events that were reported to it so far may be these.
    ghost heard: { Self → List Event → Type 0 };

    ghost use Rattle.gj_json.specs.declared.event.Event.{Event};
    ghost use Rattle.gj_json.specs.Flat.{flat_events};
    ghost use Rattle.gj_json.specs.declared.flat.Flat.{Flat};
    ghost use Rattle.gj_json.specs.CutPosition.{AreCutPositions, Rise, flats_events};
    ghost use Rattle.gj_json.specs.Head.{head_events, typed_events, point_events, late_point_events};
    ghost use Rattle.gj_json.specs.declared.names.Word.{Word};
    ghost use Rattle.gj_json.specs.Ignored.{Leaves};

    /// So many levels have to close before an event matters to it again.
    ghost ignores: { Self → ℕ } = { λ _. 0 };

    /// Takes the next event of the text.
    fn tell(&mut self, event: Event)
        ensures { (events : List Event) → heard self.old events → heard self.new (events ++ event ∷ []) };

    /// An array of numbers that is reported at once is heard as its events in turn are.
    fn tell_flat(&mut self, flat: &Flat)
        ensures { (events : List Event) → heard self.old events → heard self.new (events ++ flat_events flat.now) }
    {
        self.tell_flat_in_turn(flat);
    }

    /// Reports such an array by its events, one after another: for a sink that has no other use for it.
    #[inline(always)]
    fn tell_flat_in_turn(&mut self, flat: &Flat)
        ensures { (events : List Event) → heard self.old events → heard self.new (events ++ flat_events flat.now) }
    {
        self.tell(Event {
            place: flat.place,
            what: What::OpenArray,
        });
        self.tell(Event {
            place: flat.first.place,
            what: What::Number(Some(flat.first.value.decimal())),
        });
        self.tell(Event {
            place: flat.second.place,
            what: What::Number(Some(flat.second.value.decimal())),
        });
        if let Some(third) = flat.third {
            self.tell(Event {
                place: third.place,
                what: What::Number(Some(third.value.decimal())),
            });
        }
        self.tell(Event {
            place: flat.close,
            what: What::CloseArray,
        });
    }

    /// Arrays of two numbers or three, each of which stands after the one before, as the cut values of the first two: it takes
    /// those before the first of which it asks for more, and returns how many. It has heard the events of these.
    #[inline(always)]
    fn tell_positions(&mut self, _positions: &[CutPosition]) -> usize
        requires rising { Rise _positions.now }
        ensures few { result ≤ length _positions.now }
        ensures heard { (flats : List Flat) → AreCutPositions (take result _positions.now) flats → (events : List Event) → heard self.old events
            → heard self.new (events ++ flats_events flats) }
    {
        0
    }

    /// The bracket, the name and the type of an object that begins by its type.
    fn tell_typed(&mut self, typed: Typed)
        ensures { (events : List Event) → heard self.old events → heard self.new (events ++ typed_events typed) }
    {
        self.tell(Event {
            place: typed.place,
            what: What::OpenObject,
        });
        self.tell(Event {
            place: typed.name_at,
            what: What::Name(Known::TypeName),
        });
        self.tell(Event {
            place: typed.word_at,
            what: What::Text(typed.word),
        });
    }

    /// When the beginning of an object or of a member is reported at once, it has heard the same as by its events in turn.
    fn tell_head(&mut self, head: Head)
        ensures { (events : List Event) → heard self.old events → heard self.new (events ++ head_events head) }
    {
        match head {
            Head::Object(typed) => self.tell_typed(typed),
            Head::Geometry(located) => {
                self.tell(Event {
                    place: located.place,
                    what: What::Name(Known::Geometry),
                });
                self.tell_typed(located.typed);
                self.tell(Event {
                    place: located.coordinates,
                    what: What::Name(Known::Coordinates),
                });
            }
            Head::Properties(opened) => {
                self.tell(Event {
                    place: opened.place,
                    what: What::Name(Known::Properties),
                });
                self.tell(Event {
                    place: opened.bracket,
                    what: What::OpenObject,
                });
            }
        }
    }

    /// When a member `geometry` that is a whole Point is reported at once, it has heard the same as by its events in turn: those of
    /// its beginning, of its position, and of the bracket that closes its object at this place.
    fn tell_point(&mut self, located: &Located, flat: &Flat, close: u64)
        requires point { located.now.typed.word ≡ Word.Point }
        ensures { (events : List Event) → heard self.old events → heard self.new (events ++ point_events located.now flat.now close) }
    {
        self.tell_head(Head::Geometry(*located));
        self.tell_flat(flat);
        self.tell(Event {
            place: close,
            what: What::CloseObject,
        });
    }

    /// As `tell_point`, of a Point whose coordinates stand before its type.
    fn tell_late_point(&mut self, point: &LatePoint, flat: &Flat)
        ensures { (events : List Event) → heard self.old events → heard self.new (events ++ late_point_events point.now flat.now) }
    {
        self.tell_late_point_in_turn(point, flat);
    }

    /// Reports such a Point by its events, one after another: for a sink that has no other use for it.
    #[inline(never)]
    fn tell_late_point_in_turn(&mut self, point: &LatePoint, flat: &Flat)
        ensures { (events : List Event) → heard self.old events → heard self.new (events ++ late_point_events point.now flat.now) }
    {
        self.tell(Event {
            place: point.place,
            what: What::Name(Known::Geometry),
        });
        self.tell(Event {
            place: point.bracket,
            what: What::OpenObject,
        });
        self.tell(Event {
            place: point.coordinates,
            what: What::Name(Known::Coordinates),
        });
        self.tell_flat_in_turn(flat);
        self.tell(Event {
            place: point.name_at,
            what: What::Name(Known::TypeName),
        });
        self.tell(Event {
            place: point.word_at,
            what: What::Text(Word::Point),
        });
        self.tell(Event {
            place: point.close,
            what: What::CloseObject,
        });
    }

    /// How many levels have to close before an event matters to it again: 0 where each one matters.
    fn ignored(&self) -> u16
        ensures { result ≡ ignores self.now };

    /// Events came within the levels that it ignores, whichever they are, and `left` of these levels are left to close.
    fn pass(&mut self, left: u16)
        ensures { (events inner : List Event) → 0 < ignores self.old → heard self.old events → Leaves (ignores self.old) inner left
            → heard self.new (events ++ inner) };

    /// Whether it can do without the events in the array or object that was just opened, where that closes in the same piece.
    /// The reader then tries to close it at once.
    #[inline(always)]
    fn may_miss(&self) -> bool {
        false
    }

    /// The array or object that was just opened has closed, and no event was reported since: whether it has heard the same as by
    /// these events, whichever they are. If not, it is unchanged.
    #[inline(always)]
    fn tell_closed(&mut self) -> bool
        ensures heard { IsTrue result → (events inner : List Event) → heard self.old events → Leaves 1 inner 0 → heard self.new (events ++ inner) }
        ensures same { result ≡ false → self.new ≡ self.old }
    {
        false
    }
}

/// The events of one byte, of which there are two at the most.
#[derive(Drop)]
pub struct EventPair {
    pub events: ArrayVec<Event, 2>,
}

impl EventPair {
    pub fn new() -> Self
        ensures { result.events.items ≡ [] }
    {
        EventPair {
            events: ArrayVec::new(),
        }
    }
}

impl EventSink for EventPair {
    ghost heard = { λ pair events. length events ≤ 2 → pair.events.items ≡ events };

    fn tell(&mut self, event: Event) {
        if self.events.get(1).is_none() {
            self.events.push(event);
        }
    }

    fn ignored(&self) -> u16 {
        0
    }

    fn pass(&mut self, _left: u16) {}
}

/// Keeps nothing of what is reported to it.
#[derive(Drop)]
pub struct NoEvents;

impl EventSink for NoEvents {
    ghost heard = { λ sink events. Unit {0} };

    fn tell(&mut self, _event: Event) {}

    fn ignored(&self) -> u16 {
        0
    }

    fn pass(&mut self, _left: u16) {}
}
