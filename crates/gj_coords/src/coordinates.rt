//! The value of `coordinates` under the six types.

use crate::fault::Fault;
use crate::simple::Simple;
use crate::simple_faults::SimpleFaults;
use crate::walk::{Stage, Walk};
use crate::warned::Warned;
use crate::warnings::Warnings;
use gj_json::{CutPosition, Event, Flat};
use gj_number::Decimal;
use std::mem::size_of;

/// Takes the events of one value of `coordinates`, and gives its least fault and its warnings for each of the six types.
///
/// Most positions come as one [`Flat`], and from the second of an array on mostly many at once by their cut values
/// ([`CutPosition`]). In a line or a linear ring such a position changes only what is gathered of these positions, and their
/// count: it takes one step.
///
/// It holds one fixed record, whatever the value. It counts the levels of the value in 64 bits, and promises nothing
/// for a value of 2^64 levels or more.
#[derive(Clone, Copy)]
pub struct Coordinates {
    walk: Walk,
    state: State,
}

/// What is known of the walk.
#[derive(Clone, Copy)]
enum State {
    /// It has come as far as the events.
    Walked,
    /// It has, and after this place a position more that comes as one [`Flat`] changes no fault.
    Steady(u64),
    /// The value is a position that came as one [`Flat`]. Of what the walk gathers, only two things are then held:
    /// the least fault as positions, which is that of each type but `Point`, and the warnings for `Point`.
    Whole,
}

// A linter holds one, and begins another for each member `coordinates`.
const _: () = prove!(size_of::<Coordinates>() == 2624);

impl Coordinates {
    ghost use Rattle.std.specs.Prelude.{◌≡◌, ◌↔◌, ◌<◌, ◌^◌, ◌++◌, ◌∷◌, ℕ, List, [], length, IsTrue, ◌≤◌, take};
    ghost use Rattle.gj_json.specs.declared.event.Event.{Event};
    ghost use Rattle.gj_json.specs.declared.event.What.TheVariants.{OpenArray, CloseArray, Number};
    ghost use Rattle.gj_json.specs.Tree.{Tree, depth};
    ghost use Rattle.gj_json.specs.Events.{value_events};
    ghost use Rattle.gj_json.specs.Flat.{flat_events};
    ghost use Rattle.gj_json.specs.declared.flat.Flat.{Flat};
    ghost use Rattle.gj_json.specs.CutPosition.{AreCutPositions, Rise, flats_events};
    ghost use Rattle.gj_coords.specs.Fault.{least};
    ghost use Rattle.gj_coords.specs.Shape.{coordinates_faults};
    ghost use Rattle.gj_coords.specs.declared.coordinates.State.TheVariants.{Steady};
    ghost use Rattle.gj_coords.specs.Coordinates.{StandsFor, NoneEnds};
    ghost use Rattle.gj_coords.specs.Internal.KeptWarnings.{joined, no_warnings};
    ghost use Rattle.gj_coords.specs.WarningsStand.{StandsFor as WarningsStandFor};
    ghost use Rattle.gj_coords.specs.SimpleFaults.{least_faults};
    ghost use Rattle.gj_coords.specs.Internal.GatheredWarnings.{all_in};
    ghost use Rattle.gj_coords.specs.CoordinateWarnings.{coordinates_warnings};
    ghost use Rattle.gj_coords.specs.Internal.CoordinatesKept.{coordinates_kept};

    /// No event has come.
    pub fn new() -> Coordinates
        ensures stands { StandsFor result [] }
    {
        Coordinates {
            walk: Walk::new(),
            state: State::Walked,
        }
    }

    /// Begins anew, whatever has come.
    pub fn again(&mut self)
        ensures stands { StandsFor self.new [] }
    {
        self.state = State::Walked;
        self.walk.again();
    }

    /// Takes one event, whatever it is.
    pub fn event(&mut self, event: Event)
        ensures stands { (events : List Event) → StandsFor self.old events → StandsFor self.new (events ++ event ∷ []) }
    {
        self.take(&event);
    }

    /// Takes one event by reference, whatever it is.
    #[inline]
    pub fn take(&mut self, event: &Event)
        ensures stands { (events : List Event) → StandsFor self.old events →
            StandsFor self.new (events ++ event.now ∷ []) }
    {
        self.state = State::Walked;
        self.walk.event(event);
    }

    /// Takes a number, whatever it is.
    #[inline]
    pub fn number(&mut self, place: u64, value: &Option<Decimal>)
        ensures stands { (events : List Event) → StandsFor self.old events →
            StandsFor self.new (events ++ record { place = place; what = Number value.now } ∷ []) }
    {
        self.state = State::Walked;
        self.walk.number(place, value);
    }

    /// Takes the opening bracket of an array.
    #[inline]
    pub fn open_array(&mut self, place: u64)
        ensures stands { (events : List Event) → StandsFor self.old events →
            StandsFor self.new (events ++ record { place = place; what = OpenArray } ∷ []) }
    {
        self.state = State::Walked;
        self.walk.open_array(place);
    }

    /// Takes the closing bracket of an array.
    #[inline]
    pub fn close_array(&mut self, place: u64)
        ensures stands { (events : List Event) → StandsFor self.old events →
            StandsFor self.new (events ++ record { place = place; what = CloseArray } ∷ []) }
    {
        self.state = State::Walked;
        self.walk.close_array(place);
    }

    /// Takes the events of an array of numbers that comes as one [`Flat`].
    #[inline]
    pub fn take_flat(&mut self, flat: &Flat)
        ensures stands { (events : List Event) → StandsFor self.old events →
            StandsFor self.new (events ++ flat_events flat.now) }
    {
        self.ends_by_flat(flat);
    }

    /// Takes the events of an array of numbers, and returns whether they end the value. Mostly an array around them goes on.
    #[inline(always)]
    pub fn ends_by_flat(&mut self, flat: &Flat) -> bool
        ensures stands { (events : List Event) → StandsFor self.old events →
            StandsFor self.new (events ++ flat_events flat.now) }
        ensures at_the_end { (value : Tree) (events rest : List Event) → StandsFor self.new events → events ++ rest ≡ value_events value →
            depth value < 2 ^ 64 → IsTrue result ↔ (rest ≡ []) }
    {
        if self.is_steady_at(flat.place) {
            self.walk.add_steady(flat);
            return false;
        }
        self.take_anywhere(flat);
        self.done()
    }

    /// Takes the events of arrays of two or three numbers, one after another, which come as their cut values: those of the arrays
    /// before the first of which more is asked, and returns how many. It takes none where an array more may change a fault.
    #[inline(never)]
    pub fn take_cuts(&mut self, positions: &[CutPosition]) -> usize
        requires rising { Rise positions.now }
        ensures few { result ≤ length positions.now }
        ensures stands { (flats : List Flat) → AreCutPositions (take result positions.now) flats → (events : List Event) → StandsFor self.old events
            → StandsFor self.new (events ++ flats_events flats) }
        ensures goes_on { (flats : List Flat) → AreCutPositions (take result positions.now) flats → (events : List Event) → StandsFor self.old events
            → NoneEnds events flats }
    {
        if positions.is_empty() || !self.is_steady_at(positions[0].place) {
            return 0;
        }
        self.walk.add_cuts(positions)
    }

    /// Whether a position at this place that comes as one [`Flat`] changes no fault.
    #[inline(always)]
    fn is_steady_at(&self, place: u64) -> bool
        ensures { IsTrue result → (floor : ℕ) × (self.now.state ≡ Steady floor) × (floor < place) }
    {
        match self.state {
            State::Steady(floor) => floor < place,
            _ => false,
        }
    }

    /// Takes the events of an array of numbers, at any depth of the value.
    #[inline(never)]
    fn take_anywhere(&mut self, flat: &Flat)
        ensures stands { (events : List Event) → StandsFor self.old events →
            StandsFor self.new (events ++ flat_events flat.now) }
    {
        match self.walk.stage {
            Stage::Due => {
                self.walk.outer.hold_flat(flat);
                self.walk.stage = Stage::Done;
                self.state = State::Whole;
            }
            _ => match self.walk.take_flat(flat) {
                Some(floor) => self.state = State::Steady(floor),
                None => self.state = State::Walked,
            },
        }
    }

    /// Whether the events are those of a whole value.
    pub fn done(&self) -> bool
        ensures at_the_end { (value : Tree) (events rest : List Event) → StandsFor self.now events → events ++ rest ≡ value_events value →
            depth value < 2 ^ 64 → IsTrue result ↔ (rest ≡ []) }
    {
        self.walk.done()
    }

    /// The least fault of the value as the coordinates of this type.
    pub fn fault(&self, simple: Simple) -> Option<Fault>
        ensures least { (value : Tree) → StandsFor self.now (value_events value) → depth value < 2 ^ 64 →
            result ≡ least (coordinates_faults simple value) }
    {
        match self.state {
            State::Whole => self.walk.outer.held_fault(simple),
            _ => self.walk.fault(simple),
        }
    }

    /// The least fault of the value as the coordinates of each type.
    #[inline]
    pub fn faults(&self, faults: &mut SimpleFaults)
        ensures least { (value : Tree) → StandsFor self.now (value_events value) → depth value < 2 ^ 64 →
            faults.new ≡ least_faults value }
    {
        *faults = SimpleFaults {
            point: self.fault(Simple::Point),
            multi_point: self.fault(Simple::MultiPoint),
            line_string: self.fault(Simple::LineString),
            multi_line_string: self.fault(Simple::MultiLineString),
            polygon: self.fault(Simple::Polygon),
            multi_polygon: self.fault(Simple::MultiPolygon),
        };
    }

    /// The warnings of the value as the coordinates of this type (RFC 7946, sections 3.1, 3.1.1, 3.1.6, 4 and 11.2).
    ///
    /// A position or a linear ring that breaks a rule gives none. The direction of a ring follows from a sum in 128
    /// bits, which is exact where the value has fewer than 2^64 events; [`crate::laws::kept_warnings`] says so of what
    /// is kept.
    pub fn warnings(&self, simple: Simple) -> Warnings
        ensures kept { (value : Tree) → StandsFor self.now (value_events value) → depth value < 2 ^ 64 →
            result ≡ coordinates_kept simple value }
        ensures stands { (value : Tree) → StandsFor self.now (value_events value) → length (value_events value) < 2 ^ 64 →
            WarningsStandFor result (coordinates_warnings simple value) }
    {
        self.warned(simple).all()
    }

    /// Whether a few comparisons show that there are none under any type. Where it returns `false`, there may still be
    /// none.
    #[inline]
    pub fn is_quiet(&self) -> bool
        ensures none { (value : Tree) (simple : Simple) → StandsFor self.now (value_events value) → depth value < 2 ^ 64 → IsTrue result →
            coordinates_kept simple value ≡ no_warnings }
    {
        match self.state {
            State::Whole => self.walk.outer.positions_warned.is_nothing(),
            _ => self.walk.is_quiet(),
        }
    }

    /// Adds these warnings to others. Mostly there are none, and then it does nothing.
    pub fn warn(&self, simple: Simple, warned: &mut Warned)
        ensures kept { (value : Tree) → StandsFor self.now (value_events value) → depth value < 2 ^ 64 →
            all_in warned.new ≡ joined (all_in warned.old) (coordinates_kept simple value) }
    {
        warned.take(&self.warned(simple));
    }

    /// What deserves a warning in the value as the coordinates of this type.
    fn warned(&self, simple: Simple) -> Warned
        ensures { (value : Tree) → StandsFor self.now (value_events value) → depth value < 2 ^ 64 → all_in result ≡ coordinates_kept simple value }
    {
        match self.state {
            State::Whole => self.walk.outer.held_warned(simple),
            _ => self.walk.warned(simple),
        }
    }
}
