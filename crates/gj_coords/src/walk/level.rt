//! An array in the value of `coordinates`, one or two arrays deep: as a position, as positions, and as linear rings.
use crate::fault::{Fault, join_fault};
use crate::flat;
use crate::position::{Numbers, misshapen};
use crate::ring::{Positions, RingRole};
use crate::tally::line_fault;
use crate::warned::Warned;
use gj_json::{CutPosition, Event, Flat};
use gj_number::Decimal;

/// What an array gathers of its elements: as numbers, as positions, and as the linear rings of a polygon.
///
/// Two arrays deep, nothing is asked of its elements as rings.
#[derive(Clone, Copy)]
pub struct Level {
    pub numbers: Numbers,
    pub positions: Positions,
    pub rings_warned: Warned,
    pub rings: Option<Fault>,
}

impl Level {
    ghost use Rattle.std.specs.Prelude.{◌≡◌, ◌≤◌, List, length, take};
    ghost use Rattle.gj_json.specs.declared.flat.Flat.{Flat};
    ghost use Rattle.gj_json.specs.CutPosition.{AreCutPositions};
    ghost use Rattle.gj_coords.specs.Internal.AddedPositions.{all_steady};
    ghost use Rattle.gj_json.specs.declared.event.What.TheVariants.{Number};
    ghost use Rattle.gj_coords.specs.Internal.SentEvents.{event_at};
    ghost use Rattle.gj_coords.specs.Internal.PositionGather.{position_closed};
    ghost use Rattle.gj_coords.specs.Internal.PositionsGather.{ring_closed};
    ghost use Rattle.gj_coords.specs.Internal.ElementCount.{line_closed};
    ghost use Rattle.gj_coords.specs.Internal.SteadyWalk.{IsCounted, second_steady};
    ghost use Rattle.gj_coords.specs.Internal.FlatPosition.{flat_third};
    ghost use Rattle.gj_coords.specs.Internal.LevelGather.{line_of, third_gathering, second_gathering};

    pub fn new() -> Level
        ensures { result ≡ second_gathering.opened 0 }
    {
        Level {
            numbers: Numbers::none(),
            positions: Positions::none(),
            rings_warned: Warned::none(),
            rings: None,
        }
    }

    /// Begins an array at the place, whatever was gathered before.
    pub fn open(&mut self, place: u64)
        ensures { self.new ≡ second_gathering.opened place }
    {
        self.numbers.clear(place);
        self.positions.clear();
        self.rings_warned.clear();
        self.rings = None;
    }

    /// Adds an element that is an array, by what it gathered.
    pub fn add_level(&mut self, element: &Level)
        ensures { self.new ≡ second_gathering.added self.old (third_gathering.closed (line_of element.now)) }
    {
        let place = element.numbers.tally.place;
        let ring = element.ring_fault();
        let role = RingRole::behind(self.numbers.tally.count);
        element
            .positions
            .warn_ring(role, place, &ring, &mut self.rings_warned);
        self.numbers.add_array(place);
        self.positions.add(&element.numbers);
        join_fault(&mut self.rings, ring);
    }

    /// Adds an element that is an array and can only be a position, by the numbers that it gathered.
    pub fn add_numbers(&mut self, element: &Numbers)
        ensures { line_of self.new ≡ third_gathering.added (line_of self.old) (position_closed element.now) }
    {
        self.numbers.add_array(element.tally.place);
        self.positions.add(element);
    }

    /// Adds an element that is a position and comes as one [`Flat`].
    #[inline]
    pub fn add_flat(&mut self, position: &Flat)
        ensures { self.new ≡ second_gathering.added self.old (flat_third position.now) }
    {
        self.numbers.add_array(position.place);
        self.positions.add_flat(position);
        join_fault(&mut self.rings, flat::ring_fault(position));
    }

    /// Adds such an element where it changes no fault.
    #[inline(always)]
    pub fn add_steady(&mut self, position: &Flat)
        ensures { IsCounted self.old.numbers → self.new ≡ second_steady position.now self.old }
    {
        self.numbers.count_array();
        self.positions.add_flat(position);
    }

    /// Adds such elements that come as their cut values, up to the first of which more is asked, where they change no
    /// fault: how many.
    pub fn add_cuts(&mut self, positions: &[CutPosition]) -> usize
        ensures few { result ≤ length positions.now }
        ensures added { (flats : List Flat) → AreCutPositions (take result positions.now) flats → IsCounted self.old.numbers
            → self.new ≡ all_steady self.old flats }
    {
        let count = self.positions.add_cuts(positions);
        self.numbers.count_arrays(count);
        count
    }

    /// Adds an element that is a number.
    #[inline(always)]
    pub fn add_number(&mut self, place: u64, value: &Option<Decimal>)
        ensures { self.new ≡ second_gathering.added self.old (third_gathering.otherwise (event_at place (Number value.now))) }
    {
        self.numbers.add_value(place, value);
        self.positions.add_misshapen(place);
        join_fault(&mut self.rings, misshapen(place));
    }

    /// Adds an element that is no array, by its first event.
    pub fn add_other(&mut self, head: &Event)
        ensures { self.new ≡ second_gathering.added self.old (third_gathering.otherwise head.now) }
    {
        self.numbers.add_element(head);
        self.positions.add_misshapen(head.place);
        join_fault(&mut self.rings, misshapen(head.place));
    }

    /// The least fault as a line.
    pub fn line_fault(&self) -> Option<Fault>
        ensures { result ≡ line_closed self.now.numbers.tally self.now.positions.fault }
    {
        line_fault(&self.numbers.tally, self.positions.fault)
    }

    /// The least fault as a linear ring.
    pub fn ring_fault(&self) -> Option<Fault>
        ensures { result ≡ ring_closed self.now.numbers.tally self.now.positions }
    {
        self.positions.ring_fault(&self.numbers.tally)
    }
}
