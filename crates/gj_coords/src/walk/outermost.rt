//! The value of `coordinates` itself, as each of the six types.
use crate::fault::{Fault, join_fault};
use crate::kind::Kind;
use crate::position::{Numbers, misshapen};
use crate::ring::RingRole;
use crate::simple::Simple;
use crate::tally::line_fault;
use crate::walk::level::Level;
use crate::warned::Warned;
use crate::{cuts, flat};
use gj_json::{CutPosition, Event, Flat};

/// What the whole value gathers of its elements: as numbers; and, as positions, as lines, as linear rings and as
/// polygons, their least fault and what deserves a warning in them.
#[derive(Clone, Copy)]
pub struct Outermost {
    pub numbers: Numbers,
    pub positions_warned: Warned,
    pub lines_warned: Warned,
    pub rings_warned: Warned,
    pub polygons_warned: Warned,
    pub positions: Option<Fault>,
    pub lines: Option<Fault>,
    pub rings: Option<Fault>,
    pub polygons: Option<Fault>,
}

impl Outermost {
    ghost use Rattle.std.specs.Prelude.{◌≡◌, ◌≤◌, List, length, take};
    ghost use Rattle.gj_json.specs.declared.flat.Flat.{Flat};
    ghost use Rattle.gj_json.specs.CutPosition.{AreCutPositions};
    ghost use Rattle.gj_coords.specs.Internal.AddedPositions.{all_first};
    ghost use Rattle.gj_coords.specs.Internal.SteadyWalk.{IsCounted, first_steady};
    ghost use Rattle.gj_coords.specs.Internal.FlatPosition.{flat_second, flat_held, held_fault, held_warned};
    ghost use Rattle.gj_coords.specs.Internal.LevelGather.{second_gathering, first_gathering, fault_in, some_fault_in, warned_in, some_warned_in};
    ghost use Rattle.gj_coords.specs.Internal.LevelGather.{point_warned_in, some_quiet_in, quiet_in};

    pub fn new() -> Outermost
        ensures { result ≡ first_gathering.opened 0 }
    {
        Outermost {
            numbers: Numbers::none(),
            positions_warned: Warned::none(),
            lines_warned: Warned::none(),
            rings_warned: Warned::none(),
            polygons_warned: Warned::none(),
            positions: None,
            lines: None,
            rings: None,
            polygons: None,
        }
    }

    /// Begins an array at the place, whatever was gathered before.
    pub fn open(&mut self, place: u64)
        ensures { self.new ≡ first_gathering.opened place }
    {
        self.numbers.clear(place);
        self.positions_warned.clear();
        self.lines_warned.clear();
        self.rings_warned.clear();
        self.polygons_warned.clear();
        self.positions = None;
        self.lines = None;
        self.rings = None;
        self.polygons = None;
    }

    /// Adds an element that is an array, by what it gathered.
    pub fn add_level(&mut self, element: &Level)
        ensures { self.new ≡ first_gathering.added self.old (second_gathering.closed element.now) }
    {
        let place = element.numbers.tally.place;
        let position = element.numbers.least_fault();
        let ring = element.ring_fault();
        let role = RingRole::behind(self.numbers.tally.count);
        element
            .numbers
            .warn_as(&position, &mut self.positions_warned);
        self.lines_warned.take(&element.positions.warned);
        element
            .positions
            .warn_ring(role, place, &ring, &mut self.rings_warned);
        self.polygons_warned.take(&element.rings_warned);
        self.numbers.add_array(place);
        join_fault(&mut self.positions, position);
        join_fault(&mut self.lines, element.line_fault());
        join_fault(&mut self.rings, ring);
        join_fault(&mut self.polygons, element.rings);
    }

    /// Adds an element that is a position and comes as one [`Flat`].
    #[inline]
    pub fn add_flat(&mut self, position: &Flat)
        ensures { self.new ≡ first_gathering.added self.old (flat_second position.now) }
    {
        let misshapen = flat::misshapen_numbers(position);
        flat::judge(position, &mut self.positions_warned);
        self.numbers.add_array(position.place);
        join_fault(&mut self.lines, misshapen);
        join_fault(&mut self.rings, flat::ring_fault(position));
        join_fault(&mut self.polygons, misshapen);
    }

    /// Adds such an element where it changes no fault.
    #[inline(always)]
    pub fn add_steady(&mut self, position: &Flat)
        ensures { IsCounted self.old.numbers → self.new ≡ first_steady position.now self.old }
    {
        self.numbers.count_array();
        flat::judge(position, &mut self.positions_warned);
    }

    /// Adds such elements that come as their cut values, up to the first of which more is asked, where they change no
    /// fault: how many.
    pub fn add_cuts(&mut self, positions: &[CutPosition]) -> usize
        ensures few { result ≤ length positions.now }
        ensures added { (flats : List Flat) → AreCutPositions (take result positions.now) flats → IsCounted self.old.numbers
            → self.new ≡ all_first self.old flats }
    {
        let count = cuts::warn_all(positions, &mut self.positions_warned);
        self.numbers.count_arrays(count);
        count
    }

    /// Takes a position that is the whole value and comes as one [`Flat`]: it keeps the least fault of its numbers as
    /// positions, and its own warnings.
    #[inline]
    pub fn hold_flat(&mut self, position: &Flat)
        ensures { self.new ≡ flat_held position.now self.old }
    {
        self.positions = flat::misshapen_numbers(position);
        self.positions_warned.clear();
        flat::judge(position, &mut self.positions_warned);
    }

    /// The least fault of such a value for a type.
    #[inline]
    pub fn held_fault(&self, simple: Simple) -> Option<Fault>
        ensures { result ≡ held_fault simple self.now.positions }
    {
        match simple {
            Simple::Point => None,
            _ => self.positions,
        }
    }

    /// What deserves a warning in such a value for a type.
    #[inline]
    pub fn held_warned(&self, simple: Simple) -> Warned
        ensures { result ≡ held_warned simple self.now.positions_warned }
    {
        match simple {
            Simple::Point => self.positions_warned,
            _ => Warned::none(),
        }
    }

    /// Adds an element that is no array, by its first event.
    pub fn add_other(&mut self, head: &Event)
        ensures { self.new ≡ first_gathering.added self.old (second_gathering.otherwise head.now) }
    {
        self.numbers.add_element(head);
        join_fault(&mut self.positions, misshapen(head.place));
        join_fault(&mut self.lines, misshapen(head.place));
        join_fault(&mut self.rings, misshapen(head.place));
        join_fault(&mut self.polygons, misshapen(head.place));
    }

    /// Whether a few comparisons show that nothing deserves a warning for any type. `false` promises nothing.
    #[inline]
    pub fn is_quiet(&self) -> bool
        ensures { result ≡ quiet_in self.now }
    {
        if self.numbers.tally.count == 0 {
            false
        } else {
            self.is_some_quiet()
        }
    }

    /// Whether they show it of an array that is not empty.
    #[inline]
    fn is_some_quiet(&self) -> bool
        ensures { result ≡ some_quiet_in self.now }
    {
        let rings = self.rings_warned.is_nothing() && self.polygons_warned.is_nothing();
        let lines = self.positions_warned.is_nothing() && (self.lines_warned.is_nothing() && rings);
        self.numbers.fault.is_some() && lines
    }

    /// The least fault for a type.
    pub fn fault(&self, simple: Simple) -> Option<Fault>
        ensures { result ≡ fault_in simple self.now }
    {
        if self.numbers.tally.count == 0 {
            None
        } else {
            self.some_fault(simple)
        }
    }

    /// The least fault of an array that is not empty.
    fn some_fault(&self, simple: Simple) -> Option<Fault>
        ensures { result ≡ some_fault_in simple self.now }
    {
        match simple {
            Simple::Point => self.numbers.least_fault(),
            Simple::MultiPoint => self.positions,
            Simple::LineString => line_fault(&self.numbers.tally, self.positions),
            Simple::MultiLineString => self.lines,
            Simple::Polygon => self.rings,
            Simple::MultiPolygon => self.polygons,
        }
    }

    /// What deserves a warning for a type.
    pub fn warned(&self, simple: Simple) -> Warned
        ensures { result ≡ warned_in simple self.now }
    {
        if self.numbers.tally.count == 0 {
            let mut warned = Warned::none();
            warned.note(Kind::W6, self.numbers.tally.place);
            warned
        } else {
            self.some_warned(simple)
        }
    }

    /// What deserves a warning in an array that is not empty.
    fn some_warned(&self, simple: Simple) -> Warned
        ensures { result ≡ some_warned_in simple self.now }
    {
        match simple {
            Simple::Point => self.point_warned(),
            Simple::MultiPoint | Simple::LineString => self.positions_warned,
            Simple::MultiLineString => self.lines_warned,
            Simple::Polygon => self.rings_warned,
            Simple::MultiPolygon => self.polygons_warned,
        }
    }

    fn point_warned(&self) -> Warned
        ensures { result ≡ point_warned_in self.now }
    {
        let mut warned = Warned::none();
        self.numbers
            .warn_as(&self.numbers.least_fault(), &mut warned);
        warned
    }
}
