//! Arrays of positions: what lines and linear rings have in common (RFC 7946, sections 3.1.4 and 3.1.6).
ghost use Rattle.std.specs.Prelude.{◌≡◌};
ghost use Rattle.gj_coords.specs.Internal.PositionsGather.{role_behind, runs_wrong};

use crate::cuts::{self, AddedCuts, PreciseNumbers};
use crate::fault::{Fault, Rule, join_fault, lesser_fault};
use crate::flat;
use crate::kind::Kind;
use crate::position::{Numbers, Values, misshapen};
use crate::tally::Tally;
use crate::warned::Warned;
use crate::winding::{Corner, Turn, Winding};
use gj_json::{CutPosition, Flat};

/// The least number of positions of a linear ring.
const NEEDED: u8 = 4;

/// What an array of positions gathers: its least fault, and what deserves a warning in it. Where there is no fault,
/// also the values of its first position, whether its last position has the same, and how the positions run.
#[derive(Clone, Copy)]
pub struct Positions {
    pub first: Option<Values>,
    pub winding: Winding,
    pub warned: Warned,
    pub fault: Option<Fault>,
    pub closes: bool,
}

/// What a linear ring is in a polygon (RFC 7946, section 3.1.6).
#[derive(Clone, Copy)]
pub enum RingRole {
    Exterior,
    Hole,
}

impl RingRole {
    /// The role of a ring after this many others.
    pub fn behind(others: u8) -> RingRole
        ensures { result ≡ role_behind others }
    {
        if others == 0 {
            RingRole::Exterior
        } else {
            RingRole::Hole
        }
    }

    /// Whether a ring that runs so runs the wrong way.
    fn runs_wrong(self, turn: &Turn) -> bool
        ensures { result ≡ runs_wrong self turn.now }
    {
        match self {
            RingRole::Exterior => turn.wrong_for_exterior(),
            RingRole::Hole => turn.wrong_for_hole(),
        }
    }
}

impl Positions {
    ghost use Rattle.std.specs.Prelude.{◌≡◌, ◌≤◌, List, length, take, false, Some, None};
    ghost use Rattle.gj_json.specs.declared.flat.Flat.{Flat};
    ghost use Rattle.gj_json.specs.CutPosition.{AreCutPositions};
    ghost use Rattle.gj_coords.specs.declared.position.Values.{Values};
    ghost use Rattle.gj_coords.specs.Internal.AddedPositions.{positions_added};
    ghost use Rattle.gj_coords.specs.Internal.WindingGather.{turn_in};
    ghost use Rattle.gj_coords.specs.Internal.PositionGather.{position_closed};
    ghost use Rattle.gj_coords.specs.Internal.FlatPosition.{flat_position, flat_values};
    ghost use Rattle.gj_coords.specs.Internal.PositionsGather.{no_positions, position_added, misshapen_added, sound_joined, ring_closed, ring_noted};

    pub fn none() -> Positions
        ensures { result ≡ no_positions }
    {
        Positions {
            first: None,
            winding: Winding::none(),
            warned: Warned::none(),
            fault: None,
            closes: true,
        }
    }

    pub fn clear(&mut self)
        ensures { self.new ≡ no_positions }
    {
        self.first = None;
        self.winding = Winding::none();
        self.warned.clear();
        self.fault = None;
        self.closes = true;
    }

    /// Adds a position by what it gathered.
    pub fn add(&mut self, position: &Numbers)
        ensures { self.new ≡ position_added self.old (position_closed position.now) }
    {
        let fault = position.least_fault();
        if fault.is_some() {
            join_fault(&mut self.fault, fault);
            return;
        }
        let corner = position.values.corner();
        position.warn(&corner, &mut self.warned);
        if self.fault.is_none() {
            self.add_sound(&position.values, corner);
        }
    }

    /// Adds a position that comes as one [`Flat`].
    #[inline(always)]
    pub fn add_flat(&mut self, position: &Flat)
        ensures { self.new ≡ position_added self.old (flat_position position.now) }
    {
        let corner = flat::judge(position, &mut self.warned);
        if self.fault.is_none() {
            self.add_sound_flat(position, corner);
        }
    }

    /// Adds such a position without a fault after others without one.
    #[inline(always)]
    fn add_sound_flat(&mut self, position: &Flat, corner: Option<Corner>)
        ensures { self.new ≡ sound_joined self.old (flat_values position.now) corner }
    {
        match &self.first {
            Some(first) => self.closes = flat::has_values(position, first),
            None => {
                flat::keep_values(position, &mut self.first);
                self.closes = true;
            }
        }
        self.winding.add(corner);
    }

    /// Adds a position without a fault after others without one.
    #[inline(always)]
    fn add_sound(&mut self, values: &Values, corner: Option<Corner>)
        ensures { self.new ≡ sound_joined self.old values.now corner }
    {
        match &self.first {
            Some(first) => self.closes = *first == *values,
            None => {
                self.first = Some(*values);
                self.closes = true;
            }
        }
        self.winding.add(corner);
    }

    /// Adds positions that come as their cut values, up to the first that is out of range or may have the values of the first
    /// of all: how many. It adds none where that one is out of range.
    pub fn add_cuts(&mut self, positions: &[CutPosition]) -> usize
        ensures few { result ≤ length positions.now }
        ensures added { (flats : List Flat) → AreCutPositions (take result positions.now) flats → self.new ≡ positions_added self.old flats }
    {
        if self.fault.is_some() {
            return 0;
        }
        let Some(first) = &self.first else {
            return 0;
        };
        let Some(start) = first.corner() else {
            return 0;
        };
        let Some(sum) = self.winding.running_sum() else {
            return 0;
        };
        let most = cuts::at_once(positions);
        let mut added = AddedCuts {
            sum,
            precise: PreciseNumbers::none(),
        };
        let mut at = 0;
        while at < most && added.adds(&positions[at], &start) {
            at += 1;
        }
        if at > 0 {
            self.closes = false;
            self.winding.set_running_sum(&added.sum);
            added.precise.note(&mut self.warned);
        }
        at
    }

    /// Adds a value that is no array.
    pub fn add_misshapen(&mut self, place: u64)
        ensures { self.new ≡ misshapen_added self.old place }
    {
        join_fault(&mut self.fault, misshapen(place));
    }

    /// Notes what deserves a warning in these positions as a linear ring at this place that has this least fault.
    pub fn warn_ring(&self, role: RingRole, place: u64, fault: &Option<Fault>, warned: &mut Warned)
        ensures { warned.new ≡ ring_noted role warned.old place fault.now (turn_in self.now.winding) self.now.warned }
    {
        if fault.is_none() && role.runs_wrong(&self.winding.turn()) {
            warned.note(Kind::W2, place);
        }
        warned.take(&self.warned);
    }

    /// The least fault of these positions as a linear ring.
    pub fn ring_fault(&self, tally: &Tally) -> Option<Fault>
        ensures { result ≡ ring_closed tally.now self.now }
    {
        let few = tally.few(NEEDED, Rule::G14);
        if self.fault.is_none() && !self.closes {
            let unclosed = Fault {
                place: tally.place,
                rule: Rule::G15,
            };
            lesser_fault(few, Some(unclosed))
        } else {
            lesser_fault(few, self.fault)
        }
    }
}
