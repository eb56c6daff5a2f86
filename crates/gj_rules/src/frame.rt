//! What is kept of an open object with a role.
ghost use Rattle.std.specs.Prelude.{◌≡◌, IsTrue};

mod settle;

use crate::findings::Findings;
use crate::member_slots::MemberSlots;
use crate::member_warnings::MemberWarnings;
use crate::role::Role;
use gj_coords::{Coordinates, Fault, Warned};
use gj_json::{Known, Word};
use std::mem::size_of;

/// An open object with a role. Its `type` may come last.
#[derive(Clone, Copy)]
pub struct Frame {
    pub slots: MemberSlots,
    pub gathered: MemberWarnings,
}

// At most 200 integers of 8 bytes for each open object with a role.
const _: () = prove!(size_of::<Frame>() <= 1600);

impl Frame {
    ghost use Rattle.gj_coords.specs.Internal.GatheredWarnings.{all_in};
    ghost use Rattle.std.specs.Prelude.{◌≤◌};
    ghost use Rattle.gj_json.specs.Tree.{Tree, depth};
    ghost use Rattle.gj_json.specs.Events.{value_events};
    ghost use Rattle.gj_rules.specs.Levels.{most_levels};
    ghost use Rattle.gj_rules.specs.Internal.FrameReading.{frame_in, found_in};
    ghost use Rattle.gj_rules.specs.Internal.Summaries.{StandsForCoordinates, shapes_of, asked};
    ghost use Rattle.gj_rules.specs.Internal.FrameCalls.{blank, joined, warned, taken_in, named, due_after, type_set, shapes_set};

    /// Of an object that opens at this place.
    pub fn new(role: Role, place: u64) -> Self
        ensures { frame_in result ≡ blank role place }
    {
        Frame {
            slots: MemberSlots::new(role, place),
            gathered: MemberWarnings::none(),
        }
    }

    /// Of another object that opens, whatever was kept: the few fields are written that say which others count.
    #[inline]
    pub fn again(&mut self, role: Role, place: u64)
        ensures { frame_in self.new ≡ blank role place }
    {
        self.slots.again(role, place);
        self.gathered.clear();
    }

    /// The object's role.
    pub fn role(&self) -> Role
        ensures { result ≡ self.now.slots.role }
    {
        self.slots.role
    }

    /// Takes a name, and returns as the first member of which name its value is to be checked:
    /// `Other` where it is not.
    // Callers mostly pass a constant, so that the compiler keeps one arm.
    #[inline(always)]
    pub fn name(&mut self, name: Known, place: u64) -> Known
        ensures frame { frame_in self.new ≡ named name place (frame_in self.old) }
        ensures due { result ≡ due_after name (frame_in self.old) }
    {
        match name {
            Known::Crs => self.crs_name(place),
            _ => self.slots.name(name, place),
        }
    }

    /// Takes a name `crs`, each of which is worth a warning.
    // It is seldom called, and saves what a call in it asks for from the other names.
    #[inline(never)]
    fn crs_name(&mut self, place: u64) -> Known
        ensures frame { frame_in self.new ≡ named Known.Crs place (frame_in self.old) }
        ensures due { result ≡ due_after Known.Crs (frame_in self.old) }
    {
        self.gathered.note_crs(place);
        self.slots.name(Known::Crs, place)
    }

    /// Whether a name `geometry` that comes next is the first one, and its value is looked at.
    #[inline(always)]
    pub fn awaits_geometry(&self) -> bool
        ensures { IsTrue result → due_after Known.Geometry (frame_in self.now) ≡ Known.Geometry }
    {
        self.slots.awaits_geometry()
    }

    /// Adds a fault of the value of the first member `name`.
    pub fn join(&mut self, name: Known, fault: Option<Fault>)
        ensures { frame_in self.new ≡ joined name fault (frame_in self.old) }
    {
        self.slots.join(name, fault);
    }

    /// Adds warnings of the value of the first member `name`.
    pub fn warn(&mut self, name: Known, warnings: &Warned)
        ensures { frame_in self.new ≡ warned name (all_in warnings.now) (frame_in self.old) }
    {
        self.gathered.join(name, warnings);
    }

    /// Adds what is found in the value of the first member `name`, or in an element of it.
    pub fn take(&mut self, name: Known, found: &Findings)
        ensures { frame_in self.new ≡ taken_in name (found_in found.now) (frame_in self.old) }
    {
        self.join(name, found.fault);
        self.warn(name, &found.warned);
    }

    /// Sets the value of the first `type`.
    pub fn set_type(&mut self, place: u64, word: Word)
        ensures { frame_in self.new ≡ type_set place word (frame_in self.old) }
    {
        self.slots.set_type(place, word);
    }

    /// Sets what is found in the value of the first `coordinates`.
    pub fn set_shapes(&mut self, summary: &Coordinates)
        ensures { (value : Tree) → depth value ≤ most_levels → StandsForCoordinates summary.now (value_events value)
            → frame_in self.new ≡ shapes_set (asked (frame_in self.old).slots.type_value (shapes_of value)) (frame_in self.old) }
    {
        self.slots.set_shapes(summary);
    }
}
