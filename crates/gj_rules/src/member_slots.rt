//! What the members of an open object have shown of it.
ghost use Rattle.std.specs.Prelude.{◌≡◌};

mod lost;
mod member_rules;
mod settle;
mod sound;

use crate::role::Role;
use crate::shapes::{Shapes, simple_of};
use gj_coords::{Coordinates, Fault, Rule, Simple, lesser_fault};
use gj_json::{Known, Word};

/// How many names have a slot: the known ones.
const NAMES: usize = 8;

/// The first member of a name.
#[derive(Clone, Copy, PartialEq, Eq)]
pub struct Slot {
    pub name_at: u64,
    /// The least fault of its value so far.
    pub fault: Option<Fault>,
}

/// The value of the first `type`.
#[derive(Clone, Copy, PartialEq, Eq)]
pub struct TypeValue {
    pub place: u64,
    pub word: Word,
}

/// For which types is kept what is found in the first `coordinates`.
#[derive(Clone, Copy, PartialEq, Eq)]
pub enum Shaped {
    /// For none: none has come, or none whose type asks for it.
    No,
    /// For the object's type, which had come before.
    One,
    /// For each, since the type had not come.
    Each,
}

/// What an open object with a role has shown so far.
///
/// Its `type` may come last. So the first member of each known name is kept with the least fault of
/// its value, and of `coordinates` what is found for each type where the type has not come before them.
#[derive(Clone, Copy)]
pub struct MemberSlots {
    pub place: u64,
    pub role: Role,
    /// The least place of a repeated name.
    pub repeated: Option<u64>,
    pub type_value: Option<TypeValue>,
    pub shapes: Shapes,
    /// What of `shapes` was set: the rest does not count.
    pub shaped: Shaped,
    /// The names of which a member has come, a bit for each: what is kept of the others does not count.
    pub present: u8,
    /// Of these, those whose first member has a fault in its value.
    pub faulty: u8,
    /// Where the first member's name stands, by the place of the name among the names.
    pub names_at: [u64; NAMES],
    /// The least fault of its value so far, where it has one.
    pub faults: [Fault; NAMES],
}

impl MemberSlots {
    ghost use Rattle.std.specs.Prelude.{◌<◌, ◌≤◌, IsTrue};
    ghost use Rattle.gj_rules.specs.Members.{is_known};
    ghost use Rattle.gj_json.specs.Tree.{Tree, depth};
    ghost use Rattle.gj_json.specs.Events.{value_events};
    ghost use Rattle.gj_rules.specs.Levels.{most_levels};
    ghost use Rattle.gj_rules.specs.Internal.FrameReading.{counted_slot, slots_in};
    ghost use Rattle.gj_rules.specs.Internal.Summaries.{StandsForCoordinates, shapes_of, asked, asked_as};
    ghost use Rattle.gj_rules.specs.Internal.OpenMembers.{blank, slot_of, with_slot, joined, named, named_known, due_after, due_known, repeated_at, used};
    ghost use Rattle.gj_rules.specs.Internal.OpenMembers.{type_set, shapes_set};

    /// Of an object that opens at this place.
    #[tactic(auto, unfolding(crate::specs::Internal::FrameReading::slot_in))]
    pub fn new(role: Role, place: u64) -> Self
        ensures { slots_in result ≡ blank role place }
    {
        let fault = Fault {
            place: 0,
            rule: Rule::G1,
        };
        MemberSlots {
            place,
            role,
            repeated: None,
            type_value: None,
            shapes: Shapes::none(),
            shaped: Shaped::No,
            present: 0,
            faulty: 0,
            names_at: [0; NAMES],
            faults: [fault; NAMES],
        }
    }

    /// Of another object that opens, whatever was shown: what is written is all that is looked at.
    #[tactic(auto, unfolding(crate::specs::Internal::FrameReading::slot_in))]
    #[inline]
    pub fn again(&mut self, role: Role, place: u64)
        ensures { slots_in self.new ≡ blank role place }
    {
        self.place = place;
        self.role = role;
        self.repeated = None;
        self.type_value = None;
        self.shaped = Shaped::No;
        self.present = 0;
        self.faulty = 0;
    }

    /// The first member of a name, where there is one.
    #[inline(always)]
    pub fn slot(&self, name: Known) -> Option<Slot>
        ensures { result ≡ slot_of name (slots_in self.now) }
    {
        let index = name as usize;
        if index < NAMES && self.present >> index & 1 == 1 {
            Some(self.counted_slot(index))
        } else {
            None
        }
    }

    /// The slot at this place, with its fault where one counts.
    #[inline(always)]
    fn counted_slot(&self, index: usize) -> Slot
        requires { index < NAMES }
        ensures { result ≡ counted_slot self.now.faulty self.now.names_at self.now.faults index }
    {
        Slot {
            name_at: self.names_at[index],
            fault: if self.faulty >> index & 1 == 1 {
                Some(self.faults[index])
            } else {
                None
            },
        }
    }

    #[inline(always)]
    fn set_slot(&mut self, name: Known, slot: Slot)
        requires { IsTrue (is_known name) }
        ensures { slots_in self.new ≡ with_slot name slot (slots_in self.old) }
    {
        let index = name as usize;
        self.present |= 1 << index;
        self.names_at[index] = slot.name_at;
        match slot.fault {
            Some(fault) => {
                self.faults[index] = fault;
                self.faulty |= 1 << index;
            }
            None => self.faulty &= !(1 << index),
        }
    }

    /// Adds a fault of the value of the first member `name`.
    #[inline]
    pub fn join(&mut self, name: Known, fault: Option<Fault>)
        ensures { slots_in self.new ≡ joined name fault (slots_in self.old) }
    {
        if fault.is_some() {
            self.join_some(name, fault);
        }
    }

    #[inline(never)]
    fn join_some(&mut self, name: Known, fault: Option<Fault>)
        ensures { slots_in self.new ≡ joined name fault (slots_in self.old) }
    {
        if let Some(slot) = self.slot(name) {
            let joined = Slot {
                name_at: slot.name_at,
                fault: lesser_fault(slot.fault, fault),
            };
            self.set_slot(name, joined);
        }
    }

    /// Sets the value of the first `type`.
    pub fn set_type(&mut self, place: u64, word: Word)
        ensures { slots_in self.new ≡ type_set place word (slots_in self.old) }
    {
        self.type_value = Some(TypeValue { place, word });
    }

    /// Sets what is found in the value of the first `coordinates`: for the object's type, or for each where it has not come.
    pub fn set_shapes(&mut self, summary: &Coordinates)
        ensures { (value : Tree) → depth value ≤ most_levels → StandsForCoordinates summary.now (value_events value)
            → slots_in self.new ≡ shapes_set (asked (slots_in self.old).type_value (shapes_of value)) (slots_in self.old) }
    {
        match self.type_value {
            Some(value) => self.set_shape(simple_of(value.word), summary),
            None => {
                self.shapes.set(summary);
                self.shaped = Shaped::Each;
            }
        }
    }

    /// Sets it for one type.
    #[inline]
    fn set_shape(&mut self, simple: Option<Simple>, summary: &Coordinates)
        ensures { (value : Tree) → depth value ≤ most_levels → StandsForCoordinates summary.now (value_events value)
            → slots_in self.new ≡ shapes_set (asked_as simple (shapes_of value)) (slots_in self.old) }
    {
        match simple {
            Some(simple) => {
                self.shapes.set_one(simple, summary);
                self.shaped = Shaped::One;
            }
            None => self.shaped = Shaped::No,
        }
    }

    /// Takes a name, and returns as the first member of which name its value is to be checked:
    /// `Other` where it is not.
    // In each arm the name is a constant, so that what is done for it is all that is left of the rest.
    #[inline(always)]
    pub fn name(&mut self, name: Known, place: u64) -> Known
        ensures slots { slots_in self.new ≡ named name place (slots_in self.old) }
        ensures due { result ≡ due_after name (slots_in self.old) }
    {
        match name {
            Known::TypeName => self.known_name(Known::TypeName, place),
            Known::Coordinates => self.known_name(Known::Coordinates, place),
            Known::Geometries => self.known_name(Known::Geometries, place),
            Known::Geometry => self.known_name(Known::Geometry, place),
            Known::Properties => self.known_name(Known::Properties, place),
            Known::Features => self.known_name(Known::Features, place),
            Known::Bbox => self.known_name(Known::Bbox, place),
            Known::Id => self.known_name(Known::Id, place),
            Known::Crs | Known::Other => Known::Other,
        }
    }

    /// Takes a name that an object should have once.
    #[inline(always)]
    fn known_name(&mut self, name: Known, place: u64) -> Known
        requires { IsTrue (is_known name) }
        ensures slots { slots_in self.new ≡ named_known name place (slot_of name (slots_in self.old)) (slots_in self.old) }
        ensures due { result ≡ due_known name (slot_of name (slots_in self.old)) self.old.role }
    {
        match self.slot(name) {
            Some(_) => self.repeated_name(place),
            None => self.first_name(name, place),
        }
    }

    #[inline(never)]
    fn repeated_name(&mut self, place: u64) -> Known
        ensures slots { slots_in self.new ≡ repeated_at place (slots_in self.old) }
        ensures due { result ≡ Known.Other }
    {
        self.repeated = match self.repeated {
            Some(least) => Some(least.min(place)),
            None => Some(place),
        };
        Known::Other
    }

    #[inline(always)]
    fn first_name(&mut self, name: Known, place: u64) -> Known
        requires { IsTrue (is_known name) }
        ensures slots { slots_in self.new ≡ with_slot name (record { name_at = place; fault = None }) (slots_in self.old) }
        ensures due { result ≡ used self.old.role name }
    {
        let slot = Slot {
            name_at: place,
            fault: None,
        };
        self.set_slot(name, slot);
        if self.role.uses(name) {
            name
        } else {
            Known::Other
        }
    }

    /// Whether a name `geometry` that comes next is the first one, and its value is looked at.
    #[inline(always)]
    pub fn awaits_geometry(&self) -> bool
        ensures { IsTrue result → due_after Known.Geometry (slots_in self.now) ≡ Known.Geometry }
    {
        match self.slot(Known::Geometry) {
            Some(_) => false,
            None => self.role.uses(Known::Geometry),
        }
    }
}
