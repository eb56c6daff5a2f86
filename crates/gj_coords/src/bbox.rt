//! The value of `bbox` (RFC 7946, section 5).
ghost use Rattle.std.specs.Prelude.{◌≡◌};
ghost use Rattle.gj_coords.specs.Internal.BoxElements.{unlike_number, misplaced_at};

mod latitudes;

use crate::bbox::latitudes::{Latitudes, number_in};
use crate::element::Element;
use crate::fault::{Fault, Rule, join_fault, lesser_fault};
use crate::kind::Kind;
use crate::warnings::Warnings;
use gj_json::{Event, What};

/// The least number of elements of a bounding box.
const NEEDED: u8 = 4;

/// What a bounding box gathers of its elements.
#[derive(Clone, Copy)]
pub struct BoxElements {
    /// The least fault of those that are no numbers.
    pub fault: Option<Fault>,
    /// Whether there is an odd number of them.
    pub odd: bool,
    pub latitudes: Latitudes,
}

/// The fault of a value or an element of another kind than is due.
fn misplaced(place: u64) -> Option<Fault>
    ensures { result ≡ misplaced_at place }
{
    Some(Fault {
        place,
        rule: Rule::G20,
    })
}

/// The fault of an element that is no number, by its first event.
fn not_a_number(element: &Event) -> Option<Fault>
    ensures { result ≡ unlike_number element.now.place element.now.what }
{
    match element.what {
        What::Number(_) => None,
        _ => misplaced(element.place),
    }
}

impl BoxElements {
    ghost use Rattle.std.specs.Prelude.{◌≡◌};
    ghost use Rattle.gj_coords.specs.Internal.BoxElements.{no_elements, element_added, taken_at, wrong_length, fault_by, warnings_by};

    /// None has come.
    fn none() -> BoxElements
        ensures { result ≡ no_elements }
    {
        BoxElements {
            fault: None,
            odd: false,
            latitudes: Latitudes::none(),
        }
    }

    /// Takes an event where so many levels are open. Where it is one, this is the first event of an element, or the closing
    /// bracket.
    fn take(&mut self, levels: u64, event: &Event)
        ensures { self.new ≡ taken_at levels self.old event.now }
    {
        match (levels, &event.what) {
            (1, What::CloseArray) => {}
            (1, _) => self.add(event),
            _ => {}
        }
    }

    /// Adds an element by its first event.
    fn add(&mut self, element: &Event)
        ensures { self.new ≡ element_added self.old element.now }
    {
        join_fault(&mut self.fault, not_a_number(element));
        self.odd = !self.odd;
        self.latitudes.add(number_in(&element.what));
    }

    /// The fault of a length that is odd or too small, of the array at this place.
    fn wrong_length(&self, place: u64) -> Option<Fault>
        ensures { result ≡ wrong_length place self.now }
    {
        if self.latitudes.count < NEEDED || self.odd {
            Some(Fault {
                place,
                rule: Rule::G21,
            })
        } else {
            None
        }
    }

    /// The least fault of a value that has these elements, by its first event.
    fn fault_in(&self, value: &Event) -> Option<Fault>
        ensures { result ≡ fault_by value.now.what value.now.place self.now }
    {
        match value.what {
            What::OpenArray => lesser_fault(self.wrong_length(value.place), self.fault),
            _ => misplaced(value.place),
        }
    }

    /// Its warnings.
    fn warnings_in(&self, value: &Event) -> Warnings
        ensures { result ≡ warnings_by value.now.what value.now.place self.now }
    {
        match value.what {
            What::OpenArray if self.latitudes.upside_down() => {
                Warnings::none().add(Kind::W8, value.place)
            }
            _ => Warnings::none(),
        }
    }
}

/// Takes the events of one value of `bbox`, and gives its least fault and its warnings.
///
/// It holds one fixed record, whatever the value. It counts the levels of the value in 64 bits, and promises nothing
/// for a value of 2^64 levels or more.
#[derive(Clone, Copy)]
pub struct Bbox {
    /// The value, which is read past.
    value: Element,
    elements: BoxElements,
}

impl Bbox {
    ghost use Rattle.std.specs.Prelude.{◌≡◌, ◌↔◌, ◌<◌, ◌^◌, ◌++◌, ◌∷◌, List, [], IsTrue};
    ghost use Rattle.gj_json.specs.declared.event.Event.{Event};
    ghost use Rattle.gj_json.specs.Tree.{Tree, depth};
    ghost use Rattle.gj_json.specs.Events.{value_events};
    ghost use Rattle.gj_coords.specs.Fault.{least};
    ghost use Rattle.gj_coords.specs.Box.{bbox_faults};
    ghost use Rattle.gj_coords.specs.Bbox.{StandsFor};
    ghost use Rattle.gj_coords.specs.BoxWarnings.{bbox_warnings};
    ghost use Rattle.gj_coords.specs.WarningsStand.{StandsFor as WarningsStandFor};

    /// No event has come.
    pub fn new() -> Bbox
        ensures stands { StandsFor result [] }
    {
        Bbox {
            value: Element::new(),
            elements: BoxElements::none(),
        }
    }

    /// Takes one event, whatever it is.
    pub fn event(&mut self, event: Event)
        ensures stands { (events : List Event) → StandsFor self.old events → StandsFor self.new (events ++ event ∷ []) }
    {
        self.elements.take(self.value.levels, &event);
        self.value.event(&event);
    }

    /// Whether the events are those of a whole value.
    pub fn done(&self) -> bool
        ensures at_the_end { (value : Tree) (events rest : List Event) → StandsFor self.now events → events ++ rest ≡ value_events value →
            depth value < 2 ^ 64 → IsTrue result ↔ (rest ≡ []) }
    {
        self.value.done()
    }

    /// The least fault of the value as a bounding box.
    pub fn fault(&self) -> Option<Fault>
        ensures least { (value : Tree) → StandsFor self.now (value_events value) → depth value < 2 ^ 64 → result ≡ least (bbox_faults value) }
    {
        self.elements.fault_in(&self.value.first)
    }

    /// The warnings of the value as a bounding box: W8 where its south is above its north.
    pub fn warnings(&self) -> Warnings
        ensures stands { (value : Tree) → StandsFor self.now (value_events value) → depth value < 2 ^ 64 → WarningsStandFor result (bbox_warnings value) }
    {
        self.elements.warnings_in(&self.value.first)
    }
}
