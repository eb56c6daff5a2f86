//! What is found in a text event by event.
use crate::coords::sample::tell_parts;
use gj_coords::{Coordinates, Fault, Simple, Warnings};
use gj_json::{Event, EventSink, What};

/// The six types whose value is made of positions.
pub const SIX: [Simple; 6] = [
    Simple::Point,
    Simple::MultiPoint,
    Simple::LineString,
    Simple::MultiLineString,
    Simple::Polygon,
    Simple::MultiPolygon,
];

/// The least faults as each of the six types, in the order of `Simple`.
pub type Row = [Option<Fault>; 6];

/// The warnings as each of the six types, in the same order.
pub type WarnedRow = [Warnings; 6];

pub fn faults_of(walk: &Coordinates) -> Row {
    let mut row = [None; 6];
    for (found, simple) in row.iter_mut().zip(SIX) {
        *found = walk.fault(simple);
    }
    row
}

pub fn warnings_of(walk: &Coordinates) -> WarnedRow {
    let mut row = [Warnings::none(); 6];
    for (found, simple) in row.iter_mut().zip(SIX) {
        *found = walk.warnings(simple);
    }
    row
}

/// The walk, given each event by itself, a number by its value.
#[derive(Drop)]
pub struct Walked {
    pub walk: Coordinates,
    /// Whether it was done before the last event.
    pub early: bool,
}

impl Walked {
    /// The result for the text that has these parts in turn, each repeated as its number says.
    pub fn of(parts: &[(&[u8], u32)]) -> Walked {
        let mut walked = Walked {
            walk: Coordinates::new(),
            early: false,
        };
        tell_parts(parts, &mut walked);
        walked
    }

    pub fn of_text(text: &str) -> Walked {
        Walked::of(&[(text.as_bytes(), 1)])
    }
}

impl EventSink for Walked {
    ghost heard = { λ walked events. Unit {0} };

    fn tell(&mut self, event: Event) {
        self.early = self.early || self.walk.done();
        match &event.what {
            What::Number(value) => self.walk.number(event.place, value),
            _ => self.walk.event(event),
        }
    }

    fn ignored(&self) -> u16 {
        0
    }

    fn pass(&mut self, _left: u16) {}
}
