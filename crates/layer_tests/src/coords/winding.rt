//! Rows of rings and how they run, each as an exterior ring and as a hole of one polygon.
use crate::checks::equal;
use gj_coords::{Coordinates, Kind, Simple};
use gj_json::{Event, EventSink, Limits, Reader};

/// How a ring runs.
#[derive(Clone, Copy, Debug, PartialEq, Eq)]
enum Turn {
    /// Counterclockwise: wrong for a hole.
    Left,
    /// Clockwise: wrong for an exterior ring.
    Right,
    /// Around no area, or with a position out of range: wrong for neither.
    Neither,
}

/// Gives each event to coordinates.
#[derive(Drop)]
struct Told {
    coordinates: Coordinates,
}

impl EventSink for Told {
    ghost heard = { λ told events. Unit {0} };

    fn tell(&mut self, event: Event) {
        self.coordinates.event(event);
    }

    fn ignored(&self) -> u16 {
        0
    }

    fn pass(&mut self, _left: u16) {}
}

/// The direction of the ring that has these pieces in turn, each repeated as its number says.
fn told_turn(pieces: &[(&'static str, u32)]) -> Turn {
    let mut told = Told {
        coordinates: Coordinates::new(),
    };
    let mut reader = Reader::new(Limits::usual());
    for around in ["[", ",", "]"] {
        let _ = reader.feed(around.as_bytes(), &mut told);
        if around == "]" {
            break;
        }
        for (piece, times) in pieces {
            for _ in 0..*times {
                let _ = reader.feed(piece.as_bytes(), &mut told);
            }
        }
    }
    match told.coordinates.warnings(Simple::Polygon).first(Kind::W2) {
        None => Turn::Neither,
        Some(1) => Turn::Right,
        Some(_) => Turn::Left,
    }
}

fn turn_of(text: &'static str) -> Turn {
    told_turn(&[(text, 1)])
}

static RINGS: [(&str, Turn); 10] = [
    ("[]", Turn::Neither),
    ("[[1,2]]", Turn::Neither),
    ("[[0,0],[1,0],[1,1],[0,1],[0,0]]", Turn::Left),
    ("[[0,0],[0,1],[1,1],[1,0],[0,0]]", Turn::Right),
    ("[[-3,-3],[-2,-3],[-2,-2],[-3,-2],[-3,-3]]", Turn::Left),
    ("[[0,0],[1,1],[2,2],[0,0]]", Turn::Neither),
    (
        "[[0,0],[1,0],[1,1],[0,1],[0,0],[0,1],[1,1],[1,0],[0,0]]",
        Turn::Neither,
    ),
    // The numbers are cut to seven places.
    (
        "[[0,0],[0.00000009,0],[0.00000009,0.00000009],[0,0]]",
        Turn::Neither,
    ),
    (
        "[[0,0],[0.0000001,0],[0.0000001,0.0000001],[0,0]]",
        Turn::Left,
    ),
    // Only the first two numbers count.
    ("[[0,0,9],[1,0,-9],[1,1,1e40],[0,0,9]]", Turn::Left),
];

#[test]
fn rings(rt: HostRuntime) {
    for (text, expected) in RINGS.iter() {
        equal(&rt, turn_of(text), *expected, text);
    }
}

static RANGES: [(&str, Turn); 16] = [
    (
        "[[180,90],[-180,90],[-180,-90],[180,-90],[180,90]]",
        Turn::Left,
    ),
    (
        "[[180.00000009,90.00000009],[-180.00000009,-90.00000009],[0,0]]",
        Turn::Neither,
    ),
    ("[[181,0],[1,0],[1,1],[0,1]]", Turn::Neither),
    ("[[0,0],[1,0],[181,0],[1,1],[0,0]]", Turn::Neither),
    ("[[0,0],[1,0],[1,1],[181,0]]", Turn::Neither),
    ("[[180.0000001,90]]", Turn::Neither),
    ("[[-180.0000001,90]]", Turn::Neither),
    ("[[180,90.0000001]]", Turn::Neither),
    ("[[180,-90.0000001]]", Turn::Neither),
    ("[[90,180]]", Turn::Neither),
    ("[[1e10,0]]", Turn::Neither),
    ("[[0,-1e10]]", Turn::Neither),
    ("[[1e401,0]]", Turn::Neither),
    ("[[0,1e401]]", Turn::Neither),
    ("[[0]]", Turn::Neither),
    ("[[]]", Turn::Neither),
];

#[test]
fn ranges(rt: HostRuntime) {
    for (text, expected) in RANGES.iter() {
        equal(&rt, turn_of(text), *expected, text);
    }
}

/// The four corners of the range, the last position, and how the ring of them runs.
static LONG_RINGS: [(&str, &str, Turn); 2] = [
    (
        "[-180,-90],[180,-90],[180,90],[-180,90],",
        "[-180,-90]]",
        Turn::Left,
    ),
    (
        "[-180,90],[180,90],[180,-90],[-180,-90],",
        "[-180,90]]",
        Turn::Right,
    ),
];

/// The four corners of the range many times over.
#[test]
fn long_rings(rt: HostRuntime) {
    for (corners, last, expected) in LONG_RINGS.iter() {
        let turn = told_turn(&[("[", 1), (corners, 100_000), (last, 1)]);
        equal(&rt, turn, *expected, corners);
    }
}
