//! Rows of values and their least faults.
mod flat;
mod mixed;
mod walked;
mod warned;
mod watchers;

use crate::checks::holds;
use gj_coords::Rule::{G11, G12, G13, G14, G15, G16};
use gj_coords::{Fault, Rule, Simple};
use std::process::Abort;
use walked::{SIX, Walked};

/// Which rule is broken and where, if any.
type Found = Option<(Rule, u64)>;

fn fault_of(found: &Found) -> Option<Fault> {
    match *found {
        Some((rule, place)) => Some(Fault { place, rule }),
        None => None,
    }
}

/// Tests the faults as the first of the six types.
fn expect_faults(rt: &impl Abort, walked: &Walked, expected: &[Found], name: &str) {
    for (simple, found) in SIX.iter().zip(expected) {
        holds(rt, walked.walk.fault(*simple) == fault_of(found), name);
    }
}

/// Tests the faults as each of the six types, and that it is done at the end and not before.
fn expect(rt: &impl Abort, walked: &Walked, expected: &[Found; 6], name: &str) {
    holds(rt, walked.walk.done() && !walked.early, name);
    expect_faults(rt, walked, expected, name);
}

/// A value, and its faults as each of the six types.
static SHAPES: [(&str, [Found; 6]); 9] = [
    ("[]", [None; 6]),
    ("7", [Some((G11, 0)); 6]),
    ("\"a\"", [Some((G11, 0)); 6]),
    ("null", [Some((G11, 0)); 6]),
    ("{\"a\":[[1,2]]}", [Some((G11, 0)); 6]),
    (
        "[1,2]",
        [
            None,
            Some((G11, 1)),
            Some((G11, 1)),
            Some((G11, 1)),
            Some((G11, 1)),
            Some((G11, 1)),
        ],
    ),
    (
        "[[1,2]]",
        [
            Some((G12, 0)),
            None,
            Some((G13, 0)),
            Some((G11, 2)),
            Some((G14, 1)),
            Some((G11, 2)),
        ],
    ),
    (
        "[[1,2],[3,4]]",
        [
            Some((G11, 1)),
            None,
            None,
            Some((G11, 2)),
            Some((G14, 1)),
            Some((G11, 2)),
        ],
    ),
    (
        "[[]]",
        [
            Some((G12, 0)),
            Some((G12, 1)),
            Some((G13, 0)),
            Some((G13, 1)),
            Some((G14, 1)),
            None,
        ],
    ),
];

#[test]
fn each_shape_as_each_type(rt: HostRuntime) {
    for (text, expected) in SHAPES.iter() {
        expect(&rt, &Walked::of_text(text), expected, text);
    }
}

/// A value, and its faults as each of the first four types.
static LINES: [(&str, [Found; 4]); 5] = [
    (
        "[[1,2],[3]]",
        [
            Some((G11, 1)),
            Some((G12, 7)),
            Some((G12, 7)),
            Some((G11, 2)),
        ],
    ),
    (
        "[1,2,3,{\"a\":[1]}]",
        [
            Some((G11, 7)),
            Some((G11, 1)),
            Some((G11, 1)),
            Some((G11, 1)),
        ],
    ),
    (
        "[1,1e401]",
        [
            Some((G16, 3)),
            Some((G11, 1)),
            Some((G11, 1)),
            Some((G11, 1)),
        ],
    ),
    (
        "[1,2,3,1e401]",
        [None, Some((G11, 1)), Some((G11, 1)), Some((G11, 1))],
    ),
    (
        "[[[1,2]]]",
        [
            Some((G12, 0)),
            Some((G12, 1)),
            Some((G13, 0)),
            Some((G13, 1)),
        ],
    ),
];

#[test]
fn positions_and_lines(rt: HostRuntime) {
    for (text, expected) in LINES.iter() {
        expect_faults(&rt, &Walked::of_text(text), expected, text);
    }
}

/// A value, its type, its fault, and what it is.
static RINGS: [(&str, Simple, Found, &str); 12] = [
    (
        "[[[0,0],[1,0],[1,1],[0,0,0]]]",
        Simple::Polygon,
        Some((G15, 1)),
        "a third number more",
    ),
    (
        "[[[0,0,1,5],[1,0],[1,1],[0,0,1,6]]]",
        Simple::Polygon,
        None,
        "a fourth number is not compared",
    ),
    (
        "[[[0,0],[1,0],[1,1],[1e-8,0]]]",
        Simple::Polygon,
        Some((G15, 1)),
        "equal only when cut",
    ),
    (
        "[[[1.50,0],[2,0],[2,1],[15e-1,-0.0]]]",
        Simple::Polygon,
        None,
        "other spellings",
    ),
    (
        "[[[0,0],[1,\"a\"],[1,1],[2,2]]]",
        Simple::Polygon,
        Some((G11, 11)),
        "a position with a string",
    ),
    (
        "[[[0,0],[1,0],[1,1],[0,1e401]]]",
        Simple::Polygon,
        Some((G16, 23)),
        "a number that is not held",
    ),
    (
        "[[],[[[0,0],[1,0],[1,1],[0,1]]]]",
        Simple::MultiPolygon,
        Some((G15, 5)),
        "after an empty polygon",
    ),
    ("[[[1,2]]]", Simple::Polygon, Some((G14, 1)), "one position"),
    (
        "[[[1,2]]]",
        Simple::MultiPolygon,
        Some((G14, 2)),
        "rings of numbers",
    ),
    (
        "[[[0,0],[1,0],[0,0]]]",
        Simple::Polygon,
        Some((G14, 1)),
        "three positions",
    ),
    (
        "[[[1,2]]]",
        Simple::MultiLineString,
        Some((G13, 1)),
        "a line of one position",
    ),
    (
        "[[[0,0],[4,0],[4,4],[0,0]],[[1,1],[2,1],[2,2],[1,1]]]",
        Simple::Polygon,
        None,
        "a hole",
    ),
];

#[test]
fn linear_rings(rt: HostRuntime) {
    for (text, simple, expected, name) in RINGS.iter() {
        let walked = Walked::of_text(text);
        let found = walked.walk.fault(*simple);
        holds(&rt, found == fault_of(expected), name);
    }
}

static OF_SIXTY_LEVELS: [Found; 6] = [
    Some((G12, 0)),
    Some((G12, 1)),
    Some((G13, 0)),
    Some((G13, 1)),
    Some((G14, 1)),
    Some((G14, 2)),
];

#[test]
fn sixty_levels(rt: HostRuntime) {
    let walked = Walked::of(&[(b"[", 60), (b"]", 60)]);
    expect(&rt, &walked, &OF_SIXTY_LEVELS, "sixty levels");
}

static OF_A_POSITION: [Found; 6] = [
    None,
    Some((G11, 1)),
    Some((G11, 1)),
    Some((G11, 1)),
    Some((G11, 1)),
    Some((G11, 1)),
];

#[test]
fn a_hundred_thousand_numbers(rt: HostRuntime) {
    let walked = Walked::of(&[(b"[7", 1), (b",7", 99_999), (b"]", 1)]);
    expect(
        &rt,
        &walked,
        &OF_A_POSITION,
        "a position of so many numbers",
    );
}

/// The end of a ring, its fault as a polygon's, and what it is.
static RING_ENDS: [(&[u8], Found, &str); 2] = [
    (b",[0,0]]]", None, "a ring"),
    (b",[1,0]]]", Some((G15, 1)), "an open ring"),
];

#[test]
fn a_hundred_thousand_positions(rt: HostRuntime) {
    for (end, expected, name) in RING_ENDS.iter() {
        let walked = Walked::of(&[(b"[[[0,0]", 1), (b",[5,0]", 99_998), (end, 1)]);
        let found = walked.walk.fault(Simple::Polygon);
        holds(&rt, found == fault_of(expected), name);
    }
}
