//! Rows of values and their warnings.
use super::walked::{SIX, Walked};
use crate::checks::holds;
use crate::rows::{Found, warnings_at};
use gj_coords::Kind::{W2, W3, W4, W5, W6, W8, W9};
use gj_coords::Simple::{LineString, MultiLineString, MultiPoint, MultiPolygon, Point, Polygon};
use gj_coords::{Simple, Warned, Warnings};
use std::process::Abort;

/// A value, its type, and its warnings.
type Row = (&'static str, Simple, Found);

fn expect(rt: &impl Abort, walked: &Walked, simple: Simple, found: Found, name: &str) {
    let expected = warnings_at(found);
    holds(rt, walked.walk.warnings(simple) == expected, name);
    let mut warned = Warned::of(warnings_at(&[(W9, 1)]));
    walked.walk.warn(simple, &mut warned);
    holds(rt, warned.all() == expected.add(W9, 1), name);
}

fn expect_row(rt: &impl Abort, row: &Row) {
    let (text, simple, found) = row;
    expect(rt, &Walked::of_text(text), *simple, found, text);
}

static POSITIONS: [Row; 23] = [
    ("[1,2]", Point, &[]),
    ("[1,2,3]", Point, &[]),
    ("[1,2,3,4]", Point, &[(W3, 0)]),
    ("[1,2,3,4,5]", Point, &[(W3, 0)]),
    ("[-180,-90]", Point, &[]),
    ("[180,90,1e9]", Point, &[]),
    ("[180.0000001,90]", Point, &[(W5, 0)]),
    ("[-180.0000001,0]", Point, &[(W5, 0)]),
    ("[0,90.0000001]", Point, &[(W5, 0)]),
    ("[0,-90.0000001]", Point, &[(W5, 0)]),
    ("[200,100]", Point, &[(W5, 0)]),
    ("[1e10,1]", Point, &[(W5, 0)]),
    ("[1,1e300]", Point, &[(W5, 0)]),
    ("[1.1234567,2]", Point, &[]),
    ("[1.12345678,2]", Point, &[(W4, 1)]),
    ("[1,2.12345678]", Point, &[(W4, 3)]),
    ("[1,2,3.12345678]", Point, &[(W4, 5)]),
    ("[1,2,3,4.12345678]", Point, &[(W3, 0)]),
    ("[1.12345678,2,3.12345678]", Point, &[(W4, 1), (W4, 14)]),
    ("[180.00000009,90]", Point, &[(W4, 1)]),
    ("[1.4210854715202004e-14,1]", Point, &[(W4, 1)]),
    ("[1.500000000000,2]", Point, &[]),
    ("[1e-8,91,0,7]", Point, &[(W3, 0), (W5, 0), (W4, 1)]),
];

#[test]
fn positions(rt: HostRuntime) {
    for row in POSITIONS.iter() {
        expect_row(&rt, row);
    }
}

static BROKEN: [Row; 11] = [
    ("[1e-8]", Point, &[]),
    ("[200,\"a\"]", Point, &[]),
    ("[1,2,3,4,null]", Point, &[]),
    ("[1e-8,1e401]", Point, &[]),
    ("7", Point, &[]),
    ("{\"a\":[]}", MultiPoint, &[]),
    ("[200]", MultiPoint, &[]),
    ("[[200],[200,0]]", MultiPoint, &[(W5, 7)]),
    ("[7,[200,0]]", LineString, &[(W5, 3)]),
    ("[[[0,0],[0,1],[1,1],[0,1]]]", Polygon, &[]),
    ("[[[0,0],[1,1],[0,0]]]", Polygon, &[]),
];

#[test]
fn what_breaks_a_rule_gives_none(rt: HostRuntime) {
    for row in BROKEN.iter() {
        expect_row(&rt, row);
    }
}

/// A value, and its warnings as each of the six types.
static EMPTY: [(&str, Found); 4] = [
    ("[]", &[(W6, 0)]),
    (" []", &[(W6, 1)]),
    ("[[]]", &[]),
    ("[[],[]]", &[]),
];

#[test]
fn empty_arrays(rt: HostRuntime) {
    for simple in SIX.iter() {
        for (text, found) in EMPTY.iter() {
            expect(&rt, &Walked::of_text(text), *simple, found, text);
        }
    }
}

static LINES: [Row; 11] = [
    ("[[1,2,3,4],[1,2,3,4,5]]", LineString, &[(W3, 1), (W3, 11)]),
    ("[[1,2,3,4],[1,2,3,4,5]]", MultiPoint, &[(W3, 1), (W3, 11)]),
    ("[[1,2,3,4],[1,2,3,4,5]]", MultiLineString, &[]),
    ("[[1,2,3,4],[1,2,3,4,5]]", Polygon, &[]),
    ("[[1,2,3,4],[1,2,3,4,5]]", MultiPolygon, &[]),
    ("[[1,2,3,4],[1,2,3,4,5]]", Point, &[]),
    (
        "[[[1,2,3,4]],[[200,0]]]",
        MultiLineString,
        &[(W3, 2), (W5, 14)],
    ),
    ("[[[1,2,3,4]],[[200,0]]]", Polygon, &[(W3, 2), (W5, 14)]),
    ("[[[1,2,3,4]],[[200,0]]]", LineString, &[]),
    ("[[[1,2,3,4]],[[200,0]]]", MultiPolygon, &[]),
    (
        "[[[[1,2,3,4]],[]],[[[0,0],[200,0]]]]",
        MultiPolygon,
        &[(W3, 3), (W5, 26)],
    ),
];

#[test]
fn lines(rt: HostRuntime) {
    for row in LINES.iter() {
        expect_row(&rt, row);
    }
}

const WRONG: &str = "[[0,0],[0,1],[1,1],[0,0]]";

const RIGHT: &str = "[[0,0],[1,1],[0,1],[0,0]]";

/// An exterior ring, a hole, the warnings of the polygon, and what it is.
static RINGS: [(&str, &str, Found, &str); 4] = [
    (WRONG, RIGHT, &[(W2, 1), (W2, 27)], "both are wrong"),
    (WRONG, WRONG, &[(W2, 1)], "the exterior ring is wrong"),
    (RIGHT, WRONG, &[], "both are right"),
    (RIGHT, RIGHT, &[(W2, 27)], "the hole is wrong"),
];

#[test]
fn rings(rt: HostRuntime) {
    for (exterior, hole, found, name) in RINGS.iter() {
        let walked = Walked::of(&[
            (b"[", 1),
            (exterior.as_bytes(), 1),
            (b",", 1),
            (hole.as_bytes(), 1),
            (b"]", 1),
        ]);
        expect(&rt, &walked, Polygon, found, name);
        expect(&rt, &walked, MultiLineString, &[], name);
    }
}

static POLYGONS: [Row; 10] = [
    ("[[[0,0],[0,1],[1,1],[0,0]]]", Polygon, &[(W2, 1)]),
    (
        "[[[0,0],[4,0],[4,4],[0,0]],[[1,1],[2,1],[2,2],[1,1]]]",
        Polygon,
        &[(W2, 27)],
    ),
    ("[[[0,0],[0,91],[1,1],[0,0]]]", Polygon, &[(W5, 8)]),
    ("[[[0,0],[1,0],[2,0],[0,0]]]", Polygon, &[]),
    (
        "[[[0,0],[1e-8,1],[2e-8,0],[0,0]]]",
        Polygon,
        &[(W4, 9), (W4, 18)],
    ),
    ("[[],[[0,0],[0,1],[1,1],[0,0]]]", Polygon, &[]),
    ("[7,[[0,0],[1,1],[0,1],[0,0]]]", Polygon, &[(W2, 3)]),
    (
        "[[[[0,0],[0,1],[1,1],[0,0]]],[[[0,0],[0,1],[1,1],[0,0]]]]",
        MultiPolygon,
        &[(W2, 2), (W2, 30)],
    ),
    (
        "[[[[0,0],[0,1],[1,1],[0,0]],[[0,0],[0,1],[1,1],[0,0]]]]",
        MultiPolygon,
        &[(W2, 2)],
    ),
    (
        "[[[[0,0],[0,1],[1,1],[0,0]],[[0,0],[0,1],[1,1],[0,0]]]]",
        Polygon,
        &[],
    ),
];

#[test]
fn polygons(rt: HostRuntime) {
    for row in POLYGONS.iter() {
        expect_row(&rt, row);
    }
}

#[test]
fn warnings_that_are_gathered(rt: HostRuntime) {
    let mut warned = Warned::none();
    holds(&rt, warned.is_empty(), "none");
    warned.take(&Warned::none());
    holds(&rt, warned.is_empty(), "none of none");
    warned.note(W9, 7);
    warned.take(&Warned::of(warnings_at(&[(W8, 3)])));
    holds(&rt, !warned.is_empty(), "two");
    let both = warnings_at(&[(W9, 7), (W8, 3)]);
    holds(&rt, warned.all() == both, "both");
    warned.clear();
    holds(&rt, warned.all() == Warnings::none(), "none again");
}

/// The way around the earth, and the warnings of the polygon.
static AROUND: [(&str, Found); 2] = [
    (",[180,-90],[180,90],[-180,90],[-180,-90]", &[]),
    (",[-180,90],[180,90],[180,-90],[-180,-90]", &[(W2, 1)]),
];

#[test]
fn a_hundred_thousand_positions(rt: HostRuntime) {
    for (around, found) in AROUND.iter() {
        let ring = around.as_bytes();
        let walked = Walked::of(&[(b"[[[-180,-90]", 1), (ring, 25_000), (b"]]", 1)]);
        expect(&rt, &walked, Polygon, found, around);
    }
}

#[test]
fn a_million_numbers(rt: HostRuntime) {
    let walked = Walked::of(&[(b"[0", 1), (b",0", 999_999), (b"]", 1)]);
    holds(&rt, walked.walk.fault(Point).is_none(), "no fault");
    let expected = warnings_at(&[(W3, 0)]);
    holds(&rt, walked.walk.warnings(Point) == expected, "one warning");
}
