//! A linter over pieces.

mod doomed;
mod heads;
mod made;

use crate::checks::{equal, holds, holds_at, holds_in};
use crate::rows::Wanted;
use crate::rows::Wanted::{Broken, NotJson, Valid};
use gj_coords::{KINDS, Kind, Rule, Warnings};
use gj_json::{Cause, JsonFault, Limits, MOST_LEVELS};
use gj_rules::{Linter, Progress, Verdict};
use std::process::Abort;

/// A text that begins with an object whose `geometries` have no end yet. This many collections are as deep as a text
/// may be.
const HALF: u16 = MOST_LEVELS / 2;

const COLLECTION: &[u8] = b"{\"type\":\"GeometryCollection\",\"geometries\":[";

/// A linter that was fed `first`, then the start of this many collections inside each other, and then `last`.
fn fed(first: &[u8], collections: usize, last: &[u8]) -> Linter {
    let mut linter = Linter::new(Limits::usual());
    linter.feed(first);
    for _ in 0..collections {
        linter.feed(COLLECTION);
    }
    linter.feed(last);
    linter
}

/// What is fed first, how many collections, what is fed last, and how many levels and objects with a role are open then.
static LEVELS: [(&[u8], usize, &[u8], u16, u16); 9] = [
    (b"", 0, b"", 0, 0),
    (b"{\"features\":[{\"properties\":{\"a\":[", 0, b"", 5, 2),
    (b"{\"geometry\":{\"geometry\":{", 0, b"", 3, 2),
    (b"[{", 0, b"", 2, 0),
    (b"{\"coordinates\":[[[[", 0, b"", 5, 1),
    (b"", HALF as usize, b"", MOST_LEVELS, HALF),
    (
        b"{\"geometry\":",
        HALF as usize - 1,
        b"{",
        MOST_LEVELS,
        HALF + 1,
    ),
    (b"", 3, b"]}]}", 2, 1),
    (b"", HALF as usize + 1, b"", MOST_LEVELS, HALF),
];

#[test]
fn levels_and_frames(rt: HostRuntime) {
    for (first, collections, last, levels, judged) in LEVELS.iter() {
        let linter = fed(first, *collections, last);
        let found = (linter.levels(), linter.judged());
        equal(&rt, found, (*levels, *judged), "levels and frames");
    }
}

/// The verdict of an input in two pieces.
fn in_two(first: &[u8], second: &[u8]) -> Verdict {
    let mut linter = Linter::new(Limits::usual());
    linter.feed(first);
    linter.feed(second);
    linter.finish()
}

/// The verdict of an input byte by byte.
fn by_bytes(input: &[u8]) -> Verdict {
    let mut linter = Linter::new(Limits::usual());
    for byte in input {
        linter.feed(&[*byte]);
    }
    linter.finish()
}

static VERDICTS: [(&[u8], Wanted); 5] = [
    (b"{\"coordinates\":[1,2],\"type\":\"Point\"}", Valid(&[])),
    (
        b"{\"coordinates\":[1],\"type\":\"Point\"}",
        Broken(Rule::G12, 15),
    ),
    // the frame of the first point is that of the second, and its coordinates do not count there
    (
        b"{\"type\":\"GeometryCollection\",\"geometries\":[{\"type\":\"Point\",\"coordinates\":[1,2]},{\"type\":\"Point\"}]}",
        Broken(Rule::G4, 80),
    ),
    (b"7", Broken(Rule::G1, 0)),
    (b"{\"type\":\"Point\"}}", NotJson(Cause::Syntax, 16)),
];

#[test]
fn the_verdict_is_that_of_all_pieces(rt: HostRuntime) {
    for (input, wanted) in VERDICTS.iter() {
        let verdict = wanted.verdict();
        holds_in(&rt, by_bytes(input) == verdict, input, 0);
        for cut in 0..input.len() {
            let found = in_two(&input[..cut], &input[cut..]);
            holds_in(&rt, found == verdict, input, cut);
        }
    }
}

#[test]
fn a_level_too_many(rt: HostRuntime) {
    for depth in [2, MOST_LEVELS / 4, MOST_LEVELS] {
        let Some(limits) = Limits::new(depth, 1 << 60) else {
            continue;
        };
        let mut linter = Linter::new(limits);
        for _ in 0..depth / 2 {
            linter.feed(COLLECTION);
        }
        let full = (linter.levels(), linter.judged());
        equal(&rt, full, (depth, depth / 2), "as many as can be");
        linter.feed(COLLECTION);
        let more = (linter.levels(), linter.judged());
        equal(&rt, more, (depth, depth / 2), "one collection too many");
        let fault = JsonFault {
            place: depth as u64 / 2 * COLLECTION.len() as u64,
            cause: Cause::Depth,
        };
        let is_refused = linter.finish() == Verdict::NotJson(fault);
        holds_at(&rt, is_refused, "one too many", depth as usize);
    }
}

#[test]
fn one_text_after_another(rt: HostRuntime) {
    let Some(ten) = Limits::new(MOST_LEVELS, 10) else {
        return;
    };
    let point = b"{\"type\":\"Point\",\"coordinates\":[1,2]}";
    let refusal = JsonFault {
        place: 1,
        cause: Cause::Syntax,
    };
    let length = JsonFault {
        place: 10,
        cause: Cause::Length,
    };
    let mut linter = fed(b"", 20, b"");
    equal(&rt, linter.judged(), 20, "frames of a text that is left");
    linter.finish_and_begin(Limits::usual());
    linter.feed(b"[}");
    let found = linter.finish_and_begin(Limits::usual());
    holds(&rt, found == Verdict::NotJson(refusal), "no JSON");
    let new = (linter.offset(), linter.levels(), linter.judged());
    equal(&rt, new, (0, 0, 0), "the next text");
    holds(&rt, !linter.doomed(), "nothing shown yet");
    linter.feed(point);
    let found = linter.finish_and_begin(ten);
    let valid = Verdict::Valid(Warnings::none());
    holds(&rt, found == valid, "a point");
    linter.feed(point);
    let found = linter.finish();
    holds(&rt, found == Verdict::NotJson(length), "under other limits");
}

/// A piece, whether it is taken whole, and what it is.
static PIECES: [(&[u8], bool, &str); 3] = [
    (b"[", true, "no refusal yet"),
    (b"} []", false, "the refusal"),
    (b"]", false, "the same again"),
];

#[test]
fn a_refusal_stays(rt: HostRuntime) {
    let fault = JsonFault {
        place: 1,
        cause: Cause::Syntax,
    };
    let mut linter = Linter::new(Limits::usual());
    for (piece, is_open, row) in PIECES.iter() {
        let wanted = if *is_open {
            Progress::Open
        } else {
            Progress::Refused(fault)
        };
        holds(&rt, linter.feed(piece) == wanted, row);
    }
    equal(&rt, linter.offset(), 1, "the refusal");
    let found = linter.finish();
    holds(&rt, found == Verdict::NotJson(fault), "the verdict");
}

/// A kind of warning with its count and its first place.
type Tally = (Kind, u32, u64);

/// What a row says of a kind.
fn wanted(tallies: &[Tally], kind: Kind) -> (u32, Option<u64>) {
    for (other, count, first) in tallies {
        if *other == kind {
            return (*count, Some(*first));
        }
    }
    (0, None)
}

/// A text, its warnings, and what it is.
type Row = (&'static [u8], &'static [Tally], &'static str);

/// The text is valid, with these warnings and no other.
fn expect(rt: &impl Abort, row: &Row) {
    let (text, tallies, name) = row;
    match by_bytes(text) {
        Verdict::Valid(warnings) => for kind in KINDS.iter() {
            let found = (warnings.count(*kind), warnings.first(*kind));
            equal(rt, found, wanted(tallies, *kind), name);
        },
        _ => holds(rt, false, name),
    }
}

static OF_OBJECTS: [Row; 17] = [
    (
        b"{\"crs\":1,\"crs\":2,\"type\":\"Point\",\"coordinates\":[1,2]}",
        &[(Kind::W9, 2, 1)],
        "crs twice",
    ),
    (
        b"{\"type\":\"GeometryCollection\",\"geometries\":[{\"type\":\"Point\",\"coordinates\":[1,2],\"crs\":1},{\"type\":\"Point\",\"coordinates\":[1,2]}]}",
        &[(Kind::W9, 1, 79)],
        "crs of the geometry before",
    ),
    (
        b"{\"geometries\":[{\"crs\":1}],\"type\":\"Point\",\"coordinates\":[1,2]}",
        &[],
        "geometries of a point",
    ),
    (
        b"{\"type\":\"GeometryCollection\",\"geometries\":[{\"type\":\"GeometryCollection\",\"geometries\":[]}]}",
        &[(Kind::W7, 1, 43)],
        "collection in collection",
    ),
    (
        b"{\"geometries\":[{\"geometries\":[],\"type\":\"GeometryCollection\"}],\"type\":\"GeometryCollection\"}",
        &[(Kind::W7, 1, 15)],
        "types after their geometries",
    ),
    (
        b"\xEF\xBB\xBF{\"type\":\"Point\",\"coordinates\":[1,2]}",
        &[(Kind::W1, 1, 0)],
        "byte order mark",
    ),
    (
        b"{\"type\":\"FeatureCollection\",\"name\":\"a\",\"crs\":{\"type\":\"name\",\"properties\":{\"name\":\"urn:ogc:def:crs:OGC:1.3:CRS84\"}},\"features\":[]}",
        &[(Kind::W9, 1, 39)],
        "crs of a collection",
    ),
    (
        b"{\"type\":\"Feature\",\"geometry\":{\"type\":\"GeometryCollection\",\"geometries\":[]},\"properties\":null}",
        &[],
        "collection as the geometry of a feature",
    ),
    (
        b"{\"type\":\"GeometryCollection\",\"geometries\":[{\"type\":\"GeometryCollection\",\"geometries\":[{\"type\":\"GeometryCollection\",\"geometries\":[]}]},{\"type\":\"GeometryCollection\",\"geometries\":[]}]}",
        &[(Kind::W7, 3, 43)],
        "collections two deep, and side by side",
    ),
    (
        b"{\"type\":\"FeatureCollection\",\"features\":[{\"type\":\"Feature\",\"geometry\":{\"crs\":0,\"type\":\"Point\",\"coordinates\":[1,2]},\"properties\":{\"crs\":1}},{\"type\":\"Feature\",\"crs\":2,\"geometry\":null,\"properties\":null}]}",
        &[(Kind::W9, 2, 70)],
        "crs of a geometry and of a feature, none in properties",
    ),
    (
        b"{\"type\":\"Point\",\"coordinates\":[1,2],\"a\":{\"crs\":1},\"geometries\":[{\"crs\":1}]}",
        &[],
        "crs in foreign members",
    ),
    (
        b"{\"features\":[{\"crs\":1,\"type\":\"Feature\",\"geometry\":{\"geometries\":[{\"crs\":2,\"type\":\"GeometryCollection\",\"geometries\":[]}],\"type\":\"GeometryCollection\"},\"properties\":null}],\"type\":\"FeatureCollection\"}",
        &[(Kind::W7, 1, 65), (Kind::W9, 2, 14)],
        "all types last",
    ),
    (
        b"{\"type\":\"GeometryCollection\",\"geometries\":[{\"type\":\"Point\",\"coordinates\":[1,2],\"geometries\":[{\"type\":\"GeometryCollection\",\"geometries\":[],\"crs\":1}]}]}",
        &[],
        "geometries of a point in a collection",
    ),
    (
        b"\xEF\xBB\xBF {\"crs\":null,\"type\":\"GeometryCollection\",\"geometries\":[]}",
        &[(Kind::W1, 1, 0), (Kind::W9, 1, 5)],
        "mark and crs",
    ),
    (
        b"{\"type\":\"Feature\",\"geometry\":null,\"properties\":null,\"cr\\u0073\":{\"crs\":[]}}",
        &[(Kind::W9, 1, 52)],
        "crs spelled otherwise, and one in it",
    ),
    (
        b"{\"type\":\"LineString\",\"coordinates\":[[1,2],[3,4]],\"bbox\":[1,2,3,4]}",
        &[],
        "nothing to warn of",
    ),
    (
        b"{\"coordinates\":[1,2],\"type\":\"Point\",\"id\":{\"crs\":1},\"CRS\":1}",
        &[],
        "another name",
    ),
];

#[test]
fn warnings_of_objects(rt: HostRuntime) {
    for row in OF_OBJECTS.iter() {
        expect(&rt, row);
    }
}

static OF_COORDINATES: [Row; 12] = [
    (
        b"{\"type\":\"Point\",\"coordinates\":[1,2],\"bbox\":[0,20,1,10]}",
        &[(Kind::W8, 1, 43)],
        "south above north",
    ),
    (
        b"{\"bbox\":[0,20,1,10],\"coordinates\":[1,2],\"type\":\"Point\"}",
        &[(Kind::W8, 1, 8)],
        "bbox before the type",
    ),
    (
        b"{\"type\":\"FeatureCollection\",\"features\":[{\"type\":\"Feature\",\"bbox\":[0,20,1,10],\"crs\":1,\"geometry\":null,\"properties\":null}]}",
        &[(Kind::W8, 1, 65), (Kind::W9, 1, 77)],
        "bbox and crs of a feature",
    ),
    (
        b"{\"type\":\"Point\",\"coordinates\":[]}",
        &[(Kind::W6, 1, 30)],
        "empty coordinates",
    ),
    (
        b"{\"type\":\"Polygon\",\"coordinates\":[[[0,0],[0,1],[1,1],[0,0]]]}",
        &[(Kind::W2, 1, 33)],
        "exterior ring the wrong way",
    ),
    (
        b"{\"coordinates\":[[[0,0],[0,1],[1,1],[0,0]]],\"type\":\"MultiLineString\"}",
        &[],
        "no ring",
    ),
    (
        b"{\"coordinates\":[[[0,0],[0,1],[1,1],[0,0]]],\"type\":\"Polygon\"}",
        &[(Kind::W2, 1, 16)],
        "polygon before its type",
    ),
    (
        b"{\"type\":\"MultiPolygon\",\"coordinates\":[[[[0,0],[0,1],[1,1],[0,0]]]]}",
        &[(Kind::W2, 1, 39)],
        "ring of many polygons",
    ),
    (
        b"{\"type\":\"LineString\",\"coordinates\":[[181,0,0,0],[0,1.12345678]]}",
        &[(Kind::W3, 1, 36), (Kind::W4, 1, 51), (Kind::W5, 1, 36)],
        "positions of a line",
    ),
    (
        b"{\"type\":\"MultiPoint\",\"coordinates\":[[181,0,0,0],[0,1.12345678]]}",
        &[(Kind::W3, 1, 36), (Kind::W4, 1, 51), (Kind::W5, 1, 36)],
        "positions of many points",
    ),
    (
        b"{\"type\":\"GeometryCollection\",\"coordinates\":[],\"geometries\":[{\"type\":\"Point\",\"coordinates\":[]},{\"type\":\"Point\",\"coordinates\":[]}]}",
        &[(Kind::W6, 2, 90)],
        "coordinates of a collection, and of two points in it",
    ),
    (
        b"{\"type\":\"Feature\",\"properties\":{\"coordinates\":[],\"bbox\":[0,2,1,1]},\"geometry\":{\"type\":\"Point\",\"coordinates\":[1,2]}}",
        &[],
        "names in properties",
    ),
];

#[test]
fn warnings_of_coordinates_and_boxes(rt: HostRuntime) {
    for row in OF_COORDINATES.iter() {
        expect(&rt, row);
    }
}
