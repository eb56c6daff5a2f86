//! Rows of texts with their least fault.

ghost use Rattle.std.specs.Prelude.{◌≡◌, ◌≤◌};
ghost use Rattle.gj_json.specs.Tree.{Text, depth};
ghost use Rattle.gj_json.specs.Events.{all_events};
ghost use Rattle.gj_coords.specs.Fault.{least};
ghost use Rattle.gj_rules.specs.Faults.{text_faults};
ghost use Rattle.gj_rules.specs.Levels.{most_levels};

use crate::checks::{equal, holds};
use gj_coords::{Fault, Rule};
use gj_json::{Event, EventSink, Known, Limits, MOST_LEVELS, Reader, What, Word};
use gj_rules::Rules;
use std::process::Abort;

/// A text that is read, and its rules.
#[derive(Drop)]
struct Reading {
    reader: Reader,
    rules: Rules,
}

impl Reading {
    fn new() -> Self {
        Reading {
            reader: Reader::new(Limits::usual()),
            rules: Rules::new(),
        }
    }

    fn piece(&mut self, bytes: &[u8]) {
        let _ = self.reader.feed(bytes, &mut self.rules);
    }

    fn end(&mut self) {
        if let Ok(Some(last)) = self.reader.finish() {
            self.rules.tell(last);
        }
    }
}

/// What was read after a text.
fn read(text: &[u8]) -> Reading {
    let mut reading = Reading::new();
    reading.piece(text);
    reading.end();
    reading
}

fn expect(rt: &impl Abort, text: &str, want: Option<Fault>, row: &str) {
    holds(rt, read(text.as_bytes()).rules.fault() == want, row);
}

static WITHOUT_A_FAULT: [(&str, &str); 22] = [
    ("{\"type\":\"Point\",\"coordinates\":[1,2]}", "point"),
    (
        "{\"type\":\"Point\",\"coordinates\":[]}",
        "empty coordinates",
    ),
    (
        "{\"type\":\"Polygon\",\"coordinates\":[[[0,0],[0,1],[1,1],[0,0]]]}",
        "polygon",
    ),
    (
        "{\"type\":\"Polygon\",\"coordinates\":[[[1.50,0],[2,0],[2,1],[15e-1,-0.0]]]}",
        "ring spelled otherwise",
    ),
    (
        "{\"type\":\"Point\",\"coordinates\":[0e99999,1]}",
        "zero with any exponent",
    ),
    (
        "{\"type\":\"FeatureCollection\",\"name\":\"a\",\"crs\":{\"type\":\"name\",\"properties\":{\"name\":\"urn:ogc:def:crs:OGC:1.3:CRS84\"}},\"features\":[]}",
        "crs",
    ),
    (
        "{\"crs\":1,\"crs\":2,\"type\":\"Point\",\"coordinates\":[1,2]}",
        "crs twice",
    ),
    (
        "{\"type\":\"Feature\",\"geometry\":null,\"properties\":{\"geometry\":7,\"type\":1,\"type\":2}}",
        "properties unjudged",
    ),
    (
        "{\"type\":\"GeometryCollection\",\"geometries\":[{\"type\":\"GeometryCollection\",\"geometries\":[]}]}",
        "collection in collection",
    ),
    (
        "{\"type\":\"Point\",\"coordinates\":[1,2],\"bbox\":[170,10,-170,20]}",
        "bbox over 180",
    ),
    (
        "{\"type\":\"MultiPolygon\",\"coordinates\":[[]]}",
        "empty polygon of many",
    ),
    (
        "{\"geometries\":[7],\"type\":\"Point\",\"coordinates\":[1,2]}",
        "geometries of a point",
    ),
    (
        "{\"type\":\"Point\",\"coordinates\":[1,2],\"bbox\":[1e999,0,1,1]}",
        "bbox not held",
    ),
    (
        "{\"type\":\"Polygon\",\"id\":null,\"coordinates\":[]}",
        "id of a polygon",
    ),
    (
        "{\"type\":\"Feature\",\"id\":\"a\",\"geometry\":null,\"properties\":{}}",
        "string id",
    ),
    (
        "{\"type\":\"Feature\",\"id\":1,\"geometry\":null,\"properties\":{}}",
        "number id",
    ),
    (
        "{\"type\":\"Feature\",\"geometry\":null,\"properties\":{\"bbox\":1,\"bbox\":2},\"a\":{\"geometry\":{\"type\":\"x\"}}}",
        "repeated in properties",
    ),
    (
        "{\"type\":\"Point\",\"coordinates\":[1.4210854715202004e-14,1]}",
        "as a double is printed",
    ),
    (
        "{\"type\":\"Point\",\"coordinates\":[1,2],\"bbox\":[0,20,1,10]}",
        "south above north",
    ),
    (
        "{\"type\":\"Polygon\",\"coordinates\":[[[0,0],[4,0],[4,4],[0,0]],[[1,1],[2,1],[2,2],[1,1]]]}",
        "hole",
    ),
    (
        "{\"type\":\"Point\",\"coordinates\":[180.0000001,90]}",
        "out of range",
    ),
    (
        "{\"type\":\"Point\",\"coordinates\":[1,2,3,4,5]}",
        "position of five",
    ),
];

#[test]
fn texts_without_a_fault(rt: HostRuntime) {
    for (text, row) in WITHOUT_A_FAULT.iter() {
        expect(&rt, text, None, row);
    }
}

/// A text, the rule that it breaks, where, and what it is.
type Row = (&'static str, Rule, u64, &'static str);

fn expect_row(rt: &impl Abort, row: &Row) {
    let (text, rule, place, name) = row;
    let fault = Fault {
        place: *place,
        rule: *rule,
    };
    expect(rt, text, Some(fault), name);
}

static OF_GEOMETRIES: [Row; 31] = [
    (
        "{\"coordinates\":[1,2],\"type\":\"LineString\"}",
        Rule::G11,
        16,
        "type last",
    ),
    (
        "{\"type\":\"Polygon\",\"coordinates\":[[[0,0],[1,0],[1,1],[0,0,0]]]}",
        Rule::G15,
        33,
        "ring ends in three",
    ),
    (
        "{\"type\":\"Polygon\",\"coordinates\":[[[0,0],[1,0],[0,0]]]}",
        Rule::G14,
        33,
        "short ring",
    ),
    (
        "{\"coordinates\":[1,2],\"type\":\"Point\",\"type\":\"Polygon\"}",
        Rule::G10,
        36,
        "first type decides",
    ),
    (
        "{\"geometry\":{\"type\":\"Nope\"},\"type\":\"Point\",\"coordinates\":[1,2]}",
        Rule::G9,
        1,
        "forbidden and unjudged",
    ),
    (
        "{\"type\":\"Point\",\"coordinates\":[1234567890123456789012345678901,1]}",
        Rule::G16,
        31,
        "number not held",
    ),
    (
        "{\"type\":\"Point\",\"coordinates\":[1,2,3,\"x\"]}",
        Rule::G11,
        37,
        "string past the third",
    ),
    (
        "{\"type\":\"Point\",\"coordinates\":[1]}",
        Rule::G12,
        30,
        "position of one",
    ),
    (
        "{\"type\":\"Point\",\"coordinates\":[1,2],\"bbox\":[1,2,3]}",
        Rule::G21,
        43,
        "odd bbox",
    ),
    (
        "{\"type\":\"Point\",\"coordinates\":[1,2],\"bbox\":[1,2,\"a\",4]}",
        Rule::G20,
        48,
        "string in bbox",
    ),
    (
        "{\"type\":\"Polygon\",\"coordinates\":[[]]}",
        Rule::G14,
        33,
        "empty ring",
    ),
    ("[]", Rule::G1, 0, "array for a text"),
    ("{}", Rule::G2, 0, "no type"),
    ("{\"type\":\"point\"}", Rule::G3, 8, "small letter"),
    (
        "{\"type\":\"MultiLineString\",\"coordinates\":[[[1,2]]]}",
        Rule::G13,
        41,
        "line of one",
    ),
    ("{\"type\":\"Point\"}", Rule::G4, 0, "no coordinates"),
    (
        "{\"type\":\"GeometryCollection\"}",
        Rule::G5,
        0,
        "no geometries",
    ),
    (
        "{\"type\":\"GeometryCollection\",\"geometries\":[{\"type\":\"Point\"},7]}",
        Rule::G4,
        43,
        "inside first by place",
    ),
    (
        "{\"geometries\":[7],\"type\":\"GeometryCollection\"}",
        Rule::G1,
        15,
        "number among geometries",
    ),
    (
        "{\"type\":\"GeometryCollection\",\"geometries\":[{\"geometries\":[7],\"type\":\"Point\",\"coordinates\":[1]}]}",
        Rule::G12,
        90,
        "geometries of a part",
    ),
    (
        "{\"bbox\":[1],\"type\":\"x\"}",
        Rule::G21,
        8,
        "bbox of a wrong type",
    ),
    ("{\"bbox\":7}", Rule::G2, 0, "bbox is seven"),
    (
        "{\"type\":\"GeometryCollection\",\"geometries\":[null]}",
        Rule::G1,
        43,
        "null among geometries",
    ),
    ("null", Rule::G1, 0, "null for a text"),
    (
        "{\"type\":\"GeometryCollection\",\"coordinates\":7,\"geometries\":[],\"coordinates\":8}",
        Rule::G10,
        61,
        "second coordinates of a collection",
    ),
    (
        "{\"type\":{\"type\":\"Point\"},\"coordinates\":[1,2]}",
        Rule::G3,
        8,
        "type is an object",
    ),
    (
        "{\"coordinates\":[1],\"type\":[\"Point\"]}",
        Rule::G3,
        26,
        "type is an array",
    ),
    (
        "{\"type\":\"Point\",\"coordinates\":[1,2],\"bbox\":[{},[1],2,3]}",
        Rule::G20,
        44,
        "bbox of objects",
    ),
    (
        "{\"a\":[{\"b\":[{\"c\":[]}]}],\"type\":\"Point\",\"b\":{\"a\":{}},\"coordinates\":[1]}",
        Rule::G12,
        66,
        "skipped objects",
    ),
    (
        "{\"coordinates\":[{\"type\":[[]]},[[1,2]]],\"type\":\"MultiPoint\"}",
        Rule::G11,
        16,
        "coordinates of objects",
    ),
    (
        "{\"type\":\"GeometryCollection\",\"geometries\":1}",
        Rule::G17,
        42,
        "number for geometries",
    ),
];

#[test]
fn faults_of_geometries(rt: HostRuntime) {
    for row in OF_GEOMETRIES.iter() {
        expect_row(&rt, row);
    }
}

static OF_FEATURES: [Row; 24] = [
    (
        "{\"features\":[{\"type\":\"Feature\",\"geometry\":null,\"properties\":null},7],\"type\":\"FeatureCollection\"}",
        Rule::G1,
        66,
        "number among features",
    ),
    ("{\"type\":\"Feature\"}", Rule::G6, 0, "no geometry"),
    (
        "{\"type\":\"Feature\",\"geometry\":null}",
        Rule::G7,
        0,
        "no properties",
    ),
    (
        "{\"type\":\"Feature\",\"id\":null,\"geometry\":null,\"properties\":null}",
        Rule::G19,
        23,
        "null id",
    ),
    (
        "{\"type\":\"Feature\",\"geometry\":null,\"properties\":[]}",
        Rule::G18,
        47,
        "array of properties",
    ),
    (
        "{\"type\":\"FeatureCollection\",\"features\":{}}",
        Rule::G17,
        39,
        "object of features",
    ),
    (
        "{\"type\":\"FeatureCollection\"}",
        Rule::G8,
        0,
        "no features",
    ),
    (
        "{\"type\":\"Feature\",\"geometry\":null,\"properties\":null,\"features\":1}",
        Rule::G9,
        52,
        "features of a feature",
    ),
    (
        "{\"type\":\"Feature\",\"geometry\":7,\"properties\":null}",
        Rule::G1,
        29,
        "number for a geometry",
    ),
    (
        "{\"geometry\":{\"type\":\"Nope\"},\"type\":\"Feature\",\"properties\":null}",
        Rule::G3,
        20,
        "geometry before type",
    ),
    (
        "{\"type\":\"GeometryCollection\",\"geometries\":[{\"type\":\"Feature\"}]}",
        Rule::G3,
        51,
        "feature among geometries",
    ),
    (
        "{\"type\":\"FeatureCollection\",\"features\":[null]}",
        Rule::G1,
        40,
        "null among features",
    ),
    (
        "{\"type\":\"Feature\",\"id\":{\"id\":1},\"geometry\":null,\"properties\":{}}",
        Rule::G19,
        23,
        "object id",
    ),
    (
        "{\"type\":\"Feature\",\"geometry\":null,\"properties\":null,\"geometry\":{\"type\":\"x\"}}",
        Rule::G10,
        52,
        "type in a repeated geometry",
    ),
    (
        "{\"type\":\"FeatureCollection\",\"features\":[{\"type\":\"Point\",\"coordinates\":[1,2]}]}",
        Rule::G3,
        48,
        "point among features",
    ),
    (
        "{\"type\":\"Feature\",\"properties\":{},\"geometry\":{\"type\":\"FeatureCollection\",\"features\":[]}}",
        Rule::G3,
        53,
        "collection for a geometry",
    ),
    (
        "{\"type\":\"FeatureCollection\",\"features\":[{\"geometry\":{\"geometries\":[{\"coordinates\":[[1,2],[3]],\"type\":\"LineString\"}],\"type\":\"GeometryCollection\"},\"properties\":{},\"type\":\"Feature\"}]}",
        Rule::G12,
        89,
        "deep part",
    ),
    (
        "{\"features\":[{\"geometry\":{\"geometries\":[{\"coordinates\":[[1,2],[3]],\"type\":\"LineString\"}],\"type\":\"GeometryCollection\"},\"properties\":{}}],\"type\":\"FeatureCollection\"}",
        Rule::G2,
        13,
        "deep part under no type",
    ),
    (
        "{\"type\":\"FeatureCollection\",\"features\":[{\"type\":\"Feature\",\"bbox\":{\"a\":[]},\"geometry\":null,\"properties\":null}]}",
        Rule::G20,
        65,
        "bbox of a feature",
    ),
    (
        "{\"properties\":{},\"type\":\"FeatureCollection\",\"features\":[]}",
        Rule::G9,
        1,
        "properties of a collection",
    ),
    (
        "{\"geometry\":null,\"type\":\"FeatureCollection\",\"features\":[]}",
        Rule::G9,
        1,
        "geometry of a collection",
    ),
    (
        "{\"type\":\"Feature\",\"coordinates\":[],\"geometry\":null,\"properties\":null}",
        Rule::G9,
        18,
        "coordinates of a feature",
    ),
    (
        "{\"type\":\"Feature\",\"geometry\":null,\"geometries\":[],\"properties\":null}",
        Rule::G9,
        34,
        "geometries of a feature",
    ),
    (
        "{\"type\":\"Feature\",\"geometry\":{\"type\":\"Point\"}}",
        Rule::G7,
        0,
        "missing before inside",
    ),
];

#[test]
fn faults_of_features(rt: HostRuntime) {
    for row in OF_FEATURES.iter() {
        expect_row(&rt, row);
    }
}

/// The least fault of the text with these events.
fn fault_of(events: &[Event]) -> Option<Fault>
    ensures { (text : Text) → depth text.value ≤ most_levels → events.now ≡ all_events text → result ≡ least (text_faults text) }
{
    let mut rules = Rules::new();
    for event in events {
        rules.tell(*event);
    }
    rules.fault()
}

fn event(place: u64, what: What) -> Event {
    Event { place, what }
}

#[test]
fn a_byte_order_mark(rt: HostRuntime) {
    let events = [
        event(0, What::Mark),
        event(3, What::OpenObject),
        event(4, What::Name(Known::TypeName)),
        event(16, What::Text(Word::Point)),
        event(29, What::CloseObject),
    ];
    let fault = Fault {
        place: 3,
        rule: Rule::G4,
    };
    let found = fault_of(&events);
    holds(&rt, found == Some(fault), "a mark before a point");
    let no_object = Fault {
        place: 3,
        rule: Rule::G1,
    };
    let found = fault_of(&[event(0, What::Mark), event(3, What::Null)]);
    holds(&rt, found == Some(no_object), "a mark before null");
}

/// A collection that is open in its first part. This many collections are as deep as a text may be.
const HALF: u16 = MOST_LEVELS / 2;

const OPEN: &str = "{\"type\":\"GeometryCollection\",\"geometries\":[";

/// What was read after a prefix, `times` collections inside each other, and an end.
fn nested(front: &str, times: u16, end: &str) -> Reading {
    let mut reading = Reading::new();
    reading.piece(front.as_bytes());
    for _ in 0..times {
        reading.piece(OPEN.as_bytes());
    }
    reading.piece(end.as_bytes());
    reading
}

/// A prefix, how many objects with a role are open after it, and what it is.
static OPEN_OBJECTS: [(&str, u16, &str); 15] = [
    ("", 0, "nothing"),
    ("[{", 0, "an array is no object"),
    ("{\"coordinates\":[[[[", 1, "arrays of coordinates"),
    ("{\"type\":\"Point\",\"geometry\":{", 2, "whatever the type"),
    (
        "{\"geometry\":{\"geometry\":{",
        2,
        "a geometry has no geometry",
    ),
    ("{\"features\":[{\"properties\":{\"a\":[", 2, "properties"),
    (
        "{\"features\":[{\"geometry\":{\"geometries\":[{",
        4,
        "a part of a feature's geometry",
    ),
    (
        "{\"features\":[{\"features\":[{",
        2,
        "a feature has no features",
    ),
    ("{\"features\":{", 1, "an object for the features"),
    ("{\"geometries\":[[{", 1, "an array among the geometries"),
    ("{\"geometry\":1,\"geometry\":{", 1, "a repeated member"),
    ("{\"a\":{\"geometry\":{", 1, "a foreign member"),
    ("{\"bbox\":[{", 1, "an object in a bounding box"),
    (
        "{\"geometry\":{},\"features\":[{}",
        1,
        "objects that have closed",
    ),
    ("{\"geometry\":{}}", 0, "the end"),
];

#[test]
fn open_objects_with_a_role(rt: HostRuntime) {
    for (text, count, row) in OPEN_OBJECTS.iter() {
        equal(&rt, read(text.as_bytes()).rules.judged(), *count, row);
    }
}

#[test]
fn as_many_levels_as_can_be(rt: HostRuntime) {
    let collections = nested("", HALF, "").rules.judged();
    equal(&rt, collections, HALF, "collections");
    let more = nested("{\"geometry\":", HALF - 1, "{").rules.judged();
    equal(&rt, more, HALF + 1, "an object with a role more");
    let mut reading = nested("", HALF, "");
    for _ in 0..HALF {
        reading.piece(b"]}");
    }
    holds(&rt, reading.rules.fault() == None, "all of them closed");
    let mut inner = nested("{\"geometry\":", HALF - 1, "{}");
    for _ in 1..HALF {
        inner.piece(b"]}");
    }
    inner.piece(b",\"type\":\"Feature\",\"properties\":null}");
    let fault = Fault {
        place: 12 + (HALF as u64 - 1) * OPEN.len() as u64,
        rule: Rule::G2,
    };
    let is_found = inner.rules.fault() == Some(fault);
    holds(&rt, is_found, "the innermost has no type");
}

#[test]
fn events_of_no_text(rt: HostRuntime) {
    let mut rules = Rules::new();
    for place in 0..300 {
        rules.tell(event(place, What::OpenObject));
        rules.tell(event(place, What::Name(Known::Geometries)));
        rules.tell(event(place, What::OpenArray));
    }
    let judged = rules.judged();
    equal(&rt, judged, HALF + 1, "more objects than there is room for");
    for place in 0..300 {
        rules.tell(event(place, What::CloseArray));
        rules.tell(event(place, What::CloseObject));
    }
    equal(&rt, rules.judged(), 0, "more ends than objects");
}
