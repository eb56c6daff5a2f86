//! Rows of bounding boxes, their least faults and their warnings.
use super::sample::tell;
use crate::checks::{equal, holds};
use gj_coords::{Bbox, Kind, Rule};
use gj_json::{Event, EventSink};

/// A reader, and whether it was done before the last event.
#[derive(Drop)]
struct Told {
    bbox: Bbox,
    early: bool,
}

impl EventSink for Told {
    ghost heard = { λ told events. Unit {0} };

    fn tell(&mut self, event: Event) {
        self.early = self.early || self.bbox.done();
        self.bbox.event(event);
    }

    fn ignored(&self) -> u16 {
        0
    }

    fn pass(&mut self, _left: u16) {}
}

/// A box, and which rule it breaks and where, if any.
static BOXES: [(&str, Option<(Rule, u64)>); 12] = [
    ("[1,2,3,4]", None),
    ("[1,2,3,4,5,6]", None),
    ("[170,10,-170,20]", None),
    ("[1,1e401,3,4]", None),
    ("[]", Some((Rule::G21, 0))),
    ("[1,2]", Some((Rule::G21, 0))),
    ("[1,2,3]", Some((Rule::G21, 0))),
    ("[1,2,3,4,5]", Some((Rule::G21, 0))),
    ("[1,2,\"a\",4]", Some((Rule::G20, 5))),
    ("[1,2,3,[4],5,{\"a\":null}]", Some((Rule::G20, 7))),
    ("7", Some((Rule::G20, 0))),
    ("{\"a\":[1,2,3,4]}", Some((Rule::G20, 0))),
];

/// What a box is found to be at its end, but not before.
fn read(text: &str) -> Told {
    let mut told = Told {
        bbox: Bbox::new(),
        early: false,
    };
    tell(text.as_bytes(), &mut told);
    told
}

#[test]
fn bounding_boxes(rt: HostRuntime) {
    for (text, expected) in BOXES.iter() {
        let told = read(text);
        holds(&rt, told.bbox.done() && !told.early, text);
        let found = told.bbox.fault().map(|fault| (fault.rule, fault.place));
        equal(&rt, found, *expected, text);
    }
}

/// A box, and whether its south is above its north.
static SOUTH_ABOVE_NORTH: [(&str, bool); 19] = [
    ("[0,20,1,10]", true),
    ("[0,10,1,20]", false),
    ("[0,10,1,10]", false),
    ("[170,10,-170,20]", false),
    ("[0,20,5,1,10,6]", true),
    ("[0,10,5,1,20,6]", false),
    // the fourth of six numbers is the east
    ("[0,20,5,1,30,6]", false),
    // neither four numbers nor six
    ("[]", false),
    ("[0,20,1]", false),
    ("[0,20,1,10,0]", false),
    ("[0,20,1,10,0,0,0]", false),
    ("[0,20,1,10,0,0,0,0]", false),
    // cut numbers: equal up to the seventh place
    ("[0,10.00000001,1,10]", false),
    ("[0,10.0000001,1,10]", true),
    // a number that is not held, and one that has no cut
    ("[0,1e401,1,10]", false),
    ("[0,20,1,-1e401]", false),
    ("[0,1e10,1,10]", false),
    ("[1e401,20,1e401,10]", true),
    ("{\"a\":[0,20,1,10]}", false),
];

#[test]
fn south_above_north(rt: HostRuntime) {
    for (text, expected) in SOUTH_ABOVE_NORTH.iter() {
        let warnings = read(text).bbox.warnings();
        let found = (warnings.count(Kind::W8), warnings.first(Kind::W8));
        let wanted = if *expected { (1, Some(0)) } else { (0, None) };
        equal(&rt, found, wanted, text);
        equal(&rt, warnings.is_empty(), !*expected, text);
    }
}
