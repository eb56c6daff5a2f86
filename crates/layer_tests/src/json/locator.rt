//! Rows of prefixes of texts and the paths that they lead to.

use crate::checks::{holds, holds_at, holds_in};
use gj_json::{Cause, JsonFault, Known, Limits, Locator, MOST_LEVELS, Path, PathStep};
use std::process::Abort;

/// The path after these bytes, or the first refusal.
fn located(front: &[u8]) -> Result<Path, JsonFault> {
    let mut locator = Locator::new(Limits::usual());
    for byte in front {
        if let Err(fault) = locator.push(*byte) {
            return Err(fault);
        }
    }
    Ok(locator.path())
}

/// The path, where the bytes come in two pieces.
fn located_in_pieces(first: &[u8], second: &[u8]) -> Result<Path, JsonFault> {
    let mut locator = Locator::new(Limits::usual());
    if let Err(fault) = locator.feed(first) {
        return Err(fault);
    }
    match locator.feed(second) {
        Ok(()) => Ok(locator.path()),
        Err(fault) => Err(fault),
    }
}

fn is_path(path: Path, expected: &[PathStep]) -> bool {
    if path.len() as usize != expected.len() || path.step(path.len()) != None {
        return false;
    }
    let mut at = 0;
    for step in expected {
        if path.step(at) != Some(*step) {
            return false;
        }
        if at < MOST_LEVELS {
            at += 1;
        }
    }
    true
}

/// A prefix of a text, the path after it, and what it is.
type Row = (&'static [u8], &'static [PathStep], &'static str);

fn leads(rt: &impl Abort, row: &Row) {
    let (prefix, expected, name) = row;
    let path = located(prefix);
    let leads = match path {
        Ok(path) => is_path(path, expected),
        Err(_) => false,
    };
    holds(rt, leads, name);
    for cut in 0..=prefix.len() {
        let found = located_in_pieces(&prefix[..cut], &prefix[cut..]);
        holds_at(rt, found == path, name, cut);
    }
}

const FIRST: PathStep = PathStep::Index(0);

const SECOND: PathStep = PathStep::Index(1);

const THIRD: PathStep = PathStep::Index(2);

const OTHER: PathStep = PathStep::Member(Known::Other);

const COORDINATES: PathStep = PathStep::Member(Known::Coordinates);

const FEATURES: PathStep = PathStep::Member(Known::Features);

const PROPERTIES: PathStep = PathStep::Member(Known::Properties);

static VALUES: [Row; 14] = [
    (b"", &[], "nothing has come"),
    (b" ", &[], "white space"),
    (b"7", &[], "a number is the root"),
    (b"[", &[], "the root is open"),
    (b"[1", &[FIRST], "a number begins"),
    (b"[10", &[], "it goes on"),
    (b"[10,2", &[SECOND], "the next begins"),
    (b"[\"", &[FIRST], "a string begins"),
    (b"[\"a", &[], "it goes on"),
    (b"[t", &[FIRST], "a literal name begins"),
    (b"[tr", &[], "it goes on"),
    (b"[1 , 2", &[SECOND], "between white space"),
    (b"{\"x\":1", &[OTHER], "a member's value begins"),
    (b"{\"x\":10", &[], "it goes on"),
];

#[test]
fn values_begin(rt: HostRuntime) {
    for row in VALUES.iter() {
        leads(&rt, row);
    }
}

static CONTAINERS: [Row; 13] = [
    (b"{\"x\":[1,", &[OTHER], "the array is open"),
    (b"{\"x\":[1,{", &[OTHER, SECOND], "an object opens in it"),
    (b"{\"crs\":{", &[PathStep::Member(Known::Crs)], "crs"),
    (b"[[1],[2],", &[], "two arrays have closed"),
    (b"[[1],[2],[", &[THIRD], "the third opens"),
    (b"[[1,2],3", &[SECOND], "a number after an array"),
    (b"{\"a\":1,\"b\":[2]", &[], "a member has ended"),
    (
        b"{\"a\":1,\"b\":[2],\"id\":t",
        &[PathStep::Member(Known::Id)],
        "the next member's value begins",
    ),
    (b"{\"x\"", &[], "a name has ended"),
    (b"{\"x\":", &[], "a value is due"),
    (
        b"[[[],[]],[],[[]",
        &[THIRD],
        "after arrays without elements",
    ),
    (b"[{\"id\\\"\":[", &[FIRST, OTHER], "a quote in a name"),
    (
        b"[{\"i\\u0064\":[",
        &[FIRST, PathStep::Member(Known::Id)],
        "a name with an escape",
    ),
];

#[test]
fn containers_open_and_close(rt: HostRuntime) {
    for row in CONTAINERS.iter() {
        leads(&rt, row);
    }
}

static IN_GEOJSON: [Row; 5] = [
    (
        b"{\"type\":\"Point\",\"coordinates\":[1",
        &[COORDINATES, FIRST],
        "the first number",
    ),
    (
        b"{\"type\":\"Point\",\"coordinates\":[1,2]}",
        &[],
        "the whole text",
    ),
    (
        b"{\"type\":\"Polygon\",\"coordinates\":[[",
        &[COORDINATES, FIRST],
        "the first ring",
    ),
    (
        b"{\"coordinates\":[1,2],\"type\":\"Point\",\"",
        &[],
        "the opening quote of a name",
    ),
    (
        b"{\"features\":[{\"type\":\"Feature\",\"geometry\":null,\"properties\":null},7",
        &[FEATURES, SECOND],
        "the second feature",
    ),
];

#[test]
fn places_in_geojson(rt: HostRuntime) {
    for row in IN_GEOJSON.iter() {
        leads(&rt, row);
    }
}

static WHERE_EVENTS_DO_NOT_MATTER: [Row; 5] = [
    (b"{\"crs\":{},", &[], "an object without members has closed"),
    (
        b"{\"crs\":{},\"features\":[{\"properties\":{\"a\":[[1,{\"b\":\"]}",
        &[FEATURES, FIRST, PROPERTIES, OTHER, FIRST, SECOND],
        "a string in it is open",
    ),
    (
        b"{\"crs\":{},\"features\":[{\"properties\":{\"a\":[[1,{\"b\":\"]}\\\"\"}]],\"c\":{}}",
        &[FEATURES, FIRST],
        "it has closed",
    ),
    (
        b"{\"crs\":{},\"features\":[{\"properties\":{\"a\":[[1,{\"b\":\"]}\\\"\"}]],\"c\":{}}}",
        &[FEATURES],
        "the feature has closed",
    ),
    (
        b"{\"crs\":{},\"features\":[{\"properties\":{\"a\":[[1,{\"b\":\"]}\\\"\"}]],\"c\":{}}},{\"id\":1,\"properties\":{\"d\":{\"e\":[2,3",
        &[FEATURES, SECOND, PROPERTIES, OTHER, OTHER, SECOND],
        "the next feature's are open",
    ),
];

#[test]
fn members_whose_events_do_not_matter(rt: HostRuntime) {
    for row in WHERE_EVENTS_DO_NOT_MATTER.iter() {
        leads(&rt, row);
    }
    let mut locator = Locator::new(Limits::usual());
    let taken = locator.feed(b"{\"a\":1,\"b\":{\"c\":[2],\"d\":[3,x]}}");
    holds(&rt, taken.is_err(), "a byte in it is refused");
    let is_open = is_path(locator.path(), &[OTHER, OTHER]);
    holds(&rt, is_open, "it is open there");
}

const IN_A_CHARACTER: JsonFault = JsonFault {
    place: 8,
    cause: Cause::Syntax,
};

/// A byte, what it is refused for, and what it is.
static IN_A_STRING: [(u8, Result<(), JsonFault>, &str); 4] = [
    (0xE2, Ok(()), "a character begins"),
    (0x82, Ok(()), "it goes on"),
    (0x28, Err(IN_A_CHARACTER), "no byte of it"),
    (b'"', Err(IN_A_CHARACTER), "the same again"),
];

#[test]
fn refused_bytes_change_nothing(rt: HostRuntime) {
    let mut locator = Locator::new(Limits::usual());
    for byte in b"{\"a\":\"" {
        holds(&rt, locator.push(*byte) == Ok(()), "the string begins");
    }
    holds(&rt, is_path(locator.path(), &[OTHER]), "the string is open");
    for (byte, expected, row) in IN_A_STRING.iter() {
        holds(&rt, locator.push(*byte) == *expected, row);
    }
    holds(&rt, is_path(locator.path(), &[]), "the object is open");
}

/// Whether an input in two pieces is refused for this, and whatever comes after it too, so that nothing changes.
fn stays_refused(limits: Limits, first: &[u8], second: &[u8], fault: JsonFault) -> bool {
    let mut locator = Locator::new(limits);
    let begun = locator.feed(first);
    if begun != Ok(()) && begun != Err(fault) || locator.feed(second) != Err(fault) {
        return false;
    }
    let path = locator.path();
    let again = locator.feed(b"");
    let by_byte = locator.push(b']');
    again == Err(fault) && by_byte == Err(fault) && locator.path() == path
}

/// An input of more than four levels or twenty bytes or that is no JSON, and where and why it is refused.
static REFUSED: [(&[u8], u64, Cause); 5] = [
    (b"{\"a\":{\"b\":1,\"c\":x}}", 16, Cause::Syntax),
    (b"{\"a\":\"\xE2\x82\x28\"", 8, Cause::Syntax),
    (b"[1, 2 3]", 6, Cause::Syntax),
    (b"[\"long enough\", 1234567]", 20, Cause::Length),
    (b"[[[[[1", 4, Cause::Depth),
];

#[test]
fn refused_pieces(rt: HostRuntime) {
    let limits = Limits::new(4, 20).unwrap_or(Limits::usual());
    for (input, place, cause) in REFUSED.iter() {
        let fault = JsonFault {
            place: *place,
            cause: *cause,
        };
        for cut in 0..=input.len() {
            let refused = stays_refused(limits, &input[..cut], &input[cut..], fault);
            holds_in(&rt, refused, input, cut);
        }
    }
}

#[test]
fn most_levels(rt: HostRuntime) {
    let mut locator = Locator::new(Limits::usual());
    for _ in 0..MOST_LEVELS {
        holds(&rt, locator.push(b'[') == Ok(()), "a level");
    }
    holds(&rt, locator.push(b'7') == Ok(()), "the innermost element");
    let path = locator.path();
    holds(&rt, path.len() == MOST_LEVELS, "as many steps as levels");
    for at in 0..MOST_LEVELS {
        let is_first = path.step(at) == Some(FIRST);
        holds_at(&rt, is_first, "each to the first element", at as usize);
    }
    holds(&rt, path.step(MOST_LEVELS) == None, "and no more");
}

/// Two prefixes, whether their paths are the same, and what they are.
static PAIRS: [(&[u8], &[u8], bool, &str); 3] = [
    (
        b"[",
        b"[{\"id\":[1,2],\"x\":[[3]]}",
        true,
        "the root, before and after an element",
    ),
    (b"[1", b"[{", true, "the first element"),
    (b"[1", b"[1,2", false, "two elements"),
];

#[test]
fn equal_paths_compare_equal(rt: HostRuntime) {
    for (one, other, same, row) in PAIRS.iter() {
        holds(&rt, (located(one) == located(other)) == *same, row);
    }
}
