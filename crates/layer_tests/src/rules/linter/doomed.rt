//! The early no.

use crate::checks::{holds, holds_at};
use gj_json::Limits;
use gj_rules::Linter;
use std::process::Abort;

/// Fed byte by byte, a linter says no from the prefix of this length on, or never.
fn expect(rt: &impl Abort, input: &[u8], first: Option<usize>, row: &str) {
    let mut linter = Linter::new(Limits::usual());
    holds(rt, !linter.doomed(), row);
    for at in 0..input.len() {
        linter.feed(&input[at..at + 1]);
        let wanted = match first {
            Some(length) => at + 1 >= length,
            None => false,
        };
        holds_at(rt, linter.doomed() == wanted, row, at);
    }
}

static BY_NAMES: [(&[u8], usize, &str); 12] = [
    (b"[", 1, "an array"),
    (b"7 ", 2, "a number, which the next byte ends"),
    (b"null", 4, "null"),
    (b"\xEF\xBB\xBF[", 4, "an array after a byte order mark"),
    (b"{]", 2, "a refusal"),
    (b"{\"type\":\"x\"", 11, "a type that is none of the nine"),
    (b"{\"type\":[", 9, "a type that is no string"),
    (b"{\"id\":1,\"id\"", 12, "a known name repeated"),
    (
        b"{\"geometry\":null,\"type\":\"Point\"",
        31,
        "a name before its type",
    ),
    (
        b"{\"geometry\":1,\"type\":\"Point\"",
        14,
        "a name before its type, and its value",
    ),
    (
        b"{\"type\":\"Point\",\"geometry\"",
        26,
        "a name after its type",
    ),
    (
        b"{\"type\":\"Feature\",\"features\":",
        28,
        "an array of features in a Feature",
    ),
];

#[test]
fn by_the_value_and_the_names(rt: HostRuntime) {
    for (input, first, row) in BY_NAMES.iter() {
        expect(&rt, input, Some(*first), row);
    }
}

static BY_VALUES: [(&[u8], usize, &str); 8] = [
    (b"{\"bbox\":[1,2,3]", 15, "a bounding box"),
    (
        b"{\"coordinates\":7,\"geometries\":7,",
        32,
        "two values, one of which each type uses or forbids",
    ),
    (
        b"{\"type\":\"Point\",\"coordinates\":[7]",
        33,
        "under the type that was named",
    ),
    (
        b"{\"coordinates\":[7],\"type\":\"Point\"",
        33,
        "under the type that is named",
    ),
    (
        b"{\"type\":\"FeatureCollection\",\"features\":[{\"id\":7}",
        48,
        "a feature, at its end",
    ),
    (
        b"{\"features\":[{}",
        15,
        "a feature of what can only be a collection",
    ),
    (b"{\"type\":\"Point\"}", 16, "a missing member, at the end"),
    (
        b"{\"geometries\":[{}],\"type\":\"GeometryCollection\"",
        46,
        "a geometry, once the type is known",
    ),
];

#[test]
fn by_values_that_no_type_allows(rt: HostRuntime) {
    for (input, first, row) in BY_VALUES.iter() {
        expect(&rt, input, Some(*first), row);
    }
}

static NEVER: [(&[u8], &str); 9] = [
    (b"\xEF\xBB\xBF", "a byte order mark"),
    (
        b"{\"a\":1,\"a\":2,\"crs\":3,\"crs\":4",
        "other names repeated",
    ),
    (
        b"{\"type\":\"FeatureCollection\",\"features\":",
        "a feature collection",
    ),
    (b"{\"features\":", "features without a type"),
    (
        b"{\"coordinates\":[[1,2],[3,4]]",
        "no Point, but a MultiPoint",
    ),
    (b"{\"geometries\":[7]", "no GeometryCollection, but a Point"),
    (
        b"{\"coordinates\":7,",
        "no simple type, but a GeometryCollection",
    ),
    (
        b"{\"properties\":{\"type\":1,\"type\":2},\"type\":\"Feature\"",
        "names of a value inside",
    ),
    (b"{\"type\":\"Point\",\"coordinates\":[1,2]} ", "a Point"),
];

#[test]
fn not_where_the_text_may_become_valid(rt: HostRuntime) {
    for (input, row) in NEVER.iter() {
        expect(&rt, input, None, row);
    }
}
