//! Beginnings of features and of their members, and whole Points, that are reported at once: the verdict is that of each cutting.

use super::{by_bytes, in_two};
use crate::checks::{holds, holds_at};
use crate::rows::Wanted;
use crate::rows::Wanted::{Broken, NotJson, Valid};
use gj_coords::{Kind, Rule};
use gj_json::{Cause, Limits};
use gj_rules::{Linter, Verdict};
use std::process::Abort;

/// The text, and spaces after it, so that each beginning has room after it.
fn padded(text: &str) -> [u8; 256] {
    let mut piece = [b' '; 256];
    for (to, from) in piece.iter_mut().zip(text.as_bytes()) {
        *to = *from;
    }
    piece
}

fn at_once(input: &[u8]) -> Verdict {
    let mut linter = Linter::new(Limits::usual());
    linter.feed(input);
    linter.finish()
}

fn expect(rt: &impl Abort, text: &str, expected: Verdict) {
    let input = padded(text);
    holds(rt, at_once(&input) == expected, text);
    holds(rt, by_bytes(&input) == expected, text);
    for cut in 0..text.len() {
        if cut < 256 {
            let found = in_two(&input[..cut], &input[cut..]);
            holds_at(rt, found == expected, text, cut);
        }
    }
}

static HEADS: [(&str, Wanted); 35] = [
    (
        "{\"type\":\"Feature\",\"properties\":null,\"geometry\":{\"type\":\"Point\",\"coordinates\":[1,2]}}",
        Valid(&[]),
    ),
    (
        "{\"type\": \"Feature\", \"properties\": null, \"geometry\": {\"type\": \"Point\", \"coordinates\": [1, 2]}}",
        Valid(&[]),
    ),
    // A Feature is no geometry: the place of the type.
    (
        "{\"type\":\"Feature\",\"properties\":null,\"geometry\":{\"type\":\"Feature\",\"coordinates\":[1,2]}}",
        Broken(Rule::G3, 55),
    ),
    // The second `geometry`, which is not looked into.
    (
        "{\"type\":\"Feature\",\"geometry\":null,\"properties\":null,\"geometry\":{\"type\":\"Point\",\"coordinates\":[1]}}",
        Broken(Rule::G10, 52),
    ),
    // A type that comes a second time in an object that begins by one.
    (
        "{\"type\":\"FeatureCollection\",\"features\":[{\"type\":\"Feature\",\"type\":\"Feature\",\"geometry\":null,\"properties\":null}]}",
        Broken(Rule::G10, 58),
    ),
    // No `properties`: the place of the object.
    (
        "{\"type\":\"FeatureCollection\",\"features\":[{\"type\":\"Feature\",\"geometry\":{\"type\":\"Point\",\"coordinates\":[1,2]}}]}",
        Broken(Rule::G7, 40),
    ),
    // A geometry has no `geometry`: the place of its name.
    (
        "{\"type\":\"Point\",\"coordinates\":[1,2],\"geometry\":{\"type\":\"Point\",\"coordinates\":[1]}}",
        Broken(Rule::G9, 36),
    ),
    // Features one after another, the second of which has no `geometry`: the place of the object.
    (
        "{\"type\":\"FeatureCollection\",\"features\":[{\"type\":\"Feature\",\"properties\":null,\"geometry\":{\"type\":\"Point\",\"coordinates\":[1,2]}},{\"type\":\"Feature\",\"properties\":null}]}",
        Broken(Rule::G6, 125),
    ),
    // In a foreign member nothing is looked at.
    (
        "{\"type\":\"Point\",\"coordinates\":[1,2],\"a\":[{\"type\":\"Feature\",\"geometry\":{\"type\":\"Point\",\"coordinates\":[1]}}]}",
        Valid(&[]),
    ),
    // A number of eight places: its place.
    (
        "{\"type\":\"Feature\",\"properties\":{\"a\":[1]},\"geometry\":{\"type\":\"Point\",\"coordinates\":[1.12345678,2]}}",
        Valid(&[(Kind::W4, 83)]),
    ),
    // In the second of two features, a third number: its place.
    (
        "{\"type\":\"FeatureCollection\",\"features\":[{\"type\":\"Feature\",\"properties\":null,\"geometry\":{\"type\":\"Point\",\"coordinates\":[1,2]}},{\"type\":\"Feature\",\"properties\":null,\"geometry\":{\"type\":\"Point\",\"coordinates\":[1,2,3.12345678]}}]}",
        Valid(&[(Kind::W4, 207)]),
    ),
    // A longitude beyond 180 degrees: the position.
    (
        "{\"type\":\"Feature\",\"properties\":{\"a\":[1]},\"geometry\":{\"type\":\"Point\",\"coordinates\":[181,2,3]}}",
        Valid(&[(Kind::W5, 82)]),
    ),
    // A FeatureCollection has no `geometry`: the place of its name.
    (
        "{\"type\":\"FeatureCollection\",\"features\":[],\"geometry\":{\"type\":\"Point\",\"coordinates\":[1,2]}}",
        Broken(Rule::G9, 42),
    ),
    // The second of two whole Points.
    (
        "{\"type\":\"Feature\",\"properties\":{},\"geometry\":{\"type\":\"Point\",\"coordinates\":[1,2]},\"geometry\":{\"type\":\"Point\",\"coordinates\":[3,4]}}",
        Broken(Rule::G10, 82),
    ),
    // The second `properties`.
    (
        "{\"type\":\"Feature\",\"properties\":{\"a\":1},\"geometry\":null,\"properties\":{\"b\":{}}}",
        Broken(Rule::G10, 55),
    ),
    // A geometry has no `properties`: the place of its name.
    (
        "{\"type\":\"Point\",\"coordinates\":[1,2],\"properties\": {\"a\":[1]}}",
        Broken(Rule::G9, 36),
    ),
    // Properties of the same names, one after another.
    (
        "{\"type\":\"FeatureCollection\",\"features\":[{\"type\":\"Feature\",\"geometry\":null,\"properties\":{\"ab\":1,\"c\":\"x\"}},{\"type\":\"Feature\",\"geometry\":null,\"properties\":{\"ab\":2,\"c\": \"y\"}},{\"type\":\"Feature\",\"geometry\":null,\"properties\":{\"ab\":3,\"c\":null}}]}",
        Valid(&[]),
    ),
    // The first name is longer than in the last object, and then shorter.
    (
        "{\"type\":\"FeatureCollection\",\"features\":[{\"type\":\"Feature\",\"geometry\":null,\"properties\":{\"ab\":1,\"c\":2}},{\"type\":\"Feature\",\"geometry\":null,\"properties\":{\"abc\":3,\"c\":4}},{\"type\":\"Feature\",\"geometry\":null,\"properties\":{\"a\":5,\"c\":6}}]}",
        Valid(&[]),
    ),
    // An escaped quote where the last name ended, and a colon after it.
    (
        "{\"type\":\"FeatureCollection\",\"features\":[{\"type\":\"Feature\",\"geometry\":null,\"properties\":{\"ab\":1}},{\"type\":\"Feature\",\"geometry\":null,\"properties\":{\"a\\\":\":2}}]}",
        Valid(&[]),
    ),
    // An object among the members.
    (
        "{\"type\":\"FeatureCollection\",\"features\":[{\"type\":\"Feature\",\"geometry\":null,\"properties\":{\"a\":{\"bc\":1,\"d\":2},\"ef\":3}},{\"type\":\"Feature\",\"geometry\":null,\"properties\":{\"a\":{\"bc\":4,\"d\":5},\"ef\":6}}]}",
        Valid(&[]),
    ),
    // A control character in a name that is as long as the last: its place.
    (
        "{\"type\":\"FeatureCollection\",\"features\":[{\"type\":\"Feature\",\"geometry\":null,\"properties\":{\"ab\":1}},{\"type\":\"Feature\",\"geometry\":null,\"properties\":{\"a\x01\":2}}]}",
        NotJson(Cause::Syntax, 147),
    ),
    // No quote where the last name ended: the end.
    (
        "{\"type\":\"FeatureCollection\",\"features\":[{\"type\":\"Feature\",\"geometry\":null,\"properties\":{\"ab\":1}},{\"type\":\"Feature\",\"geometry\":null,\"properties\":{\"ab':2}}]}",
        NotJson(Cause::Truncated, 256),
    ),
    // A space inside each bracket, and each feature on a line.
    (
        "{\n\"type\": \"FeatureCollection\",\n\"features\": [\n{ \"type\": \"Feature\", \"properties\": { \"n\": 5 }, \"geometry\": { \"type\": \"Point\", \"coordinates\": [ 12.5, 41.9 ] } },\n{ \"type\": \"Feature\", \"properties\": { }, \"geometry\": null }\n]\n}",
        Valid(&[]),
    ),
    // A Feature is no geometry, with spaces inside the brackets.
    (
        "{ \"type\": \"Feature\", \"properties\": null, \"geometry\": { \"type\": \"Feature\", \"coordinates\": [ 1, 2 ] } }",
        Broken(Rule::G3, 63),
    ),
    // The same in the second feature, on a line of its own.
    (
        "{ \"type\": \"FeatureCollection\", \"features\": [\n{ \"type\": \"Feature\", \"properties\": null, \"geometry\": { \"type\": \"Point\", \"coordinates\": [ 1, 2 ] } },\n{ \"type\": \"Feature\", \"properties\": null, \"geometry\": { \"type\": \"Feature\", \"coordinates\": [ 1, 2 ] } }\n] }",
        Broken(Rule::G3, 209),
    ),
    // A space after the colon of `geometry`, and none within the geometry.
    (
        "{\"type\": \"Feature\", \"geometry\": {\"type\":\"Point\",\"coordinates\":[1.5,2.5]}, \"properties\": {\"id\": 1}}",
        Valid(&[]),
    ),
    // The same with a position of one number: its place.
    (
        "{\"type\": \"Feature\", \"geometry\": {\"type\":\"Point\",\"coordinates\":[1.5]}, \"properties\": {\"id\": 1}}",
        Broken(Rule::G12, 62),
    ),
    // The same with a ring that is not closed: its place.
    (
        "{\"type\": \"Feature\", \"geometry\": {\"type\":\"Polygon\",\"coordinates\":[[[0,0],[1,0],[1,1],[0,1]]]}, \"properties\": {\"id\": 1}}",
        Broken(Rule::G15, 65),
    ),
    // The same with a Feature, which is no geometry: the place of the type.
    (
        "{\"type\": \"Feature\", \"geometry\": {\"type\":\"Feature\",\"coordinates\":[1.5,2.5]}, \"properties\": {\"id\": 1}}",
        Broken(Rule::G3, 40),
    ),
    // A Point whose coordinates stand before its type, without white space.
    (
        "{\"geometry\":{\"coordinates\":[1,2],\"type\":\"Point\"},\"properties\":null,\"type\":\"Feature\"}",
        Valid(&[]),
    ),
    // The same with spaces, and a third number of eight places: its place.
    (
        "{\"geometry\": {\"coordinates\": [1.5, 2.5, 3.12345678], \"type\": \"Point\"}, \"properties\": null, \"type\": \"Feature\"}",
        Valid(&[(Kind::W4, 40)]),
    ),
    // The second of two such Points.
    (
        "{\"geometry\":{\"coordinates\":[1,2],\"type\":\"Point\"},\"geometry\":{\"coordinates\":[3],\"type\":\"Point\"},\"properties\":null,\"type\":\"Feature\"}",
        Broken(Rule::G10, 49),
    ),
    // In the second feature, a longitude beyond 180 degrees: the position.
    (
        "{\"type\":\"FeatureCollection\",\"features\":[{\"type\":\"Feature\",\"properties\":null,\"geometry\":{\"coordinates\":[1,2],\"type\":\"Point\"}},{\"type\":\"Feature\",\"properties\":null,\"geometry\":{\"coordinates\":[181,1],\"type\":\"Point\"}}]}",
        Valid(&[(Kind::W5, 187)]),
    ),
    // A position where a Polygon has rings: the number.
    (
        "{\"type\":\"Feature\",\"properties\":null,\"geometry\":{\"coordinates\":[1,2],\"type\":\"Polygon\"}}",
        Broken(Rule::G11, 63),
    ),
    // A FeatureCollection has no `geometry`, whichever stands first in it: the place of its name.
    (
        "{\"geometry\":{\"coordinates\":[1,2],\"type\":\"Point\"},\"type\":\"FeatureCollection\",\"features\":[]}",
        Broken(Rule::G9, 1),
    ),
];

#[test]
fn heads_give_the_verdict_of_each_cutting(rt: HostRuntime) {
    for (text, wanted) in HEADS.iter() {
        expect(&rt, text, wanted.verdict());
    }
}
