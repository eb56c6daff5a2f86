//! Beginnings of features and of their members, and whole Points, that come at once, beside their bytes in turn, in texts and in changed ones.

use super::flats::{expect_same, padded};
use gj_json::Limits;
use std::process::Abort;

/// A feature and its members without white space, the same with spaces, a name that is twice there, other orders, spaces inside
/// brackets with a feature on each line, geometries without white space in features with spaces, Points whose coordinates stand
/// before their type, and features whose `id` comes first.
static TEXTS: [&str; 27] = [
    "[{\"type\":\"Feature\",\"id\":1},{\"type\":\"Feature\",\"geometry\":{\"type\":\"Point\",\"coordinates\":[1,2]}}]",
    "[{\"type\": \"Feature\", \"geometry\": {\"type\": \"LineString\", \"coordinates\": [[1, 2], [3, 4]]}}]",
    "{\"geometry\":{\"type\":\"Polygon\",\"coordinates\":[[]]},\"geometry\":{\"type\":\"Feature\",\"coordinates\":{}}}",
    "{\"geometry\": {\"type\":\"Point\",\"coordinates\":[1,2]},\"geometry\":{\"type\": \"Point\", \"coordinates\": 0}}",
    "{\"type\":\"Feature\",\"type\":\"Feature\",\"a\":{\"type\":\"Feature\",\"b\":[{\"type\": \"Feature\", \"c\":1}]}}",
    "[{\"a\":{\"b\":1}},{\"type\":\"Feature\",\"c\":[{\"d\":{}},{\"type\": \"Feature\", \"e\":2}]}]",
    "[[{\"a\":{}},{\"type\":\"Feature\",\"b\":{}}],{\"c\":{\"d\":{\"e\":1}},\"type\":\"Feature\"}]",
    "{\"a\":{\"b\":{\"c\":1}},\"d\":[{\"e\":{\"f\":[]}}, {\"type\":\"Feature\",\"g\":0}]}",
    "{\"properties\":{\"a\":[1]},\"properties\": {\"b\":2},\"geometry\":{\"type\":\"Point\",\"coordinates\":[1,2]}}",
    "[{\"geometry\":{\"type\":\"Point\",\"coordinates\":[1,2]}},{\"type\":\"Feature\",\"geometry\": {\"type\": \"Point\", \"coordinates\": [1, 2]}}]",
    "{\"geometry\":{\"type\":\"MultiPoint\",\"coordinates\":[]},\"g\":{\"type\":\"Pointy\",\"coordinates\":[]}}",
    "[\n{ \"type\": \"Feature\", \"properties\": { \"n\": 5 }, \"geometry\": { \"type\": \"Point\", \"coordinates\": [ 12.5, 41.9 ] } }\n]",
    "[{ \"geometry\": { \"type\": \"Point\", \"coordinates\": [ 1, 2 ] } },\n{ \"type\": \"Feature\", \"id\": 1 }\n]",
    "[{ \"a\": { \"b\": 1 } },\n{ \"type\": \"Feature\", \"geometry\": { \"type\": \"LineString\", \"coordinates\": [ [ 1, 2 ] ] } }\n]",
    "[{\"geometry\": {\"type\": \"Point\", \"coordinates\": [1, 2]}}, {\"type\": \"Feature\", \"c\": {\"d\": 1}}]",
    "[{\"d\": {\"e\": 0}}, {\"type\": \"Feature\", \"f\": {\"g\": 1} } ,{ \"type\": \"Feature\", \"h\": {\"i\": 2}}]",
    "[{\"type\": \"Feature\", \"geometry\": {\"type\":\"Point\",\"coordinates\":[1.5,2.5]}, \"properties\": {\"id\": 1}},{}]",
    "[{\"geometry\": {\"type\":\"Polygon\",\"coordinates\":[[[0,1]]]}, \"geometry\": {\"type\":\"Feature\",\"coordinates\":{}}}]",
    "[{\"geometry\":{\"coordinates\":[1,2],\"type\":\"Point\"},\"id\":1},{\"geometry\":{\"coordinates\":[3.5,4.5,5],\"type\":\"Point\"}}]",
    "[{\"geometry\": {\"coordinates\": [1, 2], \"type\": \"Point\"}}, {\"type\": \"Feature\", \"geometry\": {\"coordinates\": 0}}]",
    "{\"geometry\":{\"coordinates\":[1,2],\"type\":\"Pointy\"},\"geometry\": {\"coordinates\": [[1, 2]], \"type\": \"Point\"},\"a\":0}",
    "[{\"type\":\"Feature\",\"geometry\":{\"coordinates\":[1.5,2.5],\"type\":\"Point\"}},{\"type\":\"Feature\",\"b\":1}]",
    "[{\"id\":\"a\",\"type\":\"Feature\",\"b\":{\"c\":1}},{\"id\":\"d\",\"type\":\"Feature\",\"e\":0}]",
    "[{\"id\": \"0\", \"type\": \"Feature\", \"b\": {\"c\": 1}}, {\"id\": \"1\", \"type\": \"Feature\", \"e\": 0}]",
    "[{\"geometry\":{\"type\":\"Point\",\"coordinates\":[1,2]}},\n{\"id\": -1.5, \"type\": \"Feature\"},{\"id\":2}]",
    "{\"id\":\"Point\",\"a\":[{\"b\":{\"c\":{}}},{\"id\":null,\"type\":\"Feature\"},{\"id\":0,\"type\":\"Feature\",\"d\":1}]}",
    "[{\"d\":{\"e\":{}}},{\"id\":\"relation/1234567890\",\"type\":\"Feature\",\"id\":\"relation/1234567890\"}]",
];

/// Each byte changed to each of these.
fn expect_each(rt: &impl Abort, limits: Limits, text: &str) {
    for index in 0..text.len() {
        for byte in b"\"\\,:}] gtFn{\n" {
            let mut piece = padded(text.as_bytes());
            if index < 128 {
                piece[index] = *byte;
            }
            expect_same(rt, limits, &piece, text, index, *byte);
        }
    }
}

#[test]
fn heads_are_their_bytes_in_turn(rt: HostRuntime) {
    for text in TEXTS.iter() {
        expect_each(&rt, Limits::usual(), text);
    }
}

#[test]
fn heads_keep_to_the_depth(rt: HostRuntime) {
    for depth in 1..4 {
        if let Some(limits) = Limits::new(depth, 1_000) {
            for text in TEXTS.iter() {
                expect_same(&rt, limits, &padded(text.as_bytes()), text, 0, 0);
            }
        }
    }
}

/// A head is reported where enough bytes come after it in the piece, and else token by token.
#[test]
fn heads_keep_to_the_piece(rt: HostRuntime) {
    for text in TEXTS.iter() {
        let piece = padded(text.as_bytes());
        for count in 0..piece.len() {
            expect_same(&rt, Limits::usual(), &piece[..count], text, count, 0);
        }
    }
}
