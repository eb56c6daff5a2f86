//! Whole tokens beside their bytes in turn, in texts and in changed ones.

use super::flats::{expect_same, padded};
use gj_json::Limits;
use std::process::Abort;

/// What the texts are changed by: bytes of each class, a control character and one of no character in ASCII.
const CHANGES: &[u8] = b"\"\\,:{}[] \n0-9.etnfualsr\x01\x80\xC3";

fn change_of(seed: u32) -> u8 {
    CHANGES.get(seed as usize % 27).copied().unwrap_or(b'x')
}

/// Each byte changed to each of these.
fn expect_each(rt: &impl Abort, limits: Limits, text: &str) {
    for index in 0..text.len() {
        for byte in b"\"\\,:}] \n0e\x01\x80" {
            let mut piece = padded(text.as_bytes());
            if index < 128 {
                piece[index] = *byte;
            }
            expect_same(rt, limits, &piece, text, index, *byte);
        }
    }
}

/// Up to three bytes changed, by numbers that follow from one another.
fn expect_some(rt: &impl Abort, limits: Limits, text: &str) {
    let mut seed: u32 = 16;
    for round in 0..150 {
        let mut piece = padded(text.as_bytes());
        for _ in 0..3 {
            seed = seed.wrapping_mul(1_664_525).wrapping_add(1_013_904_223);
            let index = (seed >> 24) as usize % 128;
            piece[index] = change_of(seed >> 12);
        }
        expect_same(rt, limits, &piece, text, round, 0);
    }
}

static TEXTS: [&str; 7] = [
    "{\"type\":\"Feature\",\"id\":17,\"properties\":{\"a\":null,\"b\" : true},\"geometry\":false}",
    "[\"x\\u0041y\",{\"bbox\":[1,2,3,4]},\"\",0.5 ,-7]",
    "{\"name\" :\n\"k\\\"q\",\"tipe\":\"Poimt\",\"crs\":{},\"bbox\":[]}",
    "[true,false,null,[[]],{\"\":{\"\":[1]}},1e5,12345678901234567890]",
    "{\n  \"features\": [\n    {\n      \"x\": \"zé\",\n      \"y\": 1\n    }\n  ]\n}",
    "{\"é東\":\"東京 naïve 東京 à la हिन्दी 한국어 \\u00e9\\n🚲 é東京é\"}",
    "{\"p\":{\"a\":\"x\",\"n\":12.5,\"t\": true,\"z\":null,\"f\":false,\"sixteen letters and more\":1,\"e\":1e5,\"l\":\"y\"},\"q\":[0]}",
];

#[test]
fn tokens_are_their_bytes_in_turn(rt: HostRuntime) {
    for text in TEXTS.iter() {
        expect_each(&rt, Limits::usual(), text);
    }
}

#[test]
fn tokens_of_changed_texts_are_their_bytes_in_turn(rt: HostRuntime) {
    for text in TEXTS.iter() {
        expect_some(&rt, Limits::usual(), text);
    }
}

#[test]
fn tokens_keep_to_the_limits(rt: HostRuntime) {
    for bytes in 20..60 {
        if let Some(limits) = Limits::new(2, bytes) {
            expect_same(
                &rt,
                limits,
                &padded(b"{\"type\":\"Point\",\"a\":[1,{\"b\":null}],\"id\":12.5}"),
                "the limit",
                bytes as usize,
                0,
            );
        }
    }
}
