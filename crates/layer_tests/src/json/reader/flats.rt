//! Arrays of numbers that come as one `Flat`, beside their bytes in turn, in texts of positions and in changed ones.

use super::{FirstEvents, Ignoring, no_events};
use gj_json::{EventSink, JsonFault, Limits, Reader};
use std::process::Abort;

/// The text, and spaces after it: each of its numbers has room after it, so that none is left to the slow path.
pub(super) fn padded(text: &[u8]) -> [u8; 128] {
    let mut piece = [b' '; 128];
    for (to, from) in piece.iter_mut().zip(text) {
        *to = *from;
    }
    piece
}

fn by_piece(limits: Limits, piece: &[u8], sink: &mut FirstEvents) -> Option<JsonFault> {
    match Reader::new(limits).feed(piece, sink) {
        Ok(()) => None,
        Err(fault) => Some(fault),
    }
}

/// The fault of a piece where the sink ignores what it can, and whether it knows at the end how many levels are open.
fn by_ignoring(limits: Limits, piece: &[u8]) -> (Option<JsonFault>, bool) {
    let mut reader = Reader::new(limits);
    let mut sink = Ignoring { levels: 0 };
    let fault = match reader.feed(piece, &mut sink) {
        Ok(()) => None,
        Err(fault) => Some(fault),
    };
    (fault, sink.levels == reader.levels())
}

fn by_bytes(limits: Limits, piece: &[u8], sink: &mut FirstEvents) -> Option<JsonFault> {
    let mut reader = Reader::new(limits);
    for byte in piece {
        match reader.push(*byte) {
            Ok(events) => {
                for event in &events {
                    sink.tell(*event);
                }
            }
            Err(fault) => return Some(fault),
        }
    }
    None
}

fn is_same(one: &FirstEvents, other: &FirstEvents) -> bool {
    for index in 0..16 {
        let same = match (one.events.get(index), other.events.get(index)) {
            (Some(event), Some(told)) => *event == *told,
            (None, None) => true,
            _ => false,
        };
        if !same {
            return false;
        }
    }
    true
}

/// Tests that a piece is reported at once as its bytes are in turn, and refused at the same byte where its events are
/// ignored. It is a text that has this byte at the index.
pub(super) fn expect_same(
    rt: &impl Abort,
    limits: Limits,
    piece: &[u8],
    text: &str,
    index: usize,
    byte: u8,
) {
    let mut at_once = no_events();
    let mut in_turn = no_events();
    let fault = by_piece(limits, piece, &mut at_once);
    let other = by_bytes(limits, piece, &mut in_turn);
    let (ignored, knows) = by_ignoring(limits, piece);
    let same = fault == other && is_same(&at_once, &in_turn);
    let likewise = ignored == other && (ignored.is_some() || knows);
    assert!(rt; same && likewise, "{text} with {byte} at {index}");
}

fn expect_each(rt: &impl Abort, limits: Limits, text: &str) {
    for index in 0..text.len() {
        for byte in b"0 ,]-.e7[\n" {
            let mut piece = padded(text.as_bytes());
            if index < 128 {
                piece[index] = *byte;
            }
            expect_same(rt, limits, &piece, text, index, *byte);
        }
    }
}

static TEXTS: [&str; 10] = [
    "[[1.5,-2],[3, 4,5.25],[ 6 , 7 ]]",
    "{\"a\":[[-122.4194155,37.7749295],\n[0,-0.0]]}",
    "[[12345678901234567,1e5],[1,2,3,4],[01,2]]",
    "[[1.5,2.5],[-3.5, 4.5] ,[5.5,6.5],\n[7.5,8.5],9.5]",
    "{\"a\":[1.5,-2.5] ,\"b\":[[1.5,2.5],]}",
    "[\n [\n  10.25,\n  20.5\n ],\n [\n  0.1,\n  0.2,\n  0.3\n ]\n]",
    "[[\n  1.5,\n  2.5\n ],\n [\n  3.5,\n  4.5\n ],\n [\n   5.5,\n  6.5\n],[7.5,\n  8.5 ]]",
    "[[\n                  1.5,\n                  2.5],[\n                  3.5,\n                  4.5]]",
    "[ [ [ 1.5, -2.5 ], [ 3.5, -4.25 ], [ 5.5, -6.25 ], [ 7.5, 8.5 ] ] ]",
    "{ \"a\": { \"b\": 1 }, \"c\": [ 1.5, 2.5 ], \"d\": { \"e\": [ 3, 4, 5 ] } }",
];

#[test]
fn arrays_at_once_are_their_bytes_in_turn(rt: HostRuntime) {
    for text in TEXTS.iter() {
        expect_each(&rt, Limits::usual(), text);
    }
}

#[test]
fn arrays_at_once_keep_to_the_depth(rt: HostRuntime) {
    if let Some(limits) = Limits::new(2, 1_000) {
        for text in ["[[1,2],[3,4]]", "[[[1,2]]]", "{\"a\":[1,2],\"b\":[[1,2]]}"] {
            expect_each(&rt, limits, text);
        }
    }
}
