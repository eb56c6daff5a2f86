//! Inputs that a program makes: long ones, whose levels stay few, and deep ones.

use super::{COLLECTION, HALF, fed};
use crate::checks::{equal, holds};
use crate::rows::Wanted;
use crate::rows::Wanted::{Broken, NotJson, Valid};
use gj_coords::{Kind, Rule};
use gj_json::{Cause, Limits};
use gj_rules::{Linter, Verdict};
use std::process::Abort;

/// Two linters over the same input: one has it byte by byte, the other part by part.
#[derive(Drop)]
struct Linters {
    single: Linter,
    pieces: Linter,
    /// At most four levels were open after each byte.
    low: bool,
}

impl Linters {
    fn new() -> Linters {
        Linters {
            single: Linter::new(Limits::usual()),
            pieces: Linter::new(Limits::usual()),
            low: true,
        }
    }

    /// Feeds a part this many times.
    fn feed(&mut self, part: &[u8], times: u32) {
        for _ in 0..times {
            for byte in part {
                self.single.feed(&[*byte]);
                self.low = self.low && self.single.levels() <= 4;
            }
            self.pieces.feed(part);
        }
    }

    fn expect(self, rt: &impl Abort, wanted: Wanted, row: &str) {
        let verdict = wanted.verdict();
        holds(rt, self.low, row);
        holds(rt, self.single.finish() == verdict, row);
        holds(rt, self.pieces.finish() == verdict, row);
    }
}

/// The number of times that the part stands in a long input.
const MANY: u32 = 5_000;

const BEYOND: Wanted = Broken(Rule::G16, 31);

/// What a number begins with, what is in it many times, what comes then, the verdict, and what it is.
static LONG_NUMBERS: [(&[u8], &[u8], &[u8], Wanted, &str); 6] = [
    (b"1.", b"0", b",1]}", Valid(&[]), "1.00.."),
    (b"0.", b"0", b",1]}", Valid(&[]), "0.00.."),
    (b"0.", b"0", b"1,1]}", BEYOND, "0.00..1"),
    (b"1", b"0", b",1]}", BEYOND, "100.."),
    (b"1e", b"9", b",1]}", BEYOND, "1e99.."),
    (b"0e", b"9", b",1]}", Valid(&[]), "0e99.."),
];

#[test]
fn long_numbers(rt: HostRuntime) {
    for (start, part, end, wanted, row) in LONG_NUMBERS.iter() {
        let mut linters = Linters::new();
        linters.feed(b"{\"type\":\"Point\",\"coordinates\":[", 1);
        linters.feed(start, 1);
        linters.feed(part, MANY);
        linters.feed(end, 1);
        linters.expect(&rt, *wanted, row);
    }
}

/// How a text begins, a part, how many times it stands there, how the text ends, the verdict, and what it is.
static LONG_LISTS: [(&[u8], &[u8], u32, &[u8], Wanted, &str); 7] = [
    (
        b"{\"type\":\"Point\",\"coordinates\":[0",
        b",0",
        MANY - 1,
        b"]}",
        Valid(&[(Kind::W3, 30)]),
        "a position of many numbers",
    ),
    (
        b"{\"",
        b"t",
        MANY,
        b"\":0,\"type\":\"Point\",\"coordinates\":[1,2]}",
        Valid(&[]),
        "a name of many letters",
    ),
    (
        b"{\"type\":\"MultiPoint\",\"coordinates\":[[0,0]",
        b",[0,0]",
        MANY,
        b"]}",
        Valid(&[]),
        "many positions",
    ),
    (
        b"{\"a\":\"",
        b"x",
        100,
        b"\xE2\x82\xAC\"}",
        Broken(Rule::G2, 0),
        "a character after a run",
    ),
    (
        b"{\"a\":\"",
        b"x",
        100,
        b"\xE2\x82\x28",
        NotJson(Cause::Syntax, 108),
        "no character after a run",
    ),
    (
        b"{\"a\":\"",
        b"x",
        70,
        b"\x1F",
        NotJson(Cause::Syntax, 76),
        "a control byte after a run",
    ),
    (
        b"{\"a\":\"",
        b"x",
        100,
        b"\xE2\x82",
        NotJson(Cause::Truncated, 108),
        "half a character after a run",
    ),
];

#[test]
fn long_lists_and_names(rt: HostRuntime) {
    for (start, part, times, end, wanted, row) in LONG_LISTS.iter() {
        let mut linters = Linters::new();
        linters.feed(start, 1);
        linters.feed(part, *times);
        linters.feed(end, 1);
        linters.expect(&rt, *wanted, row);
    }
}

#[test]
fn as_many_collections_as_can_be_closed(rt: HostRuntime) {
    let mut linter = fed(b"", HALF as usize, b"");
    for _ in 0..HALF {
        linter.feed(b"]}");
    }
    match linter.finish() {
        Verdict::Valid(warnings) => {
            let found = (warnings.count(Kind::W7), warnings.first(Kind::W7));
            let first = Some(COLLECTION.len() as u64);
            equal(&rt, found, (HALF as u32 - 1, first), "collections");
        }
        _ => holds(&rt, false, "no valid text"),
    }
}
