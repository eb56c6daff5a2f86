//! Runs of whole characters: what `skip_run` takes, and rows of long strings.

use super::{Refusal, expect};
use crate::checks::equal;
use gj_json::{Cause, Limits, MOST_LEVELS, Reader};

/// A reader that was given these bytes.
fn after(bytes: &[u8]) -> Reader {
    let mut reader = Reader::new(Limits::usual());
    for byte in bytes {
        let _ = reader.push(*byte);
    }
    reader
}

/// A run of characters, and the first two bytes of one of three bytes.
const CUT_CHARACTER: &[u8] =
    b"xxxxxxxxxxxxxxxxxxxxxxxxxxxxxxxxxxxxxxxxxxxxxxxxxxxxxxxxxxxxxxxxxxxxxxxxxxxxxxxxxxxxxxxxxxxxxxxxxxxx\xE2\x82";

/// What comes before, a piece, how many of its bytes are taken, and what it is.
static RUNS: [(&[u8], &[u8], usize, &str); 11] = [
    (
        b"{\"a\":\"",
        CUT_CHARACTER,
        100,
        "a character that the end of the piece cuts is left",
    ),
    (b"", CUT_CHARACTER, 0, "no string is open"),
    (b"{\"a\":", b"x", 0, "a value is due"),
    (b"{\"", CUT_CHARACTER, 100, "a name is open"),
    (b"\"\\", b"n", 0, "an escape is under way"),
    (b"\"\\u00", b"41", 0, "four digits are under way"),
    (b"\"\xE2", b"\x82\xAC", 0, "a character is under way"),
    (b"\"\x1F", b"x", 0, "a byte was refused"),
    (b"\"", b"\xE2\x82\xAC\"", 3, "a quote ends the run"),
    (b"\"", b"ab\\n", 2, "a backslash ends the run"),
    (b"\"", b"a\xFFb", 1, "a byte that is no UTF-8 is left"),
];

#[test]
fn skip_run_takes_whole_characters(rt: HostRuntime) {
    for (before, piece, count, row) in RUNS.iter() {
        let mut reader = after(before);
        equal(&rt, reader.skip_run(piece), *count, row);
    }
}

/// The run ends where the limit on the bytes does.
#[test]
fn skip_run_stops_at_the_limit(rt: HostRuntime) {
    let limits = Limits::new(1, 5).expect(&rt, "within bounds");
    let mut reader = Reader::new(limits);
    let _ = reader.push(b'"');
    equal(&rt, reader.skip_run(b"abcdefgh"), 4, "up to the limit");
    equal(&rt, reader.skip_run(b"efgh"), 0, "at the limit");
}

const BROKEN_CHARACTER: &[u8] =
    b"{\"a\":\"xxxxxxxxxxxxxxxxxxxxxxxxxxxxxxxxxxxxxxxxxxxxxxxxxxxxxxxxxxxxxxxxxxxxxxxxxxxxxxxxxxxxxxxxxxxxxxxxxxxx\xE2\x82\x28";

const WHOLE_CHARACTER: &[u8] =
    b"{\"a\":\"xxxxxxxxxxxxxxxxxxxxxxxxxxxxxxxxxxxxxxxxxxxxxxxxxxxxxxxxxxxxxxxxxxxxxxxxxxxxxxxxxxxxxxxxxxxxxxxxxxxx\xE2\x82\xAC\"";

const CONTROL_CHARACTER: &[u8] =
    b"{\"a\":\"xxxxxxxxxxxxxxxxxxxxxxxxxxxxxxxxxxxxxxxxxxxxxxxxxxxxxxxxxxxxxxxxxxxxxx\x1F";

/// How many bytes a text may have, an input, what it is refused for, and what it is.
static LONG_STRINGS: [(u64, &[u8], Refusal, &str); 4] = [
    (
        1 << 60,
        BROKEN_CHARACTER,
        Some((Cause::Syntax, 108)),
        "a character that is broken off",
    ),
    (
        1 << 60,
        CONTROL_CHARACTER,
        Some((Cause::Syntax, 76)),
        "a control character",
    ),
    (
        1 << 60,
        WHOLE_CHARACTER,
        Some((Cause::Truncated, 110)),
        "a character after the run",
    ),
    (
        50,
        WHOLE_CHARACTER,
        Some((Cause::Length, 50)),
        "the limit lies within the run",
    ),
];

#[test]
fn long_strings_are_refused(rt: HostRuntime) {
    for (bytes, input, expected, row) in LONG_STRINGS.iter() {
        let limits = Limits::new(MOST_LEVELS, *bytes).expect(&rt, row);
        expect(&rt, limits, input, *expected, row);
    }
}
