//! Sequences over pieces: each row whole, byte by byte and cut in two at each place.

use crate::checks::{equal, holds, holds_in};
use crate::rows::Wanted;
use crate::rows::Wanted::{Broken, NotJson, Valid};
use gj_coords::{Kind, Rule};
use gj_json::{Cause, Limits, MOST_LEVELS};
use gj_rules::{SeqProgress, SeqVerdict, Sequence};
use std::process::Abort;

const MOST: u64 = 1 << 60;

const EMPTY: &[u8] = b"";

const POINT: &[u8] = b"\x1E{\"type\":\"Point\",\"coordinates\":[1,2]}";

const TWO: &[u8] =
    b"\x1E{\"type\":\"Point\",\"coordinates\":[1,2]}\n\x1E\x1E{\"type\":\"Point\",\"coordinates\":[1,2]}\n";

const MARKED: &[u8] =
    b"\x1E\xEF\xBB\xBF{\"type\":\"Point\",\"coordinates\":[1,2]}\n\x1E\xEF\xBB\xBF{\"type\":\"Point\",\"coordinates\":[1,2]}\n";

fn start(depth: u16, bytes: u64) -> Sequence {
    Sequence::new(Limits::new(depth, bytes).unwrap_or(Limits::usual()))
}

/// The verdict of an input in two pieces.
fn in_two(depth: u16, bytes: u64, first: &[u8], second: &[u8]) -> SeqVerdict {
    let mut sequence = start(depth, bytes);
    sequence.feed(first);
    sequence.feed(second);
    sequence.finish()
}

/// The verdict of an input byte by byte.
fn by_bytes(depth: u16, bytes: u64, input: &[u8]) -> SeqVerdict {
    let mut sequence = start(depth, bytes);
    for byte in input {
        sequence.feed(&[*byte]);
    }
    sequence.finish()
}

fn in_any_cutting(rt: &impl Abort, depth: u16, bytes: u64, input: &[u8], verdict: SeqVerdict) {
    holds_in(rt, by_bytes(depth, bytes, input) == verdict, input, 0);
    for cut in 0..input.len() + 1 {
        let (first, second) = input.split_at(cut);
        let found = in_two(depth, bytes, first, second);
        holds_in(rt, found == verdict, input, cut);
    }
}

/// A sequence, and how many valid records it has, or which decides, with its verdict.
static ROWS: [(&[u8], u64, Wanted); 22] = [
    (EMPTY, 0, Valid(&[])),
    (TWO, 2, Valid(&[])),
    (POINT, 1, NotJson(Cause::Truncated, 37)),
    (
        b"\x1E{\x1E{\"type\":\"Point\",\"coordinates\":[1,2]}\n",
        1,
        NotJson(Cause::Truncated, 2),
    ),
    (b"\x1E[]\n\x1Ex", 1, Broken(Rule::G1, 1)),
    (
        b"{\"type\":\"Point\",\"coordinates\":[1,2]}\n",
        0,
        NotJson(Cause::Syntax, 0),
    ),
    (b"\x1E", 1, NotJson(Cause::Truncated, 1)),
    (b"\x1E\x1E", 1, NotJson(Cause::Truncated, 2)),
    (
        b"\x1E{\"type\":\"Point\",\"coordinates\":[1,2]}\n\x1E",
        2,
        NotJson(Cause::Truncated, 39),
    ),
    (b"\x1E[]", 1, NotJson(Cause::Truncated, 3)),
    (MARKED, 2, Valid(&[(Kind::W1, 1), (Kind::W1, 42)])),
    // a record without its LF, before another
    (
        b"\x1E{\"type\":\"Point\",\"coordinates\":[1,2]}\x1E{}\n",
        1,
        NotJson(Cause::Truncated, 37),
    ),
    // a refusal comes before the lack of an LF, and before a broken rule
    (b"\x1E[]x", 1, NotJson(Cause::Syntax, 3)),
    (b"\x1E[]]\n", 1, NotJson(Cause::Syntax, 3)),
    // white space after the LF
    (
        b"\x1E{\"type\":\"Point\",\"coordinates\":[1,2]}\n ",
        1,
        NotJson(Cause::Truncated, 39),
    ),
    (
        b"\x1E{\"type\":\"Point\",\"coordinates\":[1,2]}\n\n",
        1,
        Valid(&[]),
    ),
    // RS between the tokens of a record, in a string and in a number
    (b"\x1E[1,\x1E2]\n", 1, NotJson(Cause::Truncated, 4)),
    (b"\x1E\"a\x1Eb\"\n", 1, NotJson(Cause::Truncated, 3)),
    (b"\x1E1\x1E2\n", 1, NotJson(Cause::Truncated, 2)),
    // LF alone, and a byte before the first RS
    (b"\x1E\n", 1, NotJson(Cause::Truncated, 2)),
    (b"\n\x1E{}\n", 0, NotJson(Cause::Syntax, 0)),
    (
        b"\x1E{\"type\":\"Point\",\"coordinates\":[1,2]}\n\x1E\x1E{\"crs\":1,\"type\":\"Point\",\"coordinates\":[1,2]}\n",
        2,
        Valid(&[(Kind::W9, 41)]),
    ),
];

#[test]
fn rows(rt: HostRuntime) {
    for (input, number, wanted) in ROWS.iter() {
        let verdict = wanted.sequence_verdict(*number);
        in_any_cutting(&rt, MOST_LEVELS, MOST, input, verdict);
    }
}

/// How deep and how long a sequence may be, the sequence, and the verdict as above.
static LIMITED: [(u16, u64, &[u8], u64, Wanted); 13] = [
    (
        MOST_LEVELS,
        4,
        b"\x1E[]\n\x1E",
        1,
        NotJson(Cause::Length, 4),
    ),
    (MOST_LEVELS, 5, b"\x1E[]\n\x1E", 1, Broken(Rule::G1, 1)),
    // inside a run of RS, at an RS, at the byte after
    (
        MOST_LEVELS,
        1,
        b"\x1E\x1E\x1E[]\n",
        1,
        NotJson(Cause::Length, 1),
    ),
    (
        MOST_LEVELS,
        2,
        b"\x1E\x1E\x1E[]\n",
        1,
        NotJson(Cause::Length, 2),
    ),
    (
        MOST_LEVELS,
        3,
        b"\x1E\x1E\x1E[]\n",
        1,
        NotJson(Cause::Length, 3),
    ),
    (MOST_LEVELS, 38, TWO, 1, NotJson(Cause::Length, 38)),
    (MOST_LEVELS, 39, TWO, 2, NotJson(Cause::Length, 39)),
    (MOST_LEVELS, 40, TWO, 2, NotJson(Cause::Length, 40)),
    (MOST_LEVELS, 77, TWO, 2, Valid(&[])),
    // a refusal before the limit stands, and the limit comes before a refusal at its byte
    (MOST_LEVELS, 3, b"\x1E[}]\n", 1, NotJson(Cause::Syntax, 2)),
    (MOST_LEVELS, 2, b"\x1E[}]\n", 1, NotJson(Cause::Length, 2)),
    // the depth is allowed to each record
    (2, MOST, b"\x1E[[]]\n", 1, Broken(Rule::G1, 1)),
    (2, MOST, b"\x1E[[[", 1, NotJson(Cause::Depth, 3)),
];

#[test]
fn limits(rt: HostRuntime) {
    for (depth, bytes, input, number, wanted) in LIMITED.iter() {
        let verdict = wanted.sequence_verdict(*number);
        in_any_cutting(&rt, *depth, *bytes, input, verdict);
    }
}

/// A piece, what it leads to, the offset then, and what it shows.
static PIECES: [(&[u8], SeqProgress, u64, &str); 5] = [
    (POINT, SeqProgress::Open, 37, "a record"),
    (b"\n\x1E[{", SeqProgress::Open, 41, "its end, and another"),
    (
        b"}]\n",
        SeqProgress::Open,
        44,
        "a broken rule decides at the RS",
    ),
    (b"\x1E", SeqProgress::Decided, 44, "the RS"),
    (b"[", SeqProgress::Decided, 44, "nothing changes"),
];

#[test]
fn progress(rt: HostRuntime) {
    let mut sequence = start(MOST_LEVELS, MOST);
    let begun = (sequence.levels(), sequence.judged(), sequence.offset());
    equal(&rt, begun, (0, 0, 0), "no byte");
    for (piece, progress, offset, row) in PIECES.iter() {
        holds(&rt, sequence.feed(piece) == *progress, row);
        equal(&rt, sequence.offset(), *offset, row);
        if *offset == 41 {
            let open = (sequence.levels(), sequence.judged());
            equal(&rt, open, (2, 0), row);
        }
    }
    let verdict = Broken(Rule::G1, 39).sequence_verdict(2);
    holds(&rt, sequence.finish() == verdict, "the verdict");
}

#[test]
fn a_million_records(rt: HostRuntime) {
    let mut sequence = start(64, MOST);
    for _ in 0..500_000 {
        sequence.feed(POINT);
        sequence.feed(b"\n\x1E{\"crs\":1,\"type\":\"Point\",\"coordinates\":[1,2]}\n");
    }
    match sequence.finish() {
        SeqVerdict::Valid { records, warnings } => {
            let found = (records, warnings.count(Kind::W9), warnings.first(Kind::W9));
            equal(&rt, found, (1_000_000, 500_000, Some(40)), "all records");
        }
        SeqVerdict::Record { number, .. } => equal(&rt, number, 0, "a record"),
    }
}

#[test]
fn a_record_of_ten_million_bytes(rt: HostRuntime) {
    let mut sequence = start(64, MOST);
    sequence.feed(POINT);
    sequence.feed(b"\n\x1E{\"type\":\"LineString\",\"coordinates\":[[0,0]");
    for _ in 0..1_666_667 {
        sequence.feed(b",[1,2]");
    }
    let open = sequence.feed(b"]}\n\x1E[") == SeqProgress::Open;
    holds(&rt, open, "the next record is open");
    equal(&rt, sequence.levels(), 1, "its array is open");
    let decided = sequence.feed(b"]\n\x1E") == SeqProgress::Decided;
    holds(&rt, decided, "it breaks a rule");
    let verdict = Broken(Rule::G1, 10_000_086).sequence_verdict(3);
    holds(&rt, sequence.finish() == verdict, "the verdict");
}
