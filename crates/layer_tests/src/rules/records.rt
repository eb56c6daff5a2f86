//! Records over pieces: each row byte by byte and cut in two at each place.

use crate::checks::holds_in;
use crate::rows::Wanted;
use crate::rows::Wanted::{Broken, NotJson, Valid};
use gj_coords::{Kind, Rule, Warnings};
use gj_json::{Cause, Limits, MOST_LEVELS};
use gj_rules::{Framing, Record, RecordSink, Records, SeqVerdict, Verdict};
use std::process::Abort;

const MOST: u64 = 1 << 60;

/// Keeps what it is given.
#[derive(Drop)]
struct Told {
    records: [Record; 4],
    count: usize,
}

impl RecordSink for Told {
    ghost told = { λ sink records. Unit {0} };

    fn tell_record(&mut self, found: &Record) {
        if self.count < self.records.len() {
            self.records[self.count] = *found;
            self.count += 1;
        }
    }
}

fn start(framing: Framing, bytes: u64) -> Records {
    Records::new(
        framing,
        Limits::new(MOST_LEVELS, bytes).unwrap_or(Limits::usual()),
    )
}

fn nothing_told() -> Told {
    Told {
        records: [record_of(&(0, 0, 0, Valid(&[]))); 4],
        count: 0,
    }
}

/// The number of a record, where it begins and ends, and its verdict.
type Row = (u64, u64, u64, Wanted);

fn record_of(row: &Row) -> Record {
    let (number, place, end, wanted) = *row;
    Record {
        number,
        place,
        end,
        verdict: wanted.verdict(),
    }
}

/// Whether the sink was given these, and the input as a whole has this verdict.
fn agree(told: &Told, verdict: SeqVerdict, expected: &[Row]) -> bool {
    if told.count != expected.len() {
        return false;
    }
    let mut all = Warnings::none();
    let mut first = None;
    for (one, row) in told.records.iter().zip(expected) {
        let other = record_of(row);
        if *one != other {
            return false;
        }
        match (first, other.verdict) {
            (None, Verdict::Valid(warnings)) => all = all.join(warnings),
            (None, verdict) => {
                let number = other.number;
                first = Some(SeqVerdict::Record { number, verdict });
            }
            _ => {}
        }
    }
    let records = expected.len() as u64;
    let valid = SeqVerdict::Valid {
        records,
        warnings: all,
    };
    verdict == first.unwrap_or(valid)
}

fn in_any_cutting(rt: &impl Abort, framing: Framing, bytes: u64, input: &[u8], expected: &[Row]) {
    let mut records = start(framing, bytes);
    let mut told = nothing_told();
    for byte in input {
        records.feed(&[*byte], &mut told);
    }
    let verdict = records.finish(&mut told);
    holds_in(rt, agree(&told, verdict, expected), input, 0);
    for cut in 0..input.len() + 1 {
        let (first, second) = input.split_at(cut);
        let mut records = start(framing, bytes);
        let mut told = nothing_told();
        records.feed(first, &mut told);
        records.feed(second, &mut told);
        let verdict = records.finish(&mut told);
        holds_in(rt, agree(&told, verdict, expected), input, cut);
    }
}

const POINT_LINES: &[u8] =
    b"{\"type\":\"Point\",\"coordinates\":[1,2]}\n{\"type\":\"Point\",\"coordinates\":[1,2]}\n";

static LINES: [(&[u8], &[Row]); 13] = [
    (b"", &[]),
    (b" \n\t\r\n  ", &[]),
    (
        POINT_LINES,
        &[(1, 0, 36, Valid(&[])), (2, 37, 73, Valid(&[]))],
    ),
    // the last line without its LF
    (
        b"[]\n{\"type\":\"Point\",\"coordinates\":[1,2]}",
        &[(1, 0, 2, Broken(Rule::G1, 0)), (2, 3, 39, Valid(&[]))],
    ),
    // CR LF
    (
        b"{\"type\":\"Point\",\"coordinates\":[1,2]}\r\n{\"type\":\"Point\",\"coordinates\":[1,2]}\r\n",
        &[(1, 0, 37, Valid(&[])), (2, 38, 75, Valid(&[]))],
    ),
    // an empty line, and white space alone
    (
        b"[]\n\n  \t\n\r\n{\"type\":\"Point\",\"coordinates\":[1,2]}\n \n",
        &[(1, 0, 2, Broken(Rule::G1, 0)), (2, 10, 46, Valid(&[]))],
    ),
    // a bad line among good ones
    (
        b"{\"type\":\"Point\",\"coordinates\":[1,2]}\n[1\n{\"type\":\"Point\",\"coordinates\":[1,2]}\n",
        &[
            (1, 0, 36, Valid(&[])),
            (2, 37, 39, NotJson(Cause::Truncated, 39)),
            (3, 40, 76, Valid(&[])),
        ],
    ),
    (
        b"[1,,2]]\n[]\n",
        &[
            (1, 0, 7, NotJson(Cause::Syntax, 3)),
            (2, 8, 10, Broken(Rule::G1, 8)),
        ],
    ),
    // a byte order mark in each
    (
        b"\xEF\xBB\xBF{\"type\":\"Point\",\"coordinates\":[1,2]}\n\xEF\xBB\xBF{\"type\":\"Point\",\"coordinates\":[1,2]}\n",
        &[
            (1, 0, 39, Valid(&[(Kind::W1, 0)])),
            (2, 40, 79, Valid(&[(Kind::W1, 40)])),
        ],
    ),
    // a byte order mark alone
    (
        b"\xEF\xBB\xBF\n",
        &[(1, 0, 3, NotJson(Cause::Truncated, 3))],
    ),
    // a text of two lines
    (
        b"{\n}\n",
        &[
            (1, 0, 1, NotJson(Cause::Truncated, 1)),
            (2, 2, 3, NotJson(Cause::Syntax, 2)),
        ],
    ),
    // RS stands in no text
    (b"\x1E[]\n", &[(1, 0, 3, NotJson(Cause::Syntax, 0))]),
    // white space before a text is part of its line
    (b" [,", &[(1, 0, 3, NotJson(Cause::Syntax, 2))]),
];

#[test]
fn lines(rt: HostRuntime) {
    for (input, expected) in LINES.iter() {
        in_any_cutting(&rt, Framing::Lines, MOST, input, expected);
    }
}

const TWO: &[u8] =
    b"\x1E{\"type\":\"Point\",\"coordinates\":[1,2]}\n\x1E\x1E{\"type\":\"Point\",\"coordinates\":[1,2]}\n";

static SEQUENCES: [(&[u8], &[Row]); 11] = [
    (b"", &[]),
    (TWO, &[(1, 1, 38, Valid(&[])), (2, 40, 77, Valid(&[]))]),
    // a bad record among good ones
    (
        b"\x1E[]\n\x1E{\"type\":\"Point\",\"coordinates\":[1,2]}\n",
        &[(1, 1, 4, Broken(Rule::G1, 1)), (2, 5, 42, Valid(&[]))],
    ),
    (
        b"\x1Ex,y\n\x1E\x1E{\"type\":\"Point\",\"coordinates\":[1,2]}\n",
        &[(1, 1, 5, NotJson(Cause::Syntax, 1)), (2, 7, 44, Valid(&[]))],
    ),
    // a record without its LF, before another and at the end
    (
        b"\x1E{\"type\":\"Point\",\"coordinates\":[1,2]}\x1E[]",
        &[
            (1, 1, 37, NotJson(Cause::Truncated, 37)),
            (2, 38, 40, NotJson(Cause::Truncated, 40)),
        ],
    ),
    // bytes before the first RS, and no RS at all
    (
        b"ab\x1E{\"type\":\"Point\",\"coordinates\":[1,2]}\n",
        &[(0, 0, 2, NotJson(Cause::Syntax, 0)), (1, 3, 40, Valid(&[]))],
    ),
    (
        b"{\"type\":\"Point\",\"coordinates\":[1,2]}\n",
        &[(0, 0, 37, NotJson(Cause::Syntax, 0))],
    ),
    // an RS that nothing follows
    (b"\x1E", &[(1, 1, 1, NotJson(Cause::Truncated, 1))]),
    (b"\x1E\x1E", &[(1, 2, 2, NotJson(Cause::Truncated, 2))]),
    (
        b"\x1E[]\n\x1E",
        &[
            (1, 1, 4, Broken(Rule::G1, 1)),
            (2, 5, 5, NotJson(Cause::Truncated, 5)),
        ],
    ),
    // LF alone
    (b"\x1E\n", &[(1, 1, 2, NotJson(Cause::Truncated, 2))]),
];

#[test]
fn sequences(rt: HostRuntime) {
    for (input, expected) in SEQUENCES.iter() {
        in_any_cutting(&rt, Framing::Sequence, MOST, input, expected);
    }
}

static LIMITED: [(Framing, u64, &[u8], &[Row]); 7] = [
    (
        Framing::Sequence,
        77,
        TWO,
        &[(1, 1, 38, Valid(&[])), (2, 40, 77, Valid(&[]))],
    ),
    (
        Framing::Sequence,
        45,
        TWO,
        &[
            (1, 1, 38, Valid(&[])),
            (2, 40, 45, NotJson(Cause::Length, 45)),
        ],
    ),
    (
        Framing::Sequence,
        39,
        TWO,
        &[
            (1, 1, 38, Valid(&[])),
            (2, 39, 39, NotJson(Cause::Length, 39)),
        ],
    ),
    // a byte of the record refuses it before that
    (
        Framing::Sequence,
        4,
        b"\x1Exyyyy\n",
        &[(1, 1, 4, NotJson(Cause::Syntax, 1))],
    ),
    (
        Framing::Lines,
        40,
        POINT_LINES,
        &[
            (1, 0, 36, Valid(&[])),
            (2, 37, 40, NotJson(Cause::Length, 40)),
        ],
    ),
    (
        Framing::Lines,
        37,
        POINT_LINES,
        &[
            (1, 0, 36, Valid(&[])),
            (2, 37, 37, NotJson(Cause::Length, 37)),
        ],
    ),
    (
        Framing::Lines,
        74,
        POINT_LINES,
        &[(1, 0, 36, Valid(&[])), (2, 37, 73, Valid(&[]))],
    ),
];

#[test]
fn limits(rt: HostRuntime) {
    for (framing, bytes, input, expected) in LIMITED.iter() {
        in_any_cutting(&rt, *framing, *bytes, input, expected);
    }
}

#[test]
fn places_and_the_limit(rt: HostRuntime) {
    let mut records = start(Framing::Lines, 4);
    let mut told = nothing_told();
    records.feed(b"[]\n", &mut told);
    let open = records.offset() == 3 && !records.is_over();
    holds_in(&rt, open, b"[]\n", 3);
    records.feed(b"[]", &mut told);
    let over = records.offset() == 4 && records.is_over();
    holds_in(&rt, over, b"[]\n[]", 4);
}
