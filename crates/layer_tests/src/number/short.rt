//! What no clause says: the parts of ordinary numbers, and which others are left.
use crate::checks::{equal, holds};
use gj_number::{Short, read_short};

/// Negative, digits, places and bytes.
type Parts = (bool, u64, u8, usize);

/// What is found at the start of the text with spaces after it.
fn found(text: &str) -> Option<(Short, usize)> {
    let mut piece = [b' '; 64];
    for (to, from) in piece.iter_mut().zip(text.as_bytes()) {
        *to = *from;
    }
    let mut number = Short::zero();
    match read_short(&piece, &mut number) {
        0 => None,
        count => Some((number, count)),
    }
}

fn parts(text: &str) -> Option<Parts> {
    match found(text) {
        Some((short, count)) => Some((short.negative, short.digits, short.places, count)),
        None => None,
    }
}

/// A text, and what is found in it.
static ORDINARY: [(&str, Parts); 27] = [
    ("0,", (false, 0, 0, 1)),
    ("-0,", (true, 0, 0, 2)),
    ("7]", (false, 7, 0, 1)),
    ("4095,", (false, 4095, 0, 4)),
    ("12.3456,", (false, 123456, 4, 7)),
    ("-122.4194155,", (true, 1224194155, 7, 12)),
    ("-122.41941550000001]", (true, 12241941550000001, 14, 19)),
    ("0.1234567890123456 ", (false, 1234567890123456, 16, 18)),
    ("154.29929146250234,", (false, 15429929146250234, 14, 18)),
    ("-123456789012345.678]", (true, 123456789012345678, 3, 20)),
    ("999999999999999999,", (false, 999999999999999999, 0, 18)),
    ("1.50\n", (false, 150, 2, 4)),
    ("0.1234567890123,", (false, 1234567890123, 13, 15)),
    ("0.12345678901234,", (false, 12345678901234, 14, 16)),
    ("12345678901234.5,", (false, 123456789012345, 1, 16)),
    ("123456789012345]", (false, 123456789012345, 0, 15)),
    ("-1234567890123456]", (true, 1234567890123456, 0, 17)),
    ("0.12345678901234567,", (false, 12345678901234567, 17, 19)),
    ("-12345678901234567.8 ", (true, 123456789012345678, 1, 20)),
    ("10.0000000000000001}", (false, 100000000000000001, 16, 19)),
    ("1e5,", (false, 100000, 0, 3)),
    ("-1.5E+05,", (true, 150000, 0, 8)),
    ("2.9653517e+01]", (false, 29653517, 6, 13)),
    ("12.50e-3,", (false, 1250, 5, 8)),
    ("1e-18,", (false, 1, 18, 5)),
    ("0e017,", (false, 0, 0, 5)),
    ("12345678901234567.8e1,", (false, 123456789012345678, 0, 21)),
];

#[test]
fn reads_ordinary_numbers(rt: HostRuntime) {
    for (text, expected) in ORDINARY.iter() {
        equal(&rt, parts(text), Some(*expected), text);
    }
}

/// The end of a piece, and how many of its bytes are taken.
static ENDS: [(&str, usize); 9] = [
    ("7]", 1),
    ("-47.33879]}}\n", 9),
    ("-122.41941550000001]", 19),
    ("1234567890123456,1234567890123456,12345", 16),
    ("12.5", 0),
    ("-", 0),
    ("", 0),
    ("1e5]", 3),
    ("1e5", 0),
];

#[test]
fn reads_numbers_near_the_end_of_a_piece(rt: HostRuntime) {
    for (text, expected) in ENDS.iter() {
        let mut number = Short::zero();
        let taken = read_short(text.as_bytes(), &mut number);
        equal(&rt, taken, *expected, text);
    }
}

static OTHERS: [&str; 23] = [
    "",
    "-",
    "-,",
    ".5,",
    "1.,",
    "1.x",
    "1e,",
    "1e+,",
    "1e5.",
    "1e0005,",
    "1e18,",
    "1e-19,",
    "123456789012345678e1,",
    "1-",
    "1.5.",
    "+1,",
    "x",
    "1234567890123456789,",
    "01,",
    "-00.5,",
    "0.123456789012345678,",
    "123.1234567890123456,",
    "12345678901234.56789,",
];

#[test]
fn leaves_the_others(rt: HostRuntime) {
    for text in OTHERS.iter() {
        holds(&rt, found(text).is_none(), text);
    }
}

/// A number, and its value in units of 10⁻⁷.
static CUTS: [(&str, Option<i64>); 5] = [
    ("-122.4194155,", Some(-1224194155)),
    ("-122.41941559,", Some(-1224194155)),
    ("1.5,", Some(15000000)),
    ("10000000000,", None),
    ("9999999999.9999999,", Some(99999999999999999)),
];

#[test]
fn cuts(rt: HostRuntime) {
    for (text, expected) in CUTS.iter() {
        let cut = match found(text) {
            Some((short, _)) => short.cut(),
            None => None,
        };
        equal(&rt, cut, *expected, text);
    }
}

/// A number, and its value in units of 10⁻⁷ where that is at most 180.
static CUTS_WITHIN: [(&str, Option<i32>); 5] = [
    ("-122.4194155,", Some(-1224194155)),
    ("180,", Some(1800000000)),
    ("-180.00000009,", Some(-1800000000)),
    ("180.0000001,", None),
    ("-181,", None),
];

#[test]
fn cuts_within(rt: HostRuntime) {
    for (text, expected) in CUTS_WITHIN.iter() {
        let cut = match found(text) {
            Some((short, _)) => short.cut_within(180),
            None => None,
        };
        equal(&rt, cut, *expected, text);
    }
}

/// A number, and whether it has more than seven decimal places.
static PRECISE: [(&str, bool); 4] = [
    ("1.00000001,", true),
    ("1.10000000,", false),
    ("1.1234567,", false),
    ("0.00000000,", false),
];

#[test]
fn knows_the_precise(rt: HostRuntime) {
    for (text, expected) in PRECISE.iter() {
        let precise = match found(text) {
            Some((short, _)) => short.is_precise(),
            None => false,
        };
        equal(&rt, precise, *expected, text);
    }
}

/// Two numbers, and whether they are the same.
static PAIRS: [(&str, &str, bool); 6] = [
    ("1.5,", "1.50]", true),
    ("-0.0,", "0,", true),
    ("-0.0,", "0.0,", true),
    ("-1.0,", "1.0,", false),
    ("1.5,", "1.6,", false),
    ("15,", "1.5,", false),
];

#[test]
fn compares(rt: HostRuntime) {
    for (one, other, expected) in PAIRS.iter() {
        let same = match (found(one), found(other)) {
            (Some((a, _)), Some((b, _))) => a.same(b),
            _ => false,
        };
        equal(&rt, same, *expected, other);
    }
}
