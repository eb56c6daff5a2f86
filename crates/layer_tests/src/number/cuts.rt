//! What no clause says: the cut values of two numbers, and which others are left.
use crate::checks::equal;
use gj_number::{cuts_at, digit_span};

/// The numbers, each by its value times 10^7 and whether it is too precise, and the indices of the bytes after them.
type Parts = (i64, bool, i64, bool, usize, usize);

/// What is read of a text, with these bytes between its first number and the first digit of the second.
fn parts(text: &str, between: &str) -> Option<Parts> {
    let mut piece = [b' '; 128];
    for (to, from) in piece.iter_mut().zip(text.as_bytes()) {
        *to = *from;
    }
    let negative = text.starts_with('-');
    let one = digit_span(&piece, negative as usize)?;
    let second = one.end().min(48) + between.len().min(48);
    let other = digit_span(&piece, second)?;
    let (first, last) = cuts_at(&piece, negative, one, between.ends_with('-'), other)?;
    Some((
        first.value,
        first.precise,
        last.value,
        last.precise,
        one.end(),
        other.end(),
    ))
}

static PAIRS: [(&str, &str, Parts); 20] = [
    (
        "-122.4194155,37.7749295],[",
        ",",
        (-1224194155, false, 377749295, false, 12, 23),
    ),
    ("0.5,0.25],[", ",", (5000000, false, 2500000, false, 3, 8)),
    (
        "180.0,-90.0],[",
        ",-",
        (1800000000, false, -900000000, false, 5, 11),
    ),
    ("-0.0,0.0],[", ",", (0, false, 0, false, 4, 8)),
    (
        "123.4567890,-89.9999999],[",
        ",-",
        (1234567890, false, -899999999, false, 11, 23),
    ),
    (
        "1.00000001,2.0],[",
        ",",
        (10000000, true, 20000000, false, 10, 14),
    ),
    (
        "1.0,-2.12345678],[",
        ",-",
        (10000000, false, -21234567, true, 3, 15),
    ),
    (
        "1.234567800000,2.345678900000],[",
        ",",
        (12345678, false, 23456789, false, 14, 29),
    ),
    (
        "1.0000000000001,10.0000000000001],[",
        ",",
        (10000000, true, 100000000, true, 15, 32),
    ),
    (
        "-179.123456789012,89.987654321098],[",
        ",",
        (-1791234567, true, 899876543, true, 17, 33),
    ),
    (
        "-123.456789012345678,-987.654321098765432],[",
        ",-",
        (-1234567890, true, -9876543210, true, 20, 41),
    ),
    (
        "0.00000001,0.100000000000],[",
        ",",
        (0, true, 1000000, false, 10, 25),
    ),
    (
        "157.6732629,\n            55.8767754\n          ],",
        ",\n            ",
        (1576732629, false, 558767754, false, 11, 35),
    ),
    ("12,34],[", ",", (120000000, false, 340000000, false, 2, 5)),
    ("0,0],[", ",", (0, false, 0, false, 1, 3)),
    (
        "-180, -90 ], [",
        ", -",
        (-1800000000, false, -900000000, false, 4, 9),
    ),
    ("999,5],[", ",", (9990000000, false, 50000000, false, 3, 5)),
    ("7,2.5],[", ",", (70000000, false, 25000000, false, 1, 5)),
    ("1.5,-7],[", ",-", (15000000, false, -70000000, false, 3, 6)),
    (
        "123,1.1234567800000],[",
        ",",
        (1230000000, false, 11234567, true, 3, 19),
    ),
];

#[test]
fn reads_cut_values(rt: HostRuntime) {
    for (text, between, expected) in PAIRS.iter() {
        equal(&rt, parts(text, between), Some(*expected), text);
    }
}

/// Pieces that start with no such numbers, or with some that are left to another reader.
static OTHERS: [(&str, &str, &str); 14] = [
    ("zero before the digits", "01.5,2.5],[", ","),
    ("zero before the second's digits", "1.5,-02.5],[", ",-"),
    ("no digit after the point", "1.,2.5],[", ","),
    ("no digit after the second's point", "1.5,2.],[", ","),
    ("no digit before the point", ".5,2.5],[", ","),
    ("only a minus before the point", "-.5,2.5],[", ","),
    ("no digit", ",2.5],[", ","),
    ("no second digit", "1.5,],[", ","),
    ("four digits before the point", "1234.5,2.5],[", ","),
    ("four digits", "1234,5],[", ","),
    ("four digits of the second", "5,1234],[", ","),
    ("zero before a digit", "01,2],[", ","),
    (
        "sixteen digits after the point",
        "1.0000000000000001,2.5],[",
        ",",
    ),
    (
        "only the fourteenth digit after the point is no zero",
        "1.00000000000001,2.5],[",
        ",",
    ),
];

#[test]
fn leaves_other_numbers(rt: HostRuntime) {
    for (case, text, between) in OTHERS.iter() {
        equal(&rt, parts(text, between), None, case);
    }
}
