//! What no clause says: how many bytes numbers have at the start of a piece, and which are left.
use crate::checks::equal;
use gj_number::{number_run, unsigned_run};

/// How many bytes are found at the start of the text with spaces after it.
fn found(text: &str) -> usize {
    let mut piece = [b' '; 32];
    for (to, from) in piece.iter_mut().zip(text.as_bytes()) {
        *to = *from;
    }
    unsigned_run(&piece)
}

/// A text, how many bytes its number has, and what it is.
static NUMBERS: [(&str, usize, &str); 11] = [
    ("0,", 1, "zero"),
    ("17}", 2, "digits before a brace"),
    ("12.5,", 4, "digits after a point"),
    ("0.0]", 3, "zeros"),
    ("10 ", 2, "digits before a space"),
    ("1.5e3", 3, "up to an exponent"),
    ("12E-3,", 2, "up to an exponent with no point before it"),
    ("1.2.3", 3, "up to a second point"),
    ("123456789012345,", 15, "fifteen digits"),
    ("1.2345678901234]", 15, "fifteen bytes with a point"),
    ("123456789012.34]", 15, "a point after twelve digits"),
];

#[test]
fn finds_numbers(rt: HostRuntime) {
    for (text, count, case) in NUMBERS.iter() {
        equal(&rt, found(text), *count, case);
    }
}

/// Pieces that start with no such number, or with one that is left to another reader.
static OTHERS: [(&str, &str); 11] = [
    ("digit after a first zero", "01,"),
    ("zero after a first zero", "00.5,"),
    ("no digit after the point", "1.,"),
    ("exponent after the point", "1.e5,"),
    ("no digit before the point", ".5"),
    ("minus", "-1"),
    ("plus", "+1"),
    ("space", " 1"),
    ("name", "null"),
    ("sixteen digits", "1234567890123456,"),
    ("sixteen bytes with a point", "1.23456789012345,"),
];

#[test]
fn leaves_other_pieces(rt: HostRuntime) {
    for (case, text) in OTHERS.iter() {
        equal(&rt, found(text), 0, case);
    }
}

/// A text, how many bytes the number has that it starts with, whole with a byte after it, and what it is.
static WHOLE: [(&str, usize, &str); 6] = [
    ("-17,", 3, "a sign"),
    ("1.5e3]", 5, "an exponent"),
    (
        "12345678901234567890123456789012345678.5E-400}",
        45,
        "more digits than are read at once",
    ),
    ("01,", 1, "a zero before another digit"),
    ("1.,", 0, "no digit after the point"),
    ("12", 0, "no byte after it"),
];

#[test]
fn counts_any_number(rt: HostRuntime) {
    for (text, count, case) in WHOLE.iter() {
        equal(&rt, number_run(text.as_bytes()), *count, case);
    }
}
