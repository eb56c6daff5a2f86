//! What no clause says: that the definitions mean what the tables of decimals say.
ghost use Rattle.std.specs.Prelude.{ℕ, ◌≤◌, List, length};
ghost use Rattle.gj_number.specs.Literal.{StandsFor};

use crate::checks::{equal, holds};
use gj_number::{Decimal, Literal, Step};
use std::process::Abort;

/// A text, and how many times it stands.
type Piece = (&'static str, u32);

/// Negative, digits, power.
type Parts = (bool, u128, i16);

/// Gives each byte to `push`, up to one that is refused.
fn push_text(literal: &mut Literal, text: &[u8])
    ensures { (bytes : List ℕ) → StandsFor literal.old bytes → (more : List ℕ) × StandsFor literal.new more }
{
    for byte in text {
        if literal.push(*byte) == Step::Ends {
            return;
        }
    }
}

/// How a text is given to a literal.
#[derive(Clone, Copy)]
enum Way {
    ByBytes,
    ByPieces,
}

/// Gives a text this many times.
fn push_piece(literal: &mut Literal, way: Way, text: &str, times: u32)
    ensures { (bytes : List ℕ) → StandsFor literal.old bytes → (more : List ℕ) × StandsFor literal.new more }
{
    for _ in 0..times {
        match way {
            Way::ByBytes => push_text(literal, text.as_bytes()),
            Way::ByPieces => {
                let _ = literal.push_piece(text.as_bytes());
            }
        }
    }
}

/// The literal after these pieces.
fn read(way: Way, pieces: &[Piece]) -> Literal
    ensures { (bytes : List ℕ) × StandsFor result bytes }
{
    let mut literal = Literal::new();
    for (text, times) in pieces {
        push_piece(&mut literal, way, text, *times);
    }
    literal
}

/// The value of a literal, which must be a number.
fn value(rt: &impl Abort, literal: Literal, name: &str) -> Option<Decimal>
    requires { (bytes : List ℕ) × StandsFor literal bytes }
{
    assert!(rt; literal.may_end(), "{name} is a number");
    literal.value()
}

/// Tests the value of these bytes, in each way of reading.
fn expect(rt: &impl Abort, pieces: &[Piece], name: &str, want: Option<Parts>) -> Option<Decimal> {
    let found = value(rt, read(Way::ByBytes, pieces), name);
    equal(rt, found.map(|decimal| decimal.parts()), want, name);
    let by_pieces = value(rt, read(Way::ByPieces, pieces), name);
    holds(rt, by_pieces == found, name);
    found
}

/// A number, the parts of its decimal, its decimal places, and its value in units of 10⁻⁷.
type Row = (&'static str, Parts, u16, Option<i64>);

static DECIMALS: [Row; 17] = [
    ("0", (false, 0, 0), 0, Some(0)),
    ("-0.0", (false, 0, 0), 0, Some(0)),
    ("0e99999", (false, 0, 0), 0, Some(0)),
    ("1.50", (false, 15, -1), 1, Some(15_000_000)),
    ("15e-1", (false, 15, -1), 1, Some(15_000_000)),
    ("-180", (true, 18, 1), 0, Some(-1_800_000_000)),
    ("1e+2", (false, 1, 2), 0, Some(1_000_000_000)),
    ("1e0000002", (false, 1, 2), 0, Some(1_000_000_000)),
    ("100e-2", (false, 1, 0), 0, Some(10_000_000)),
    ("1e-07", (false, 1, -7), 7, Some(1)),
    ("-0.00000019", (true, 19, -8), 8, Some(-1)),
    (
        "1.4210854715202004e-14",
        (false, 14_210_854_715_202_004, -30),
        30,
        Some(0),
    ),
    (
        "9999999999.9999999",
        (false, 99_999_999_999_999_999, -7),
        7,
        Some(99_999_999_999_999_999),
    ),
    ("1e10", (false, 1, 10), 0, None),
    (
        "999999999999999999999999999999",
        (false, 999_999_999_999_999_999_999_999_999_999, 0),
        0,
        None,
    ),
    ("1e400", (false, 1, 400), 0, None),
    ("0.1e-399", (false, 1, -400), 400, Some(0)),
];

fn expect_row(rt: &impl Abort, row: &Row) {
    let (text, parts, places, cut) = row;
    if let Some(decimal) = expect(rt, &[(text, 1)], text, Some(*parts)) {
        equal(rt, (decimal.places(), decimal.cut()), (*places, *cut), text);
    }
}

#[test]
fn decimals(rt: HostRuntime) {
    for row in DECIMALS.iter() {
        expect_row(&rt, row);
    }
}

static BEYOND_THE_LIMITS: [&str; 8] = [
    "1e401",
    "10e400",
    "1e-401",
    "1e1001",
    "1e-1001",
    "0.1e1000",
    "9999999999999999999999999999999",
    "1234567890123456789012345678901",
];

#[test]
fn beyond_the_limits(rt: HostRuntime) {
    for text in BEYOND_THE_LIMITS.iter() {
        let _ = expect(&rt, &[(text, 1)], text, None);
    }
}

const ONE: Option<Parts> = Some((false, 1, 0));

const ZERO: Option<Parts> = Some((false, 0, 0));

static MANY_ZEROS: [(&str, &[Piece], Option<Parts>); 19] = [
    (
        "1 and 30 zeros",
        &[("1", 1), ("0", 30)],
        Some((false, 1, 30)),
    ),
    (
        "1, 1,200 zeros, e-1000",
        &[("1", 1), ("0", 1200), ("e-1000", 1)],
        Some((false, 1, 200)),
    ),
    (
        "1, 1,400 zeros, e-1000",
        &[("1", 1), ("0", 1400), ("e-1000", 1)],
        Some((false, 1, 400)),
    ),
    (
        "1, 1,401 zeros, e-1000",
        &[("1", 1), ("0", 1401), ("e-1000", 1)],
        None,
    ),
    (
        "0., 1,200 zeros, 1e1000",
        &[("0.", 1), ("0", 1200), ("1e1000", 1)],
        Some((false, 1, -201)),
    ),
    (
        "0., 1,380 zeros, 1e1000",
        &[("0.", 1), ("0", 1379), ("01e1000", 1)],
        Some((false, 1, -381)),
    ),
    (
        "0., 1,381 zeros, 1e1000",
        &[("0.", 1), ("0", 1380), ("01e1000", 1)],
        Some((false, 1, -382)),
    ),
    (
        "0., 1,399 zeros, 1e1000",
        &[("0.", 1), ("0", 1398), ("01e1000", 1)],
        Some((false, 1, -400)),
    ),
    (
        "0., 1,400 zeros, 1e1000",
        &[("0.", 1), ("0", 1399), ("01e1000", 1)],
        None,
    ),
    (
        "1. and a million zeros",
        &[("1.", 1), ("0", 1_000_000)],
        ONE,
    ),
    (
        "0. and a million zeros",
        &[("0.", 1), ("0", 1_000_000)],
        ZERO,
    ),
    (
        "0., a million zeros, 1",
        &[("0.", 1), ("0", 1_000_000), ("1", 1)],
        None,
    ),
    ("1 and a million zeros", &[("1", 1), ("0", 1_000_000)], None),
    (
        "1e and a million nines",
        &[("1e", 1), ("9", 1_000_000)],
        None,
    ),
    (
        "0e and a million nines",
        &[("0e", 1), ("9", 1_000_000)],
        ZERO,
    ),
    (
        "-0. and a million zeros",
        &[("-0.", 1), ("0", 1_000_000)],
        ZERO,
    ),
    (
        "1., a million zeros, 1",
        &[("1.", 1), ("0", 1_000_000), ("1", 1)],
        None,
    ),
    (
        "1e, a million zeros, 2",
        &[("1e", 1), ("0", 1_000_000), ("2", 1)],
        Some((false, 1, 2)),
    ),
    (
        "1e-, a million zeros, 401",
        &[("1e-", 1), ("0", 1_000_000), ("401", 1)],
        None,
    ),
];

#[test]
fn many_zeros(rt: HostRuntime) {
    for (name, pieces, want) in MANY_ZEROS.iter() {
        let _ = expect(&rt, pieces, name, *want);
    }
}

/// Two numbers, and whether they are equal.
static PAIRS: [(&str, &str, bool); 5] = [
    ("1.50", "15e-1", true),
    ("1", "1.00000001", false),
    ("-0", "0e5", true),
    ("-1", "1", false),
    ("100", "1e2", true),
];

#[test]
fn equal_where_the_values_are(rt: HostRuntime) {
    for (one, other, want) in PAIRS.iter() {
        let a = value(&rt, read(Way::ByBytes, &[(one, 1)]), one);
        let b = value(&rt, read(Way::ByBytes, &[(other, 1)]), other);
        equal(&rt, a == b, *want, other);
    }
}

/// Gives each byte to `push`, up to one that is refused, and returns how many are taken.
fn push_bytes(literal: &mut Literal, text: &[u8]) -> usize {
    for (at, byte) in text.iter().enumerate() {
        if literal.push(*byte) != Step::Goes {
            return at;
        }
    }
    text.len()
}

/// A text, how many of its bytes are taken, and whether those are a number.
static REFUSED: [(&str, usize, bool); 14] = [
    ("01", 1, true),
    ("-", 1, false),
    ("1.", 2, false),
    ("1.e", 2, false),
    ("1e+", 3, false),
    ("1e++", 3, false),
    ("+1", 0, false),
    ("-01", 2, true),
    (".5", 0, false),
    ("1.5.", 3, true),
    ("1E5-", 3, true),
    ("2e5e", 3, true),
    ("-a", 1, false),
    ("12 ", 2, true),
];

#[test]
fn refuses_what_begins_no_number(rt: HostRuntime) {
    for (text, taken, may_end) in REFUSED.iter() {
        let mut literal = Literal::new();
        let count = push_bytes(&mut literal, text.as_bytes());
        equal(&rt, (count, literal.may_end()), (*taken, *may_end), text);
    }
}

#[test]
fn keeps_its_value_behind_a_refused_byte(rt: HostRuntime) {
    let _ = expect(&rt, &[("01", 1)], "0 and a refused 1", Some((false, 0, 0)));
    let _ = expect(
        &rt,
        &[("2.5.1", 1)],
        "2.5 and a refused point",
        Some((false, 25, -1)),
    );
}

/// What is pushed first, a piece, and how many of its bytes are taken.
/// Gives a text to `push_piece` in two pieces, and returns how many bytes are taken.
fn push_halves(literal: &mut Literal, text: &[u8], cut: usize) -> usize
    requires { cut ≤ length text.now }
{
    let taken = literal.push_piece(&text[..cut]);
    if taken < cut {
        return taken;
    }
    cut + literal.push_piece(&text[cut..])
}

/// Gives a text to `push_piece` byte by byte, and returns how many are taken.
fn push_singly(literal: &mut Literal, text: &[u8]) -> usize {
    for (at, byte) in text.iter().enumerate() {
        if literal.push_piece(&[*byte]) == 0 {
            return at;
        }
    }
    text.len()
}

/// A text, how many of its bytes are taken, and their value where they are a number.
type Taken = (&'static str, usize, Option<Parts>);

/// Tests what a literal took of a text, and its value where that is a number.
fn expect_taken(rt: &impl Abort, literal: Literal, taken: usize, row: &Taken) {
    let (text, want, parts) = row;
    equal(
        rt,
        (taken, literal.may_end()),
        (*want, parts.is_some()),
        text,
    );
    if literal.may_end() {
        let found = literal.value().map(|decimal| decimal.parts());
        equal(rt, found, *parts, text);
    }
}

static TAKEN: [Taken; 31] = [
    ("7,", 1, Some((false, 7, 0))),
    ("0.5,", 3, Some((false, 5, -1))),
    ("10.50]", 5, Some((false, 105, -1))),
    ("17.1036482,", 10, Some((false, 171_036_482, -7))),
    ("-122.41941550}", 13, Some((true, 1_224_194_155, -7))),
    ("-0.1278 ", 7, Some((true, 1278, -4))),
    ("0.000450", 8, Some((false, 45, -5))),
    ("0.000", 5, Some((false, 0, 0))),
    ("5.000", 5, Some((false, 5, 0))),
    ("5.0001", 6, Some((false, 50_001, -4))),
    ("3000,", 4, Some((false, 3, 3))),
    ("1.5e3,", 5, Some((false, 15, 2))),
    ("20.5E-1", 7, Some((false, 205, -2))),
    ("1.", 2, None),
    ("0.", 2, None),
    ("-", 1, None),
    ("-,", 1, None),
    ("1.e5", 2, None),
    ("0.e5", 2, None),
    ("1..5", 2, None),
    ("1.5.5", 3, Some((false, 15, -1))),
    ("1.5-", 3, Some((false, 15, -1))),
    ("01.5", 1, Some((false, 0, 0))),
    (".5", 0, None),
    (
        "123456789.0123456789,",
        20,
        Some((false, 1_234_567_890_123_456_789, -10)),
    ),
    (
        "123456789.01234567890,",
        21,
        Some((false, 1_234_567_890_123_456_789, -10)),
    ),
    (
        "123456789.01234567891,",
        21,
        Some((false, 12_345_678_901_234_567_891, -11)),
    ),
    (
        "1234567890123456789.5",
        21,
        Some((false, 12_345_678_901_234_567_895, -1)),
    ),
    (
        "12345678901234567890.5",
        22,
        Some((false, 123_456_789_012_345_678_905, -1)),
    ),
    ("9999999999999999999.", 20, None),
    (
        "0.0099999999999999999999",
        24,
        Some((false, 99_999_999_999_999_999_999, -22)),
    ),
];

#[test]
fn takes_pieces_cut_anywhere(rt: HostRuntime) {
    for row in TAKEN.iter() {
        let bytes = row.0.as_bytes();
        for cut in 0..=bytes.len() {
            let mut literal = Literal::new();
            let found = push_halves(&mut literal, bytes, cut);
            expect_taken(&rt, literal, found, row);
        }
        let mut literal = Literal::new();
        let found = push_singly(&mut literal, bytes);
        expect_taken(&rt, literal, found, row);
    }
}

#[test]
fn takes_a_piece_of_zeros(rt: HostRuntime) {
    let mut literal = Literal::new();
    equal(&rt, literal.push_piece(b"0."), 2, "0.");
    equal(&rt, literal.push_piece(&[b'0'; 3000]), 3000, "3,000 zeros");
    let found = literal.value().map(|decimal| decimal.parts());
    equal(&rt, found, ZERO, "0. and 3,000 zeros are zero");
    equal(&rt, literal.push_piece(b"1,"), 1, "a last 1");
    holds(&rt, literal.value().is_none(), "0., 3,000 zeros, 1");
}
