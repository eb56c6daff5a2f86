//! What no clause says: the parts of pairs, and which others are left.
use crate::checks::{equal, holds};
use gj_number::{Short, read_last_pair, read_pair};

/// The numbers, each by its digits, its places and its sign, and where the second and the closing bracket stand.
type Parts = (u64, u8, bool, u64, u8, bool, usize, usize);

fn parts(text: &str) -> Option<Parts> {
    let mut piece = [b' '; 64];
    for (to, from) in piece.iter_mut().zip(text.as_bytes()) {
        *to = *from;
    }
    let mut first = Short::zero();
    let mut second = Short::zero();
    match read_pair(&piece, &mut first, &mut second) {
        Some(pair) => Some((
            first.digits,
            first.places,
            first.negative,
            second.digits,
            second.places,
            second.negative,
            pair.second,
            pair.end,
        )),
        None => None,
    }
}

static PAIRS: [(&str, Parts); 5] = [
    ("12.5,34.25]", (125, 1, false, 3425, 2, false, 5, 10)),
    (
        "-122.4194155, 37.7749295]",
        (1224194155, 7, true, 377749295, 7, false, 14, 24),
    ),
    ("0.1,-0.00000000001]", (1, 1, false, 1, 11, true, 4, 18)),
    (
        "-179.12345678901,-89.10987654321]",
        (17912345678901, 11, true, 8910987654321, 11, true, 17, 32),
    ),
    (
        "1.23456789012345,-12.3456789012345]",
        (
            123456789012345,
            14,
            false,
            123456789012345,
            13,
            true,
            17,
            34,
        ),
    ),
];

#[test]
fn reads_pairs(rt: HostRuntime) {
    for (text, expected) in PAIRS.iter() {
        equal(&rt, parts(text), Some(*expected), text);
    }
}

/// A piece, and the index of the closing bracket where the pair is found.
static ENDS: [(&str, Option<usize>); 9] = [
    ("12.5,34.25]", Some(10)),
    ("12.5,34.25],", Some(10)),
    ("-122.4194155, 37.7749295]", Some(24)),
    ("12.5,34.25", None),
    ("12.5,34.2", None),
    ("12.5,", None),
    ("12.5", None),
    ("1.5,2]", None),
    ("", None),
];

#[test]
fn reads_pairs_at_the_end(rt: HostRuntime) {
    for (text, expected) in ENDS.iter() {
        let mut first = Short::zero();
        let mut second = Short::zero();
        let found = read_last_pair(text.as_bytes(), &mut first, &mut second);
        equal(&rt, found.map(|pair| pair.end), *expected, text);
    }
}

static OTHERS: [&str; 18] = [
    "",
    "1,2]",
    "1.5,2]",
    "1.5,2.5,3.5]",
    " 1.5,2.5]",
    "1.5,  2.5]",
    "1.5 ,2.5]",
    "1.5,2.5 ]",
    "01.5,2.5]",
    "1.5,-00.5]",
    "1.,2.5]",
    "1.5,.5]",
    "1.5,2.5e1]",
    "1.5e1,2.5]",
    "--1.5,2.5]",
    "1234.5,2.5]",
    "1.5;2.5]",
    "1.5,2.5}",
];

#[test]
fn leaves_the_others(rt: HostRuntime) {
    for text in OTHERS.iter() {
        holds(&rt, parts(text).is_none(), text);
    }
}
