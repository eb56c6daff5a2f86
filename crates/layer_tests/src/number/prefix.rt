//! What no clause says: which numbers are found at the start of a piece, and their decimals.
use gj_number::{Short, read_decimal};

/// Whether it is negative, its digits, its power of ten, and how many bytes it has.
type Parts = (bool, u128, i16, usize);

fn parts(text: &str) -> Option<Parts> {
    let mut piece = [b' '; 64];
    for (to, from) in piece.iter_mut().zip(text.as_bytes()) {
        *to = *from;
    }
    let mut value = Short::zero().decimal();
    match read_decimal(&piece, &mut value) {
        0 => None,
        count => {
            let (negative, digits, power) = value.parts();
            Some((negative, digits, power, count))
        }
    }
}

#[test]
fn reads_decimals(rt: HostRuntime) {
    for (text, expected) in [
        ("0,", (false, 0, 0, 1)),
        ("-0.0]", (false, 0, 0, 4)),
        ("2.50]", (false, 25, -1, 4)),
        ("-1e3,", (true, 1, 3, 4)),
        (
            "88.4963209411794155282873,",
            (false, 884963209411794155282873, -22, 25),
        ),
        (
            "-63.75234224015928020561]",
            (true, 6375234224015928020561, -20, 24),
        ),
        (
            "100.00000000000000010,",
            (false, 1000000000000000001, -16, 21),
        ),
        (
            "-123.123456789012345678901234567]",
            (true, 123123456789012345678901234567, -27, 32),
        ),
    ] {
        assert_eq!(rt; parts(text), Some(expected), "{text}");
    }
}

#[test]
fn leaves_other_numbers(rt: HostRuntime) {
    for (text, meaning) in [
        ("12345678901234567890,", "twenty digits and no point"),
        (
            "1.234567890123450000000,",
            "zeros alone from the sixteenth digit on",
        ),
        (
            "1.2345678901234567890123456789012,",
            "more than thirty digits",
        ),
        ("01.23456789012345678901,", "a digit after a first zero"),
        (
            "1.23456789012345678901e5,",
            "twenty-one digits and an exponent",
        ),
        ("1.,", "no digit after the point"),
    ] {
        assert_eq!(rt; parts(text), None, "{meaning}");
    }
}
