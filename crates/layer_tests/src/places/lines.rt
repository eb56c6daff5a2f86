//! Lines and columns.
use crate::checks::equal;
use gj_places::Lines;

fn place_behind(text: &[u8], most: usize) -> (u64, u64) {
    let mut lines = Lines::new();
    for piece in text.chunks(most.max(1)) {
        lines.feed(piece);
    }
    (lines.line, lines.column)
}

/// A text, the line and the column of its end, and what it is.
static TEXTS: [(&[u8], (u64, u64), &str); 8] = [
    (b"", (1, 1), "the start"),
    (b"{\"a\"", (1, 5), "four characters"),
    (b"{\n", (2, 1), "after LF"),
    (b"{\r\n ", (2, 2), "CR LF ends a line once"),
    (b"a\rb", (1, 4), "CR alone ends none"),
    (b"\t\t", (1, 3), "a tab is one character"),
    (b"\xEF\xBB\xBF", (1, 2), "and so is the byte order mark"),
    (
        b"\n\xC3\xA9\xE2\x82\xAC\xF0\x9F\x8C\x8D",
        (2, 4),
        "two, three and four bytes",
    ),
];

#[test]
fn counts_lines_and_characters(rt: HostRuntime) {
    for (text, place, row) in TEXTS.iter() {
        for most in 1..12 {
            equal(&rt, place_behind(text, most), *place, row);
        }
    }
}

/// How many bytes, the line and the column after them, and what they are.
static LENGTHS: [(usize, (u64, u64), &str); 5] = [
    (9, (1, 10), "within the first line"),
    (25, (3, 6), "few bytes"),
    (165, (17, 6), "some vectors of 16 bytes"),
    (785, (79, 6), "a row of 768 bytes"),
    (2000, (201, 1), "rows, vectors and a few bytes"),
];

#[test]
fn counts_the_lines_of_a_long_piece(rt: HostRuntime) {
    let mut text = [b' '; 2000];
    for end in text.iter_mut().skip(9).step_by(10) {
        *end = b'\n';
    }
    for (length, place, row) in LENGTHS.iter() {
        let piece = text.get(..*length).unwrap_or(&text);
        equal(&rt, place_behind(piece, 2000), *place, row);
    }
}
