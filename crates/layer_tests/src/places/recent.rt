//! Places among the last bytes of a text.
use crate::checks::equal;
use gj_places::{Lines, Recent};

/// Lines of ten bytes.
const LINE: &[u8] = b"123456789\n";

fn read(lines: usize) -> Recent {
    let mut recent = Recent::new();
    for _ in 0..lines {
        recent.feed(LINE);
    }
    recent
}

static SHORT: [(u64, Option<Lines>, &str); 5] = [
    (0, Some(Lines { line: 1, column: 1 }), "the start"),
    (
        9,
        Some(Lines {
            line: 1,
            column: 10,
        }),
        "the end of a line",
    ),
    (10, Some(Lines { line: 2, column: 1 }), "the next line"),
    (
        30,
        Some(Lines { line: 4, column: 1 }),
        "the end of the text",
    ),
    (31, None, "beyond it"),
];

#[test]
fn knows_each_place_of_a_short_text(rt: HostRuntime) {
    let recent = read(3);
    for (place, lines, row) in SHORT.iter() {
        equal(&rt, recent.lines_at(*place), *lines, row);
    }
}

static LONG: [(u64, Option<Lines>, &str); 4] = [
    (10, None, "long before"),
    (
        140_000,
        Some(Lines {
            line: 14_001,
            column: 1,
        }),
        "in the older part",
    ),
    (
        199_995,
        Some(Lines {
            line: 20_000,
            column: 6,
        }),
        "in the newer part",
    ),
    (u64::MAX, None, "the greatest number"),
];

#[test]
fn knows_the_last_places_of_a_long_text(rt: HostRuntime) {
    let recent = read(20_000);
    for (place, lines, row) in LONG.iter() {
        equal(&rt, recent.lines_at(*place), *lines, row);
    }
}
