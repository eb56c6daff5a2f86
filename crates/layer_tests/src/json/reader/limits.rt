//! How deep a text may nest, and how many bytes it may have.

use super::{Refusal, expect};
use crate::checks::equal;
use gj_json::{Cause, Limits, MOST_LEVELS};
use std::alloc::AllocError;

#[test]
fn levels_are_limited(rt: HostRuntime) -> Result<(), AllocError> {
    let most = MOST_LEVELS as usize;
    let deep = vec![in rt.alloc(); b'['; most + 1]?;
    expect(
        &rt,
        Limits::usual(),
        &deep,
        Some((Cause::Depth, most as u64)),
        "one bracket more than may be open",
    );
    expect(
        &rt,
        Limits::usual(),
        &deep[..most],
        Some((Cause::Truncated, most as u64)),
        "as many brackets as may be open",
    );
    let mut closed = vec![in rt.alloc(); b'['; most]?;
    closed.push(b'}')?;
    expect(
        &rt,
        Limits::usual(),
        &closed,
        Some((Cause::Syntax, most as u64)),
        "as many, and a brace",
    );
    Ok(())
}

const POINT: &[u8] = b"{\"type\":\"Point\",\"coordinates\":[1,2]}";

/// How deep and how long a text may be, an input, what it is refused for, and what it is.
static LIMITED: [(u16, u64, &[u8], Refusal, &str); 6] = [
    (
        MOST_LEVELS,
        10,
        POINT,
        Some((Cause::Length, 10)),
        "ten bytes are allowed",
    ),
    (MOST_LEVELS, 36, POINT, None, "as many bytes as are allowed"),
    (
        1,
        100,
        b"[[",
        Some((Cause::Depth, 1)),
        "one level is allowed",
    ),
    (1, 100, b"[]", None, "one level"),
    (
        1,
        100,
        b"7!",
        Some((Cause::Syntax, 1)),
        "syntax comes before the end of the text",
    ),
    (
        1,
        1,
        b"7!",
        Some((Cause::Length, 1)),
        "length comes before syntax at one byte",
    ),
];

#[test]
fn limits_are_kept(rt: HostRuntime) {
    for (depth, bytes, input, expected, row) in LIMITED.iter() {
        let limits = Limits::new(*depth, *bytes).unwrap_or(Limits::usual());
        expect(&rt, limits, input, *expected, row);
    }
}

/// Limits on the depth and the bytes, whether they can be made, and what they are.
static MADE: [(u16, u64, bool, &str); 7] = [
    (0, 1, false, "no level"),
    (1, 1, true, "one level and one byte"),
    (MOST_LEVELS, 1, true, "the most levels"),
    (MOST_LEVELS + 1, 1, false, "one level more"),
    (MOST_LEVELS, 1 << 60, true, "the most bytes"),
    (MOST_LEVELS, (1 << 60) + 1, false, "one byte more"),
    (1, 0, false, "no byte"),
];

#[test]
fn limits_are_made(rt: HostRuntime) {
    for (depth, bytes, made, row) in MADE.iter() {
        let limits = Limits::new(*depth, *bytes);
        equal(&rt, limits.is_some(), *made, row);
        if let Some(limits) = limits {
            equal(&rt, (limits.depth(), limits.bytes()), (*depth, *bytes), row);
        }
    }
    let usual = Limits::usual();
    equal(
        &rt,
        (usual.depth(), usual.bytes()),
        (MOST_LEVELS, 1 << 60),
        "the usual limits",
    );
}
