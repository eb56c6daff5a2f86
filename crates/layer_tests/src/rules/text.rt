//! A text in memory.

use crate::checks::holds_in;
use crate::rows::Wanted;
use crate::rows::Wanted::{Broken, NotJson, Valid};
use gj_coords::Rule;
use gj_json::{Cause, Limits};
use gj_rules::check_text;

/// Texts that a few frames serve, and texts that nest one level deeper.
static TEXTS: [(&[u8], Wanted); 6] = [
    (b"{\"type\":\"Point\",\"coordinates\":[1,2]}", Valid(&[])),
    (
        b"{\"type\":\"Feature\",\"geometry\":null,\"properties\":{\"a\":[[[[[[0]]]]]]}}",
        Valid(&[]),
    ),
    (
        b"{\"type\":\"Feature\",\"geometry\":null,\"properties\":{\"a\":[[[[[[[0]]]]]]]}}",
        Valid(&[]),
    ),
    (
        b"{\"coordinates\":[1],\"type\":\"Point\",\"a\":[[[[[[[[0]]]]]]]]}",
        Broken(Rule::G12, 15),
    ),
    (b"{\"type\":\"Point\",", NotJson(Cause::Truncated, 16)),
    (b"[[[[[[[[[x", NotJson(Cause::Syntax, 9)),
];

#[test]
fn the_depth_changes_no_verdict(rt: HostRuntime) {
    for (text, wanted) in TEXTS.iter() {
        let found = check_text(text, Limits::usual());
        holds_in(&rt, found == wanted.verdict(), text, text.len());
    }
}
