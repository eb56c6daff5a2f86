//! Bytes as a JSON string.
use crate::checks::equal;
use gj_places::json_string;
use std::test::Fail;

/// Some bytes, and how they are written.
static STRINGS: [(&[u8], &str); 7] = [
    (b"", "\"\""),
    (b"a/b", "\"a/b\""),
    (b"\"\\", "\"\\\"\\\\\""),
    (b"\x08\t\n\x0C\r", "\"\\b\\t\\n\\f\\r\""),
    (b"\x00\x1F\x7F", "\"\\u0000\\u001f\\u007f\""),
    (
        b"\xC2\x85\xE2\x80\xA8\xEF\xBB\xBF",
        "\"\\u0085\\u2028\\ufeff\"",
    ),
    (b"\xC3\xA9\xFF\xF0\x9D\x84\x9E", "\"é\u{FFFD}𝄞\""),
];

#[test]
fn writes_bytes_as_a_json_string(rt: HostRuntime) -> Result<(), Fail> {
    for (bytes, written) in STRINGS.iter() {
        let found = json_string(rt.alloc(), bytes)?;
        equal(&rt, found.as_str(), *written, written);
    }
    Ok(())
}
