//! What can follow the bytes of a text.
use crate::checks::holds_in;
use gj_hints::{CHOICES, expected_after};
use gj_json::{Limits, Reader};

/// Where the text may end.
const END: &str = "the end";

/// Whether these words say what can follow the bytes, in this order.
fn says(bytes: &[u8], words: &[&str]) -> bool {
    let mut reader = Reader::new(Limits::usual());
    for byte in bytes {
        if reader.push(*byte).is_err() {
            return false;
        }
    }
    let Some(expected) = expected_after(&reader) else {
        return false;
    };
    let mut said = 0;
    for i in 0..CHOICES.len() {
        let choice = CHOICES[i];
        if expected.named[i] {
            match words.get(said) {
                Some(word) if word.as_bytes() == choice.text() => said += 1,
                _ => return false,
            }
        }
    }
    match words.get(said..) {
        Some([]) => !expected.may_end,
        Some([word]) => expected.may_end && *word == END,
        _ => false,
    }
}

const IN_STRING: &[&str] = &["a character, an escape or \""];

const IN_CHARACTER: &[&str] = &["the next byte of a character in UTF-8"];

/// Each state of a text, within it and at its edges.
static ROWS: [(&[u8], &[&str]); 48] = [
    (b"", &["a value"]),
    (b" ", &["a value"]),
    (b"\xEF", IN_CHARACTER),
    (b"\xEF\xBB", IN_CHARACTER),
    (b"\xEF\xBB\xBF", &["a value"]),
    (b"[", &["a value", "]"]),
    (b"[1 ", &[",", "]"]),
    (b"[1,", &["a value"]),
    (b"[\"a\"", &[",", "]"]),
    (b"{", &["a name", "}"]),
    (b"{\"a\"", &[":"]),
    (b"{\"a\":", &["a value"]),
    (b"{\"a\":[]", &[",", "}"]),
    (b"{\"a\":1,", &["a name"]),
    (b"{} ", &[END]),
    (b"[-", &["a digit"]),
    (b"[0", &[",", "]", "more of the number"]),
    (b"[10", &[",", "]", "more of the number"]),
    (b"[1.", &["a digit"]),
    (b"[1.5", &[",", "]", "more of the number"]),
    (b"[1e", &["a digit or a sign"]),
    (b"[1e+", &["a digit"]),
    (b"{\"a\":1e5", &[",", "}", "a digit"]),
    (b"0", &["more of the number", END]),
    (b"1e5", &["a digit", END]),
    (b"\"", IN_STRING),
    (b"{\"a", IN_STRING),
    (b"\"\\n", IN_STRING),
    (b"\"\\u00e9", IN_STRING),
    (b"\"\xC3\xA9", IN_STRING),
    (b"\"\\", &["one of \"\\/bfnrtu"]),
    (b"\"\\u", &["a hexadecimal digit"]),
    (b"\"\\u00e", &["a hexadecimal digit"]),
    (b"\"\xC3", IN_CHARACTER),
    (b"\"\xE0", IN_CHARACTER),
    (b"\"\xE1\x80", IN_CHARACTER),
    (b"\"\xED", IN_CHARACTER),
    (b"\"\xF0", IN_CHARACTER),
    (b"\"\xF4", IN_CHARACTER),
    (b"t", &["r"]),
    (b"tr", &["u"]),
    (b"tru", &["e"]),
    (b"f", &["a"]),
    (b"fa", &["l"]),
    (b"fal", &["s"]),
    (b"n", &["u"]),
    (b"nul", &["l"]),
    (b"null", &[END]),
];

#[test]
fn names_what_can_follow(rt: HostRuntime) {
    for (bytes, words) in ROWS.iter() {
        holds_in(&rt, says(bytes, words), bytes, bytes.len());
    }
}

#[test]
fn names_nothing_after_a_refused_byte(rt: HostRuntime) {
    let mut reader = Reader::new(Limits::usual());
    let refused = reader.push(b'x').is_err();
    assert!(rt; refused && expected_after(&reader).is_none());
}
