//! Bytes as a JSON string.
ghost use Rattle.std.specs.Prelude.{◌≡◌, ◌≢◌, ◌++◌, ℕ, List, IfOk, IfSome, None, OnOk, encode_utf8, string_bytes};
ghost use Rattle.gj_places.specs.Internal.Spelling.{SpellsInside, code_escape, hex_digit};
ghost use Rattle.gj_places.specs.Strings.{SpellsString};

use crate::excerpt::is_harmful;
use std::alloc::{AllocError, Global};

/// The bytes as a JSON string between its quotation marks, which reads back as the same characters. Where they are no
/// UTF-8, U+FFFD stands for each part that is none. What a terminal would obey stands as its escape.
pub fn json_string(alloc: Global, bytes: &[u8]) -> Result<String, AllocError>
    ensures { IfOk result (λ written. SpellsString bytes.now (string_bytes written)) }
{
    let text = String::from_utf8_lossy(alloc, bytes)?;
    let mut spelled = String::new(alloc);
    spelled.push('"')?;
    for c in text.as_str().chars() {
        push_spelled(&mut spelled, c)?;
    }
    spelled.push('"')?;
    Ok(spelled)
}

/// Appends a character as it stands in a string (RFC 8259, section 7).
#[tactic(auto, using(crate::proofs::Spelling::as_it_is, crate::proofs::Spelling::by_code))]
fn push_spelled(spelled: &mut String, c: char) -> Result<(), AllocError>
    ensures { OnOk result
        ((added : List ℕ) × SpellsInside (encode_utf8 c) added × (string_bytes spelled.new ≡ string_bytes spelled.old ++ added)) }
{
    match short_escape(c) {
        Some(escape) => spelled.push_str(escape),
        None if is_harmful(c) => push_code(spelled, c as u32),
        None => spelled.push(c),
    }
}

/// The escape of two characters, for a character that has one.
fn short_escape(c: char) -> Option<&'static str>
    ensures some { IfSome result (λ escape. SpellsInside (encode_utf8 c) escape.now) }
    ensures none { result ≡ None → (c ≢ 34) × (c ≢ 92) }
{
    match c {
        '"' => Some("\\\""),
        '\\' => Some("\\\\"),
        '\u{8}' => Some("\\b"),
        '\t' => Some("\\t"),
        '\n' => Some("\\n"),
        '\u{C}' => Some("\\f"),
        '\r' => Some("\\r"),
        _ => None,
    }
}

/// Appends the escape of a character by its code.
fn push_code(spelled: &mut String, code: u32) -> Result<(), AllocError>
    ensures { OnOk result (string_bytes spelled.new ≡ string_bytes spelled.old ++ code_escape code) }
{
    spelled.push_str("\\u")?;
    spelled.push(digit(code / 4096))?;
    spelled.push(digit(code / 256))?;
    spelled.push(digit(code / 16))?;
    spelled.push(digit(code))
}

/// The last digit of a code, to the base of 16.
fn digit(code: u32) -> char
    ensures { result ≡ hex_digit code }
{
    char::from_digit(code % 16, 16).unwrap_or('0')
}
