//! Bytes that are no UTF-8 (RFC 3629).
ghost use Rattle.std.specs.Prelude.{◌≡◌};
ghost use Rattle.gj_hints.specs.Encodings.{opens_character, begins_no_character, is_other_encoding};

/// Whether the bytes at the place are no UTF-8: they do not go on with a character that has begun, or no character
/// begins with them.
pub fn is_other_encoding(before: &[u8], after: &[u8]) -> bool
    ensures { result ≡ is_other_encoding before.now after.now }
{
    match after {
        [] => false,
        [byte, ..] => opens_character(before) || begins_no_character(*byte),
    }
}

/// Whether the bytes, which are UTF-8 so far, end inside a character.
fn opens_character(before: &[u8]) -> bool
    ensures { result ≡ opens_character before.now }
{
    match before {
        [.., 0xC2..=0xF4] => true,
        [.., 0xE0..=0xF4, 0x80..=0xBF] => true,
        [.., 0xF0..=0xF4, 0x80..=0xBF, 0x80..=0xBF] => true,
        _ => false,
    }
}

/// Whether no character of UTF-8 begins with the byte.
fn begins_no_character(byte: u8) -> bool
    ensures { result ≡ begins_no_character byte }
{
    matches!(byte, 0x80..=0xC1 | 0xF5..=0xFF)
}
