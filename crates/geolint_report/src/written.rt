//! The first characters of a value, as it is written.

/// The most characters of a value that are shown.
const MOST_CHARACTERS: usize = 40;

/// The most bytes that these have.
pub const MOST_BYTES: usize = 4 * MOST_CHARACTERS;

/// How many of the bytes the value has that begins with them, in its first characters.
pub fn written_length(bytes: &[u8]) -> usize {
    front_length(front(bytes, value_length(bytes)))
}

/// So many of the bytes, or all.
pub fn front(bytes: &[u8], count: usize) -> &[u8] {
    match bytes.get(..count) {
        Some(front) => front,
        None => bytes,
    }
}

/// How many bytes the string, the array or the object has that begins with the first byte; or the number or the word, up to what
/// ends one.
fn value_length(bytes: &[u8]) -> usize {
    match bytes {
        [b'"', rest @ ..] => string_length(rest).saturating_add(1),
        [b'[' | b'{', ..] => nested_length(bytes),
        _ => word_length(bytes),
    }
}

/// How many bytes there are up to the bracket that closes the first one, and with it.
fn nested_length(bytes: &[u8]) -> usize {
    let mut levels = 0u64;
    let mut string_end = 0;
    for at in 0..bytes.len() {
        if at >= string_end {
            match bytes[at] {
                b'"' => {
                    string_end = string_length(&bytes[at + 1..])
                        .saturating_add(at)
                        .saturating_add(1);
                }
                b'[' | b'{' => levels = levels.saturating_add(1),
                b']' | b'}' => levels = levels.saturating_sub(1),
                _ => {}
            }
            if levels == 0 {
                return at + 1;
            }
        }
    }
    bytes.len()
}

fn word_length(bytes: &[u8]) -> usize {
    match bytes.iter().position(|byte| ends_word(*byte)) {
        Some(length) => length,
        None => bytes.len(),
    }
}

/// Whether the byte ends a number or a word.
fn ends_word(byte: u8) -> bool {
    matches!(byte, b' ' | b'\t' | b'\n' | b'\r' | b',' | b'}' | b']')
}

/// How many bytes there are up to the quotation mark that ends the string, and with it.
fn string_length(bytes: &[u8]) -> usize {
    let mut is_escaped = false;
    for at in 0..bytes.len() {
        if is_escaped {
            is_escaped = false;
        } else if bytes[at] == b'\\' {
            is_escaped = true;
        } else if bytes[at] == b'"' {
            return at + 1;
        }
    }
    bytes.len()
}

/// How many bytes the first characters have.
fn front_length(bytes: &[u8]) -> usize {
    let mut left = MOST_CHARACTERS;
    for at in 0..bytes.len() {
        if !(0x80..=0xBF).contains(&bytes[at]) {
            if left == 0 {
                return at;
            }
            left -= 1;
        }
    }
    bytes.len()
}
