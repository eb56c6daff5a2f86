//! Where a run may begin.
ghost use Rattle.std.specs.Prelude.{◌≡◌, option_map};
ghost use Rattle.gj_join.specs.Seams.{after_byte, begins_object, seam};

/// How many bytes end with the first closing brace that a comma, an opening brace and a quotation mark follow, with white space or none
/// before each: a feature may have ended there, and another follow. It is a guess by these bytes alone, and may be wrong, as in a string.
pub fn after_brace(bytes: &[u8]) -> Option<usize>
    ensures { result ≡ seam bytes.now }
{
    for index in 0..bytes.len() {
        if bytes[index] == b'}' && begins_object(&bytes[index + 1..]) {
            return Some(index + 1);
        }
    }
    None
}

/// Whether bytes are a comma and the beginning of an object.
fn begins_object(bytes: &[u8]) -> bool
    ensures { result ≡ begins_object bytes.now }
{
    match after_byte(bytes, b',') {
        Some(object) => match after_byte(object, b'{') {
            Some(name) => after_byte(name, b'"').is_some(),
            None => false,
        },
        None => false,
    }
}

/// The bytes after white space and this byte.
fn after_byte(bytes: &[u8], byte: u8) -> Option<&[u8]>
    ensures { option_map (λ rest. rest.now) result ≡ after_byte byte bytes.now }
{
    for index in 0..bytes.len() {
        if bytes[index] == byte {
            return Some(&bytes[index + 1..]);
        }
        if !bytes[index].is_ascii_whitespace() {
            return None;
        }
    }
    None
}
