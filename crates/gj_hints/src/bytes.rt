//! Bytes at the ends of others, and within them.
ghost use Rattle.std.specs.Prelude.{◌≡◌, ◌≤◌, length};
ghost use Rattle.std.specs.List.{prefix_len, list_any};
ghost use Rattle.gj_hints.specs.Bytes.{begins, holds, without_mark, without_white, without_white_behind, without_last, first_byte, second_byte, last_byte};
ghost use Rattle.gj_hints.specs.Bytes.{is_in, has_one_of, is_before, until};

/// The byte order mark in UTF-8.
const MARK: [u8; 3] = [0xEF, 0xBB, 0xBF];

/// Whether the bytes begin with these.
pub fn begins(bytes: &[u8], front: &[u8]) -> bool
    ensures { result ≡ begins bytes.now front.now }
{
    bytes.starts_with(front)
}

/// Whether these stand in the bytes.
pub fn holds(bytes: &[u8], part: &[u8]) -> bool
    ensures { result ≡ holds bytes.now part.now }
{
    let mut rest = bytes;
    while let Some((_, more)) = rest.split_first() {
        if begins(rest, part) {
            return true;
        }
        rest = more;
    }
    begins(rest, part)
}

/// Whether one of the parts stands in the bytes.
pub fn holds_one_of(bytes: &[u8], parts: &[&[u8]]) -> bool
    ensures { result ≡ list_any (λ part. holds bytes.now part.now) parts.now }
{
    parts.iter().any(|part| holds(bytes, part))
}

/// The bytes after a byte order mark, where there is one.
pub fn without_mark(head: &[u8]) -> &[u8]
    ensures { result.now ≡ without_mark head.now }
{
    if begins(head, &MARK) {
        &head[3..]
    } else {
        head
    }
}

/// The bytes without leading white space.
pub fn without_white(bytes: &[u8]) -> &[u8]
    ensures { result.now ≡ without_white bytes.now }
{
    bytes.trim_ascii_start()
}

/// The bytes without trailing white space.
pub fn without_white_behind(bytes: &[u8]) -> &[u8]
    ensures { result.now ≡ without_white_behind bytes.now }
{
    bytes.trim_ascii_end()
}

pub fn without_last(bytes: &[u8]) -> &[u8]
    ensures { result.now ≡ without_last bytes.now }
{
    &bytes[..bytes.len().saturating_sub(1)]
}

pub fn first_byte(bytes: &[u8]) -> Option<u8>
    ensures { result ≡ first_byte bytes.now }
{
    bytes.first().copied()
}

pub fn second_byte(bytes: &[u8]) -> Option<u8>
    ensures { result ≡ second_byte bytes.now }
{
    bytes.get(1).copied()
}

pub fn last_byte(bytes: &[u8]) -> Option<u8>
    ensures { result ≡ last_byte bytes.now }
{
    bytes.last().copied()
}

/// Whether there is a byte, and it is one of the set.
pub fn is_in(set: &[u8], byte: Option<u8>) -> bool
    ensures { result ≡ is_in set.now byte }
{
    match byte {
        Some(byte) => set.contains(&byte),
        None => false,
    }
}

/// Whether one of the bytes is one of the set.
pub fn has_one_of(bytes: &[u8], set: &[u8]) -> bool
    ensures { result ≡ has_one_of bytes.now set.now }
{
    bytes.iter().any(|byte| set.contains(byte))
}

/// The bytes before the first one of the set.
pub fn until<'a>(bytes: &'a [u8], set: &[u8]) -> &'a [u8]
    ensures { result.now ≡ until bytes.now set.now }
{
    &bytes[..until_len(bytes, set)]
}

/// How many bytes are before the first one of the set.
pub fn until_len(bytes: &[u8], set: &[u8]) -> usize
    ensures value { result ≡ prefix_len (is_before set.now) bytes.now }
    ensures within { result ≤ length bytes.now }
{
    for i in 0..bytes.len() {
        if !is_before(set, bytes[i]) {
            return i;
        }
    }
    bytes.len()
}

fn is_before(set: &[u8], byte: u8) -> bool
    ensures { result ≡ is_before set.now byte }
{
    !set.contains(&byte)
}
