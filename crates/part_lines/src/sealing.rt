//! The checksum of a line.

ghost use Rattle.std.specs.Prelude.{◌≡◌, ◌≢◌, IfOk, IfSome, OnOk, None, string_bytes};
ghost use Rattle.hex.specs.Hex.{encode_lower};
ghost use Rattle.sha2.specs.Sha256.{sha256};
ghost use Rattle.part_lines.specs.Sealed.{body_in, object_in, sealed};

use geolint_report::line::put;
use sha2::{Digest, Sha256};
use std::alloc::{AllocError, Global};

/// How many bytes a checksum has, with its name and the end of the line's object.
const SEAL: usize = 77;

/// Appends the checksum of the bytes of a line to them, and the end of its object.
pub fn put_seal(alloc: Global, body: &mut Vec<u8>) -> Result<(), AllocError>
    ensures { OnOk result (body.new.items ≡ sealed body.old.items) }
{
    let digits = digits_of(alloc, body.as_slice())?;
    put(body, b",\"sha256\":\"")?;
    put(body, digits.as_bytes())?;
    put(body, b"\"}")
}

/// The SHA-256 of some bytes, by its digits.
fn digits_of(alloc: Global, bytes: &[u8]) -> Result<String, AllocError>
    ensures { IfOk result (λ digits. string_bytes digits ≡ encode_lower (sha256 bytes.now)) }
{
    hex::encode(alloc, Sha256::digest(bytes))
}

/// The object of a line without its checksum. None where the checksum is missing, or is not that of the bytes before it.
pub fn unsealed(alloc: Global, text: &[u8]) -> Result<Option<Vec<u8>>, AllocError>
    ensures object { IfOk result (λ found. IfSome found (λ object. object.items ≡ object_in text.now)) }
    ensures right { IfOk result (λ found. IfSome found (λ object. text.now ≡ sealed (body_in text.now))) }
    ensures wrong { IfOk result (λ found. found ≡ None → text.now ≢ sealed (body_in text.now)) }
{
    let body = &text[..text.len().saturating_sub(SEAL)];
    let mut object = Vec::from_slice(alloc, body)?;
    let mut whole = Vec::from_slice(alloc, body)?;
    put_seal(alloc, &mut whole)?;
    if whole.as_slice() != text {
        return Ok(None);
    }
    put(&mut object, b"}")?;
    Ok(Some(object))
}
