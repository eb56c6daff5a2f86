//! The bytes of a report, gathered before they are written.
ghost use Rattle.std.specs.Prelude.{◌≡◌, OnOk};
ghost use Rattle.std.specs.Fmt.{decimal};
ghost use Rattle.geolint_report.specs.Line.{joined, Adds, optional_number, truth};

use itoa::Buffer;
use std::alloc::AllocError;

/// Appends bytes.
pub fn put(line: &mut Vec<u8>, bytes: &[u8]) -> Result<(), AllocError>
    ensures { OnOk result (Adds line.old line.new bytes.now) }
{
    line.extend_from_slice(bytes)
}

/// Appends slices, one after the other.
pub fn put_all(line: &mut Vec<u8>, pieces: &[&[u8]]) -> Result<(), AllocError>
    ensures { OnOk result (Adds line.old line.new (joined pieces.now)) }
{
    for piece in pieces {
        line.extend_from_slice(piece)?;
    }
    Ok(())
}

/// Appends a number in decimal digits.
pub fn put_number(line: &mut Vec<u8>, number: u64) -> Result<(), AllocError>
    ensures { OnOk result (Adds line.old line.new (decimal number)) }
{
    let mut digits = Buffer::new();
    line.extend_from_slice(digits.format(number).as_bytes())
}

/// Appends a number in decimal digits, or `null` where there is none.
pub fn put_optional(line: &mut Vec<u8>, number: Option<u64>) -> Result<(), AllocError>
    ensures { OnOk result (Adds line.old line.new (optional_number number)) }
{
    match number {
        Some(number) => put_number(line, number),
        None => line.extend_from_slice(b"null"),
    }
}

/// Appends the word for whether something holds.
pub fn put_truth(line: &mut Vec<u8>, holds: bool) -> Result<(), AllocError>
    ensures { OnOk result (Adds line.old line.new (truth holds)) }
{
    put(line, truth(holds))
}

/// The word for whether something holds.
fn truth(holds: bool) -> &'static [u8]
    ensures { result.now ≡ truth holds }
{
    match holds {
        true => b"true",
        false => b"false",
    }
}
