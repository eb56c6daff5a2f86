//! Copies a part of a text, byte for byte.
ghost use Rattle.std.specs.Prelude.{◌≡◌, ℕ, List, Some, OnOk, min};
ghost use Rattle.std.specs.Io.KnownBytes.{Appends};
ghost use Rattle.gj_split.specs.Split.{bytes_between};

use crate::ranges::{Ranges, Stop};
use std::io::Write;

/// The most bytes of a read.
const PIECE: usize = 4096;

/// Writes the bytes of a text from one place up to another.
pub fn copy_between<R: Ranges, W: Write>(
    source: &R,
    place: u64,
    end: u64,
    out: &mut W,
) -> Result<(), Stop>
    ensures { OnOk result ((bytes : List ℕ) → R.text ≡ Some bytes →
        Appends (W.contents out.old) (W.contents out.new) (bytes_between place end bytes)) }
{
    let mut piece = [0; PIECE];
    let mut at = place;
    while at < end {
        match source.read_at(at, &mut piece) {
            Err(error) => return Err(Stop::Read(error)),
            Ok(0) => return Err(Stop::Changed),
            Ok(count) => {
                let due = count_within(count, end - at);
                match out.write_all(&piece[..due]) {
                    Ok(()) => at += due as u64,
                    Err(error) => return Err(Stop::Write(error)),
                }
            }
        }
    }
    Ok(())
}

/// The lesser of the two.
fn count_within(count: usize, left: u64) -> usize
    ensures { result ≡ min count left }
{
    if count as u64 <= left {
        count
    } else {
        left as usize
    }
}
