ghost use Rattle.std.specs.Prelude.{◌≡◌, List, ℕ, ◌+◌, ◌<◌, ◌≤◌, length, IfOk, IfErr};
ghost use Rattle.std.specs.Io.KnownBytes.{Consumes};
ghost use Rattle.geolint_report.specs.Judged.{CountsFailure};
ghost use Rattle.geolint.specs.Located.{Locates};

use crate::fault::ReadFault;
use crate::source::{PIECE, Source};
use gj_json::{Limits, Locator, Path};

/// The number of bytes of the next piece that are wanted, where `before` bytes lie before the place: those up to it,
/// and the one there.
fn wanted(count: usize, before: u64) -> usize
    ensures all { count ≤ before → result ≡ count }
    ensures some { before < count → result ≡ before + 1 }
{
    if before < count as u64 {
        before as usize + 1
    } else {
        count
    }
}

/// Finds the path to the value at a place of an input: the one that begins there, where it is no array and no object,
/// or the innermost array or object that is open after the byte at the place, or the root.
///
/// It reads up to that byte, and returns `None` where the input ends before or is refused there or before. Where a read
/// failed, the error has the number of bytes that had come before.
// What is large lies in its frame alone, and not in those of the functions that call it.
#[inline(never)]
pub fn locate_reader<S: Source>(
    reader: &mut S,
    limits: Limits,
    place: u64,
) -> Result<Option<Path>, ReadFault>
    ensures few { S.reads reader.new ≤ S.reads reader.old + (limits.bytes + 1) }
    ensures failed { CountsFailure (S.failed_reads reader.old) (S.failed_reads reader.new) result }
    ensures given { IfErr result (λ fault. S.bytes_given reader.new < u64.MAX
        → S.bytes_given reader.new ≡ S.bytes_given reader.old + fault.offset) }
    ensures offset { IfErr result (λ fault.
        (read : List ℕ) × Consumes (S.remaining reader.old) (S.remaining reader.new) read × (length read ≡ fault.offset)) }
    ensures path { IfOk result (λ found. Locates limits place (S.remaining reader.old) (S.remaining reader.new) found) }
{
    let _most = limits.bytes();
    let mut locator = Locator::new(limits);
    let mut piece = [0; PIECE];
    let mut offset = 0;
    loop {
        match reader.read_piece(&mut piece) {
            Err(_) => return Err(ReadFault { offset }),
            Ok(0) => return Ok(None),
            Ok(count) => {
                let wanted = wanted(count, place - offset);
                match locator.feed(&piece[..wanted]) {
                    Err(_) => return Ok(None),
                    Ok(()) => {
                        offset += count as u64;
                        if place < offset {
                            return Ok(Some(locator.path()));
                        }
                    }
                }
            }
        }
    }
}
