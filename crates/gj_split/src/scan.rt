//! Finds the end of a value that is no array and no object.
ghost use Rattle.std.specs.Prelude.{◌≡◌, ℕ, ◌+◌, ◌≤◌, List, Some, IfOk, OnOk, drop, true, ◌||◌, ◌==◌};
ghost use Rattle.gj_json.specs.Bytes.{open_bracket, open_brace};
ghost use Rattle.gj_split.specs.Internal.ScannedValues.{scan_length};
ghost use Rattle.gj_split.specs.Internal.ToldFeatures.{is_flat};

use crate::ranges::{Ranges, Stop};

/// The most bytes of a read.
const PIECE: usize = 256;

/// The state of the scan.
#[derive(Clone, Copy, PartialEq, Eq)]
pub enum Scan {
    /// Nothing.
    Start,
    /// A number, or a prefix of `null`, `true` or `false`.
    Word,
    /// A string.
    Text,
    /// A string, and the backslash of an escape.
    Escape,
    /// The last byte, a string's quote.
    Closed,
    /// The byte after the value.
    Past,
}

/// The state after some more bytes, and how many of them belong to the value.
#[derive(Clone, Copy)]
struct Scanned {
    scan: Scan,
    count: usize,
}

impl Scan {
    ghost use Rattle.std.specs.Prelude.{◌≡◌, ℕ, ◌+◌, ◌≤◌, List, ◌++◌, length, true};
    ghost use Rattle.gj_split.specs.Internal.ScannedValues.{scan_next, scan_length, rest_length, is_running};

    /// The state after one more byte.
    fn next(self, byte: u8) -> Scan
        ensures { result ≡ scan_next self byte }
    {
        match self {
            Scan::Start if byte == b'"' => Scan::Text,
            Scan::Start | Scan::Word => match byte {
                b' ' | b'\t' | b'\n' | b'\r' | b',' | b']' => Scan::Past,
                _ => Scan::Word,
            },
            Scan::Text => match byte {
                b'"' => Scan::Closed,
                b'\\' => Scan::Escape,
                _ => Scan::Text,
            },
            Scan::Escape => Scan::Text,
            Scan::Closed => Scan::Closed,
            Scan::Past => Scan::Past,
        }
    }

    /// The state after a piece, or at the end of the value in it.
    fn over(self, piece: &[u8]) -> Scanned
        requires running { is_running self ≡ true }
        ensures within { result.count ≤ length piece.now }
        ensures whole { is_running result.scan ≡ true → result.count ≡ length piece.now }
        ensures length { (rest : List ℕ) → scan_length self (piece.now ++ rest) ≡ result.count + rest_length result.scan rest }
    {
        let mut scan = self;
        for at in 0..piece.len() {
            let next = scan.next(piece[at]);
            match next {
                Scan::Closed => {
                    return Scanned {
                        scan: next,
                        count: at + 1,
                    };
                }
                Scan::Past => {
                    return Scanned {
                        scan: next,
                        count: at,
                    };
                }
                _ => scan = next,
            }
        }
        Scanned {
            scan,
            count: piece.len(),
        }
    }
}

/// Returns an error where an array or an object begins at the byte offset.
pub fn expect_flat<R: Ranges>(source: &R, place: u64) -> Result<(), Stop>
    ensures { OnOk result ((bytes : List ℕ) → R.text ≡ Some bytes → is_flat (drop place bytes) ≡ true) }
{
    let mut first = [0; 1];
    match source.read_at(place, &mut first) {
        Err(error) => Err(Stop::Read(error)),
        Ok(0) => Err(Stop::Changed),
        Ok(_count) => {
            if is_opening(first[0]) {
                Err(Stop::Changed)
            } else {
                Ok(())
            }
        }
    }
}

fn is_opening(byte: u8) -> bool
    ensures { result ≡ (byte == open_bracket || byte == open_brace) }
{
    byte == b'[' || byte == b'{'
}

/// The byte offset after the value that begins at this one, which is no array and no object.
pub fn end_of_value<R: Ranges>(source: &R, place: u64) -> Result<u64, Stop>
    ensures { IfOk result (λ end. (bytes : List ℕ) → R.text ≡ Some bytes → end ≡ place + scan_length Scan.Start (drop place bytes)) }
{
    let mut piece = [0; PIECE];
    let mut at = place;
    let mut scan = Scan::Start;
    for _turn in 0..u64::MAX {
        match source.read_at(at, &mut piece) {
            Err(error) => return Err(Stop::Read(error)),
            Ok(0) => return Err(Stop::Changed),
            Ok(count) => {
                let scanned = scan.over(&piece[..count]);
                match at.checked_add(scanned.count as u64) {
                    None => return Err(Stop::Changed),
                    Some(next) => at = next,
                }
                match scanned.scan {
                    Scan::Closed | Scan::Past => return Ok(at),
                    _ => scan = scanned.scan,
                }
            }
        }
    }
    Err(Stop::Changed)
}
