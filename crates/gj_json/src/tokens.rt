//! Tokens that are whole at the start of a piece: how far they go, and nothing of what they say.

ghost use Rattle.std.specs.Prelude.{◌≡◌, ◌+◌, ◌-◌, ◌≤◌, ◌<◌, length, take, get_or, IsTrue};
ghost use Rattle.gj_json.specs.Bytes.{quote};
ghost use Rattle.gj_json.specs.Grammar.{letters_of};
ghost use Rattle.gj_json.specs.Internal.FlatParts.{cut};
ghost use Rattle.gj_json.specs.Internal.Scalars.{IsScalar};
ghost use Rattle.gj_json.specs.Internal.WholeTokens.{AreCharacters, IsQuoted, IsString};
ghost use Rattle.gj_json.specs.declared.lanes.TheConstants.{LANES};

use crate::characters::characters_run;
use crate::constant::Constant;
use crate::lanes::{Ascii, LANES, begins, begins_run, run};
use gj_number::unsigned_run;

/// How many bytes the string of plain characters has that is whole at the start of a piece, or 0.
#[inline(always)]
pub fn plain_quoted_run(piece: &[u8]) -> usize
    requires some { 0 < length piece.now }
    requires begins { get_or piece.now 0 0 ≡ quote }
    ensures within { result ≤ length piece.now }
    ensures two { 0 < result → 2 ≤ result }
    ensures quoted { 0 < result → IsQuoted (cut piece.now 1 (result - 1)) (take result piece.now) }
{
    let count = run::<Ascii>(&piece[1..]);
    if count < piece.len() - 1 && piece[count + 1] == b'"' {
        count + 2
    } else {
        0
    }
}

/// How many bytes of the piece are plain characters of a string.
#[inline(always)]
fn plain_text_run(piece: &[u8]) -> usize
    ensures within { result ≤ length piece.now }
    ensures characters { AreCharacters (take result piece.now) }
{
    run::<Ascii>(piece)
}

/// The string that the piece starts with, where it is whole: how many bytes, or 0. Mostly its characters are plain.
#[inline(always)]
pub fn quoted_run(piece: &[u8]) -> usize
    requires some { 0 < length piece.now }
    requires quote { get_or piece.now 0 0 ≡ quote }
    ensures within { result ≤ length piece.now }
    ensures two { 0 < result → 2 ≤ result }
    ensures quoted { 0 < result → IsString (take result piece.now) }
{
    let plain = 1 + plain_text_run(&piece[1..]);
    if plain == piece.len() {
        return 0;
    }
    if piece[plain] == b'"' {
        return plain + 1;
    }
    let end = plain + characters_run(&piece[plain..]);
    if end < piece.len() && piece[end] == b'"' {
        end + 1
    } else {
        0
    }
}

/// Whether the string that the piece starts with has so many characters, and each is plain.
#[inline(always)]
pub fn begins_quoted(piece: &[u8], count: usize) -> bool
    requires room { LANES < length piece.now }
    requires quote { get_or piece.now 0 0 ≡ quote }
    requires few { count < LANES }
    ensures { IsTrue result → IsString (take (count + 2) piece.now) }
{
    begins_run::<Ascii>(&piece[1..], count) && piece[1 + count] == b'"'
}

/// How many bytes the value has that the piece starts with, where it is a string that is whole with two bytes after it, a
/// short number with no sign, or a literal name, or 0.
#[inline(always)]
pub fn scalar_run(piece: &[u8]) -> usize
    requires room { LANES < length piece.now }
    ensures within { result + 1 < length piece.now }
    ensures scalar { 0 < result → IsScalar (take result piece.now) }
{
    match piece[0] {
        b'"' => {
            let count = quoted_run(piece);
            if count + 1 < piece.len() { count } else { 0 }
        }
        b'0'..=b'9' => unsigned_run(piece),
        b'n' => constant_run(Constant::Null, piece),
        b't' => constant_run(Constant::True, piece),
        b'f' => constant_run(Constant::False, piece),
        _ => 0,
    }
}

/// How many bytes the literal name has, where the piece starts with it and is long enough for a comparison, or 0.
#[inline(always)]
pub fn constant_run(which: Constant, piece: &[u8]) -> usize
    ensures within { result ≤ length piece.now }
    ensures letters { 0 < result → take result piece.now ≡ letters_of which }
{
    if piece.len() < LANES {
        return 0;
    }
    match which {
        Constant::Null if begins(piece, b"null            ", 4) => 4,
        Constant::True if begins(piece, b"true            ", 4) => 4,
        Constant::False if begins(piece, b"false           ", 5) => 5,
        _ => 0,
    }
}
