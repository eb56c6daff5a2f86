//! Unescaped characters of up to three bytes, found sixteen bytes at a time.

ghost use Rattle.std.specs.Prelude.{◌≡◌, ◌<◌, ◌≤◌, ◌+◌, ◌⊎◌, false, get_or, length, IsTrue};
ghost use Rattle.std.specs.Simd.Lanes.{mask_l};
ghost use Rattle.gj_json.specs.Internal.WideCharacters.{is_tail, kinds_of, ends_at, ends_of, EndsThere, NoneEnds};

use crate::lanes::LANES;
use std::simd::prelude::*;

/// Whether the byte is one of a character, but not its first.
#[inline(always)]
pub fn is_tail(byte: u8) -> bool
    ensures { result ≡ is_tail byte }
{
    0x80 <= byte && byte <= 0xBF
}

/// Whether the first two bytes of the piece may begin such a character, one of several bytes.
#[inline(always)]
pub fn begins_wide(piece: &[u8]) -> bool
    requires { 1 < length piece.now }
    ensures begins { IsTrue result → is_tail (get_or piece.now 0 0) ≡ false }
    ensures goes_on { IsTrue result → ends_at 0 (get_or piece.now 0 0) (get_or piece.now 1 0) ≡ false }
{
    let first = piece[0];
    let second = piece[1];
    if first < 0xC2 || first >= 0xF0 || !is_tail(second) {
        return false;
    }
    if first == 0xE0 {
        return second >= 0xA0;
    }
    if first == 0xED {
        return second < 0xA0;
    }
    true
}

/// What a byte may be, by its lower half and by its upper. 1: a quote, 2: a backslash, 4: C0 or C1, 8: a control character or
/// from F0 on, 16: E0, 32: ED, 64: a first byte of several up to EF, 128: any other.
const LOWER: [u8; 16] = [
    220, 204, 201, 200, 200, 200, 200, 200, 200, 200, 200, 200, 202, 232, 200, 200,
];

const UPPER: [u8; 16] = [
    136, 136, 129, 128, 128, 130, 128, 128, 128, 128, 128, 128, 68, 64, 112, 136,
];

/// Which of these end a character or go on wrongly, by the upper half of the next byte.
const BEFORE: [u8; 16] = [
    79, 79, 79, 79, 79, 79, 79, 79, 159, 159, 175, 175, 79, 79, 79, 79,
];

/// What each byte is, where it comes after these.
#[inline(always)]
fn kinds(before: u8x16, here: u8x16) -> u8x16
    ensures { result ≡ kinds_of before here }
{
    let lower = u8x16::from_array(LOWER).swizzle_dyn(here & u8x16::splat(15));
    let upper = u8x16::from_array(UPPER).swizzle_dyn(here >> u8x16::splat(4));
    let kinds = lower & upper;
    let third = kinds & u8x16::splat(127) | u8x16::splat(64);
    before.simd_ge(u8x16::splat(0xE0)).select(third, kinds)
}

/// One bit for each lane at which such characters end, or which is followed by a byte that no character has there.
#[inline(always)]
fn ends(before: u8x16, here: u8x16, next: u8x16) -> u64
    ensures { result ≡ mask_l (ends_of before here next) }
{
    let ending = u8x16::from_array(BEFORE).swizzle_dyn(next >> u8x16::splat(4));
    (kinds(before, here) & ending)
        .simd_ne(u8x16::splat(0))
        .to_bitmask()
}

/// At which byte after the first such characters end. The piece may end soon after it instead.
#[inline(always)]
pub fn end_of_wide(piece: &[u8]) -> usize
    requires some { 1 < length piece.now }
    ensures within { (0 < result) × (result < length piece.now) }
    ensures none { NoneEnds piece.now result }
    ensures end { EndsThere piece.now result ⊎ (length piece.now ≤ result + 16) }
{
    let mut at = 1;
    while piece.len() - at > LANES {
        let before = u8x16::from_slice(&piece[at - 1..]);
        let here = u8x16::from_slice(&piece[at..]);
        let next = u8x16::from_slice(&piece[at + 1..]);
        let found = ends(before, here, next);
        if found != 0 {
            return at + found.trailing_zeros() as usize;
        }
        at += LANES;
    }
    at
}
