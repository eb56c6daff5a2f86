//! Two numbers with a comma between them, read at once.
//!
//! Most positions are two numbers of a few digits before a point and up to a dozen after it. Such numbers are found by
//! a few comparisons, and the digits of both make their values together.
ghost use mir.Val.{bool_byte};
ghost use Rattle.std.specs.Prelude.{◌≡◌, ◌==◌, ℕ, ◌+◌, ◌^◌, ◌<◌, ◌≤◌, length, get_or, IfSome};
ghost use Rattle.std.specs.List.{fold};
ghost use Rattle.std.specs.Option.{IsSome};
ghost use Rattle.std.specs.Simd.Lanes.{Each1};
ghost use Rattle.gj_number.specs.Bytes.{space};
ghost use Rattle.gj_number.specs.Short.{exact_of, StartsUsual, StartsUsualPair, StartsWithPair};
ghost use Rattle.gj_number.specs.Internal.DigitLanes.{with_value};
ghost use Rattle.gj_number.specs.Internal.DigitRuns.{StartsSigned};
ghost use Rattle.gj_number.specs.Internal.MovedPoint.{SpellsPlain};

use super::Short;
use crate::lanes::{numbers_of, pointed_prefix};
use std::simd::prelude::*;

/// The least length of a piece, so that nothing is read past its end.
const ROOM: usize = 40;

/// Where two numbers stand: how many bytes the first has, and the indices of the second and of the byte after it.
#[derive(Clone, Copy)]
pub struct Pair {
    pub comma: usize,
    pub second: usize,
    pub end: usize,
}

/// A number with a point: its digits after zeros, how many of them stand after the point, and how many bytes it has.
#[derive(Clone, Copy)]
struct Digits {
    lanes: u8x16,
    places: usize,
    length: usize,
}

/// The index two bytes after that of a comma.
///
/// It is a separate function, so that the processor predicts whether a space follows, and does not wait for the byte
/// before it reads on.
#[inline(never)]
fn after_space(comma: usize) -> usize
    requires { comma + 2 < 2 ^ 64 }
    ensures { result ≡ comma + 2 }
{
    comma + 2
}

/// The index after a comma and the space that may follow it.
#[inline(always)]
fn after_comma(piece: &[u8], comma: usize) -> usize
    requires { comma + 1 < length piece.now }
    ensures { result ≡ comma + 1 + bool_byte (get_or piece.now (comma + 1) 0 == space) }
{
    if piece[comma + 1] == b' ' {
        after_space(comma)
    } else {
        comma + 1
    }
}

/// Reads the two ordinary numbers that the piece starts with, where a comma stands between them, with one space after it
/// or none, and a closing bracket after the second. They are always found where each has a point, with one to three digits
/// before it and at most eleven after it.
#[inline(always)]
pub fn read_pair(piece: &[u8], first: &mut Short, second: &mut Short) -> Option<Pair>
    requires { 40 ≤ length piece.now }
    ensures numbers { IfSome result (λ pair.
        StartsWithPair piece.now (exact_of first.new) (exact_of second.new) pair.comma pair.second pair.end) }
    ensures whole { IfSome result (λ pair. (usual : StartsUsualPair piece.now) → pair.end ≡ usual.second_at + usual.length_other) }
    ensures taken { StartsUsualPair piece.now → IsSome result }
{
    let negative = piece[0] == b'-';
    let Some(one) = digits_before(piece, negative, b',') else {
        return None;
    };
    let comma = one.length;
    let at = after_comma(piece, comma);
    let other_negative = piece[at] == b'-';
    let Some(other) = digits_before(&piece[at..], other_negative, b']') else {
        return None;
    };
    let (value, other_value) = numbers_of(one.lanes, other.lanes);
    first.digits = value;
    first.places = one.places as u8;
    first.negative = negative;
    second.digits = other_value;
    second.places = other.places as u8;
    second.negative = other_negative;
    Some(Pair {
        comma,
        second: at,
        end: at + other.length,
    })
}

/// Reads two such numbers from a piece that is too short for [`read_pair`]: it reads them in a copy with room after it.
#[inline(never)]
pub fn read_last_pair(piece: &[u8], first: &mut Short, second: &mut Short) -> Option<Pair>
    requires { length piece.now < 40 }
    ensures numbers { IfSome result (λ pair.
        StartsWithPair piece.now (exact_of first.new) (exact_of second.new) pair.comma pair.second pair.end) }
    ensures taken { StartsUsualPair piece.now → IsSome result }
{
    let mut copy = [0; ROOM];
    copy[..piece.len()].copy_from_slice(piece);
    let Some(pair) = read_pair(&copy, first, second) else {
        return None;
    };
    if pair.end >= piece.len() {
        return None;
    }
    Some(pair)
}

/// The number that the piece starts with, where one to three digits stand before its point, it ends within sixteen bytes
/// after its sign, and this byte stands after it.
#[inline(always)]
fn digits_before(piece: &[u8], negative: bool, after: u8) -> Option<Digits>
    requires room { 20 ≤ length piece.now }
    requires sign { StartsSigned piece.now negative }
    ensures few { IfSome result (λ found. found.length ≤ 17) }
    ensures places { IfSome result (λ found. found.places ≤ 18) }
    ensures digits { IfSome result (λ found. Each1 (λ digit. digit < 10) found.lanes) }
    ensures small { IfSome result (λ found. fold with_value 0 found.lanes < 10 ^ 18) }
    ensures spells { IfSome result (λ found.
        SpellsPlain piece.now negative (fold with_value 0 found.lanes) found.places found.length) }
    ensures after { IfSome result (λ found. get_or piece.now found.length 0 ≡ after) }
    ensures whole { IfSome result (λ found. (n : ℕ) → StartsUsual piece.now n after → found.length ≡ n) }
    ensures taken { (n : ℕ) → StartsUsual piece.now n after → IsSome result }
{
    let first = negative as usize;
    let Some(found) = pointed_prefix(&piece[first..]) else {
        return None;
    };
    // The byte after a zero is compared, and not the count, so that mostly the zero alone is.
    if piece[first] == b'0' && piece[first + 1] != b'.' {
        return None;
    }
    let length = first + (found.natural + 1 + found.fraction);
    if piece[length] != after {
        return None;
    }
    Some(Digits {
        lanes: found.digits,
        places: found.fraction,
        length,
    })
}
