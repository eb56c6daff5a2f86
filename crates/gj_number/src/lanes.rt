//! Sixteen bytes at once.
ghost use Rattle.std.specs.Prelude.{◌≡◌, ℕ, min, ◌-◌, ◌+◌, ◌*◌, ◌^◌, ◌<◌, ◌≤◌, ◌⊎◌, nat_le, IfSome, MatchOption};
ghost use Rattle.std.specs.Prelude.{◌++◌, [], ◌∷◌, length, map, take, drop, replicate, All, get_or};
ghost use Rattle.std.specs.List.{fold};
ghost use Rattle.std.specs.Option.{IsSome};
ghost use Rattle.std.specs.Simd.Lanes.{Each1, mask_l};
ghost use Rattle.gj_number.specs.Bytes.{decimal_point, IsDigit, IsFirstDigit};
ghost use Rattle.gj_number.specs.Internal.DigitLanes.{lane_of, with_value, by_twos, by_both, by_fours, by_eights, leading};
ghost use Rattle.gj_number.specs.Value.{with_digit};
ghost use Rattle.gj_number.specs.Short.{StartsUnsigned};
ghost use Rattle.gj_number.specs.Internal.DigitRuns.{IsRun, IsPointed, SpellsOn, SpellsUnsigned};

use std::simd::prelude::*;

/// Indices that move the first `count` lanes of a vector to its end, read from the index `count` on. 128 stands for no
/// lane.
static PLACES: [u8; 32] = [
    128, 128, 128, 128, 128, 128, 128, 128, 128, 128, 128, 128, 128, 128, 128, 128, 0, 1, 2, 3, 4,
    5, 6, 7, 8, 9, 10, 11, 12, 13, 14, 15,
];

/// Two digits in a word, the first in its lower byte: times this, the upper byte is their number.
const BY_TEN: u16 = 10 * 256 + 1;

/// Two numbers below 100, each in a half of a word: times this, the upper half is the number of both.
const BY_HUNDRED: u32 = 100 * 65_536 + 1;

/// Sixteen rows of indices: row `at` has all but the index `at`, and one of no lane.
static OTHERS: [u8; 256] = [
    1, 2, 3, 4, 5, 6, 7, 8, 9, 10, 11, 12, 13, 14, 15, 128, 0, 2, 3, 4, 5, 6, 7, 8, 9, 10, 11, 12,
    13, 14, 15, 128, 0, 1, 3, 4, 5, 6, 7, 8, 9, 10, 11, 12, 13, 14, 15, 128, 0, 1, 2, 4, 5, 6, 7,
    8, 9, 10, 11, 12, 13, 14, 15, 128, 0, 1, 2, 3, 5, 6, 7, 8, 9, 10, 11, 12, 13, 14, 15, 128, 0,
    1, 2, 3, 4, 6, 7, 8, 9, 10, 11, 12, 13, 14, 15, 128, 0, 1, 2, 3, 4, 5, 7, 8, 9, 10, 11, 12, 13,
    14, 15, 128, 0, 1, 2, 3, 4, 5, 6, 8, 9, 10, 11, 12, 13, 14, 15, 128, 0, 1, 2, 3, 4, 5, 6, 7, 9,
    10, 11, 12, 13, 14, 15, 128, 0, 1, 2, 3, 4, 5, 6, 7, 8, 10, 11, 12, 13, 14, 15, 128, 0, 1, 2,
    3, 4, 5, 6, 7, 8, 9, 11, 12, 13, 14, 15, 128, 0, 1, 2, 3, 4, 5, 6, 7, 8, 9, 10, 12, 13, 14, 15,
    128, 0, 1, 2, 3, 4, 5, 6, 7, 8, 9, 10, 11, 13, 14, 15, 128, 0, 1, 2, 3, 4, 5, 6, 7, 8, 9, 10,
    11, 12, 14, 15, 128, 0, 1, 2, 3, 4, 5, 6, 7, 8, 9, 10, 11, 12, 13, 15, 128, 0, 1, 2, 3, 4, 5,
    6, 7, 8, 9, 10, 11, 12, 13, 14, 128,
];

/// Rows of sixteen places, from one to three digits before a point and up to fifteen after it: row `16 * (natural - 1)
/// + fraction` has those of `natural` and `fraction` digits, after places of no lane.
static POINTED: [u8; 768] = [
    128, 128, 128, 128, 128, 128, 128, 128, 128, 128, 128, 128, 128, 128, 128, 0, 128, 128, 128,
    128, 128, 128, 128, 128, 128, 128, 128, 128, 128, 128, 0, 2, 128, 128, 128, 128, 128, 128, 128,
    128, 128, 128, 128, 128, 128, 0, 2, 3, 128, 128, 128, 128, 128, 128, 128, 128, 128, 128, 128,
    128, 0, 2, 3, 4, 128, 128, 128, 128, 128, 128, 128, 128, 128, 128, 128, 0, 2, 3, 4, 5, 128,
    128, 128, 128, 128, 128, 128, 128, 128, 128, 0, 2, 3, 4, 5, 6, 128, 128, 128, 128, 128, 128,
    128, 128, 128, 0, 2, 3, 4, 5, 6, 7, 128, 128, 128, 128, 128, 128, 128, 128, 0, 2, 3, 4, 5, 6,
    7, 8, 128, 128, 128, 128, 128, 128, 128, 0, 2, 3, 4, 5, 6, 7, 8, 9, 128, 128, 128, 128, 128,
    128, 0, 2, 3, 4, 5, 6, 7, 8, 9, 10, 128, 128, 128, 128, 128, 0, 2, 3, 4, 5, 6, 7, 8, 9, 10, 11,
    128, 128, 128, 128, 0, 2, 3, 4, 5, 6, 7, 8, 9, 10, 11, 12, 128, 128, 128, 0, 2, 3, 4, 5, 6, 7,
    8, 9, 10, 11, 12, 13, 128, 128, 0, 2, 3, 4, 5, 6, 7, 8, 9, 10, 11, 12, 13, 14, 128, 0, 2, 3, 4,
    5, 6, 7, 8, 9, 10, 11, 12, 13, 14, 15, 128, 0, 2, 3, 4, 5, 6, 7, 8, 9, 10, 11, 12, 13, 14, 15,
    128, 128, 128, 128, 128, 128, 128, 128, 128, 128, 128, 128, 128, 128, 0, 1, 128, 128, 128, 128,
    128, 128, 128, 128, 128, 128, 128, 128, 128, 0, 1, 3, 128, 128, 128, 128, 128, 128, 128, 128,
    128, 128, 128, 128, 0, 1, 3, 4, 128, 128, 128, 128, 128, 128, 128, 128, 128, 128, 128, 0, 1, 3,
    4, 5, 128, 128, 128, 128, 128, 128, 128, 128, 128, 128, 0, 1, 3, 4, 5, 6, 128, 128, 128, 128,
    128, 128, 128, 128, 128, 0, 1, 3, 4, 5, 6, 7, 128, 128, 128, 128, 128, 128, 128, 128, 0, 1, 3,
    4, 5, 6, 7, 8, 128, 128, 128, 128, 128, 128, 128, 0, 1, 3, 4, 5, 6, 7, 8, 9, 128, 128, 128,
    128, 128, 128, 0, 1, 3, 4, 5, 6, 7, 8, 9, 10, 128, 128, 128, 128, 128, 0, 1, 3, 4, 5, 6, 7, 8,
    9, 10, 11, 128, 128, 128, 128, 0, 1, 3, 4, 5, 6, 7, 8, 9, 10, 11, 12, 128, 128, 128, 0, 1, 3,
    4, 5, 6, 7, 8, 9, 10, 11, 12, 13, 128, 128, 0, 1, 3, 4, 5, 6, 7, 8, 9, 10, 11, 12, 13, 14, 128,
    0, 1, 3, 4, 5, 6, 7, 8, 9, 10, 11, 12, 13, 14, 15, 128, 0, 1, 3, 4, 5, 6, 7, 8, 9, 10, 11, 12,
    13, 14, 15, 128, 0, 1, 3, 4, 5, 6, 7, 8, 9, 10, 11, 12, 13, 14, 15, 128, 128, 128, 128, 128,
    128, 128, 128, 128, 128, 128, 128, 128, 0, 1, 2, 128, 128, 128, 128, 128, 128, 128, 128, 128,
    128, 128, 128, 0, 1, 2, 4, 128, 128, 128, 128, 128, 128, 128, 128, 128, 128, 128, 0, 1, 2, 4,
    5, 128, 128, 128, 128, 128, 128, 128, 128, 128, 128, 0, 1, 2, 4, 5, 6, 128, 128, 128, 128, 128,
    128, 128, 128, 128, 0, 1, 2, 4, 5, 6, 7, 128, 128, 128, 128, 128, 128, 128, 128, 0, 1, 2, 4, 5,
    6, 7, 8, 128, 128, 128, 128, 128, 128, 128, 0, 1, 2, 4, 5, 6, 7, 8, 9, 128, 128, 128, 128, 128,
    128, 0, 1, 2, 4, 5, 6, 7, 8, 9, 10, 128, 128, 128, 128, 128, 0, 1, 2, 4, 5, 6, 7, 8, 9, 10, 11,
    128, 128, 128, 128, 0, 1, 2, 4, 5, 6, 7, 8, 9, 10, 11, 12, 128, 128, 128, 0, 1, 2, 4, 5, 6, 7,
    8, 9, 10, 11, 12, 13, 128, 128, 0, 1, 2, 4, 5, 6, 7, 8, 9, 10, 11, 12, 13, 14, 128, 0, 1, 2, 4,
    5, 6, 7, 8, 9, 10, 11, 12, 13, 14, 15, 128, 0, 1, 2, 4, 5, 6, 7, 8, 9, 10, 11, 12, 13, 14, 15,
    128, 0, 1, 2, 4, 5, 6, 7, 8, 9, 10, 11, 12, 13, 14, 15, 128, 0, 1, 2, 4, 5, 6, 7, 8, 9, 10, 11,
    12, 13, 14, 15,
];

/// A bit for each lane that is 10 or more.
#[inline(always)]
pub(crate) fn from_ten(lanes: u8x16) -> u64
    ensures { result ≡ mask_l (map (nat_le 10) lanes) }
{
    lanes.simd_ge(u8x16::splat(10)).to_bitmask()
}

/// A bit for each lane that is 10 or more, and one bit after those of the lanes.
#[inline(always)]
fn from_ten_ended(lanes: u8x16) -> u64
    ensures { result ≡ mask_l (map (nat_le 10) (lanes ++ 10 ∷ [])) }
{
    from_ten(lanes) + 0x1_0000
}

/// The number of lanes before the first that is 10 or more.
#[inline(always)]
pub(crate) fn leading_digits(lanes: u8x16) -> usize
    ensures count { result ≡ leading lanes }
    ensures few { result ≤ 16 }
{
    let others = from_ten(lanes);
    if others == 0 {
        16
    } else {
        others.trailing_zeros() as usize
    }
}

/// The first lanes moved to the end, after zeros.
#[inline(always)]
fn moved_to_end(lanes: u8x16, count: usize) -> u8x16
    requires { count ≤ 16 }
    ensures { result ≡ replicate (16 - count) 0 ++ take count lanes }
{
    lanes.swizzle_dyn(u8x16::from_slice(&PLACES[count..]))
}

/// The lanes without the one at a place, and a zero.
#[inline(always)]
fn without_lane(lanes: u8x16, at: usize) -> u8x16
    requires { at < 16 }
    ensures { result ≡ take at lanes ++ (drop (at + 1) lanes ++ 0 ∷ []) }
{
    lanes.swizzle_dyn(u8x16::from_slice(&OTHERS[16 * at..]))
}

/// The digits before a point and after it, moved to the end, after zeros.
#[inline(always)]
fn without_point(lanes: u8x16, natural: usize, fraction: usize) -> u8x16
    requires some { 0 < natural }
    requires few { natural ≤ 3 }
    requires within { natural + 1 + fraction ≤ 16 }
    ensures { result ≡ replicate (16 - (natural + fraction)) 0
        ++ take (natural + fraction) (take natural lanes ++ (drop (natural + 1) lanes ++ 0 ∷ [])) }
{
    lanes.swizzle_dyn(u8x16::from_slice(&POINTED[256 * (natural - 1) + 16 * fraction..]))
}

/// Each two of sixteen digits as one number.
#[inline(always)]
fn twos_of(digits: u8x16) -> u16x8
    requires { Each1 (λ digit. digit < 10) digits }
    ensures { result ≡ by_twos digits }
{
    (u16x8::from_le_bytes(digits) * u16x8::splat(BY_TEN)) >> u16x8::splat(8)
}

/// Each two of eight numbers below 100 as one number.
#[inline(always)]
fn both_of(twos: u16x8) -> u32x4
    requires { Each1 (λ two. two < 100) twos }
    ensures { result ≡ by_both twos }
{
    (u32x4::from_le_bytes(twos.to_le_bytes()) * u32x4::splat(BY_HUNDRED)) >> u32x4::splat(16)
}

/// Each four of sixteen digits as one number.
#[inline(always)]
fn fours_of(digits: u8x16) -> u32x4
    requires { Each1 (λ digit. digit < 10) digits }
    ensures { result ≡ by_fours digits }
{
    both_of(twos_of(digits))
}

/// The number that sixteen digits spell, of which the first may be zeros.
#[inline(always)]
fn number_of(digits: u8x16) -> u64
    requires { Each1 (λ digit. digit < 10) digits }
    ensures { result ≡ fold with_value 0 digits }
{
    let [first, second, third, fourth] = fours_of(digits).to_array();
    (first as u64 * 10_000 + second as u64) * 100_000_000 + (third as u64 * 10_000 + fourth as u64)
}

/// Each two of four numbers below 10^8 as one number.
#[inline(always)]
fn sixteens_of(eights: u32x4) -> u64x2
    requires { Each1 (λ eight. eight < 10 ^ 8) eights }
    ensures { result ≡ by_eights eights }
{
    let both = u64x2::from_le_bytes(eights.to_le_bytes());
    let half = u64x2::splat(32);
    ((both << half) >> half) * u64x2::splat(100_000_000) + (both >> half)
}

/// The two numbers that twice sixteen digits spell.
#[inline(always)]
pub(crate) fn numbers_of(first: u8x16, second: u8x16) -> (u64, u64)
    requires first { Each1 (λ digit. digit < 10) first }
    requires second { Each1 (λ digit. digit < 10) second }
    ensures first { result.0 ≡ fold with_value 0 first }
    ensures second { result.1 ≡ fold with_value 0 second }
{
    let (upper, lower) = fours_of(first).deinterleave(fours_of(second));
    let [value, other] = sixteens_of(upper * u32x4::splat(10_000) + lower).to_array();
    (value, other)
}

/// The first sixteen bytes of a piece, each less the byte of the digit 0: the lanes of digits are below 10.
#[inline(always)]
pub(crate) fn lanes_of(piece: &[u8]) -> u8x16
    requires { 16 ≤ length piece.now }
    ensures { result ≡ map lane_of (take 16 piece.now) }
{
    u8x16::from_slice(piece) - u8x16::splat(b'0')
}

/// The digits that a piece begins with, as far as its sixteenth byte: how many, and the number that they spell.
#[inline(always)]
pub(crate) fn first_digits(piece: &[u8]) -> (usize, u64)
    requires { 16 ≤ length piece.now }
    ensures few { result.0 ≤ 16 }
    ensures spells { SpellsOn piece.now 0 result.0 result.1 }
    ensures whole { (count : ℕ) → IsRun piece.now count → result.0 ≡ min count 16 }
{
    let lanes = lanes_of(piece);
    let count = leading_digits(lanes);
    (count, number_of(moved_to_end(lanes, count)))
}

/// How many digits a piece begins with, as far as whole vectors of it go.
pub(crate) fn digit_run(piece: &[u8]) -> usize
    ensures length { result ≤ length piece.now }
    ensures digits { All IsDigit (take result piece.now) }
{
    let mut at = 0;
    while piece.len() - at >= 16 {
        let count = leading_digits(lanes_of(&piece[at..]));
        if count < 16 {
            return at + count;
        }
        // The index has a variable of its own, so that no turn waits for the count of the one before.
        at += 16;
    }
    at
}

/// How many zeros a piece begins with, as far as whole vectors of it go.
pub(crate) fn zero_run(piece: &[u8]) -> usize
    ensures length { result ≤ length piece.now }
    ensures digits { All IsDigit (take result piece.now) }
    ensures zeros { fold with_digit 0 (take result piece.now) ≡ 0 }
{
    let mut at = 0;
    while piece.len() - at >= 16 {
        let (count, value) = first_digits(&piece[at..]);
        if count < 16 || value != 0 {
            return at;
        }
        at += 16;
    }
    at
}

/// A number without its sign and with no exponent: how many digits stand before its point and after it, how many bytes
/// it has, and the number that all its digits spell.
#[derive(Clone, Copy)]
pub(crate) struct Unsigned {
    pub natural: usize,
    pub fraction: usize,
    pub length: usize,
    pub value: u64,
}

/// The digits that the first sixteen bytes of a piece begin with, and those after a point that follows. `None` says that
/// they go on to the last of these bytes, or that no digit follows the point.
#[inline(always)]
pub(crate) fn unsigned_prefix(piece: &[u8]) -> Option<Unsigned>
    requires { 16 ≤ length piece.now }
    ensures few { IfSome result (λ found. found.length < 16) }
    ensures spells { IfSome result (λ found.
        SpellsUnsigned piece.now found.natural found.fraction found.length found.value) }
    ensures ends { IfSome result (λ found. IsDigit (get_or piece.now found.natural 0) → ⊥) }
    ensures last { IfSome result (λ found. IsDigit (get_or piece.now found.length 0) → ⊥) }
    ensures point { IfSome result (λ found. found.fraction ≡ 0 → get_or piece.now found.natural 0 ≡ decimal_point → ⊥) }
    ensures taken { (n : ℕ) → n < 16 → StartsUnsigned piece.now n → MatchOption result ⊥ (λ found.
        (found.length ≡ n) × ((found.natural ≡ 1) ⊎ IsFirstDigit (get_or piece.now 0 0))) }
{
    let lanes = lanes_of(piece);
    let others = from_ten(lanes);
    if others == 0 {
        return None;
    }
    let natural = others.trailing_zeros() as usize;
    if piece[natural] != b'.' {
        return Some(Unsigned {
            natural,
            fraction: 0,
            length: natural,
            value: number_of(moved_to_end(lanes, natural)),
        });
    }
    let rest = others >> (natural + 1);
    let fraction = rest.trailing_zeros() as usize;
    if rest == 0 || fraction == 0 {
        return None;
    }
    Some(Unsigned {
        natural,
        fraction,
        length: natural + 1 + fraction,
        value: number_of(moved_to_end(without_lane(lanes, natural), natural + fraction)),
    })
}

/// A number with a point and without its sign: how many digits stand before the point and after it, and all of them,
/// after zeros.
#[derive(Clone, Copy)]
pub(crate) struct Pointed {
    pub natural: usize,
    pub fraction: usize,
    pub digits: u8x16,
}

/// The number with one to three digits before its point, and digits after it, that the first sixteen bytes of a piece
/// begin with. Where it has as many bytes it may go on.
#[inline(always)]
pub(crate) fn pointed_prefix(piece: &[u8]) -> Option<Pointed>
    requires { 16 ≤ length piece.now }
    ensures some { IfSome result (λ found. 0 < found.natural) }
    ensures few { IfSome result (λ found. found.natural + 1 + found.fraction ≤ 16) }
    ensures digits { IfSome result (λ found. Each1 (λ digit. digit < 10) found.digits) }
    ensures spells { IfSome result (λ found.
        SpellsUnsigned piece.now found.natural found.fraction (found.natural + 1 + found.fraction) (fold with_value 0 found.digits)) }
    ensures point { IfSome result (λ found. IsDigit (get_or piece.now found.natural 0) → ⊥) }
    ensures ends { IfSome result (λ found. found.natural + 1 + found.fraction < 16 →
        IsDigit (get_or piece.now (found.natural + 1 + found.fraction) 0) → ⊥) }
    ensures taken { (natural fraction : ℕ) → IsPointed piece.now natural fraction → IsSome result }
{
    let lanes = lanes_of(piece);
    let others = from_ten_ended(lanes);
    let natural = others.trailing_zeros() as usize;
    if natural == 0 || natural > 3 || piece[natural] != b'.' {
        return None;
    }
    let fraction = (others >> (natural + 1)).trailing_zeros() as usize;
    if fraction == 0 {
        return None;
    }
    Some(Pointed {
        natural,
        fraction,
        digits: without_point(lanes, natural, fraction),
    })
}

/// The digits that a piece begins with, as far as its sixteenth byte: how many, and themselves, after zeros.
#[inline(always)]
pub(crate) fn digits_prefix(piece: &[u8]) -> (usize, u8x16)
    requires { 16 ≤ length piece.now }
    ensures few { result.0 ≤ 16 }
    ensures digits { Each1 (λ digit. digit < 10) result.1 }
    ensures spells { SpellsOn piece.now 0 result.0 (fold with_value 0 result.1) }
{
    let lanes = lanes_of(piece);
    let count = leading_digits(lanes);
    (count, moved_to_end(lanes, count))
}
