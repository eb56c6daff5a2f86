//! The digits of a number in an order of lanes from which its cut value is read.
ghost use Rattle.std.specs.Prelude.{◌≡◌, ◌≤◌, ◌<◌, ◌^◌, length, map, take, ◌↔◌, true, false, IsTrue};
ghost use Rattle.std.specs.Simd.Lanes.{Each1};
ghost use Rattle.gj_number.specs.Internal.DigitLanes.{lane_of};
ghost use Rattle.gj_number.specs.Internal.CutLanes.{after_point, before_point, by_parts, by_sevens, cut_in, in_lanes, rests_in};

use crate::lanes::lanes_of;
use std::simd::prelude::*;

/// Rows of sixteen places, of one to three digits before a point and up to fifteen after it: row `16 * (natural - 1) + fraction`
/// has those of `natural` and `fraction` digits. Three lanes are for the digits before the point and seven for those after
/// it, and the six between these for the eighth to the thirteenth. 128 stands for no digit.
static PLACED: [u8; 768] = [
    128, 128, 0, 128, 128, 128, 128, 128, 128, 128, 128, 128, 128, 128, 128, 128, 128, 128, 0, 128,
    2, 128, 128, 128, 128, 128, 128, 128, 128, 128, 128, 128, 128, 128, 0, 128, 2, 3, 128, 128,
    128, 128, 128, 128, 128, 128, 128, 128, 128, 128, 0, 128, 2, 3, 4, 128, 128, 128, 128, 128,
    128, 128, 128, 128, 128, 128, 0, 128, 2, 3, 4, 128, 5, 128, 128, 128, 128, 128, 128, 128, 128,
    128, 0, 128, 2, 3, 4, 128, 5, 6, 128, 128, 128, 128, 128, 128, 128, 128, 0, 128, 2, 3, 4, 128,
    5, 6, 7, 128, 128, 128, 128, 128, 128, 128, 0, 128, 2, 3, 4, 128, 5, 6, 7, 128, 8, 128, 128,
    128, 128, 128, 0, 9, 2, 3, 4, 128, 5, 6, 7, 128, 8, 128, 128, 128, 128, 128, 0, 9, 2, 3, 4, 10,
    5, 6, 7, 128, 8, 128, 128, 128, 128, 128, 0, 9, 2, 3, 4, 10, 5, 6, 7, 11, 8, 128, 128, 128,
    128, 128, 0, 9, 2, 3, 4, 10, 5, 6, 7, 11, 8, 12, 128, 128, 128, 128, 0, 9, 2, 3, 4, 10, 5, 6,
    7, 11, 8, 12, 13, 128, 128, 128, 0, 9, 2, 3, 4, 10, 5, 6, 7, 11, 8, 12, 13, 14, 128, 128, 0, 9,
    2, 3, 4, 10, 5, 6, 7, 11, 8, 12, 13, 14, 128, 128, 0, 9, 2, 3, 4, 10, 5, 6, 7, 11, 8, 12, 13,
    14, 128, 0, 1, 128, 128, 128, 128, 128, 128, 128, 128, 128, 128, 128, 128, 128, 128, 0, 1, 128,
    3, 128, 128, 128, 128, 128, 128, 128, 128, 128, 128, 128, 128, 0, 1, 128, 3, 4, 128, 128, 128,
    128, 128, 128, 128, 128, 128, 128, 128, 0, 1, 128, 3, 4, 5, 128, 128, 128, 128, 128, 128, 128,
    128, 128, 128, 0, 1, 128, 3, 4, 5, 128, 6, 128, 128, 128, 128, 128, 128, 128, 128, 0, 1, 128,
    3, 4, 5, 128, 6, 7, 128, 128, 128, 128, 128, 128, 128, 0, 1, 128, 3, 4, 5, 128, 6, 7, 8, 128,
    128, 128, 128, 128, 128, 0, 1, 128, 3, 4, 5, 128, 6, 7, 8, 128, 9, 128, 128, 128, 128, 0, 1,
    10, 3, 4, 5, 128, 6, 7, 8, 128, 9, 128, 128, 128, 128, 0, 1, 10, 3, 4, 5, 11, 6, 7, 8, 128, 9,
    128, 128, 128, 128, 0, 1, 10, 3, 4, 5, 11, 6, 7, 8, 12, 9, 128, 128, 128, 128, 0, 1, 10, 3, 4,
    5, 11, 6, 7, 8, 12, 9, 13, 128, 128, 128, 0, 1, 10, 3, 4, 5, 11, 6, 7, 8, 12, 9, 13, 14, 128,
    128, 0, 1, 10, 3, 4, 5, 11, 6, 7, 8, 12, 9, 13, 14, 15, 128, 0, 1, 10, 3, 4, 5, 11, 6, 7, 8,
    12, 9, 13, 14, 15, 128, 0, 1, 10, 3, 4, 5, 11, 6, 7, 8, 12, 9, 13, 14, 15, 0, 1, 2, 128, 128,
    128, 128, 128, 128, 128, 128, 128, 128, 128, 128, 128, 0, 1, 2, 128, 4, 128, 128, 128, 128,
    128, 128, 128, 128, 128, 128, 128, 0, 1, 2, 128, 4, 5, 128, 128, 128, 128, 128, 128, 128, 128,
    128, 128, 0, 1, 2, 128, 4, 5, 6, 128, 128, 128, 128, 128, 128, 128, 128, 128, 0, 1, 2, 128, 4,
    5, 6, 128, 7, 128, 128, 128, 128, 128, 128, 128, 0, 1, 2, 128, 4, 5, 6, 128, 7, 8, 128, 128,
    128, 128, 128, 128, 0, 1, 2, 128, 4, 5, 6, 128, 7, 8, 9, 128, 128, 128, 128, 128, 0, 1, 2, 128,
    4, 5, 6, 128, 7, 8, 9, 128, 10, 128, 128, 128, 0, 1, 2, 11, 4, 5, 6, 128, 7, 8, 9, 128, 10,
    128, 128, 128, 0, 1, 2, 11, 4, 5, 6, 12, 7, 8, 9, 128, 10, 128, 128, 128, 0, 1, 2, 11, 4, 5, 6,
    12, 7, 8, 9, 13, 10, 128, 128, 128, 0, 1, 2, 11, 4, 5, 6, 12, 7, 8, 9, 13, 10, 14, 128, 128, 0,
    1, 2, 11, 4, 5, 6, 12, 7, 8, 9, 13, 10, 14, 15, 128, 0, 1, 2, 11, 4, 5, 6, 12, 7, 8, 9, 13, 10,
    14, 15, 128, 0, 1, 2, 11, 4, 5, 6, 12, 7, 8, 9, 13, 10, 14, 15, 128, 0, 1, 2, 11, 4, 5, 6, 12,
    7, 8, 9, 13, 10, 14, 15, 128,
];

/// The digits of a number in their lanes.
#[inline(always)]
pub(crate) fn placed_digits(piece: &[u8], natural: usize, fraction: usize) -> u8x16
    requires room { 16 ≤ length piece.now }
    requires some { 0 < natural }
    requires few { natural ≤ 3 }
    requires few_after { fraction ≤ 15 }
    ensures { result ≡ in_lanes (before_point natural (map lane_of (take 16 piece.now)))
        (after_point natural fraction (map lane_of (take 16 piece.now))) }
{
    lanes_of(piece).swizzle_dyn(u8x16::from_slice(&PLACED[256 * (natural - 1) + 16 * fraction..]))
}

/// Whether all lanes are 0.
#[inline(always)]
fn are_zero(lanes: u8x16) -> bool
    ensures { IsTrue result ↔ Each1 (λ lane. lane ≡ 0) lanes }
{
    lanes.reduce_or() == 0
}

/// The digits before the point as one number, the first three after it, the next three, and the seventh.
#[inline(always)]
fn parts_of(digits: u8x16) -> u32x4
    requires { Each1 (λ digit. digit < 10) digits }
    ensures { result ≡ by_parts digits }
{
    digits.dot4(u8x16::from_array([100, 10, 1, 0, 100, 10, 1, 0, 100, 10, 1, 0, 1, 0, 0, 0]))
}

/// Each two of four numbers as one: the first times 10^4, and the second.
#[inline(always)]
fn sevens_of(parts: u32x4) -> u64x2
    requires { Each1 (λ part. part < 10 ^ 7) parts }
    ensures { result ≡ by_sevens parts }
{
    let both = u64x2::from_le_bytes(parts.to_le_bytes());
    let half = u64x2::splat(32);
    ((both << half) >> half) * u64x2::splat(10_000) + (both >> half)
}

/// The cut values of two numbers.
// The upper parts are below 1000: the mask tells the compiler that a multiplication of halves serves.
#[inline(always)]
pub(crate) fn cuts_of(first: u8x16, second: u8x16) -> (u64, u64)
    requires first { Each1 (λ digit. digit < 10) first }
    requires second { Each1 (λ digit. digit < 10) second }
    ensures first { result.0 ≡ cut_in first }
    ensures second { result.1 ≡ cut_in second }
    ensures first_below { result.0 < 10 ^ 10 }
    ensures second_below { result.1 < 10 ^ 10 }
{
    let (upper, lower) = parts_of(first).deinterleave(parts_of(second));
    let tens = u32x4::from_array([1000, 10, 1000, 10]);
    let [value, other] = sevens_of((upper & u32x4::splat(0x3ff)) * tens + lower).to_array();
    (value, other)
}

/// Whether no digit after the seventh after the point is in these lanes, or each that is is 0.
#[inline(always)]
fn has_no_rest(digits: u8x16) -> bool
    ensures { IsTrue result ↔ Each1 (λ digit. digit ≡ 0) (rests_in digits) }
{
    are_zero(
        digits & u8x16::from_array([0, 0, 0, 255, 0, 0, 0, 255, 0, 0, 0, 255, 0, 255, 255, 255]),
    )
}

/// Whether each of two numbers has such a digit that is not 0. Mostly none has, which one look at the greater of each two lanes says.
#[inline(always)]
pub(crate) fn rests_of(first: u8x16, second: u8x16) -> (bool, bool)
    ensures first_some { result.0 ≡ true → Each1 (λ digit. digit ≡ 0) (rests_in first) → ⊥ }
    ensures first_none { result.0 ≡ false → Each1 (λ digit. digit ≡ 0) (rests_in first) }
    ensures second_some { result.1 ≡ true → Each1 (λ digit. digit ≡ 0) (rests_in second) → ⊥ }
    ensures second_none { result.1 ≡ false → Each1 (λ digit. digit ≡ 0) (rests_in second) }
{
    if has_no_rest(first.simd_max(second)) {
        (false, false)
    } else {
        (!has_no_rest(first), !has_no_rest(second))
    }
}
