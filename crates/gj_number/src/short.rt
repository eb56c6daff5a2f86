//! Numbers as most are written: at most eighteen digits, and no exponent.
ghost use Rattle.std.specs.Prelude.{◌≡◌, ◌≢◌, ◌↔◌, ◌-◌, ◌*◌, ◌/◌, ◌%◌, ◌^◌, ◌<◌, ◌≤◌, option_map, IsTrue, IfSome};
ghost use Rattle.gj_number.specs.Exact.{SameValue, signed, cut_limit, cut_magnitude, cut_of, cut_places, cut_within, places_of};
ghost use Rattle.gj_number.specs.Internal.KeptParts.{limited_cut, limited_to};

pub(crate) mod cut_lanes;
pub(crate) mod cuts;
pub(crate) mod pair;
pub(crate) mod prefix;
pub(crate) mod unsigned;

use crate::decimal::{Decimal, with_sign};
use crate::tens::ten_to;

/// A cut number is ten to this power times the value.
const CUT_PLACES: u8 = 7;

/// The most digits of a `Short`, and the most of them after its point.
const MOST_PLACES: u64 = 18;

/// A number as most are written: at most eighteen digits, and no exponent.
#[derive(Clone, Copy)]
pub struct Short {
    /// The digits as one number, without the point.
    pub digits: u64,
    /// How many of them stand after the point, the zeros at the end with them.
    pub places: u8,
    /// Whether a minus is written.
    pub negative: bool,
    ghost small: { digits < 10 ^ 18 },
    ghost few: { places ≤ 18 },
}

impl Short {
    ghost use Rattle.gj_number.specs.Short.{exact_of};
    ghost use Rattle.gj_number.specs.Internal.MovedPoint.{IsMoved};

    /// Zero.
    pub fn zero() -> Short
        ensures { result.digits ≡ 0 }
    {
        Short {
            digits: 0,
            places: 0,
            negative: false,
        }
    }

    /// The decimal that it is.
    pub fn decimal(self) -> Decimal
        ensures { result ≡ exact_of self }
    {
        if self.digits == 0 {
            return Decimal::zero();
        }
        let (digits, tens) = without_zeros(self.digits);
        Decimal::new(
            self.negative,
            digits as u128,
            tens as i16 - self.places as i16,
        )
    }

    /// The number times ten to the power `by`, or to the power `-by` where `down` is true, if eighteen digits can write it.
    #[inline(always)]
    fn moved(self, down: bool, by: u64) -> Option<Short>
        requires { by < 1000 }
        ensures { IfSome result (λ moved. IsMoved self moved (signed down by)) }
    {
        let places = self.places as u64;
        if down {
            if places + by > MOST_PLACES {
                return None;
            }
            return Some(Short {
                digits: self.digits,
                places: (places + by) as u8,
                negative: self.negative,
            });
        }
        if by <= places {
            return Some(Short {
                digits: self.digits,
                places: (places - by) as u8,
                negative: self.negative,
            });
        }
        let up = by - places;
        if up > MOST_PLACES || self.digits >= ten_to((MOST_PLACES - up) as usize) {
            return None;
        }
        Some(Short {
            digits: self.digits * ten_to(up as usize),
            places: 0,
            negative: self.negative,
        })
    }

    /// The value times 10^7, cut toward zero, or `None` where the magnitude of that is 10^17 or more.
    #[inline(always)]
    pub fn cut(self) -> Option<i64>
        ensures { result ≡ cut_of (exact_of self) }
    {
        match self.cut_magnitude() {
            Some(magnitude) => Some(with_sign(self.negative, magnitude)),
            None => None,
        }
    }

    #[inline(always)]
    fn cut_magnitude(self) -> Option<u64>
        ensures magnitude { result ≡ limited_cut (cut_magnitude (exact_of self)) }
        ensures below { IfSome result (λ magnitude. magnitude < cut_limit) }
    {
        if self.places <= CUT_PLACES {
            raised(self.digits, (CUT_PLACES - self.places) as usize)
        } else {
            Some(without_last(self.digits, self.places - CUT_PLACES))
        }
    }

    /// The value times 10^7, cut toward zero, or `None` where its magnitude is more than `most` times 10^7.
    #[inline(always)]
    pub fn cut_within(self, most: u8) -> Option<i32>
        requires { most ≤ 200 }
        ensures { result ≡ cut_within (most * 10 ^ cut_places) (cut_of (exact_of self)) }
    {
        match self.magnitude_within(most as u64) {
            Some(magnitude) => Some(small_with_sign(self.negative, magnitude)),
            None => None,
        }
    }

    #[inline(always)]
    fn magnitude_within(self, most: u64) -> Option<u64>
        requires { most ≤ 200 }
        ensures magnitude { result ≡ limited_to (most * 10 ^ 7) (cut_magnitude (exact_of self)) }
        ensures below { IfSome result (λ magnitude. magnitude < 2 ^ 31) }
    {
        if self.places <= CUT_PLACES {
            raised_within(self.digits, self.places as usize, most)
        } else {
            lowered_within(self.digits, self.places - CUT_PLACES, most)
        }
    }

    /// Whether more than seven digits stand after the point where no zero is written at the end.
    #[inline(always)]
    pub fn is_precise(self) -> bool
        ensures { IsTrue result ↔ (cut_places < places_of (exact_of self)) }
    {
        if self.places <= CUT_PLACES {
            return false;
        }
        let down = self.places - CUT_PLACES;
        without_last(self.digits, down) * ten_to(down as usize) != self.digits
    }

    /// Whether both are the same number.
    #[inline]
    pub fn same(self, other: Short) -> bool
        ensures { IsTrue result ↔ SameValue (exact_of self) (exact_of other) }
    {
        if self.places != other.places {
            return self.decimal() == other.decimal();
        }
        if self.digits != other.digits {
            return false;
        }
        self.negative == other.negative || self.digits == 0
    }
}

/// The digits without the zeros at their end, and how many those are.
pub(crate) fn without_zeros(all: u64) -> (u64, u8)
    requires some { 0 < all }
    requires small { all < 10 ^ 18 }
    ensures all { all ≡ result.0 * 10 ^ result.1 }
    ensures last { result.0 % 10 ≢ 0 }
    ensures few { result.1 ≤ 18 }
{
    let mut digits = all;
    let mut zeros = 0;
    while digits % 10 == 0 {
        digits /= 10;
        zeros += 1;
    }
    (digits, zeros)
}

/// The digits times ten to the power `up`, where that is below the limit of a cut number.
#[inline(always)]
fn raised(digits: u64, up: usize) -> Option<u64>
    requires { up ≤ 7 }
    ensures magnitude { result ≡ limited_cut (digits * 10 ^ up) }
    ensures below { IfSome result (λ magnitude. magnitude < cut_limit) }
{
    if digits >= ten_to(17 - up) {
        return None;
    }
    Some(digits * ten_to(up))
}

/// The digits of a number with `places` places, once it is written with seven, where the number is at most `most`.
// The comparison is on the digits as they are, so that a caller that needs nothing else pays for no multiplication.
#[inline(always)]
fn raised_within(digits: u64, places: usize, most: u64) -> Option<u64>
    requires places { places ≤ 7 }
    requires most { most ≤ 200 }
    ensures magnitude { result ≡ limited_to (most * 10 ^ 7) (digits * 10 ^ (7 - places)) }
    ensures below { IfSome result (λ magnitude. magnitude < 2 ^ 31) }
{
    if digits > most * ten_to(places) {
        return None;
    }
    Some(digits * ten_to(7 - places))
}

/// The digits without the last `down`, where that is at most `most` times 10^7.
#[inline(always)]
fn lowered_within(digits: u64, down: u8, most: u64) -> Option<u64>
    requires digits { digits < 10 ^ 18 }
    requires some { 0 < down }
    requires few { down ≤ 11 }
    requires most { most ≤ 200 }
    ensures magnitude { result ≡ limited_to (most * 10 ^ 7) (digits / 10 ^ down) }
    ensures below { IfSome result (λ magnitude. magnitude < 2 ^ 31) }
{
    let magnitude = without_last(digits, down);
    if magnitude > most * 10_000_000 {
        return None;
    }
    Some(magnitude)
}

/// The magnitude, or minus that.
#[inline(always)]
fn small_with_sign(negative: bool, magnitude: u64) -> i32
    requires { magnitude < 2 ^ 31 }
    ensures { result ≡ signed negative magnitude }
{
    if negative {
        -(magnitude as i32)
    } else {
        magnitude as i32
    }
}

/// What the digits are multiplied by, of which the upper 64 bits of 128 are kept, so that with a shift by the bits below
/// they are divided by ten to the power of the index.
static RECIPROCALS: [u64; 12] = [
    0,
    1_844_674_407_370_955_162,
    737_869_762_948_382_065,
    147_573_952_589_676_413,
    944_473_296_573_929_043,
    1_511_157_274_518_286_469,
    1_208_925_819_614_629_175,
    241_785_163_922_925_835,
    48_357_032_784_585_167,
    309_485_009_821_345_069,
    247_588_007_857_076_055,
    49_517_601_571_415_211,
];

/// The number of bits by which the product is then shifted.
static SHIFTS: [u32; 12] = [0, 0, 2, 3, 9, 13, 16, 17, 18, 24, 27, 28];

/// The digits without the last `down`, by a multiplication.
#[inline(always)]
fn without_last(digits: u64, down: u8) -> u64
    requires digits { digits < 10 ^ 18 }
    requires some { 0 < down }
    requires few { down ≤ 11 }
    ensures value { result ≡ digits / 10 ^ down }
    ensures below { result < cut_limit }
    ensures back { result * 10 ^ down ≤ digits }
{
    let at = down as usize;
    upper_product(digits, RECIPROCALS[at]) >> SHIFTS[at]
}

/// The upper 64 bits of a product.
#[inline(always)]
fn upper_product(first: u64, second: u64) -> u64
    ensures { result ≡ first * second / 2 ^ 64 }
{
    ((first as u128 * second as u128) >> 64) as u64
}
