//! Decimals as exact numbers.
ghost use Rattle.std.specs.Prelude.{◌≡◌, ◌↔◌, ◌*◌, ◌/◌, ◌^◌, ◌<◌, IsTrue, IfSome};
ghost use Rattle.std.proofs.Common.{rules};
ghost use Rattle.std.specs.Cmp.Rules.{comparing};
ghost use Rattle.gj_number.specs.Exact.{zero_exact, IsWithinLimits, SameValue, same_parts, digits_limit, cut_limit, cut_magnitude, signed, places_of, cut_of};
ghost use Rattle.gj_number.specs.Internal.KeptParts.{limited_cut};

use crate::tens::{ten_to, wide_ten_to};
use std::marker::Model;

/// A cut number is ten to this power times the value.
const CUT_PLACES: i16 = 7;

/// The most digits of a cut number.
const CUT_DIGITS: usize = 17;

/// A decimal: its digits times ten to its power, below zero where it is negative.
///
/// Two decimals are equal exactly where they are the same number. The digits are below 10^30 and
/// ten does not divide them, and the power is from -400 to 400. Zero is plus, 0 and power 0.
#[derive(Clone, Copy, Debug)]
pub struct Decimal {
    digits: u128,
    power: i16,
    negative: bool,
}

impl Model for Decimal {
    ghost use Rattle.gj_number.specs.Exact.{Exact, exact_code, IsWithinLimits};

    ghost Value = { Exact };

    ghost coded = { exact_code };

    ghost view = { λ d. record { negative = d.negative; digits = d.digits; power = d.power } };

    ghost invariant = { λ d. IsWithinLimits (record { negative = d.negative; digits = d.digits; power = d.power }) };

    ghost inverse = { λ e. record { digits = e.digits; power = e.power; negative = e.negative } };
}

impl Decimal {
    /// Zero.
    pub(crate) fn zero() -> Decimal
        ensures { result ≡ zero_exact }
    {
        Decimal {
            digits: 0,
            power: 0,
            negative: false,
        }
    }

    /// The decimal of these three parts.
    pub(crate) fn new(negative: bool, digits: u128, power: i16) -> Decimal
        requires { IsWithinLimits (record { negative = negative; digits = digits; power = power }) }
        ensures { result ≡ record { negative = negative; digits = digits; power = power } }
    {
        Decimal {
            digits,
            power,
            negative,
        }
    }

    /// Whether it is below zero, its digits and its power of ten.
    pub fn parts(&self) -> (bool, u128, i16)
        ensures parts { result ≡ (self.now.negative, self.now.digits, self.now.power) }
        ensures limits { IsWithinLimits self.now }
    {
        (self.negative, self.digits, self.power)
    }

    /// The number of digits after the point, where no zero is written at the end.
    pub fn places(&self) -> u16
        ensures places { result ≡ places_of self.now }
    {
        if self.power < 0 {
            (-self.power) as u16
        } else {
            0
        }
    }

    /// The value times 10^7, cut toward zero, or `None` where the magnitude of that is 10^17 or more.
    pub fn cut(&self) -> Option<i64>
        ensures cut { result ≡ cut_of self.now }
    {
        match self.cut_magnitude() {
            Some(magnitude) => Some(with_sign(self.negative, magnitude)),
            None => None,
        }
    }

    fn cut_magnitude(&self) -> Option<u64>
        ensures magnitude { result ≡ limited_cut (cut_magnitude self.now) }
        ensures below { IfSome result (λ magnitude. magnitude < cut_limit) }
    {
        let shift = self.power + CUT_PLACES;
        if shift >= 0 {
            raised(self.digits, shift as usize)
        } else {
            lowered(self.digits, (-shift) as usize)
        }
    }
}

pub(crate) fn with_sign(negative: bool, magnitude: u64) -> i64
    requires { magnitude < cut_limit }
    ensures { result ≡ signed negative magnitude }
{
    if negative {
        -(magnitude as i64)
    } else {
        magnitude as i64
    }
}

/// The digits times ten to the power `up`, where that is below the limit of a cut number.
fn raised(digits: u128, up: usize) -> Option<u64>
    ensures magnitude { result ≡ limited_cut (digits * 10 ^ up) }
    ensures below { IfSome result (λ magnitude. magnitude < cut_limit) }
{
    if digits == 0 {
        return Some(0);
    }
    if up >= CUT_DIGITS || digits >= ten_to(CUT_DIGITS - up) as u128 {
        return None;
    }
    Some(digits as u64 * ten_to(up))
}

/// The digits without the last `down`, where that is below the limit of a cut number.
fn lowered(digits: u128, down: usize) -> Option<u64>
    requires { digits < digits_limit }
    ensures magnitude { result ≡ limited_cut (digits / 10 ^ down) }
    ensures below { IfSome result (λ magnitude. magnitude < cut_limit) }
{
    if down >= 30 {
        return Some(0);
    }
    let divisor = wide_ten_to(down);
    let cut = digits / divisor;
    if cut >= ten_to(CUT_DIGITS) as u128 {
        return None;
    }
    Some(cut as u64)
}

impl PartialEq for Decimal {
    ghost eq = { same_parts };

    ghost laws = { Prim.search (comparing, rules) depth 9 };

    /// Whether both are the same number.
    fn eq(&self, other: &Decimal) -> bool
        ensures parts { result ≡ same_parts self.now other.now }
        ensures value { IsTrue result ↔ SameValue self.now other.now }
    {
        self.parts() == other.parts()
    }
}

impl Eq for Decimal {
    ghost laws = { Prim.search (comparing, rules) depth 9 };
}
