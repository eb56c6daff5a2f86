//! The digits that are kept of a number.
ghost use Rattle.std.specs.Prelude.{◌≡◌, ◌≢◌, ℕ, ◌+◌, ◌-◌, ◌*◌, ◌^◌, ◌<◌, ◌≤◌, min, pos, ◌+ℤ◌, ◌-ℤ◌};
ghost use Rattle.gj_number.specs.Exact.{signed};
ghost use Rattle.std.specs.Prelude.{length, take, fold, All};
ghost use Rattle.gj_number.specs.Bytes.{IsDigit};
ghost use Rattle.gj_number.specs.Internal.KeptParts.{limited_power, last_digit};
ghost use Rattle.gj_number.specs.Value.{held_value, with_digit};

use crate::decimal::Decimal;
use crate::exponent::{EXPONENT_LIMIT, Exponent, held_power};
use crate::lanes::{digit_run, zero_run};
use crate::tens::wide_ten_to;

/// How many digits are kept.
pub(crate) const MOST_DIGITS: u8 = 30;

/// The count of digits where the number is not held, whatever exponent of a magnitude of at most
/// 1,000 and whatever digits follow.
const FAR: u8 = 31;

/// The most digits after the point that are counted, and the most zeros before it. A number whose last digit other than
/// zero stands further off is not held, since an exponent moves it by at most 1,000 places and the power of a held
/// number is from -400 to 400.
const MOST_PLACES: u16 = 1400;

/// The digits of a number up to the last that is no zero, without leading zeros.
#[derive(Clone, Copy)]
pub(crate) struct Digits {
    /// These digits as one number.
    all: u128,
    /// The number of zeros after the kept digits.
    pending: u16,
    /// The number of digits after the point.
    places: u16,
    /// How many digits are kept, or [`FAR`].
    count: u8,
    ghost bounded: { all < 10 ^ count },
    ghost count_bounded: { count ≤ 31 },
    ghost places_bounded: { places ≤ 1400 },
    ghost pending_bounded: { pending ≤ 1400 + places },
    ghost stripped: { 0 < last_digit all count },
}

impl Digits {
    ghost use Rattle.gj_number.specs.Internal.KeptDigits.{Keeps, AddsDigit};

    /// No digit.
    pub(crate) fn new() -> Digits
        ensures { Keeps result 0 0 }
    {
        Digits {
            all: 0,
            pending: 0,
            places: 0,
            count: 0,
        }
    }

    /// Takes a digit before the point.
    #[inline]
    pub(crate) fn push_natural(&mut self, digit: u8)
        requires { digit < 10 }
        ensures { (whole : ℕ) → Keeps self.old whole 0 → Keeps self.new (whole * 10 + digit) 0 }
    {
        if digit != 0 {
            self.keep(digit);
        } else if self.count > 0 {
            self.add_zero();
        }
    }

    /// Takes a zero that stands before the point and after a digit that is not zero.
    #[inline]
    fn add_zero(&mut self)
        requires { self.old.count ≢ 0 }
        ensures { (whole : ℕ) → Keeps self.old whole 0 → Keeps self.new (whole * 10 + 0) 0 }
    {
        if self.pending < MOST_PLACES {
            self.pending += 1;
        } else {
            self.mark_far();
        }
    }

    /// Takes a digit after the point.
    #[inline]
    pub(crate) fn push_fraction(&mut self, digit: u8)
        requires { digit < 10 }
        ensures { (whole fraction : ℕ) → Keeps self.old whole fraction → Keeps self.new (whole * 10 + digit) (fraction + 1) }
    {
        if self.places < MOST_PLACES {
            self.places += 1;
            if digit != 0 {
                self.keep(digit);
            } else if self.count != 0 {
                self.pending += 1;
            }
        } else if digit != 0 {
            self.mark_far();
        }
    }

    /// Keeps only that the number is not held.
    #[inline]
    fn mark_far(&mut self)
        ensures far { self.new.count ≡ 31 }
        ensures places { self.new.places ≡ self.old.places }
    {
        self.count = FAR;
    }

    /// Keeps a digit that is no zero, and the zeros before it.
    #[inline]
    fn keep(&mut self, digit: u8)
        requires digit { digit < 10 }
        requires nonzero { digit ≢ 0 }
        ensures kept { AddsDigit self.old self.new digit }
        ensures places { self.new.places ≡ self.old.places }
    {
        let count = self.count as usize + self.pending as usize + 1;
        if count > MOST_DIGITS as usize {
            self.mark_far();
            return;
        }
        *self = Digits {
            all: self.all * wide_ten_to(self.pending as usize + 1) + digit as u128,
            pending: 0,
            places: self.places,
            count: count as u8,
        };
    }

    /// The number of first digits of the piece that change nothing before the point, since the number is not held whatever
    /// follows.
    #[inline]
    pub(crate) fn pass_natural(&self, piece: &[u8]) -> usize
        ensures length { result ≤ length piece.now }
        ensures digits { All IsDigit (take result piece.now) }
        ensures keeps { (whole : ℕ) → Keeps self.now whole 0 → Keeps self.now (fold with_digit whole (take result piece.now)) 0 }
    {
        if self.count == FAR {
            digit_run(piece)
        } else {
            0
        }
    }

    /// The number of first digits of the piece that change nothing after the point: all where the number is not held whatever
    /// follows, and zeros past the places that are counted.
    #[inline]
    pub(crate) fn pass_fraction(&self, piece: &[u8]) -> usize
        ensures length { result ≤ length piece.now }
        ensures digits { All IsDigit (take result piece.now) }
        ensures keeps { (whole fraction : ℕ) → Keeps self.now whole fraction
            → Keeps self.now (fold with_digit whole (take result piece.now)) (fraction + result) }
    {
        if self.count == FAR {
            digit_run(piece)
        } else if self.places == MOST_PLACES {
            zero_run(piece)
        } else {
            0
        }
    }

    /// The decimal of these digits, with this sign and this exponent, where it is held.
    pub(crate) fn decimal(&self, negative: bool, exponent: Exponent) -> Option<Decimal>
        ensures { (most whole fraction written : ℕ) → Keeps self.now whole fraction → whole < 10 ^ most → exponent.magnitude ≡ min written 1001
            → result ≡ held_value negative most whole fraction (signed exponent.negative written) }
    {
        if self.count == 0 {
            return Some(Decimal::zero());
        }
        if self.count > MOST_DIGITS || exponent.magnitude > EXPONENT_LIMIT {
            return None;
        }
        match self.power(exponent) {
            Some(power) => Some(Decimal::new(negative, self.all, power)),
            None => None,
        }
    }

    /// The power of ten of the last kept digit under this exponent, if a held number may have it.
    fn power(&self, exponent: Exponent) -> Option<i16>
        ensures { result ≡ limited_power (signed exponent.negative exponent.magnitude -ℤ pos self.now.places +ℤ pos self.now.pending) }
    {
        let magnitude = exponent.magnitude;
        if exponent.negative {
            held_power(self.pending, self.places + magnitude)
        } else {
            held_power(self.pending + magnitude, self.places)
        }
    }
}
