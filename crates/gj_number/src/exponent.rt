//! The exponent that a number is written with.
ghost use Rattle.std.specs.Prelude.{◌≡◌, ℕ, ◌+◌, ◌*◌, ◌<◌, ◌≤◌, min, pos, ◌-ℤ◌, length, take, All, fold};
ghost use Rattle.gj_number.specs.Bytes.{IsDigit};
ghost use Rattle.gj_number.specs.Internal.KeptParts.{limited_power};
ghost use Rattle.gj_number.specs.Value.{with_digit};

use crate::lanes::{digit_run, zero_run};

/// The largest magnitude of a held number's written exponent.
pub(crate) const EXPONENT_LIMIT: u16 = 1000;

/// The largest magnitude of a held number's power.
const POWER_LIMIT: u16 = 400;

/// A written exponent. Its magnitude stays at 1,001 once it is past 1,000.
#[derive(Clone, Copy)]
pub(crate) struct Exponent {
    pub(crate) magnitude: u16,
    pub(crate) negative: bool,
    ghost bounded: { magnitude ≤ 1001 },
}

impl Exponent {
    /// Takes the next digit.
    #[inline]
    pub(crate) fn push(&mut self, digit: u8)
        requires { digit < 10 }
        ensures magnitude { self.new.magnitude ≡ min (self.old.magnitude * 10 + digit) 1001 }
        ensures negative { self.new.negative ≡ self.old.negative }
    {
        self.magnitude = (self.magnitude * 10 + digit as u16).min(EXPONENT_LIMIT + 1);
    }

    /// The number of first digits of the piece that make no difference: the magnitude is past the limit, or it and they
    /// are zero.
    #[inline]
    pub(crate) fn pass_run(&self, piece: &[u8]) -> usize
        ensures length { result ≤ length piece.now }
        ensures digits { All IsDigit (take result piece.now) }
        ensures magnitude { (written : ℕ) → self.now.magnitude ≡ min written 1001
            → self.now.magnitude ≡ min (fold with_digit written (take result piece.now)) 1001 }
    {
        if self.magnitude > EXPONENT_LIMIT {
            digit_run(piece)
        } else if self.magnitude == 0 {
            zero_run(piece)
        } else {
            0
        }
    }
}

/// `up` less `down`, if a held number may have that power.
pub(crate) fn held_power(up: u16, down: u16) -> Option<i16>
    ensures { result ≡ limited_power (pos up -ℤ pos down) }
{
    if up >= down {
        let power = up - down;
        if power <= POWER_LIMIT {
            Some(power as i16)
        } else {
            None
        }
    } else {
        let power = down - up;
        if power <= POWER_LIMIT {
            Some(-(power as i16))
        } else {
            None
        }
    }
}
