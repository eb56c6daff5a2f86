//! The number that a piece starts with, and its decimal: an ordinary number, or one of up to thirty digits.
ghost use Rattle.std.specs.Prelude.{◌≡◌, ◌≢◌, ℕ, ◌+◌, ◌*◌, ◌%◌, ◌^◌, ◌<◌, ◌≤◌, length};
ghost use Rattle.gj_number.specs.Short.{StartsOrdinary, StartsWithNumber};
ghost use Rattle.gj_number.specs.Internal.DigitRuns.{StartsSigned};

use crate::decimal::Decimal;
use crate::lanes::{digits_prefix, numbers_of, pointed_prefix};
use crate::short::prefix::{leads, read_short, short_number};
use crate::short::{Short, without_zeros};
use crate::state::is_behind;
use crate::tens::ten_to;

/// The least length of a piece whose number is read where it stands.
const ROOM: usize = 40;

/// How many bytes the digits are in that are read first, with the point.
const AT_ONCE: usize = 16;

/// Reads the number that the piece starts with, where no number has the byte after it. It returns the number of its bytes, or 0
/// where none is found: then the content of `value` means nothing.
///
/// An ordinary number is found in each piece of at least 40 bytes that starts with one. Of others, 0 says nothing.
#[inline(always)]
pub fn read_decimal(piece: &[u8], value: &mut Decimal) -> usize
    ensures number { 0 < result → StartsWithNumber piece.now value.new result }
    ensures taken { 40 ≤ length piece.now → (n : ℕ) → StartsOrdinary piece.now n → 0 < result }
{
    if piece.len() < ROOM {
        return read_other(piece, value);
    }
    let negative = piece[0] == b'-';
    let mut number = Short::zero();
    let count = short_number(piece, negative, &mut number);
    if count > 0 {
        *value = number.decimal();
        return count;
    }
    if piece[0] > b'9' {
        return 0;
    }
    let count = long_number(piece, negative, value);
    if count > 0 {
        return count;
    }
    read_other(piece, value)
}

/// Reads an ordinary number in any style.
#[inline(never)]
fn read_other(piece: &[u8], value: &mut Decimal) -> usize
    ensures number { 0 < result → StartsWithNumber piece.now value.new result }
    ensures taken { 40 ≤ length piece.now → (n : ℕ) → StartsOrdinary piece.now n → 0 < result }
{
    let mut number = Short::zero();
    let count = read_short(piece, &mut number);
    if count > 0 {
        *value = number.decimal();
    }
    count
}

/// Reads the number that has one to three digits before its point, sixteen to thirty in all, and no exponent, where not
/// all from the sixteenth on are zeros.
#[inline(always)]
fn long_number(piece: &[u8], negative: bool, value: &mut Decimal) -> usize
    requires room { 40 ≤ length piece.now }
    requires sign { StartsSigned piece.now negative }
    ensures { 0 < result → StartsWithNumber piece.now value.new result }
{
    let first = negative as usize;
    let Some(pointed) = pointed_prefix(&piece[first..]) else {
        return 0;
    };
    if pointed.natural + 1 + pointed.fraction < AT_ONCE || !leads(piece[first], pointed.natural) {
        return 0;
    }
    let (more, digits) = digits_prefix(&piece[first + AT_ONCE..]);
    let end = first + AT_ONCE + more;
    if more == AT_ONCE || !is_behind(piece[end]) {
        return 0;
    }
    let (upper, lower) = numbers_of(pointed.digits, digits);
    if lower == 0 {
        return 0;
    }
    let (all, zeros) = joined_digits(upper, lower, more);
    let places = pointed.fraction + more - zeros;
    *value = Decimal::new(negative, all, -(places as i16));
    end
}

/// The first fifteen digits and as many more as `more` says, as one number without the zeros at its end, and how many
/// those are.
#[inline(always)]
fn joined_digits(upper: u64, lower: u64, more: usize) -> (u128, usize)
    requires upper { upper < 10 ^ 15 }
    requires lower { lower < 10 ^ more }
    requires some { 0 < lower }
    requires few { more ≤ 15 }
    ensures all { upper * 10 ^ more + lower ≡ result.0 * 10 ^ result.1 }
    ensures last { result.0 % 10 ≢ 0 }
    ensures below { result.0 < 10 ^ 30 }
    ensures zeros { result.1 < more }
{
    let (last, zeros) = without_zeros(lower);
    let count = more - zeros as usize;
    (
        upper as u128 * ten_to(count) as u128 + last as u128,
        zeros as usize,
    )
}
