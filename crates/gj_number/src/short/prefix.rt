//! The ordinary number that a piece starts with, read at once.
//!
//! Nearly all are read as sixteen bytes in lanes ([`near_number`]). A longer one is
//! read by its runs of digits ([`long_number`]), so that each ordinary number is read. An exponent moves the point of
//! the digits before it, so a number with a small exponent is read as the ordinary number that it is equal to.
ghost use Rattle.std.specs.Prelude.{◌≡◌, ◌↔◌, ℕ, ◌+◌, ◌-◌, ◌*◌, ◌^◌, ◌<◌, ◌≤◌, ◌⊎◌, ◌∷◌, [], length, take, get_or, IfSome, IsTrue};
ghost use Rattle.gj_number.specs.Bytes.{zero_digit, IsDigit, IsFirstDigit, IsExponentLetter, IsNumberByte};
ghost use Rattle.gj_number.specs.Short.{exact_of, StartsWithNumber, StartsOrdinary};
ghost use Rattle.gj_number.specs.Internal.DigitRuns.{IsRun, SpellsOn, StartsSigned};
ghost use Rattle.gj_number.specs.Internal.MovedPoint.{SpellsPlain};
ghost use Rattle.gj_number.specs.Denotation.{SpellsExponentSign};

use super::Short;
use crate::lanes::{first_digits, unsigned_prefix};
use crate::state::{is_behind, may_stand};
use crate::tens::ten_to;

/// The most digits of an ordinary number.
const MOST_DIGITS: usize = 18;

/// How many digits are read at once.
const AT_ONCE: usize = 16;

/// The most digits of an exponent that are read.
const MOST_EXPONENT_DIGITS: usize = 3;

/// The least length of a piece, so that nothing is read past its end: a sign, the digits before the point, the point,
/// and as many bytes as the digits after it are read with.
pub(crate) const ROOM: usize = 40;

/// Digits that were read: how many, and the number that they spell after those before them.
#[derive(Clone, Copy)]
struct Spelled {
    value: u64,
    count: usize,
}

/// Reads the ordinary number that the piece starts with. It returns the number of its bytes, or 0 where none is found.
///
/// It is found in each piece of at least 40 bytes that starts with one, where no number contains the byte after it; in
/// a shorter piece it is read from a copy. A number with an exponent is found too where it is equal to an ordinary one,
/// and few digits write the exponent. Where it returns 0, the piece may start with another number, and the content of
/// `number` means nothing.
#[inline(always)]
pub fn read_short(piece: &[u8], number: &mut Short) -> usize
    ensures number { 0 < result → StartsWithNumber piece.now (exact_of number.new) result }
    ensures taken { 40 ≤ length piece.now → (n : ℕ) → StartsOrdinary piece.now n → 0 < result }
{
    if piece.len() < ROOM {
        return read_copied(piece, number);
    }
    read_there(piece, number)
}

/// Reads the number where it stands.
#[inline(always)]
fn read_there(piece: &[u8], number: &mut Short) -> usize
    requires room { 40 ≤ length piece.now }
    ensures number { 0 < result → StartsWithNumber piece.now (exact_of number.new) result }
    ensures taken { (n : ℕ) → StartsOrdinary piece.now n → 0 < result }
{
    let negative = piece[0] == b'-';
    let Some(end) = near_number(piece, negative, number) else {
        return other_number(piece, negative, number);
    };
    if is_behind(piece[end]) {
        return end;
    }
    with_exponent(piece, end, number)
}

/// Reads the number of a piece that is too short to be read where it stands, in a copy with room after it. That of a piece
/// that ends with the number is not known, since it may go on in the next one.
#[inline(never)]
fn read_copied(piece: &[u8], number: &mut Short) -> usize
    requires short { length piece.now < 40 }
    ensures number { 0 < result → StartsWithNumber piece.now (exact_of number.new) result }
{
    let mut copy = [0; ROOM];
    copy[..piece.len()].copy_from_slice(piece);
    let count = read_there(&copy, number);
    if count >= piece.len() {
        return 0;
    }
    count
}

/// Reads the number, where it has no exponent, stands among the sixteen bytes after its sign, and one of the usual bytes
/// stands after it.
#[inline(always)]
pub(crate) fn short_number(piece: &[u8], negative: bool, number: &mut Short) -> usize
    requires room { 40 ≤ length piece.now }
    requires sign { StartsSigned piece.now negative }
    ensures { 0 < result → StartsWithNumber piece.now (exact_of number.new) result }
{
    match near_number(piece, negative, number) {
        Some(end) if is_behind(piece[end]) => end,
        _ => 0,
    }
}

/// Reads the number up to its exponent, where that stands among the sixteen bytes after its sign. It returns the number of its bytes.
#[inline(always)]
fn near_number(piece: &[u8], negative: bool, number: &mut Short) -> Option<usize>
    requires room { 40 ≤ length piece.now }
    requires sign { StartsSigned piece.now negative }
    ensures few { IfSome result (λ end. (0 < end) × (end ≤ 16)) }
    ensures plain { IfSome result (λ end. SpellsPlain piece.now number.new.negative number.new.digits number.new.places end) }
    ensures taken { IfSome result (λ end. (n : ℕ) → StartsOrdinary piece.now n → IsNumberByte (get_or piece.now end 0) → ⊥) }
{
    let first = negative as usize;
    let found = unsigned_prefix(&piece[first..])?;
    if !leads(piece[first], found.natural) {
        return None;
    }
    number.digits = found.value;
    number.places = found.fraction as u8;
    number.negative = negative;
    Some(first + found.length)
}

/// Reads the number that is longer.
#[inline(never)]
fn other_number(piece: &[u8], negative: bool, number: &mut Short) -> usize
    requires room { 40 ≤ length piece.now }
    requires sign { StartsSigned piece.now negative }
    ensures number { 0 < result → StartsWithNumber piece.now (exact_of number.new) result }
    ensures taken { (n : ℕ) → StartsOrdinary piece.now n → 0 < result }
{
    let count = long_number(piece, negative, number);
    if count == 0 {
        return 0;
    }
    with_exponent(piece, count, number)
}

/// Reads the number up to its exponent, of any length.
#[inline(always)]
fn long_number(piece: &[u8], negative: bool, number: &mut Short) -> usize
    requires room { 40 ≤ length piece.now }
    requires sign { StartsSigned piece.now negative }
    ensures few { result ≤ 20 }
    ensures plain { 0 < result → SpellsPlain piece.now number.new.negative number.new.digits number.new.places result }
    ensures taken { (n : ℕ) → StartsOrdinary piece.now n → (0 < result) × (IsNumberByte (get_or piece.now result 0) → ⊥) }
{
    let first = negative as usize;
    let natural = first_run(&piece[first..], 0, MOST_DIGITS);
    if !is_natural(piece[first], natural.count) {
        return 0;
    }
    let end = first + natural.count;
    if piece[end] != b'.' {
        *number = Short {
            digits: natural.value,
            places: 0,
            negative,
        };
        return end;
    }
    let fraction = fraction_run(&piece[end + 1..], natural);
    if fraction.count == 0 {
        return 0;
    }
    *number = Short {
        digits: fraction.value,
        places: fraction.count as u8,
        negative,
    };
    end + 1 + fraction.count
}

/// Reads the exponent after a number that ends at `end`, and moves the number's point by it. It returns the number of
/// bytes of both, or 0 where eighteen digits cannot express the result, or another byte of a number follows.
#[inline(never)]
fn with_exponent(piece: &[u8], end: usize, number: &mut Short) -> usize
    requires room { end + 8 ≤ length piece.now }
    requires plain { SpellsPlain piece.now number.old.negative number.old.digits number.old.places end }
    ensures number { 0 < result → StartsWithNumber piece.now (exact_of number.new) result }
    ensures whole { (IsNumberByte (get_or piece.now end 0) → ⊥) → result ≡ end }
{
    if !is_letter(piece[end]) {
        return if may_stand(piece[end]) { 0 } else { end };
    }
    let sign = sign_of(piece[end + 1]);
    let first = end + 1 + sign.count;
    let written = first_run(&piece[first..], 0, MOST_EXPONENT_DIGITS);
    let last = first + written.count;
    if written.count == 0 || may_stand(piece[last]) {
        return 0;
    }
    let Some(moved) = number.moved(sign.negative, written.value) else {
        return 0;
    };
    *number = moved;
    last
}

/// The sign of an exponent: how many bytes it has, and whether it is a minus.
#[derive(Clone, Copy)]
struct Sign {
    count: usize,
    negative: bool,
}

/// The sign that this byte is.
#[inline(always)]
fn sign_of(byte: u8) -> Sign
    ensures few { result.count ≤ 1 }
    ensures sign { SpellsExponentSign result.negative (take result.count (byte ∷ [])) }
{
    match byte {
        b'-' => Sign {
            count: 1,
            negative: true,
        },
        b'+' => Sign {
            count: 1,
            negative: false,
        },
        _ => Sign {
            count: 0,
            negative: false,
        },
    }
}

/// Whether the byte begins an exponent.
#[inline(always)]
fn is_letter(byte: u8) -> bool
    ensures { IsTrue result ↔ IsExponentLetter byte }
{
    byte == b'e' || byte == b'E'
}

/// Whether `count` digits, of which this is the first, are allowed before a point: no digit follows a first zero.
#[inline(always)]
fn is_natural(first: u8, count: usize) -> bool
    ensures { IsTrue result ↔ ((0 < count) × (first ≡ zero_digit → count ≡ 1)) }
{
    count == 1 || count > 1 && first != b'0'
}

/// Whether this byte may be the first of `count` digits before a point, where `count` counts each of them.
#[inline(always)]
pub(crate) fn leads(first: u8, count: usize) -> bool
    ensures some { IsTrue result → count ≡ 0 → IsDigit first }
    ensures one { IsTrue result → first ≡ zero_digit → count ≡ 1 }
    ensures taken { (count ≡ 1) ⊎ IsFirstDigit first → IsTrue result }
{
    count == 1 || matches!(first, b'1'..=b'9')
}

/// The digits after the point, up to the first byte that is none, where there are not too many with those before it.
#[inline(always)]
fn fraction_run(piece: &[u8], natural: Spelled) -> Spelled
    requires within { 20 ≤ length piece.now }
    requires count { natural.count ≤ 18 }
    requires below { natural.value < 10 ^ natural.count }
    ensures spells { SpellsOn piece.now natural.value result.count result.value }
    ensures few { result.count ≤ 18 - natural.count }
    ensures small { result.value < 10 ^ 18 }
    ensures whole { (count : ℕ) → IsRun piece.now count → count ≤ 18 - natural.count → result.count ≡ count }
{
    let (count, value) = first_digits(piece);
    if count > MOST_DIGITS - natural.count {
        return Spelled {
            value: natural.value,
            count: 0,
        };
    }
    let both = natural.value * ten_to(count) + value;
    if count < AT_ONCE {
        return Spelled { value: both, count };
    }
    let rest = first_run(
        &piece[AT_ONCE..],
        both,
        MOST_DIGITS - AT_ONCE - natural.count,
    );
    Spelled {
        value: rest.value,
        count: AT_ONCE + rest.count,
    }
}

/// The digits that the piece starts with, up to the first byte that is none, and at most `most` of them.
#[inline(always)]
fn first_run(piece: &[u8], before: u64, most: usize) -> Spelled
    requires within { most ≤ length piece.now }
    requires room { (before + 1) * 10 ^ most ≤ 10 ^ 18 }
    ensures spells { SpellsOn piece.now before result.count result.value }
    ensures few { result.count ≤ most }
    ensures small { result.value < 10 ^ 18 }
    ensures whole { (count : ℕ) → IsRun piece.now count → count ≤ most → result.count ≡ count }
{
    let mut value = before;
    for count in 0..most {
        let digit = piece[count].wrapping_sub(b'0');
        if digit > 9 {
            return Spelled { value, count };
        }
        value = value * 10 + digit as u64;
    }
    Spelled { value, count: most }
}
