//! A number that is longer, greater or nearer to zero than is read.
ghost use Rattle.std.specs.Prelude.{◌≡◌, take, drop};
ghost use Rattle.std.specs.List.{prefix_len};
ghost use Rattle.gj_hints.specs.Numbers.{number_hint, has_many_digits, behind_thirty, is_small, mantissa, exponent, significant, is_in_mantissa, is_idle};
ghost use Rattle.gj_hints.specs.Numbers.{has_value, is_value, has_point};

use crate::bytes::begins;
use crate::kind::Hint;

/// The reason why the number that the bytes begin with is not read.
pub fn number_hint(bytes: &[u8]) -> Hint
    ensures { result ≡ number_hint bytes.now }
{
    if has_many_digits(significant(mantissa(bytes))) {
        Hint::ManyDigits
    } else if is_small(mantissa(bytes), exponent(bytes)) {
        Hint::SmallNumber
    } else {
        Hint::LargeNumber
    }
}

/// Whether a digit other than 0 stands after the first thirty digits.
fn has_many_digits(digits: &[u8]) -> bool
    ensures { result ≡ has_many_digits digits.now }
{
    has_value(behind_thirty(digits))
}

/// What comes after thirty digits, among which there may be a point.
fn behind_thirty(digits: &[u8]) -> &[u8]
    ensures { result.now ≡ behind_thirty digits.now }
{
    if has_point(front(digits, 31)) {
        behind(digits, 31)
    } else {
        behind(digits, 30)
    }
}

fn has_value(digits: &[u8]) -> bool
    ensures { result ≡ has_value digits.now }
{
    digits.iter().any(|byte| is_value(*byte))
}

/// Whether it is a digit other than 0.
fn is_value(byte: u8) -> bool
    ensures { result ≡ is_value byte }
{
    b'1' <= byte && byte <= b'9'
}

fn has_point(digits: &[u8]) -> bool
    ensures { result ≡ has_point digits.now }
{
    digits.iter().any(|byte| *byte == b'.')
}

/// Whether the exponent is negative, or there is none and the number is below 1.
fn is_small(mantissa: &[u8], exponent: &[u8]) -> bool
    ensures { result ≡ is_small mantissa.now exponent.now }
{
    if begins(exponent, b"e") || begins(exponent, b"E") {
        begins(exponent, b"e-") || begins(exponent, b"E-")
    } else {
        begins(mantissa, b"0.") || begins(mantissa, b"-0.")
    }
}

/// The number up to its exponent.
fn mantissa(bytes: &[u8]) -> &[u8]
    ensures { result.now ≡ mantissa bytes.now }
{
    front(bytes, mantissa_len(bytes))
}

fn exponent(bytes: &[u8]) -> &[u8]
    ensures { result.now ≡ exponent bytes.now }
{
    behind(bytes, mantissa_len(bytes))
}

/// The digits from the first one other than 0 on.
fn significant(mantissa: &[u8]) -> &[u8]
    ensures { result.now ≡ significant mantissa.now }
{
    behind(mantissa, idle_len(mantissa))
}

fn mantissa_len(bytes: &[u8]) -> usize
    ensures { result ≡ prefix_len is_in_mantissa bytes.now }
{
    for i in 0..bytes.len() {
        if !is_in_mantissa(bytes[i]) {
            return i;
        }
    }
    bytes.len()
}

fn idle_len(bytes: &[u8]) -> usize
    ensures { result ≡ prefix_len is_idle bytes.now }
{
    for i in 0..bytes.len() {
        if !is_idle(bytes[i]) {
            return i;
        }
    }
    bytes.len()
}

fn is_in_mantissa(byte: u8) -> bool
    ensures { result ≡ is_in_mantissa byte }
{
    byte.is_ascii_digit() || byte == b'-' || byte == b'.'
}

/// Whether it is allowed before the first digit other than 0.
fn is_idle(byte: u8) -> bool
    ensures { result ≡ is_idle byte }
{
    byte == b'0' || byte == b'-' || byte == b'.'
}

fn front(bytes: &[u8], count: usize) -> &[u8]
    ensures { result.now ≡ take count bytes.now }
{
    match bytes.get(..count) {
        Some(front) => front,
        None => bytes,
    }
}

fn behind(bytes: &[u8], count: usize) -> &[u8]
    ensures { result.now ≡ drop count bytes.now }
{
    match bytes.get(count..) {
        Some(rest) => rest,
        None => &[],
    }
}
