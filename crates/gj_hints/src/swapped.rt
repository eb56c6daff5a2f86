//! A position whose latitude comes before its longitude, or whose numbers are no degrees.
ghost use Rattle.std.specs.Prelude.{◌≡◌, ◌≤◌, ◌-◌, length};
ghost use Rattle.std.specs.Char.{is_ascii_digit};
ghost use Rattle.std.specs.List.{prefix_len};
ghost use Rattle.gj_hints.specs.Swapped.{field, behind_field, is_plain, is_plain_byte, without_sign, digits_of, whole, degrees, are_swapped};
ghost use Rattle.gj_hints.specs.Swapped.{is_swapped, is_long, are_metres};

use crate::bytes::{until, until_len, without_white};

/// Whether the position that begins with these bytes is right once its first two numbers are swapped, and is out of range as
/// it is.
pub fn is_swapped(bytes: &[u8]) -> bool
    ensures { result ≡ is_swapped bytes.now }
{
    match bytes {
        [b'[', numbers @ ..] => are_swapped(field(numbers), field(behind_field(numbers))),
        _ => false,
    }
}

/// Whether one of the first two numbers of the position that begins with these bytes is a thousand or more.
pub fn are_metres(bytes: &[u8]) -> bool
    ensures { result ≡ are_metres bytes.now }
{
    match bytes {
        [b'[', numbers @ ..] => is_long(field(numbers)) || is_long(field(behind_field(numbers))),
        _ => false,
    }
}

/// Whether a number has more digits before its point than any degree.
fn is_long(field: &[u8]) -> bool
    ensures { result ≡ is_long field.now }
{
    is_plain(field) && digits(without_sign(without_white(field))).len() > 3
}

/// Whether the first number may be a latitude, and the second is none and may be a longitude.
fn are_swapped(first: &[u8], second: &[u8]) -> bool
    ensures { result ≡ are_swapped first.now second.now }
{
    is_plain(first)
        && is_plain(second)
        && degrees(first) < 90
        && 90 <= degrees(second)
        && degrees(second) < 180
}

/// The bytes up to the comma or the bracket after a number.
fn field(bytes: &[u8]) -> &[u8]
    ensures { result.now ≡ field bytes.now }
{
    until(bytes, b",]")
}

fn behind_field(bytes: &[u8]) -> &[u8]
    ensures { result.now ≡ behind_field bytes.now }
{
    match &bytes[until_len(bytes, b",]")..] {
        [_, rest @ ..] => rest,
        [] => &[],
    }
}

/// Whether a number is written without an exponent.
fn is_plain(field: &[u8]) -> bool
    ensures { result ≡ is_plain field.now }
{
    field.iter().all(|byte| is_plain_byte(*byte))
}

fn is_plain_byte(byte: u8) -> bool
    ensures { result ≡ is_plain_byte byte }
{
    byte.is_ascii_digit() || byte.is_ascii_whitespace() || byte == b'-' || byte == b'.'
}

/// The whole degrees of a number, without its sign.
fn degrees(field: &[u8]) -> u16
    ensures { result ≡ degrees field.now }
{
    whole(digits(without_sign(without_white(field))))
}

fn without_sign(number: &[u8]) -> &[u8]
    ensures { result.now ≡ without_sign number.now }
{
    match number {
        [b'-', rest @ ..] => rest,
        _ => number,
    }
}

/// The leading digits.
fn digits(bytes: &[u8]) -> &[u8]
    ensures { result.now ≡ digits_of bytes.now }
{
    &bytes[..digits_len(bytes)]
}

fn digits_len(bytes: &[u8]) -> usize
    ensures value { result ≡ prefix_len is_ascii_digit bytes.now }
    ensures within { result ≤ length bytes.now }
{
    for i in 0..bytes.len() {
        if !bytes[i].is_ascii_digit() {
            return i;
        }
    }
    bytes.len()
}

/// The number that one to three digits spell. For more digits or none, a number that is no degree.
fn whole(digits: &[u8]) -> u16
    ensures { result ≡ whole digits.now }
{
    match digits {
        [ones] => value(*ones),
        [tens, ones] => value(*tens) * 10 + value(*ones),
        [hundreds, tens, ones] => value(*hundreds) * 100 + value(*tens) * 10 + value(*ones),
        _ => 999,
    }
}

fn value(digit: u8) -> u16
    ensures { (result ≡ digit - 48) }
{
    u16::from(digit.saturating_sub(48))
}
