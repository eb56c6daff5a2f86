//! Characters of a string that are whole at the start of a piece (RFC 8259, section 7; RFC 3629, section 4).

ghost use Rattle.std.specs.Prelude.{◌≡◌, ◌≤◌, ◌<◌, ◌-◌, is_some, true, length, take, get_or};
ghost use Rattle.gj_json.specs.Bytes.{backslash};
ghost use Rattle.gj_json.specs.Characters.{escape_of, hex_of};
ghost use Rattle.gj_json.specs.Runs.{IsLongestUtf8, plain_run_of};
ghost use Rattle.gj_json.specs.Internal.WholeTokens.{IsCharacter, AreCharacters};

use crate::lanes::{Ascii, LANES, plain_run, run};
use crate::wide::{begins_wide, end_of_wide, is_tail};

/// How many bytes the character has that the piece starts with, in UTF-8 of several bytes, or 0.
#[inline(never)]
fn wide_character(piece: &[u8]) -> usize
    ensures within { result ≤ length piece.now }
    ensures several { 0 < result → 2 ≤ result }
    ensures last { 0 < result → get_or piece.now (result - 1) 0 ≤ 0xBF }
    ensures character { 0 < result → IsCharacter (take result piece.now) }
{
    if piece.len() < 4 {
        return 0;
    }
    let first = piece[0];
    let second = piece[1];
    if second < 0x80 || second > 0xBF || first < 0xC2 {
        return 0;
    }
    if first <= 0xDF {
        return 2;
    }
    if piece[2] < 0x80 || piece[2] > 0xBF {
        return 0;
    }
    if first <= 0xEF {
        return if first == 0xE0 {
            if second >= 0xA0 { 3 } else { 0 }
        } else if first == 0xED {
            if second <= 0x9F { 3 } else { 0 }
        } else {
            3
        };
    }
    if piece[3] < 0x80 || piece[3] > 0xBF || first > 0xF4 {
        return 0;
    }
    if first == 0xF0 {
        if second >= 0x90 { 4 } else { 0 }
    } else if first == 0xF4 {
        if second <= 0x8F { 4 } else { 0 }
    } else {
        4
    }
}

/// What a byte may be in an escape: 1 for a hexadecimal digit, 2 for what makes an escape of two bytes, 3 for both.
static IN_ESCAPES: [u8; 256] = [
    0, 0, 0, 0, 0, 0, 0, 0, 0, 0, 0, 0, 0, 0, 0, 0, 0, 0, 0, 0, 0, 0, 0, 0, 0, 0, 0, 0, 0, 0, 0, 0,
    0, 0, 2, 0, 0, 0, 0, 0, 0, 0, 0, 0, 0, 0, 0, 2, 1, 1, 1, 1, 1, 1, 1, 1, 1, 1, 0, 0, 0, 0, 0, 0,
    0, 1, 1, 1, 1, 1, 1, 0, 0, 0, 0, 0, 0, 0, 0, 0, 0, 0, 0, 0, 0, 0, 0, 0, 0, 0, 0, 0, 2, 0, 0, 0,
    0, 1, 3, 1, 1, 1, 3, 0, 0, 0, 0, 0, 0, 0, 2, 0, 0, 0, 2, 0, 2, 0, 0, 0, 0, 0, 0, 0, 0, 0, 0, 0,
    0, 0, 0, 0, 0, 0, 0, 0, 0, 0, 0, 0, 0, 0, 0, 0, 0, 0, 0, 0, 0, 0, 0, 0, 0, 0, 0, 0, 0, 0, 0, 0,
    0, 0, 0, 0, 0, 0, 0, 0, 0, 0, 0, 0, 0, 0, 0, 0, 0, 0, 0, 0, 0, 0, 0, 0, 0, 0, 0, 0, 0, 0, 0, 0,
    0, 0, 0, 0, 0, 0, 0, 0, 0, 0, 0, 0, 0, 0, 0, 0, 0, 0, 0, 0, 0, 0, 0, 0, 0, 0, 0, 0, 0, 0, 0, 0,
    0, 0, 0, 0, 0, 0, 0, 0, 0, 0, 0, 0, 0, 0, 0, 0, 0, 0, 0, 0, 0, 0, 0, 0, 0, 0, 0, 0, 0, 0, 0, 0,
];

#[inline(always)]
fn is_hexadecimal(byte: u8) -> bool
    ensures { result ≡ is_some (hex_of byte) }
{
    IN_ESCAPES[byte as usize] % 2 == 1
}

/// Whether these are hexadecimal digits: all are looked at together, since mostly they are.
#[inline(always)]
fn are_hexadecimal(first: u8, second: u8, third: u8, fourth: u8) -> bool
    ensures first { result ≡ true → is_some (hex_of first) ≡ true }
    ensures second { result ≡ true → is_some (hex_of second) ≡ true }
    ensures third { result ≡ true → is_some (hex_of third) ≡ true }
    ensures fourth { result ≡ true → is_some (hex_of fourth) ≡ true }
{
    is_hexadecimal(first) & is_hexadecimal(second) & is_hexadecimal(third) & is_hexadecimal(fourth)
}

/// Whether the byte after a backslash makes an escape of two bytes.
#[inline(always)]
fn is_short(byte: u8) -> bool
    ensures { result ≡ is_some (escape_of byte) }
{
    IN_ESCAPES[byte as usize] >= 2
}

/// How many bytes the escape has that the piece starts with, or 0.
#[inline(always)]
fn escape(piece: &[u8]) -> usize
    requires some { 6 ≤ length piece.now }
    requires begins { get_or piece.now 0 0 ≡ backslash }
    ensures within { result ≤ length piece.now }
    ensures character { 0 < result → IsCharacter (take result piece.now) }
{
    if piece[1] != b'u' {
        return if is_short(piece[1]) { 2 } else { 0 };
    }
    if are_hexadecimal(piece[2], piece[3], piece[4], piece[5]) {
        6
    } else {
        0
    }
}

/// How many bytes the escapes have that the piece starts with, as long as six bytes are left of it.
#[inline(always)]
fn escapes_run(piece: &[u8]) -> usize
    ensures within { result ≤ length piece.now }
    ensures characters { AreCharacters (take result piece.now) }
{
    if piece.len() < 6 {
        return 0;
    }
    let last = piece.len() - 6;
    let mut at = 0;
    while at <= last && piece[at] == b'\\' {
        let count = escape(&piece[at..]);
        if count == 0 {
            return at;
        }
        at += count;
    }
    at
}

/// How many bytes the characters have that are whole at the start of the piece, unescaped, the first of several bytes. A
/// last one that the piece ends soon after may be left out.
#[inline(always)]
fn wide_run(piece: &[u8]) -> usize
    ensures within { result ≤ length piece.now }
    ensures characters { AreCharacters (take result piece.now) }
{
    if piece.len() <= LANES + 1 || !begins_wide(piece) {
        return wide_character(piece);
    }
    let end = end_of_wide(piece);
    if !is_tail(piece[end]) {
        end
    } else if !is_tail(piece[end - 1]) {
        end - 1
    } else {
        end - 2
    }
}

/// How many bytes the whole characters have that stand at the start of the piece, each unescaped.
pub fn whole_characters(piece: &[u8]) -> usize
    ensures { IsLongestUtf8 (take (plain_run_of piece.now) piece.now) result }
{
    let count = plain_run(piece);
    match simdutf8::compat::from_utf8(&piece[..count]) {
        Ok(_) => count,
        Err(fault) => fault.valid_up_to(),
    }
}

/// How many bytes are looked at together with the end of the run, before the rest of it is left to `simdutf8`.
const NEAR: usize = 256;

/// How many of them may be left out at the end, where the run goes on.
const LEFT_OUT: usize = 18;

/// As `wide_run`, of the first `NEAR` bytes.
#[inline(always)]
fn near_run(piece: &[u8]) -> usize
    requires { 256 < length piece.now }
    ensures within { result ≤ length piece.now }
    ensures characters { AreCharacters (take result piece.now) }
{
    wide_run(&piece[..NEAR])
}

/// As `wide_run`, of a run of any length. `simdutf8` checks a long one from its 240th byte on or so, and from the second of two
/// characters in a row of which that has four bytes. It asks for a pass that says where the run ends, which costs more than a
/// short run by itself.
#[inline(always)]
fn unescaped_run(piece: &[u8]) -> usize
    ensures within { result ≤ length piece.now }
    ensures characters { AreCharacters (take result piece.now) }
{
    if piece.len() <= NEAR {
        return wide_run(piece);
    }
    let near = near_run(piece);
    if near + LEFT_OUT < NEAR && piece[near] < 0xF0 {
        return near;
    }
    near + whole_characters(&piece[near..])
}

/// How many bytes some characters have that are whole at the start of the piece, or 0.
#[inline(always)]
fn some_characters(piece: &[u8]) -> usize
    requires some { 0 < length piece.now }
    ensures within { result ≤ length piece.now }
    ensures characters { AreCharacters (take result piece.now) }
{
    if piece[0] == b'\\' {
        let escaped = escapes_run(piece);
        escaped + run::<Ascii>(&piece[escaped..])
    } else if piece[0] == b'"' {
        0
    } else if piece[0] < 0x80 {
        run::<Ascii>(piece)
    } else {
        unescaped_run(piece)
    }
}

/// How many bytes the characters have that are whole at the start of the piece. A last one that the piece ends soon after may
/// be left out.
#[inline(never)]
pub fn characters_run(piece: &[u8]) -> usize
    ensures within { result ≤ length piece.now }
    ensures characters { AreCharacters (take result piece.now) }
{
    let mut at = 0;
    while at < piece.len() {
        let count = some_characters(&piece[at..]);
        if count == 0 {
            return at;
        }
        at += count;
    }
    at
}
