//! What stands between the numbers of arrays that are written alike.

ghost use Rattle.std.specs.Prelude.{◌≡◌, ◌+◌, ◌*◌, ◌<◌, ◌≤◌, false, get_or, length, take, drop, IsTrue, IfSome};
ghost use Rattle.std.specs.List.{AllByRecursion};
ghost use Rattle.gj_json.specs.Bytes.{IsWhite, minus_sign};
ghost use Rattle.gj_json.specs.Internal.FlatParts.{cut};
ghost use Rattle.gj_json.specs.declared.lanes.TheConstants.{LANES};

use crate::flat::Flat;
use crate::flats::white_end;
use crate::lanes::{LANES, begins};
use std::simd::prelude::*;

/// The most bytes between two numbers.
const MOST: usize = 255;

/// Bytes that stand between two numbers.
#[derive(Clone, Copy)]
pub struct Separator<'a> {
    bytes: &'a [u8],
    /// The first sixteen of them, or they and others.
    word: [u8; LANES],
    ghost few: { length bytes.now ≤ 255 },
    ghost same: { length bytes.now ≤ LANES → take (length bytes.now) word ≡ bytes.now },
}

/// Whether these bytes stand at an index.
#[inline(never)]
fn has_many(piece: &[u8], at: usize, bytes: &[u8]) -> bool
    requires { at ≤ length piece.now }
    ensures { IsTrue result → cut piece.now at (at + length bytes.now) ≡ bytes.now }
{
    piece.len() - at >= bytes.len() && &piece[at..at + bytes.len()] == bytes
}

impl<'a> Separator<'a> {
    /// The bytes between two indices.
    #[inline(always)]
    fn between(piece: &'a [u8], from: usize, to: usize) -> Option<Separator<'a>>
        ensures order { IfSome result (λ separator. from ≤ to) }
        ensures within { IfSome result (λ separator. to ≤ length piece.now) }
        ensures bytes { IfSome result (λ separator. separator.bytes.now ≡ cut piece.now from to) }
    {
        if from > to || to > piece.len() || to - from > MOST || piece.len() - from < LANES {
            return None;
        }
        Some(Separator {
            bytes: &piece[from..to],
            word: u8x16::from_slice(&piece[from..]).to_array(),
        })
    }

    /// How many they are.
    #[inline(always)]
    pub fn count(&self) -> usize
        ensures { result ≡ length self.now.bytes.now }
    {
        self.bytes.len()
    }

    /// Whether they stand at an index. Where `FEW` says so, they are sixteen at most.
    #[inline(always)]
    pub fn stands<const FEW: bool>(&self, piece: &[u8], at: usize) -> bool
        requires room { at + LANES ≤ length piece.now }
        requires few { IsTrue FEW → length self.now.bytes.now ≤ LANES }
        ensures { IsTrue result → cut piece.now at (at + length self.now.bytes.now) ≡ self.now.bytes.now }
    {
        if !FEW && self.bytes.len() > LANES {
            return has_many(piece, at, self.bytes);
        }
        begins(&piece[at..], &self.word, self.bytes.len())
    }
}

/// A comma after a number, and what stands up to the first digit of the next.
#[derive(Clone, Copy)]
pub struct Inner<'a> {
    pub separator: Separator<'a>,
    /// Whether it ends with a minus sign.
    pub negative: bool,
}

/// What stands after the last number of an array, up to the first digit of the next array.
#[derive(Clone, Copy)]
pub struct Outer<'a> {
    pub separator: Separator<'a>,
    /// Its end, from the bracket of the next array on.
    pub head: &'a [u8],
    /// Whether it ends with a minus sign.
    pub negative: bool,
    /// How many bytes stand before the closing bracket.
    pub close: usize,
    /// How many stand before `head`.
    pub open: usize,
}

/// What stands between the numbers of an array and up to the first of the next.
#[derive(Clone, Copy)]
pub struct Separators<'a> {
    pub inner: Inner<'a>,
    /// Before the third number, where there is one.
    pub third: Option<Inner<'a>>,
    pub outer: Outer<'a>,
}

/// The index after white space at this one. Mostly there is none.
#[inline(always)]
fn after_white(piece: &[u8], at: usize) -> usize
    requires { at ≤ length piece.now }
    ensures on { at ≤ result }
    ensures within { result ≤ length piece.now }
    ensures white { AllByRecursion IsWhite (cut piece.now at result) }
{
    if at < piece.len() && piece[at] > b' ' {
        return at;
    }
    white_end(piece, at)
}

/// The index before the white space that stands before this one.
#[inline(always)]
fn before_white(piece: &[u8], at: u64) -> usize
    ensures { result ≤ length piece.now }
{
    let mut end = piece.len().min(at as usize);
    while end > 0 && piece[end - 1] <= b' ' && piece.len() >= LANES {
        let from = end.saturating_sub(LANES);
        let others = u8x16::from_slice(&piece[from..])
            .simd_gt(u8x16::splat(b' '))
            .to_bitmask();
        end = (end - 1).min(from + 64 - others.leading_zeros() as usize);
    }
    end
}

/// Whether a byte stands at an index.
#[inline(always)]
fn has_byte(piece: &[u8], at: usize, byte: u8) -> bool
    ensures within { IsTrue result → at < length piece.now }
    ensures there { IsTrue result → get_or piece.now at 0 ≡ byte }
{
    at < piece.len() && piece[at] == byte
}

impl<'a> Inner<'a> {
    ghost use Rattle.gj_json.specs.Internal.SpelledPositions.{IsInner};

    /// That before the number that is thought to stand at an index, with its minus sign if `signed` says so.
    #[inline(always)]
    fn before(piece: &'a [u8], at: u64, signed: bool) -> Option<Inner<'a>>
        ensures inner { IfSome result (λ inner. IsInner inner) }
        ensures unsigned { signed ≡ false → IfSome result (λ inner. inner.negative ≡ false) }
    {
        let comma = before_white(piece, at).wrapping_sub(1);
        if !has_byte(piece, comma, b',') {
            return None;
        }
        let number = after_white(piece, comma + 1);
        let negative = signed && has_byte(piece, number, b'-');
        let separator = Separator::between(piece, comma, number + negative as usize)?;
        Some(Inner {
            separator,
            negative,
        })
    }
}

impl<'a> Outer<'a> {
    ghost use Rattle.gj_json.specs.Internal.SpelledPositions.{IsOuter};

    /// That around the bracket that is thought to stand at an index, up to the number of an array that begins at `next`.
    #[inline(always)]
    fn around(piece: &'a [u8], at: u64, next: usize) -> Option<Outer<'a>>
        ensures outer { IfSome result (λ outer. IsOuter outer) }
        ensures next { IfSome result (λ outer. cut (drop next piece.now) 0 (length outer.head.now) ≡ outer.head.now) }
    {
        let last = before_white(piece, at);
        let close = after_white(piece, last);
        if !has_byte(piece, close, b']') || !has_byte(piece, close + 1, b',') {
            return None;
        }
        let open = after_white(piece, close + 2);
        if open != next || !has_byte(piece, open, b'[') {
            return None;
        }
        let number = after_white(piece, open + 1);
        let negative = has_byte(piece, number, b'-');
        let end = number + negative as usize;
        let separator = Separator::between(piece, last, end)?;
        Some(Outer {
            separator,
            head: &piece[open..end],
            negative,
            close: close - last,
            open: open - last,
        })
    }
}

impl<'a> Separators<'a> {
    ghost use Rattle.gj_json.specs.Internal.SpelledPositions.{gap_of, AreFew, AreSeparators, HasHead};

    /// Those of an array that was read from the start of a piece, and of the next, which begins at an index.
    #[inline(always)]
    pub fn of(piece: &'a [u8], flat: &Flat, next: usize) -> Option<Separators<'a>>
        ensures separators { IfSome result (λ separators. AreSeparators separators) }
        ensures next { IfSome result (λ separators. HasHead separators (drop next piece.now)) }
    {
        let inner = Inner::before(piece, flat.second.place - flat.place, true)?;
        let third = match &flat.third {
            None => None,
            Some(number) => Some(Inner::before(piece, number.place - flat.place, false)?),
        };
        let outer = Outer::around(piece, flat.close.wrapping_sub(flat.place), next)?;
        Some(Separators {
            inner,
            third,
            outer,
        })
    }

    /// Whether the arrays have two numbers, with sixteen bytes at most between them and up to the next array's.
    #[inline(always)]
    pub fn are_few(&self) -> bool
        ensures { IsTrue result → AreFew self.now }
    {
        self.third.is_none()
            && self.inner.separator.count() <= LANES
            && self.outer.separator.count() <= LANES
    }

    /// How many bytes of white space stand after a comma and before the next array.
    #[inline(always)]
    pub fn gap(&self) -> usize
        requires { AreSeparators self.now }
        ensures { result ≡ gap_of self.now }
    {
        self.outer.open - self.outer.close - 2
    }
}
