//! Numbers of up to three digits before the point, read as their cut values alone, two at a time.
ghost use mir.Val.{bool_byte};
ghost use Rattle.std.specs.Prelude.{◌≡◌, ◌↔◌, ◌+◌, ◌<◌, ◌≤◌, ℕ, true, get_or, length, map, take, drop, IsTrue, IfSome};
ghost use Rattle.std.specs.Int.Count.{count_trailing_zeros};
ghost use Rattle.std.specs.Option.{IsSome};
ghost use Rattle.gj_number.specs.Bytes.{zero_digit, IsNumberByte};
ghost use Rattle.gj_number.specs.Cuts.{HasCut, IsSpan, StartsWithDigits};
ghost use Rattle.gj_number.specs.Internal.DigitLanes.{lane_of, leading};
ghost use Rattle.gj_number.specs.Internal.DigitRuns.{StartsSigned};

use super::cut_lanes::{cuts_of, placed_digits, rests_of};
use crate::decimal::with_sign;
use crate::lanes::{from_ten, lanes_of, leading_digits};

/// A number as its value times 10^7, cut toward zero, and whether more than seven digits after its point say something.
#[derive(Clone, Copy, Default)]
pub struct Cut {
    pub value: i64,
    pub precise: bool,
}

/// Where the digits of a number stand: the index of the first, how many stand before the point and how many after it, and the index
/// of the byte after the last. Those of an integer are counted as if they stood after a point.
#[derive(Clone, Copy)]
pub struct Span {
    first: usize,
    natural: usize,
    fraction: usize,
    end: usize,
}

impl Span {
    /// The index of the byte after the last digit.
    #[inline(always)]
    pub fn end(&self) -> usize
        ensures { result ≡ self.now.end }
    {
        self.end
    }
}

/// Whether so many digits may begin with this byte: a zero is alone (RFC 8259, section 6).
#[inline(always)]
fn may_lead(byte: u8, count: usize) -> bool
    ensures { IsTrue result ↔ (byte ≡ zero_digit → count ≡ 1) }
{
    byte != b'0' || count == 1
}

/// How many digits stand at an index, at most sixteen, where these bits are of the bytes from there on that are none, as far as they
/// were looked at.
#[inline(always)]
fn digits_after(piece: &[u8], at: usize, others: u64) -> usize
    requires { at + 16 ≤ length piece.now }
    ensures near { (others ≡ 0 → ⊥) → result ≡ count_trailing_zeros 64 others }
    ensures far { others ≡ 0 → result ≡ leading (map lane_of (take 16 (drop at piece.now))) }
{
    if others != 0 {
        return others.trailing_zeros() as usize;
    }
    leading_digits(lanes_of(&piece[at..]))
}

/// The number without a sign whose first digit stands at an index, where one to three digits stand before its point and fifteen at
/// most after it, or where it is an integer of up to three.
#[inline(always)]
pub fn digit_span(piece: &[u8], first: usize) -> Option<Span>
    requires { first + 32 ≤ length piece.now }
    ensures first { IfSome result (λ span. span.first ≡ first) }
    ensures span { IfSome result (λ span. IsSpan piece.now span) }
    ensures taken { (natural fraction : ℕ) → StartsWithDigits (drop first piece.now) natural fraction → natural ≤ 3 → fraction ≤ 15 → 0 < natural → IsSome result }
{
    let others = from_ten(lanes_of(&piece[first..]));
    let natural = others.trailing_zeros() as usize;
    if natural == 0 || natural > 3 || !may_lead(piece[first], natural) {
        return None;
    }
    let point = first + natural;
    if piece[point] != b'.' {
        return Some(Span {
            first,
            natural,
            fraction: 0,
            end: point,
        });
    }
    let fraction = digits_after(piece, point + 1, others >> (natural + 1));
    if fraction == 0 || fraction > 15 {
        return None;
    }
    Some(Span {
        first,
        natural,
        fraction,
        end: point + 1 + fraction,
    })
}

/// Whether digits of a number that are in no lane say nothing more.
#[inline(always)]
fn is_judged(fraction: usize, precise: bool) -> bool
    ensures judged { IsTrue result → 12 < fraction → precise ≡ true }
    ensures taken { fraction ≤ 12 → IsTrue result }
{
    fraction <= 12 || precise
}

/// The cut values of two numbers of a piece, each with a minus sign before its digits where it is negative. `None` says that digits
/// after the twelfth after a point may say more: it is never returned where none stands there.
#[inline(always)]
pub fn cuts_at(
    piece: &[u8],
    negative: bool,
    one: Span,
    other_negative: bool,
    other: Span,
) -> Option<(Cut, Cut)>
    requires one { IsSpan piece.now one }
    requires other { IsSpan piece.now other }
    ensures first { IfSome result (λ cuts. (at : ℕ) → StartsSigned (drop at piece.now) negative → one.first ≡ at + bool_byte negative
        → (IsNumberByte (get_or piece.now one.end 0) → ⊥) → HasCut piece.now at one.end cuts.0) }
    ensures second { IfSome result (λ cuts. (at : ℕ) → StartsSigned (drop at piece.now) other_negative → other.first ≡ at + bool_byte other_negative
        → (IsNumberByte (get_or piece.now other.end 0) → ⊥) → HasCut piece.now at other.end cuts.1) }
    ensures taken { one.fraction ≤ 12 → other.fraction ≤ 12 → IsSome result }
{
    let first = placed_digits(&piece[one.first..], one.natural, one.fraction);
    let second = placed_digits(&piece[other.first..], other.natural, other.fraction);
    let (value, other_value) = cuts_of(first, second);
    let (precise, other_precise) = rests_of(first, second);
    if one.fraction > 12 || other.fraction > 12 {
        if !is_judged(one.fraction, precise) || !is_judged(other.fraction, other_precise) {
            return None;
        }
    }
    let first = Cut {
        value: with_sign(negative, value),
        precise,
    };
    let second = Cut {
        value: with_sign(other_negative, other_value),
        precise: other_precise,
    };
    Some((first, second))
}
