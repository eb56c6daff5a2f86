//! How many bytes a number has, where its value does not matter.

ghost use Rattle.std.specs.Prelude.{◌≡◌, ℕ, ◌<◌, ◌≤◌, length, take};
ghost use Rattle.gj_number.specs.Grammar.{IsNumber};
ghost use Rattle.gj_number.specs.Short.{IsWhole, StartsUnsigned};

use super::Short;
use super::prefix::{ROOM, leads, short_number};
use crate::lanes::unsigned_prefix;
use crate::state::{Class, State};

/// How many bytes a number at the start of the piece has, up to its exponent, where it has no sign and these are fewer than
/// sixteen; or 0.
#[inline(always)]
pub fn unsigned_run(piece: &[u8]) -> usize
    requires room { 17 ≤ length piece.now }
    ensures few { result < 16 }
    ensures number { 0 < result → IsNumber (take result piece.now) }
    ensures taken { (n : ℕ) → n < 16 → StartsUnsigned piece.now n → result ≡ n }
{
    match unsigned_prefix(piece) {
        Some(found) if leads(piece[0], found.natural) => found.length,
        _ => 0,
    }
}

/// How many bytes the number has that the piece starts with, or 0 where no number that is whole with a byte after it stands there.
#[inline(always)]
pub fn number_run(piece: &[u8]) -> usize
    ensures number { 0 < result → IsWhole piece.now result }
    ensures taken { (n : ℕ) → IsWhole piece.now n → 0 < result }
{
    if piece.len() >= ROOM {
        let mut number = Short::zero();
        let count = short_number(piece, piece[0] == b'-', &mut number);
        if count > 0 {
            return count;
        }
    }
    any_run(piece)
}

/// As `number_run`, of a number in any style.
#[inline(never)]
fn any_run(piece: &[u8]) -> usize
    ensures number { 0 < result → IsWhole piece.now result }
    ensures taken { (n : ℕ) → IsWhole piece.now n → 0 < result }
{
    let mut state = State::Start;
    let mut at = 0;
    while at < piece.len() {
        match state.next(Class::of(piece[at])) {
            Some(next) => state = next,
            None => return if state.may_end() { at } else { 0 },
        }
        at += 1;
        at += state.pass_digits(&piece[at..]);
    }
    0
}
