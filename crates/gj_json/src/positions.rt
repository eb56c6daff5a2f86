//! Reads positions as their cut values, where the same bytes stand between their numbers as between those of the array before.

ghost use Rattle.std.specs.Prelude.{◌≡◌, ◌+◌, ◌-◌, ◌^◌, ◌≤◌, false, length, take, drop, IfSome, IsTrue};
ghost use Rattle.std.specs.Option.{option_map_or};
ghost use Rattle.gj_json.specs.Internal.SpelledPositions.{gap_of, room_of, AreFew, AreSeparators, EndsAt, HasHead, IsInner, SpellsPosition, SpellsPositions, place_after_all};
ghost use Rattle.gj_json.specs.declared.lanes.TheConstants.{LANES};

use crate::cut_position::CutPosition;
use crate::separators::{Inner, Separators};
use gj_number::{Short, cuts_at, digit_span, read_short};

/// How many positions are read at once, at the most.
pub const MOST_POSITIONS: usize = 24;

/// How many bytes a third number has at the most that is read.
const MOST_BYTES_OF_THIRD: usize = 32;

/// How many places a third number has at the most that is read.
const MOST_PLACES_OF_THIRD: u8 = 7;

/// How long a piece must be at the least for its position to be read, not counting what stands between its numbers.
const ROOM: usize = 160;

/// How long a piece must be at the least for its position to be read.
#[inline(always)]
fn room_of(separators: &Separators<'_>) -> usize
    ensures { result ≡ room_of separators.now }
{
    let third = match &separators.third {
        None => 0,
        Some(third) => third.separator.count(),
    };
    ROOM + separators.outer.head.len()
        + separators.inner.separator.count()
        + third
        + separators.outer.separator.count()
}

/// The index after the third number, where this stands between it and the second, which ends at an index.
#[inline(always)]
fn third_end(piece: &[u8], at: usize, third: &Inner<'_>) -> Option<usize>
    requires separator { IsInner third.now }
    requires unsigned { third.now.negative ≡ false }
    requires room { at + LANES ≤ length piece.now }
    ensures near { IfSome result (λ last. last ≤ at + length third.now.separator.bytes.now + 32) }
    ensures ends { IfSome result (λ last. EndsAt piece.now at last) }
{
    if !third.separator.stands::<false>(piece, at) {
        return None;
    }
    let first = at + third.separator.count();
    let mut number = Short::zero();
    let count = read_short(&piece[first..], &mut number);
    if count == 0 || count > MOST_BYTES_OF_THIRD || number.places > MOST_PLACES_OF_THIRD {
        return None;
    }
    Some(first + count)
}

/// The index after the last number of an array, of which the second ends at an index. Where `FEW` says so, the second is the last.
#[inline(always)]
fn last_end<const FEW: bool>(piece: &[u8], at: usize, third: &Option<Inner<'_>>) -> Option<usize>
    requires separator { IfSome third.now (λ third. IsInner third × (third.negative ≡ false)) }
    requires room { at + LANES ≤ length piece.now }
    ensures near { IfSome result (λ last. last ≤ at + option_map_or (λ third. length third.separator.bytes.now) third.now 0 + 32) }
    ensures ends { IfSome result (λ last. EndsAt piece.now at last) }
{
    match third {
        Some(third) if !FEW => third_end(piece, at, third),
        _ => Some(at),
    }
}

/// The position that the piece starts with, where its array has these separators, and a comma and another array follow. The piece
/// begins at the place `start`, with a bracket and what stands up to the first digit.
#[inline(always)]
fn read_position<const FEW: bool>(
    piece: &[u8],
    separators: &Separators<'_>,
    start: u64,
) -> Option<CutPosition>
    requires separators { AreSeparators separators.now }
    requires few { IsTrue FEW → AreFew separators.now }
    requires head { HasHead separators.now piece.now }
    requires small { start + length piece.now ≤ 2 ^ 60 }
    ensures spelled { IfSome result (λ position. SpellsPosition (gap_of separators.now) position start piece.now) }
    ensures next { IfSome result (λ position. HasHead separators.now (drop (position.close_at + 2 + gap_of separators.now) piece.now)) }
{
    if piece.len() < room_of(separators) {
        return None;
    }
    let (inner, outer) = (&separators.inner, &separators.outer);
    let first = outer.head.len();
    let one = digit_span(piece, first)?;
    if !inner.separator.stands::<FEW>(piece, one.end()) {
        return None;
    }
    let second = one.end() + inner.separator.count();
    let other = digit_span(piece, second)?;
    let last = last_end::<FEW>(piece, other.end(), &separators.third)?;
    if !outer.separator.stands::<FEW>(piece, last) {
        return None;
    }
    let (one, two) = cuts_at(piece, outer.negative, one, inner.negative, other)?;
    Some(CutPosition {
        first: one.value,
        second: two.value,
        place: start,
        first_at: (first - outer.negative as usize) as u16,
        second_at: (second - inner.negative as usize) as u16,
        close_at: (last + outer.close) as u16,
        first_precise: one.precise,
        second_precise: two.precise,
    })
}

/// As `read_positions`. Where `FEW` says so, an array has two numbers and few bytes between them.
#[inline(never)]
fn read_in_loop<const FEW: bool>(
    piece: &[u8],
    separators: &Separators<'_>,
    start: u64,
    positions: &mut [CutPosition; MOST_POSITIONS],
) -> usize
    requires separators { AreSeparators separators.now }
    requires few { IsTrue FEW → AreFew separators.now }
    requires head { HasHead separators.now piece.now }
    requires small { start + length piece.now ≤ 2 ^ 60 }
    ensures few { result ≤ 24 }
    ensures spelled { SpellsPositions (gap_of separators.now) (take result positions.new) start piece.now }
    ensures next { HasHead separators.now (drop (place_after_all (gap_of separators.now) (take result positions.new) start - start) piece.now) }
{
    // A copy is not written over by what the loop writes, so the loop keeps it in registers.
    let separators = *separators;
    let end = start + piece.len() as u64;
    let mut count = 0;
    let mut rest = piece;
    while count < MOST_POSITIONS {
        let place = end - rest.len() as u64;
        let Some(position) = read_position::<FEW>(rest, &separators, place) else {
            return count;
        };
        rest = &rest[position.close_at as usize + 2 + separators.gap()..];
        positions[count] = position;
        count += 1;
    }
    count
}

/// Writes to `positions` those that the piece starts with whose arrays have these separators, each with a comma and another array
/// after it, as far as there is room, and returns how many.
#[inline(always)]
pub fn read_positions(
    piece: &[u8],
    separators: &Separators<'_>,
    start: u64,
    positions: &mut [CutPosition; MOST_POSITIONS],
) -> usize
    requires separators { AreSeparators separators.now }
    requires head { HasHead separators.now piece.now }
    requires small { start + length piece.now ≤ 2 ^ 60 }
    ensures few { result ≤ 24 }
    ensures spelled { SpellsPositions (gap_of separators.now) (take result positions.new) start piece.now }
    ensures next { HasHead separators.now (drop (place_after_all (gap_of separators.now) (take result positions.new) start - start) piece.now) }
{
    if separators.are_few() {
        return read_in_loop::<true>(piece, separators, start, positions);
    }
    read_in_loop::<false>(piece, separators, start, positions)
}
