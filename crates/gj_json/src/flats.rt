//! Reads the array of ordinary numbers that a piece starts with.

ghost use Rattle.std.specs.Prelude.{◌≡◌, ◌+◌, ◌^◌, ◌<◌, ◌≤◌, length, take, drop, get_or, IfSome, None};
ghost use Rattle.std.specs.List.{AllByRecursion};
ghost use Rattle.std.specs.Option.{option_to_list};
ghost use Rattle.gj_number.specs.Short.{exact_of, StartsWithPair};
ghost use Rattle.gj_json.specs.Bytes.{IsWhite, open_bracket, comma};
ghost use Rattle.gj_json.specs.Internal.SpelledNumbers.{IsFlat};
ghost use Rattle.gj_json.specs.Internal.FlatParts.{cut, IsItem, IsMore};

use crate::flat::{Flat, Numbered};
use crate::runs::white_run;
use gj_number::{Pair, Short, read_last_pair, read_pair, read_short};

/// The index after the white space at this one.
#[inline(always)]
pub fn white_end(piece: &[u8], at: usize) -> usize
    requires { at ≤ length piece.now }
    ensures on { at ≤ result }
    ensures within { result ≤ length piece.now }
    ensures white { AllByRecursion IsWhite (cut piece.now at result) }
{
    at + white_run(&piece[at..])
}

/// A comma that the piece starts with, and the white space after it: how many bytes.
#[inline(always)]
pub fn comma_run(piece: &[u8]) -> usize
    ensures within { result ≤ length piece.now }
    ensures comma { 0 < result → get_or piece.now 0 0 ≡ comma }
    ensures white { 0 < result → AllByRecursion IsWhite (cut piece.now 1 result) }
{
    if piece.is_empty() || piece[0] != b',' {
        return 0;
    }
    white_end(piece, 1)
}

/// Reads the ordinary number that stands at an index, with white space around it, in a piece that begins at the place
/// `start`: the index of the byte after that, or 0 where there is none.
#[inline(always)]
fn read_item(piece: &[u8], at: usize, start: u64, number: &mut Numbered) -> usize
    requires within { at ≤ length piece.now }
    requires small { start + length piece.now ≤ 2 ^ 60 }
    ensures on { 0 < result → at ≤ result }
    ensures within { 0 < result → result < length piece.now }
    ensures place { 0 < result → start + at ≤ number.new.place }
    ensures item { 0 < result → IsItem number.new (start + at) (cut piece.now at result) }
{
    let first = white_end(piece, at);
    let count = read_short(&piece[first..], &mut number.value);
    if count == 0 {
        return 0;
    }
    number.place = start + first as u64;
    let end = first + count;
    if piece[end] > b' ' {
        return end;
    }
    let end = white_end(piece, end);
    if end == piece.len() {
        return 0;
    }
    end
}

/// How long a piece must be at the least for its pair to be read where it stands: the bracket and what a pair is read with.
const PAIR_ROOM: usize = 41;

/// The pair after the first byte of a piece.
#[inline(always)]
fn pair_after_bracket(piece: &[u8], first: &mut Short, second: &mut Short) -> Option<Pair>
    requires { 0 < length piece.now }
    ensures { IfSome result (λ pair.
        StartsWithPair (drop 1 piece.now) (exact_of first.new) (exact_of second.new) pair.comma pair.second pair.end) }
{
    if piece.len() < PAIR_ROOM {
        return read_last_pair(&piece[1..], first, second);
    }
    if piece[1] <= b' ' {
        return None;
    }
    read_pair(&piece[1..], first, second)
}

/// Drops the third number of an array that was read before. Mostly there is none.
#[inline(always)]
fn drop_third(third: &mut Option<Numbered>)
    ensures { third.new ≡ None }
{
    if third.is_some() {
        *third = None;
    }
}

/// Reads the array of two or three ordinary numbers that is whole at the start of a piece, which begins at the place
/// `start`: how many bytes it has. Mostly it is a pair.
#[inline(always)]
pub fn read_flat(piece: &[u8], start: u64, flat: &mut Flat) -> Option<usize>
    requires some { 0 < length piece.now }
    requires bracket { get_or piece.now 0 0 ≡ open_bracket }
    requires small { start + length piece.now ≤ 2 ^ 60 }
    ensures some { IfSome result (λ count. 0 < count) }
    ensures within { IfSome result (λ count. count ≤ length piece.now) }
    ensures flat { IfSome result (λ count. IsFlat flat.new start (take count piece.now)) }
{
    let Some(pair) = pair_after_bracket(piece, &mut flat.first.value, &mut flat.second.value) else {
        let count = read_any_flat(piece, start, flat);
        return if count == 0 { None } else { Some(count) };
    };
    flat.place = start;
    flat.first.place = start + 1;
    flat.second.place = start + 1 + pair.second as u64;
    drop_third(&mut flat.third);
    flat.close = start + 1 + pair.end as u64;
    Some(pair.end + 2)
}

/// As `read_flat`, of an array that stands by itself.
// It is one function for all that take such an array, so that its code does not stand in each of them.
#[inline(never)]
pub fn read_lone_flat(piece: &[u8], start: u64, flat: &mut Flat) -> Option<usize>
    requires some { 0 < length piece.now }
    requires bracket { get_or piece.now 0 0 ≡ open_bracket }
    requires small { start + length piece.now ≤ 2 ^ 60 }
    ensures some { IfSome result (λ count. 0 < count) }
    ensures within { IfSome result (λ count. count ≤ length piece.now) }
    ensures flat { IfSome result (λ count. IsFlat flat.new start (take count piece.now)) }
{
    read_flat(piece, start, flat)
}

/// As `read_flat`, of numbers of any length, with white space around them.
#[inline(always)]
fn read_any_flat(piece: &[u8], start: u64, flat: &mut Flat) -> usize
    requires some { 0 < length piece.now }
    requires bracket { get_or piece.now 0 0 ≡ open_bracket }
    requires small { start + length piece.now ≤ 2 ^ 60 }
    ensures within { result ≤ length piece.now }
    ensures flat { 0 < result → IsFlat flat.new start (take result piece.now) }
{
    // No number stands before the start of the text, whichever are read.
    flat.place = 0;
    let first = read_item(piece, 1, start, &mut flat.first);
    if first == 0 || piece[first] != b',' {
        return 0;
    }
    let second = read_item(piece, first + 1, start, &mut flat.second);
    if second == 0 {
        return 0;
    }
    flat.third = None;
    flat.place = start;
    if piece[second] == b']' {
        flat.close = start + second as u64;
        return second + 1;
    }
    read_third(piece, second, start, flat)
}

/// Reads the third number, after the comma at an index, and the closing bracket: the index after that, or 0.
#[inline(never)]
fn read_third(piece: &[u8], at: usize, start: u64, flat: &mut Flat) -> usize
    requires within { at < length piece.now }
    requires place { flat.old.place ≤ start + at }
    requires small { start + length piece.now ≤ 2 ^ 60 }
    ensures within { result ≤ length piece.now }
    ensures first { flat.new.first ≡ flat.old.first }
    ensures second { flat.new.second ≡ flat.old.second }
    ensures place { flat.new.place ≡ flat.old.place }
    ensures on { 0 < result → at < result }
    ensures third { 0 < result → IsMore (option_to_list flat.new.third) flat.new.close (start + at) (cut piece.now at result) }
{
    if piece[at] != b',' {
        return 0;
    }
    let mut number = Numbered::blank();
    let third = read_item(piece, at + 1, start, &mut number);
    if third == 0 || piece[third] != b']' {
        return 0;
    }
    flat.third = Some(number);
    flat.close = start + third as u64;
    third + 1
}
