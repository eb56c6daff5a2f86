//! A position that comes as one `Flat`.
ghost use Rattle.std.specs.Prelude.{◌≡◌, ◌↔◌, ◌≤◌, Some, IfSome, IsTrue, true, false};
ghost use Rattle.gj_number.specs.Short.{exact_of};
ghost use Rattle.gj_coords.specs.CoordinateWarnings.{is_precise};
ghost use Rattle.gj_coords.specs.Internal.PositionGather.{corner_in, position_noted, same_values, sound_noted};
ghost use Rattle.gj_coords.specs.PlainPoint.{IsNumberShort, IsWrittenShort};
ghost use Rattle.gj_coords.specs.Internal.KeptWarnings.{nothing_noted};
ghost use Rattle.gj_coords.specs.Internal.FlatPosition.{flat_values, flat_position, flat_precise, third_value, third_precise};
ghost use Rattle.gj_coords.specs.Internal.FlatPosition.{number_precise, flat_count, least_place, flat_misshapen, flat_ring};

use crate::fault::{Fault, Rule};
use crate::kind_warnings::KindWarnings;
use crate::position::{MOST_PLACES, Values, misshapen};
use crate::position_warned::note_position;
use crate::warned::Warned;
use crate::winding::Corner;
use gj_json::{Flat, Numbered};
use gj_number::{Decimal, Short};

/// How many numbers it has.
#[inline]
pub fn count(flat: &Flat) -> u8
    ensures { result ≡ flat_count flat.now.third }
{
    match &flat.third {
        Some(_) => 3,
        None => 2,
    }
}

/// The exact value of the third, where there is one.
fn third_value(third: &Option<Numbered>) -> Option<Decimal>
    ensures { result ≡ third_value third.now }
{
    match third {
        Some(number) => Some(number.value.decimal()),
        None => None,
    }
}

/// Writes its exact values where they are kept, which takes less than to write them all and then to copy them.
#[inline(always)]
pub fn keep_values(flat: &Flat, kept: &mut Option<Values>)
    ensures { kept.new ≡ Some (flat_values flat.now) }
{
    *kept = Some(Values {
        count: count(flat),
        first: None,
        second: None,
        third: None,
    });
    if let Some(values) = kept {
        values.first = Some(flat.first.value.decimal());
        values.second = Some(flat.second.value.decimal());
        if flat.third.is_some() {
            values.third = third_value(&flat.third);
        }
    }
}

/// Whether these are its exact values.
#[inline(always)]
pub fn has_values(flat: &Flat, values: &Values) -> bool
    ensures { result ≡ same_values values.now (flat_values flat.now) }
{
    values.count == count(flat)
        && values.first == Some(flat.first.value.decimal())
        && values.second == Some(flat.second.value.decimal())
        && values.third == third_value(&flat.third)
}

/// Whether a number is written with at most seven places, so that it is not too precise.
#[inline(always)]
fn is_written_short(number: Short) -> bool
    ensures short { result ≡ true → is_precise (Some (exact_of number)) ≡ false }
    ensures written { IsTrue result ↔ (number.places ≤ 7) }
{
    number.places <= MOST_PLACES
}

/// Whether there is no third number, or one that is written with at most seven places.
#[inline(always)]
fn is_third_short(third: &Option<Numbered>) -> bool
    ensures short { result ≡ true → (noted : KindWarnings) → third_precise third.now noted ≡ noted }
    ensures written { IsTrue result ↔ IfSome third.now IsNumberShort }
{
    match third {
        Some(number) => is_written_short(number.value),
        None => true,
    }
}

/// Whether all its numbers are written with at most seven places, so that none is too precise.
#[inline(always)]
pub fn is_all_short(flat: &Flat) -> bool
    ensures short { result ≡ true → flat_precise flat.now ≡ nothing_noted }
    ensures written { IsTrue result ↔ IsWrittenShort flat.now }
{
    is_written_short(flat.first.value)
        && (is_written_short(flat.second.value) && is_third_short(&flat.third))
}

/// With this number, if it is too precise.
#[inline(always)]
fn precise_with(noted: KindWarnings, number: &Numbered) -> KindWarnings
    ensures { result ≡ number_precise number.now noted }
{
    if number.value.is_precise() {
        noted.join(KindWarnings::one(number.place))
    } else {
        noted
    }
}

/// Its numbers that are too precise.
#[inline(always)]
fn precise(flat: &Flat) -> KindWarnings
    ensures { result ≡ flat_precise flat.now }
{
    let noted = precise_with(
        precise_with(KindWarnings::nothing(), &flat.first),
        &flat.second,
    );
    match &flat.third {
        Some(number) => precise_with(noted, number),
        None => noted,
    }
}

/// The corner of its first two numbers, where they are in range.
#[inline(always)]
pub fn corner(flat: &Flat) -> Option<Corner>
    ensures { result ≡ corner_in (flat_values flat.now) }
{
    Corner::of(flat.first.value, flat.second.value)
}

/// The least place of a number.
#[inline]
fn least_place(flat: &Flat) -> u64
    ensures { result ≡ least_place flat.now }
{
    let least = flat.first.place.min(flat.second.place);
    match &flat.third {
        Some(number) => least.min(number.place),
        None => least,
    }
}

/// The least fault of its numbers as positions.
#[inline]
pub fn misshapen_numbers(flat: &Flat) -> Option<Fault>
    ensures { result ≡ flat_misshapen flat.now }
{
    misshapen(least_place(flat))
}

/// Its least fault as a linear ring.
#[inline]
pub fn ring_fault(flat: &Flat) -> Option<Fault>
    ensures { result ≡ flat_ring flat.now }
{
    let least = least_place(flat);
    if flat.place < least {
        Some(Fault {
            place: flat.place,
            rule: Rule::G14,
        })
    } else {
        misshapen(least)
    }
}

/// Notes what deserves a warning in it, which mostly is nothing, and returns its corner, where it is in range.
#[inline(always)]
pub fn judge(flat: &Flat, warned: &mut Warned) -> Option<Corner>
    ensures corner { result ≡ corner_in (flat_values flat.now) }
    ensures warned { warned.new ≡ sound_noted warned.old (flat_position flat.now) }
{
    let corner = corner(flat);
    if corner.is_none() || !is_all_short(flat) {
        warn(flat, &corner, warned);
    }
    corner
}

/// Notes what deserves a warning in it, by its corner.
#[inline(never)]
fn warn(flat: &Flat, corner: &Option<Corner>, warned: &mut Warned)
    ensures { warned.new ≡ position_noted warned.old flat.now.place (flat_count flat.now.third) corner.now (flat_precise flat.now) }
{
    note_position(flat.place, count(flat), corner, precise(flat), warned);
}
