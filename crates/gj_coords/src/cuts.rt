//! Positions that come as their cut values.
ghost use Rattle.std.specs.Prelude.{◌≡◌, ◌≤◌, ◌<◌, ◌+◌, ◌^◌, List, length, take, IsTrue, Some, false};
ghost use Rattle.gj_json.specs.declared.flat.Flat.{Flat};
ghost use Rattle.gj_json.specs.CutPosition.{IsCutPosition, AreCutPositions};
ghost use Rattle.gj_coords.specs.Internal.AddedPositions.{all_noted};
ghost use Rattle.gj_coords.specs.Internal.CutPositionGather.{HasLeast, HasCounted, most_at_once};
ghost use Rattle.gj_coords.specs.Internal.FlatPosition.{flat_values};
ghost use Rattle.gj_coords.specs.Internal.PositionGather.{corner_in};
ghost use Rattle.gj_coords.specs.declared.winding.Corner.{Corner};

use crate::kind_warnings::KindWarnings;
use crate::warned::Warned;
use crate::winding::{Corner, RunningSum};
use gj_json::CutPosition;

/// The most positions that are added at once, so that the count of their numbers fits.
const MOST_AT_ONCE: usize = 1 << 30;

/// The greatest place: every number stands there or before.
const NOWHERE: u64 = u64::MAX;

/// The numbers of some positions that are too precise, while a loop over the positions counts them. They stand for the
/// [`KindWarnings`] with this count and this place, or for nothing where there are none. So one more costs an addition and
/// a comparison.
#[derive(Clone, Copy)]
pub struct PreciseNumbers {
    count: u32,
    /// The least place, which is [`NOWHERE`] where there are none.
    first: u64,
}

/// What positions add to those before them, while a loop over the positions adds them to this alone.
#[derive(Clone, Copy)]
pub struct AddedCuts {
    pub sum: RunningSum,
    pub precise: PreciseNumbers,
}

impl PreciseNumbers {
    ghost use Rattle.std.specs.Prelude.{◌≡◌, ◌≤◌, ◌<◌, ◌+◌, ◌^◌};
    ghost use Rattle.gj_coords.specs.Internal.CutPositionGather.{none_counted, HasLeast, counted_noted, pair_with};
    ghost use Rattle.gj_coords.specs.Internal.FlatPosition.{precise_noted};

    /// None.
    #[inline(always)]
    pub fn none() -> PreciseNumbers
        ensures { result ≡ none_counted }
    {
        PreciseNumbers {
            count: 0,
            first: NOWHERE,
        }
    }

    /// With those of a position more.
    #[inline(always)]
    fn with(self, position: &CutPosition) -> PreciseNumbers
        requires least { HasLeast self }
        requires room { self.count + 2 < 2 ^ 32 }
        ensures least { HasLeast result }
        ensures few { result.count ≤ self.count + 2 }
        ensures noted { counted_noted result ≡ pair_with position.now (counted_noted self) }
    {
        if position.first_precise {
            let first = self.first.min(position.first_place());
            if position.second_precise {
                PreciseNumbers {
                    count: self.count + 2,
                    first,
                }
            } else {
                PreciseNumbers {
                    count: self.count + 1,
                    first,
                }
            }
        } else if position.second_precise {
            PreciseNumbers {
                count: self.count + 1,
                first: self.first.min(position.second_place()),
            }
        } else {
            self
        }
    }

    /// Notes them all.
    #[inline(always)]
    pub fn note(self, warned: &mut Warned)
        ensures { warned.new ≡ precise_noted warned.old (counted_noted self) }
    {
        if self.count > 0 {
            warned.note_precise(KindWarnings {
                count: self.count,
                first: self.first,
            });
        }
    }
}

impl AddedCuts {
    ghost use Rattle.std.specs.Prelude.{◌≡◌, ◌≤◌, ◌<◌, ◌+◌, ◌^◌, IsTrue, false};
    ghost use Rattle.gj_json.specs.declared.flat.Flat.{Flat};
    ghost use Rattle.gj_json.specs.CutPosition.{IsCutPosition};
    ghost use Rattle.gj_coords.specs.Internal.CutPositionGather.{HasLeast, IsAdded};

    /// Adds a position that is in range and whose corner is not `start`: whether it did.
    #[inline(always)]
    pub fn adds(&mut self, position: &CutPosition, start: &Corner) -> bool
        requires least { HasLeast self.old.precise }
        requires room { self.old.precise.count + 2 < 2 ^ 32 }
        ensures same { result ≡ false → self.new ≡ self.old }
        ensures least { HasLeast self.new.precise }
        ensures few { self.new.precise.count ≤ self.old.precise.count + 2 }
        ensures added { IsTrue result → (flat : Flat) → IsCutPosition position.now flat → IsAdded flat start.now self.old self.new }
    {
        let Some(corner) = corner(position) else {
            return false;
        };
        if corner == *start {
            return false;
        }
        self.precise = self.precise.with(position);
        self.sum.add(&corner);
        true
    }
}

/// How many of these positions are added at once.
#[inline(always)]
pub fn at_once(positions: &[CutPosition]) -> usize
    ensures few { result ≤ length positions.now }
    ensures most { result ≤ most_at_once }
{
    positions.len().min(MOST_AT_ONCE)
}

/// The corner of a position, where it is in range.
#[inline(always)]
fn corner(position: &CutPosition) -> Option<Corner>
    ensures { (flat : Flat) → IsCutPosition position.now flat → result ≡ corner_in (flat_values flat) }
{
    Corner::of_cuts(position.first, position.second)
}

/// Counts those numbers of a position that are too precise, where the position is in range: whether it is.
#[inline(always)]
fn counts(position: &CutPosition, precise: &mut PreciseNumbers) -> bool
    requires least { HasLeast precise.old }
    requires room { precise.old.count + 2 < 2 ^ 32 }
    ensures same { result ≡ false → precise.new ≡ precise.old }
    ensures least { HasLeast precise.new }
    ensures few { precise.new.count ≤ precise.old.count + 2 }
    ensures counted { IsTrue result → (flat : Flat) → IsCutPosition position.now flat → HasCounted flat precise.old precise.new }
{
    if corner(position).is_none() {
        return false;
    }
    *precise = precise.with(position);
    true
}

/// Notes those numbers of positions that are too precise, up to the first position that is out of range: of how many.
pub fn warn_all(positions: &[CutPosition], warned: &mut Warned) -> usize
    ensures few { result ≤ length positions.now }
    ensures noted { (flats : List Flat) → AreCutPositions (take result positions.now) flats → warned.new ≡ all_noted warned.old flats }
{
    let most = at_once(positions);
    let mut precise = PreciseNumbers::none();
    let mut at = 0;
    while at < most && counts(&positions[at], &mut precise) {
        at += 1;
    }
    precise.note(warned);
    at
}
