//! Warnings by their kind, number and least place.

ghost use Rattle.std.specs.Prelude.{replicate};
ghost use Rattle.gj_coords.specs.Warnings.{warning_at};
ghost use Rattle.gj_coords.specs.WarningsStand.{StandsFor};

use gj_coords::{Kind, Warnings};

/// As many warnings of a kind as `count` says, at one place.
pub fn warnings_at(kind: Kind, place: u64, count: u32) -> Warnings
    ensures { StandsFor result (replicate count (warning_at place kind)) }
{
    if count == 0 {
        return Warnings::none();
    }
    let half = warnings_at(kind, place, count / 2);
    let even = half.join(half);
    if count % 2 == 1 {
        even.add(kind, place)
    } else {
        even
    }
}
