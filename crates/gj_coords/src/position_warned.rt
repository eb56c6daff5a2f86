//! What deserves a warning in a position (RFC 7946, sections 3.1.1, 4 and 11.2).
ghost use Rattle.std.specs.Prelude.{◌≡◌};
ghost use Rattle.gj_coords.specs.Internal.PositionGather.{position_noted};

use crate::kind::Kind;
use crate::kind_warnings::KindWarnings;
use crate::position::MOST_VALUES;
use crate::warned::Warned;
use crate::winding::Corner;

/// Notes what deserves a warning in a position that breaks no rule, by its place, its count, its corner and its numbers
/// that are too precise.
#[inline]
pub fn note_position(
    place: u64,
    count: u8,
    corner: &Option<Corner>,
    precise: KindWarnings,
    warned: &mut Warned,
)
    ensures { warned.new ≡ position_noted warned.old place count corner.now precise }
{
    if count > MOST_VALUES {
        warned.note(Kind::W3, place);
    }
    if corner.is_none() {
        warned.note(Kind::W5, place);
    }
    if !precise.is_nothing() {
        warned.note_all(Kind::W4, precise);
    }
}
