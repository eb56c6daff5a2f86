//! A position that comes as one `Flat`, as the coordinates of a Point.
ghost use Rattle.std.specs.Prelude.{◌≡◌, ◌↔◌, IsTrue};
ghost use Rattle.gj_coords.specs.PlainPoint.{IsPlainPoint, IsPointWith, IsWrittenPlain};
ghost use Rattle.gj_coords.specs.Internal.GatheredWarnings.{all_in};

use crate::flat::{corner, is_all_short, judge};
use crate::warned::Warned;
use gj_json::Flat;

/// Whether the way a position is written shows that it breaks no rule and deserves no warning as the coordinates of a Point
/// (RFC 7946, sections 3.1.1, 4 and 11.2): each number has at most seven decimal places, and the position is in range.
#[inline(always)]
pub fn is_plain_point(flat: &Flat) -> bool
    ensures plain { IsTrue result → IsPlainPoint flat.now }
    ensures told { IsTrue result ↔ IsWrittenPlain flat.now }
{
    is_all_short(flat) && corner(flat).is_some()
}

/// What deserves a warning in a position as the coordinates of a Point, in which it breaks no rule.
#[inline(always)]
pub fn point_warned(flat: &Flat) -> Warned
    ensures { IsPointWith (all_in result) flat.now }
{
    let mut warned = Warned::none();
    judge(flat, &mut warned);
    warned
}
