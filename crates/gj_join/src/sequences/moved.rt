//! Verdicts and warnings with their places further on.

ghost use Rattle.std.specs.Prelude.{◌≡◌, ◌+◌, ◌≤◌, ◌↔◌, ℕ, List, map, true, Some, IsTrue, IsSome, IfSome};
ghost use Rattle.gj_coords.specs.Internal.KeptWarnings.{first_in, shifted};
ghost use Rattle.gj_coords.specs.Warnings.{Warning, shifted_by};
ghost use Rattle.gj_coords.specs.WarningsStand.{StandsFor};
ghost use Rattle.gj_join.specs.Joined.{greatest_place, WarningsFit, PlacesFit};
ghost use Rattle.gj_rules.specs.Sequence.{shifted_verdict};
ghost use Rattle.gj_rules.specs.SequenceJudgement.{shifted_judgement};
ghost use Rattle.gj_rules.specs.Verdict.{Judgement, Says};

use gj_coords::{Fault, KINDS, Kind, Warnings};
use gj_json::JsonFault;
use gj_rules::Verdict;

/// No place of a moved verdict is beyond this one.
const GREATEST_PLACE: u64 = 1 << 61;

/// Whether a place that is moved on by `by` bytes is at most the greatest.
fn place_fits(place: u64, by: u64) -> bool
    ensures { IsTrue result ↔ (place + by ≤ greatest_place) }
{
    by <= GREATEST_PLACE && place <= GREATEST_PLACE - by
}

/// Whether the least place of a kind is.
fn kind_fits(warnings: &Warnings, kind: Kind, by: u64) -> bool
    ensures { IsTrue result ↔ ((place : ℕ) → first_in kind warnings.now ≡ Some place → place + by ≤ greatest_place) }
{
    match warnings.first(kind) {
        Some(place) => place_fits(place, by),
        None => true,
    }
}

/// Whether the least place of each kind is.
fn warnings_fit(warnings: &Warnings, by: u64) -> bool
    ensures { IsTrue result ↔ WarningsFit by warnings.now }
{
    for kind in &KINDS {
        if !kind_fits(warnings, *kind, by) {
            return false;
        }
    }
    true
}

/// The warnings with each place moved on by `by` bytes. `None` where a place goes past 2^61.
pub fn moved_warnings(warnings: Warnings, by: u64) -> Option<Warnings>
    ensures exact { IfSome result (λ moved. moved ≡ shifted warnings by) }
    ensures stands { IfSome result (λ moved. (list : List Warning) → StandsFor warnings list → StandsFor moved (map (shifted_by by) list)) }
    ensures fits { WarningsFit by warnings → IsSome result }
{
    if warnings_fit(&warnings, by) {
        Some(warnings.shifted(by))
    } else {
        None
    }
}

/// The verdict with each place moved on by `by` bytes. `None` where a place goes past 2^61.
pub fn moved(verdict: Verdict, by: u64) -> Option<Verdict>
    ensures exact { IfSome result (λ moved. moved ≡ shifted_verdict by verdict) }
    ensures says { IfSome result (λ moved. (judgement : Judgement) → Says verdict judgement → Says moved (shifted_judgement by judgement)) }
    ensures fits { PlacesFit by verdict → IsSome result }
{
    match verdict {
        Verdict::Valid(warnings) => match moved_warnings(warnings, by) {
            Some(moved) => Some(Verdict::Valid(moved)),
            None => None,
        },
        Verdict::Broken(fault) => {
            if place_fits(fault.place, by) {
                Some(Verdict::Broken(Fault {
                    place: fault.place + by,
                    rule: fault.rule,
                }))
            } else {
                None
            }
        }
        Verdict::NotJson(fault) => {
            if place_fits(fault.place, by) {
                Some(Verdict::NotJson(JsonFault {
                    place: fault.place + by,
                    cause: fault.cause,
                }))
            } else {
                None
            }
        }
    }
}
