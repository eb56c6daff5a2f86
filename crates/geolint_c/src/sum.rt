//! What is found in a run of features, in plain numbers.
ghost use Rattle.std.specs.Prelude.{◌≡◌, if◌then◌else◌, List, min};
ghost use Rattle.gj_coords.specs.Warnings.{Warning, greatest_count};
ghost use Rattle.gj_coords.specs.WarningsStand.{StandsFor};
ghost use Rattle.geolint_c.specs.Report.{all_warned, nothing_warned};
ghost use Rattle.geolint_c.specs.Sum.{SaysSum, no_sum, all_said};
ghost use Rattle.gj_join.specs.declared.sum.FeatureSum.{FeatureSum};

use crate::report::{Warned, all_warned, nothing_warned};
use crate::status::DONE;
use gj_coords::{KINDS, Kind, Warnings};
use gj_join::{FeatureSum, warnings_at};

/// What is found in whole features that follow one another, of which none breaks a rule: where they begin and end in the text, how many
/// there are, and their warnings, as in a report. `ended` is 1 where a feature with a fault follows, so that no byte makes it longer.
#[repr(C)]
#[derive(Clone, Copy)]
pub struct Sum {
    pub status: u32,
    pub ended: u32,
    pub begin: u64,
    pub end: u64,
    pub features: u64,
    pub warnings: [Warned; KINDS.len()],
}

/// The sum in plain numbers.
pub fn sum_of(found: &FeatureSum, ended: bool) -> Sum
    ensures says { SaysSum found.now result }
    ensures done { result.status ≡ 0 }
    ensures ended { result.ended ≡ (if ended then 1 else 0) }
{
    Sum {
        status: DONE,
        ended: if ended { 1 } else { 0 },
        begin: found.begin,
        end: found.end,
        features: found.features,
        warnings: all_warned(&found.warnings),
    }
}

/// No sum, and why there is none.
pub fn no_sum(status: u32) -> Sum
    ensures { result ≡ no_sum status }
{
    Sum {
        status,
        ended: 0,
        begin: 0,
        end: 0,
        features: 0,
        warnings: nothing_warned(),
    }
}

/// The sum that these numbers say.
pub fn sum_said(said: &Sum) -> FeatureSum
    ensures said { (found : FeatureSum) (all : List Warning) → SaysSum found said.now → StandsFor found.warnings all → result ≡ found }
    ensures begin { result.begin ≡ said.now.begin }
    ensures end { result.end ≡ said.now.end }
{
    FeatureSum {
        begin: said.begin,
        end: said.end,
        features: said.features,
        warnings: warnings_said(&KINDS, &said.warnings),
    }
}

/// The warnings of these kinds, of each as many as are said, all at the first place.
fn warnings_said(kinds: &[Kind], said: &[Warned]) -> Warnings
    ensures { StandsFor result (all_said kinds.now said.now) }
{
    match (kinds.split_first(), said.split_first()) {
        (Some((kind, kinds)), Some((one, said))) => {
            warnings_at(*kind, one.first, count_said(one)).join(warnings_said(kinds, said))
        }
        _ => Warnings::none(),
    }
}

/// How many there are, as far as it is counted.
fn count_said(said: &Warned) -> u32
    ensures { result ≡ min said.now.count greatest_count }
{
    said.count.min(u32::MAX as u64) as u32
}
