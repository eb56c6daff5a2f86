//! A text in memory, checked in one call.
//!
//! Most of what a new linter costs is the writing of its frames. So a small text is first read with a few of them, and again
//! with all of them only where it nests deeper than these serve.
ghost use Rattle.std.specs.Prelude.{◌<◌, ◌≤◌, ◌^◌, IfSome};
ghost use Rattle.gj_rules.specs.Levels.{levels_within};
ghost use Rattle.gj_rules.specs.Verdict.{IsVerdict};
ghost use Rattle.gj_rules.specs.declared.rules.TheConstants.{MOST_FRAMES};

use crate::linter::{tell_last, verdict_of};
use crate::rules::{FramedRules, MOST_FRAMES};
use crate::verdict::Verdict;
use gj_coords::laws::kept_warnings;
use gj_json::{Cause, Limits, Reader, bytes_taken, few_events};

/// How many frames a small text is first read with: as many as a FeatureCollection of MultiPolygons needs.
const FEW_FRAMES: usize = 5;

/// How deep a text may nest for which these frames are enough.
const FEW_LEVELS: u16 = 2 * FEW_FRAMES as u16 - 2;

/// Up to how many bytes a text is small. To read that many takes about as long as to write the frames that are spared.
const SMALL_BYTES: usize = 8192;

/// The verdict of a text in memory under these limits: that of a linter which is fed the whole text.
pub fn check_text(text: &[u8], limits: Limits) -> Verdict
    ensures { IsVerdict limits text.now result }
{
    if text.len() <= SMALL_BYTES {
        if let Some(verdict) = small_verdict(text, limits) {
            return verdict;
        }
    }
    framed_verdict::<MOST_FRAMES>(text, limits)
}

/// The verdict with a few frames, where the text does not nest too deep for them.
fn small_verdict(text: &[u8], limits: Limits) -> Option<Verdict>
    ensures { IfSome result (λ verdict. IsVerdict limits text.now verdict) }
{
    let few = Limits::new(limits.depth().min(FEW_LEVELS), limits.bytes())?;
    match framed_verdict::<FEW_FRAMES>(text, few) {
        Verdict::NotJson(fault) => match fault.cause {
            Cause::Depth => None,
            _ => Some(Verdict::NotJson(fault)),
        },
        verdict => Some(verdict),
    }
}

/// The verdict with `FRAMES` frames, under limits for which they are enough.
// Each has its own part of the stack, so that a small text does not pay for the frames of a large one.
#[inline(never)]
fn framed_verdict<const FRAMES: usize>(text: &[u8], limits: Limits) -> Verdict
    requires some { 0 < FRAMES }
    requires few { FRAMES ≤ MOST_FRAMES }
    requires shallow { limits.depth ≤ levels_within FRAMES }
    requires short { limits.bytes ≤ 2 ^ 60 }
    ensures { IsVerdict limits text.now result }
{
    bytes_taken();
    few_events();
    kept_warnings();
    let mut rules: FramedRules<FRAMES> = FramedRules::at_start();
    let mut reader = Reader::new(limits);
    if let Err(fault) = reader.feed(text, &mut rules) {
        return Verdict::NotJson(fault);
    }
    match reader.finish() {
        Err(fault) => Verdict::NotJson(fault),
        Ok(last) => {
            tell_last(&mut rules, last);
            verdict_of(rules.fault(), rules.warnings())
        }
    }
}
