//! A text in memory, checked in one call.
ghost use Rattle.std.specs.Prelude.{◌≡◌};
ghost use Rattle.geolint_c.specs.Options.{AreAllowed, limits_meant};
ghost use Rattle.geolint_c.specs.Report.{Reports, no_report};

use crate::options::limits_of;
use crate::report::{Report, no_report, report_of};
use crate::status::LIMITS;
use gj_rules::check_text;

/// Checks a whole text, where the limits are allowed.
#[unsafe(no_mangle)]
pub extern "C" fn geolint_check(text: &[u8], max_depth: u32, max_bytes: u64) -> Report
    ensures judged { AreAllowed max_depth max_bytes → Reports (limits_meant max_depth max_bytes) text.now result }
    ensures refused { ¬ (AreAllowed max_depth max_bytes) → result ≡ no_report 3 }
{
    match limits_of(max_depth, max_bytes) {
        Some(limits) => report_of(&check_text(text, limits)),
        None => no_report(LIMITS),
    }
}
