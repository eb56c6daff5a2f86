//! The verdict of a text from that of the text with spaces in the place of a run of features.

ghost use Rattle.std.specs.Prelude.{◌≡◌, ◌++◌, ◌≤◌, ℕ, List, length};
ghost use Rattle.gj_json.specs.Limits.{Allowed};
ghost use Rattle.gj_rules.specs.Verdict.{IsVerdict};
ghost use Rattle.gj_join.specs.Runs.{StandsAfterFeature, IsSumOf, spaces};
ghost use Rattle.gj_join.specs.Internal.PassedRuns.{whole};
ghost use Rattle.gj_join.specs.declared.sum.FeatureSum.{FeatureSum};

use gj_coords::Warnings;
use gj_rules::Verdict;

/// The verdict of a text, given that of the text with spaces in the place of a run of features, and the warnings of the run: where
/// one is no JSON or breaks a rule, the other does so too, at the same place.
pub fn whole_of(rest: Verdict, warnings: Warnings) -> Verdict
    ensures exact { result ≡ whole rest warnings }
    ensures whole { (limits : Allowed) (before run after : List ℕ) (sum : FeatureSum) → length before ≡ sum.begin
        → StandsAfterFeature limits.depth before → IsSumOf limits.depth run sum → sum.warnings ≡ warnings
        → length (before ++ run) ≤ limits.bytes
        → IsVerdict limits (before ++ (spaces (length run) ++ after)) rest → IsVerdict limits (before ++ (run ++ after)) result }
{
    match rest {
        Verdict::Valid(told) => Verdict::Valid(told.join(warnings)),
        _ => rest,
    }
}
