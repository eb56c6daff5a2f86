//! What is found in the features of a text, beside what is found in the text: each contract is a law.

ghost use Rattle.std.specs.Prelude.{◌≡◌, ◌↔◌, ℕ, ◌+◌, ◌-◌, ◌<◌, ◌≤◌, ◌^◌, List, [], ◌++◌, None, length};
ghost use Rattle.std.specs.List.{AllByRecursion};
ghost use Rattle.gj_json.specs.Events.{all_events};
ghost use Rattle.gj_json.specs.Text.{IsText};
ghost use Rattle.gj_json.specs.Tree.{Text};
ghost use Rattle.gj_coords.specs.Fault.{least, lesser};
ghost use Rattle.gj_rules.specs.Faults.{text_faults};
ghost use Rattle.gj_rules.specs.TextWarnings.{text_warnings};
ghost use Rattle.gj_rules.specs.FeatureFindings.{FeatureFinding, feature_findings, findings_by, commas, own_faults, own_warnings, IsCollection, least_found};
ghost use Rattle.gj_rules.specs.FeatureFindings.{warnings_found};
ghost use Rattle.gj_rules.specs.FeaturesTold.{SayFindings};
ghost use Rattle.gj_rules.specs.Internal.FeatureSteps.{features_by};

use gj_coords::laws::kept_warnings;

/// A FeatureCollection is checked by itself and by its features (RFC 7946, section 3.3): its least fault is the least of its own
/// and of theirs, it is valid where neither it nor a feature has a fault, and then its warnings are its own and theirs.
pub fn by_feature()
    ensures least { (text : Text) → IsCollection text.value
        → least (text_faults text) ≡ lesser (least (own_faults text)) (least_found (feature_findings text)) }
    ensures valid { (text : Text) → IsCollection text.value →
        (text_faults text ≡ []) ↔ ((own_faults text ≡ []) × AllByRecursion (λ finding. finding.fault ≡ None) (feature_findings text)) }
    ensures warnings { (text : Text) → IsCollection text.value → text_faults text ≡ []
        → text_warnings text ≡ own_warnings text ++ warnings_found (feature_findings text) }
{}

/// The findings of the features that are complete in the first bytes of a text are the first of all.
pub fn features_so_far()
    ensures { (text : Text) (n : ℕ) → (later : List FeatureFinding) × (feature_findings text ≡ findings_by n text ++ later) }
{}

/// Each byte of a text completes at most one feature. So a queue with room for as many features as a piece has bytes takes all
/// that the piece completes.
pub fn features_in_time()
    ensures { (text : Text) (bytes : List ℕ) (m n : ℕ) → IsText text bytes → m ≤ n → length (findings_by n text) ≤ length (findings_by m text) + (n - m) }
{}

/// Between two features of a text stands a comma. So in a run of its bytes at most one feature more is complete than the run has
/// commas, and a queue with room for as many takes all.
pub fn features_by_commas()
    ensures { (text : Text) (before run after : List ℕ) → IsText text (before ++ run ++ after)
        → length (findings_by (length before + length run) text) ≤ length (findings_by (length before) text) + commas run + 1 }
{}

/// No more features of a text are complete in its first bytes than there are bytes.
pub fn few_features()
    ensures { (text : Text) (bytes : List ℕ) (n : ℕ) → IsText text bytes → length (findings_by n text) ≤ n }
{}

/// What [`FeatureRules`](crate::FeatureRules) report of a text of fewer than 2^64 events says what is found in its features.
pub fn features_say()
    ensures { (text : Text) (n : ℕ) → length (all_events text) < 2 ^ 64 → SayFindings (features_by n text) (findings_by n text) }
{
    kept_warnings();
}
