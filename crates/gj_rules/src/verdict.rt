//! The verdict of an input.
ghost use Rattle.std.specs.Prelude.{◌≡◌, ◌↔◌, ℕ, List};
ghost use Rattle.gj_json.specs.Limits.{Allowed};

use gj_coords::{Fault, Warnings};
use gj_json::{JsonFault, one_refusal, one_text};

/// What an input is, as a whole.
#[derive(Clone, Copy, Debug, PartialEq, Eq)]
pub enum Verdict {
    /// A GeoJSON text (RFC 7946, section 2), and what in it is likely wrong in use.
    Valid(Warnings),
    /// A JSON text that breaks a rule: the broken rule of the least place in the whole text.
    Broken(Fault),
    /// No JSON text (RFC 8259) within the limits: where and why it is refused. It comes before every rule.
    NotJson(JsonFault),
}

ghost use Rattle.gj_rules.specs.Verdict.{Judgement, IsJudgement, Says, IsVerdict};

/// Under any limits each input has one verdict, and no other: the one that says what the input is. It does nothing: its
/// contract is a law of the definitions.
pub fn one_verdict()
    ensures some { (limits : Allowed) (bytes : List ℕ) → (verdict : Verdict) × IsVerdict limits bytes verdict }
    ensures one { (limits : Allowed) (bytes : List ℕ) (first second : Verdict) → IsVerdict limits bytes first → IsVerdict limits bytes second → first ≡ second }
    ensures said { (limits : Allowed) (bytes : List ℕ) (verdict : Verdict) →
        IsVerdict limits bytes verdict ↔ ((judgement : Judgement) × IsJudgement limits bytes judgement × Says verdict judgement) }
{
    one_text();
    one_refusal();
}
