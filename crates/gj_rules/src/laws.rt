//! What holds of the definitions, whoever reads a text: each contract is a law.

ghost use Rattle.std.specs.Prelude.{ℕ, ◌+◌, ◌/◌, ◌≤◌, List, length};
ghost use Rattle.gj_json.specs.Limits.{Allowed};
ghost use Rattle.gj_json.specs.Tree.{Text};
ghost use Rattle.gj_json.specs.Text.{IsText};
ghost use Rattle.gj_json.specs.Open.{open_at};
ghost use Rattle.gj_rules.specs.Judged.{judged_at};
ghost use Rattle.gj_rules.specs.Places.{IsPlaceIn};
ghost use Rattle.gj_rules.specs.Verdict.{Judgement, IsJudgement};

/// At most half of the arrays and objects that are open in a prefix of a text, and one more, have a
/// role: but for `geometry`, once on the way from the text's object, an array stands between two of them.
pub fn judged_levels()
    ensures open { (text : Text) (n : ℕ) → judged_at n text ≤ open_at n text }
    ensures half { (text : Text) (bytes : List ℕ) (n : ℕ) → IsText text bytes → judged_at n text ≤ open_at n text / 2 + 1 }
{}

/// Each place that is reported of an input stands in it, or at its end.
pub fn places_within()
    ensures { (limits : Allowed) (bytes : List ℕ) (judgement : Judgement) (place : ℕ) → IsJudgement limits bytes judgement →
        IsPlaceIn place judgement → place ≤ length bytes }
{}
