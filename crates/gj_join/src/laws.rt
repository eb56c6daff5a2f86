//! What a text is by its runs of features: each contract is a law.

ghost use Rattle.std.specs.Prelude.{◌≡◌, ◌↔◌, ◌++◌, ◌≤◌, ℕ, List, length};
ghost use Rattle.gj_json.specs.declared.fault.JsonFault.{JsonFault};
ghost use Rattle.gj_json.specs.Limits.{Allowed};
ghost use Rattle.gj_json.specs.Refusal.{IsRefusal};
ghost use Rattle.gj_json.specs.Text.{IsViableWithin};
ghost use Rattle.gj_join.specs.Runs.{StandsAfterFeature, IsRun, spaces};

/// Where a feature has ended, spaces may stand in the place of a run of features: with them the text can go on as with it, and what is
/// refused with them is refused with it, for the same cause and at the same place. After the run a feature has ended, so that
/// another may follow.
pub fn spaces_for_features()
    ensures viable { (levels : ℕ) (before run after : List ℕ) → StandsAfterFeature levels before → IsRun levels (length before) run
        → IsViableWithin levels (before ++ (spaces (length run) ++ after)) ↔ IsViableWithin levels (before ++ (run ++ after)) }
    ensures refused { (limits : Allowed) (before run after : List ℕ) (fault : JsonFault) → StandsAfterFeature limits.depth before
        → IsRun limits.depth (length before) run → length (before ++ run) ≤ limits.bytes
        → IsRefusal limits (before ++ (spaces (length run) ++ after)) fault → IsRefusal limits (before ++ (run ++ after)) fault }
    ensures on { (levels : ℕ) (before run : List ℕ) → StandsAfterFeature levels before → IsRun levels (length before) run
        → StandsAfterFeature levels (before ++ run) }
{}
