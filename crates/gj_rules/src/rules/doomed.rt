//! Whether the events so far show that the text breaks a rule, whatever comes after them.
ghost use Rattle.std.specs.Prelude.{◌≡◌, ◌≤◌, ℕ, [], List, true};

use super::FramedRules;
use crate::member_slots::MemberSlots;

impl<const FRAMES: usize> FramedRules<FRAMES> {
    ghost use Rattle.gj_json.specs.Tree.{Text, depth};
    ghost use Rattle.gj_json.specs.Text.{IsText};
    ghost use Rattle.gj_json.specs.Events.{events_by};
    ghost use Rattle.gj_rules.specs.Doomed.{is_doomed};
    ghost use Rattle.gj_rules.specs.Faults.{text_faults};
    ghost use Rattle.gj_rules.specs.Internal.RulesState.{core_of};
    ghost use Rattle.gj_rules.specs.Levels.{levels_within};
    ghost use Rattle.gj_rules.specs.Internal.LostObjects.{core_lost, root_of};
    ghost use Rattle.gj_rules.specs.Internal.FrameReading.{slots_in};
    ghost use Rattle.gj_rules.specs.Rules.{StandsFor};

    /// What the outermost open object has shown.
    fn outermost(&self) -> &MemberSlots
        ensures { slots_in result.now ≡ root_of (core_of self.now).top (core_of self.now).outer }
    {
        &self.frames[0].slots
    }

    fn is_lost(&self) -> bool
        ensures { result ≡ core_lost (core_of self.now) }
    {
        self.answer.fault.is_some() || self.outermost().is_lost()
    }

    /// Each text that has these events first has a fault.
    pub fn doomed(&self) -> bool
        ensures sound { (text : Text) (bytes : List ℕ) (n : ℕ) → IsText text bytes → depth text.value ≤ levels_within FRAMES
            → StandsFor self.now (events_by n text)
            → result ≡ true → text_faults text ≡ [] → ⊥ }
        ensures early { (text : Text) (bytes : List ℕ) (n : ℕ) → IsText text bytes → depth text.value ≤ levels_within FRAMES
            → StandsFor self.now (events_by n text)
            → is_doomed (events_by n text) ≡ true → result ≡ true }
    {
        self.is_lost()
    }
}
