//! Where in the features of a text the next event stands, and what is found in a feature that ends.
ghost use Rattle.std.specs.Prelude.{◌≡◌, ◌++◌, ◌∷◌, [], ℕ, List, true, IsTrue};
ghost use Rattle.gj_json.specs.declared.event.Event.{Event};
ghost use Rattle.gj_json.specs.declared.event.What.TheVariants as W;
ghost use Rattle.gj_rules.specs.Internal.FeatureSteps.{no_feature};

use super::FramedRules;
use crate::feature::Feature;
use crate::findings::Findings;
use crate::mode::Mode;
use crate::role::Role;
use gj_coords::{Fault, Rule, Warnings};
use gj_json::Known;

/// An element that is no object.
pub(crate) fn no_feature(index: u64, place: u64, close: Option<u64>) -> Feature
    ensures { result ≡ no_feature index place close }
{
    Feature {
        index,
        place,
        close,
        id: None,
        fault: Some(Fault {
            place,
            rule: Rule::G1,
        }),
        warnings: Warnings::none(),
    }
}

impl<const FRAMES: usize> FramedRules<FRAMES> {
    ghost use Rattle.gj_rules.specs.Internal.FeatureSteps.{lists, at_element, in_array, is_feature, at_id, at_end, feature_found};
    ghost use Rattle.gj_rules.specs.Internal.EventSteps.{is_feeding};
    ghost use Rattle.gj_rules.specs.Internal.FrameCalls.{settled};
    ghost use Rattle.gj_rules.specs.Internal.RulesState.{core_of};
    ghost use Rattle.gj_rules.specs.Internal.Summaries.{none_found};
    ghost use Rattle.gj_rules.specs.Rules.{StandsFor};

    /// Whether the array of the first `features` is open, and no object in it.
    #[inline(always)]
    pub(crate) fn lists_features(&self) -> bool
        ensures { result ≡ lists self.now.mode }
    {
        match self.mode {
            Mode::Elements(Role::Feature) => true,
            _ => false,
        }
    }

    /// Whether an element of it begins next, or it ends.
    #[inline(always)]
    pub(crate) fn awaits_feature(&self) -> bool
        ensures { result ≡ at_element self.now.skipped self.now.mode }
    {
        self.skipped == 0 && self.lists_features()
    }

    /// Whether the end of an array that comes next is that of an element of it.
    #[inline(always)]
    pub(crate) fn ends_array_feature(&self) -> bool
        ensures { result ≡ in_array self.now.skipped self.now.mode }
    {
        self.skipped == 1 && self.lists_features()
    }

    /// Whether the innermost open object with a role is a feature.
    #[inline(always)]
    fn is_feature(&self) -> bool
        ensures { result ≡ is_feature (core_of self.now).top.slots.role }
    {
        match self.role() {
            Role::Feature => true,
            _ => false,
        }
    }

    /// Whether the value of the first `id` of a feature begins next.
    #[inline(always)]
    pub(crate) fn awaits_id(&self) -> bool
        ensures { result ≡ at_id self.now.skipped self.now.mode (core_of self.now).top.slots.role }
    {
        match self.mode {
            Mode::Due(Known::Id) => self.skipped == 0 && self.is_feature(),
            _ => false,
        }
    }

    /// Whether the end of an object that comes next is that of a feature.
    #[inline(always)]
    pub(crate) fn ends_feature(&self) -> bool
        ensures { result ≡ at_end self.now.skipped self.now.mode (core_of self.now).top.slots.role }
    {
        match self.mode {
            Mode::Names => self.skipped == 0 && self.is_feature(),
            _ => false,
        }
    }

    /// Whether a value is under way in which nothing has a role.
    #[inline(always)]
    pub(crate) fn is_in_value(&self) -> bool
        ensures { IsTrue result → self.now.skipped ≡ 0 → is_feeding self.now.skipped self.now.mode ≡ true }
    {
        self.skipped > 0 || self.is_feeding()
    }

    /// Where the innermost open object with a role begins.
    #[inline(always)]
    pub(crate) fn place(&self) -> u64
        ensures { result ≡ (core_of self.now).top.slots.place }
    {
        self.frames[self.around as usize].slots.place
    }

    /// Whether a few looks show that nothing is found in a feature that ends.
    #[inline]
    pub(crate) fn is_clean_feature(&self) -> bool
        ensures { IsTrue result → settled (core_of self.now).top ≡ none_found }
    {
        self.frames[self.around as usize].is_clean_element()
    }

    /// The end of such a feature.
    pub(crate) fn close_clean(&mut self)
        requires skipped { self.old.skipped ≡ 0 }
        requires mode { self.old.mode ≡ Mode.Names }
        requires clean { settled (core_of self.old).top ≡ none_found }
        ensures { (place : ℕ) (events : List Event) → StandsFor self.old events
            → StandsFor self.new (events ++ record { place = place; what = W.CloseObject } ∷ []) }
    {
        self.pop_clean();
    }

    /// The feature whose object closes here.
    pub(crate) fn feature_found(&self, index: u64, close: u64, id: Option<u64>) -> Feature
        ensures { result ≡ feature_found (settled (core_of self.now).top) index (core_of self.now).top.slots.place close id }
    {
        let mut found = Findings::none();
        self.settle(&mut found);
        let warnings = match found.fault {
            None => found.warned.all(),
            Some(_) => Warnings::none(),
        };
        Feature {
            index,
            place: self.place(),
            close: Some(close),
            id,
            fault: found.fault,
            warnings,
        }
    }
}
