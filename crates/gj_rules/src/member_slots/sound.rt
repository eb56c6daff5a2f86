//! Whether an object with a role has a fault, which a few checks show. Mostly it has none.
ghost use Rattle.std.specs.Prelude.{◌≡◌, IsTrue, is_none};

use super::member_rules::MemberRules;
use super::{MemberSlots, Shaped};
use crate::role::Role;
use gj_json::Word;

impl MemberSlots {
    ghost use Rattle.gj_rules.specs.Internal.FrameReading.{slots_in, looks_unwarned};
    ghost use Rattle.gj_rules.specs.Internal.MemberRules.{rules_of};
    ghost use Rattle.gj_rules.specs.Internal.OpenMembers.{members_fault, as_type, settled};
    ghost use Rattle.gj_coords.specs.declared.simple.Simple.{Simple};
    ghost use Rattle.gj_coords.specs.Internal.KeptWarnings.{no_warnings};
    ghost use Rattle.gj_rules.specs.Internal.Summaries.{warned_for};
    ghost use Rattle.gj_rules.specs.Internal.FrameCalls.{is_nested};
    ghost use Rattle.gj_rules.specs.declared.role.Role.{Role};

    /// Whether the members are those that a type asks for, and nothing is wrong with any.
    #[inline(always)]
    pub(super) fn meets(&self, word: Word) -> bool
        ensures { result ≡ is_none (members_fault (rules_of word) (slots_in self.now)) }
    {
        let rules = MemberRules::of(word);
        self.present & rules.due == rules.due
            && (self.present & rules.forbidden == 0 && self.present & self.faulty & rules.used == 0)
    }

    #[tactic(auto, using(crate::proofs::Objects::MetRules::none_lesser))]
    #[inline(always)]
    fn is_sound_as(&self, word: Word) -> bool
        ensures { result ≡ is_none (as_type word (slots_in self.now)) }
    {
        self.meets(word) && self.word_fault(word).is_none()
    }

    /// Whether nothing is wrong with the object, as mostly nothing is: a few checks show.
    #[tactic(auto, using(crate::proofs::Objects::MetRules::none_lesser))]
    #[inline(always)]
    pub fn is_sound(&self) -> bool
        ensures { result ≡ is_none (settled (slots_in self.now)) }
    {
        match self.type_value {
            Some(value) => {
                self.repeated.is_none()
                    && (self.role.allows(value.word) && self.is_sound_as(value.word))
            }
            None => false,
        }
    }

    /// Whether it stands as a feature, and nothing is wrong with it. With its role and its type known, fewer looks tell.
    #[inline]
    pub fn is_sound_element(&self) -> bool
        ensures role { IsTrue result → self.now.role ≡ Role.Feature }
        ensures none { self.now.role ≡ Role.Feature → result ≡ is_none (settled (slots_in self.now)) }
    {
        match (self.role, self.type_value) {
            (Role::Feature, Some(value)) => {
                value.word == Word::Feature
                    && (self.repeated.is_none() && self.is_sound_as(Word::Feature))
            }
            _ => false,
        }
    }

    /// Whether a look shows that its coordinates give no warning, whatever the type.
    #[tactic(auto, using(crate::proofs::Objects::AskedShapes::no_warnings_for, crate::proofs::Objects::AskedShapes::one_warned))]
    pub fn is_unwarned(&self) -> bool
        ensures exact { result ≡ looks_unwarned self.now.shaped self.now.shapes }
        ensures none { IsTrue result → (simple : Simple) → warned_for simple (slots_in self.now).shapes ≡ no_warnings }
    {
        match self.shaped {
            Shaped::No => true,
            Shaped::One => self.shapes.point_or_one.is_nothing(),
            Shaped::Each => false,
        }
    }

    /// Whether it is a GeometryCollection of another's geometries.
    pub fn is_nested(&self) -> bool
        ensures { result ≡ is_nested self.now.role self.now.type_value }
    {
        match (self.role, self.type_value) {
            (Role::Part, Some(value)) => value.word == Word::GeometryCollection,
            _ => false,
        }
    }
}
