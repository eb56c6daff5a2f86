//! What is found of an object with a role at its close.
ghost use Rattle.std.specs.Prelude.{◌≡◌, IsTrue};

use super::member_rules::{MemberRules, is_among, missing};
use super::{MemberSlots, Shaped};
use crate::shapes::simple_of;
use gj_coords::{Fault, Rule, Simple, Warned, lesser_fault};
use gj_json::{Known, Word};

impl MemberSlots {
    ghost use Rattle.gj_rules.specs.Internal.FrameReading.{slots_in, repeated_in};
    ghost use Rattle.gj_coords.specs.Internal.KeptWarnings.{joined};
    ghost use Rattle.gj_coords.specs.Internal.GatheredWarnings.{all_in};
    ghost use Rattle.gj_rules.specs.Members.{is_known};
    ghost use Rattle.gj_rules.specs.Internal.Summaries.{shape_for, warned_for};
    ghost use Rattle.gj_rules.specs.Members.{simple_of};
    ghost use Rattle.gj_rules.specs.Internal.OpenMembers.{fault_of, members_fault, shape_as, as_none, rest_by, settled};

    /// The fault of the first `coordinates` for one type.
    #[tactic(auto, using(crate::proofs::Objects::AskedShapes::no_fault, crate::proofs::Objects::AskedShapes::one_fault))]
    pub(super) fn shape_fault(&self, simple: Simple) -> Option<Fault>
        ensures { result ≡ shape_for simple (slots_in self.now).shapes }
    {
        match self.shaped {
            Shaped::One => self.shapes.one_fault(),
            Shaped::Each => self.shapes.fault(simple),
            Shaped::No => None,
        }
    }

    /// The fault of the first `coordinates` for an object's type, where it has coordinates.
    #[inline(always)]
    pub(super) fn word_fault(&self, word: Word) -> Option<Fault>
        ensures { result ≡ shape_as (simple_of word) (slots_in self.now).shapes }
    {
        match simple_of(word) {
            Some(simple) => self.shape_fault(simple),
            None => None,
        }
    }

    /// Adds the warnings of the first `coordinates` for one type.
    #[tactic(auto, using(crate::proofs::Objects::AskedShapes::no_warnings_more, crate::proofs::Objects::AskedShapes::one_warned))]
    pub fn warn_shape(&self, simple: Simple, warned: &mut Warned)
        ensures { all_in warned.new ≡ joined (all_in warned.old) (warned_for simple (slots_in self.now).shapes) }
    {
        match self.shaped {
            Shaped::One => warned.take(&self.shapes.point_or_one),
            Shaped::Each => warned.take(self.shapes.warned(simple)),
            Shaped::No => {}
        }
    }

    /// What is wrong with the first member of a name, or that there is none.
    fn fault_of(&self, name: Known, rules: MemberRules) -> Option<Fault>
        requires { IsTrue (is_known name) }
        ensures { result ≡ fault_of name rules (slots_in self.now) }
    {
        match self.slot(name) {
            None => if is_among(rules.due, name) {
                Some(Fault {
                    place: self.place,
                    rule: missing(name),
                })
            } else {
                None
            },
            Some(slot) => if is_among(rules.forbidden, name) {
                Some(Fault {
                    place: slot.name_at,
                    rule: Rule::G9,
                })
            } else if is_among(rules.used, name) {
                slot.fault
            } else {
                None
            },
        }
    }

    /// The least that is wrong with the members.
    #[tactic(auto, unfolding(crate::specs::Internal::OpenMembers::members_fault))]
    pub(super) fn members_fault(&self, rules: MemberRules) -> Option<Fault>
        ensures { result ≡ members_fault rules (slots_in self.now) }
    {
        let least = self.fault_of(Known::Id, rules);
        let least = lesser_fault(self.fault_of(Known::Features, rules), least);
        let least = lesser_fault(self.fault_of(Known::Properties, rules), least);
        let least = lesser_fault(self.fault_of(Known::Geometry, rules), least);
        let least = lesser_fault(self.fault_of(Known::Geometries, rules), least);
        let least = lesser_fault(self.fault_of(Known::Coordinates, rules), least);
        lesser_fault(self.fault_of(Known::Bbox, rules), least)
    }

    /// Where the type is missing or wrong, which is this fault.
    #[tactic(auto, using(crate::proofs::Objects::MetRules::none_by))]
    fn as_none(&self, fault: Fault) -> Option<Fault>
        ensures { result ≡ as_none fault (slots_in self.now) }
    {
        if self.meets(Word::Other) {
            return Some(fault);
        }
        lesser_fault(
            self.members_fault(MemberRules::of(Word::Other)),
            Some(fault),
        )
    }

    fn rest(&self) -> Option<Fault>
        ensures { result ≡ rest_by self.now.type_value (slots_in self.now) }
    {
        match self.type_value {
            None => self.as_none(Fault {
                place: self.place,
                rule: Rule::G2,
            }),
            Some(value) => if self.role.allows(value.word) {
                lesser_fault(
                    self.members_fault(MemberRules::of(value.word)),
                    self.word_fault(value.word),
                )
            } else {
                self.as_none(Fault {
                    place: value.place,
                    rule: Rule::G3,
                })
            },
        }
    }

    fn repeated(&self) -> Option<Fault>
        ensures { result ≡ repeated_in self.now.repeated }
    {
        match self.repeated {
            Some(place) => Some(Fault {
                place,
                rule: Rule::G10,
            }),
            None => None,
        }
    }

    /// The least fault of the object, at its close.
    pub fn settle(&self) -> Option<Fault>
        ensures { result ≡ settled (slots_in self.now) }
    {
        if self.is_sound() {
            None
        } else {
            self.least_fault()
        }
    }

    #[inline(never)]
    fn least_fault(&self) -> Option<Fault>
        ensures { result ≡ settled (slots_in self.now) }
    {
        lesser_fault(self.repeated(), self.rest())
    }
}
