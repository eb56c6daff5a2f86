//! What is found of an object with a role at its close.
ghost use Rattle.std.specs.Prelude.{◌≡◌, IsTrue};

use super::Frame;
use crate::findings::Findings;
use crate::role::Role;
use gj_coords::{Kind, Simple, Warned};
use gj_json::Word;

impl Frame {
    ghost use Rattle.gj_coords.specs.Internal.KeptWarnings.{joined};
    ghost use Rattle.gj_coords.specs.Internal.GatheredWarnings.{all_in};
    ghost use Rattle.gj_rules.specs.Internal.FrameReading.{frame_in, found_in, counted_in};
    ghost use Rattle.gj_rules.specs.Internal.FrameCalls.{collected, warned_as, warned_by, settled};
    ghost use Rattle.gj_rules.specs.Internal.Summaries.{none_found};
    ghost use Rattle.gj_rules.specs.declared.role.Role.{Role};

    /// Adds those of a GeometryCollection: of its geometries, and that it is one of another's (RFC 7946, section 3.1.8).
    #[tactic(auto, using(crate::proofs::Objects::WarningsInTurn::and_one))]
    fn warn_collected(&self, warned: &mut Warned)
        ensures { all_in warned.new ≡ joined (all_in warned.old)
            (collected self.now.slots.role self.now.slots.place (counted_in self.now.gathered.geometries)) }
    {
        self.gathered.geometries.add_to(warned);
        match self.slots.role {
            Role::Part => warned.note(Kind::W7, self.slots.place),
            _ => {}
        }
    }

    /// Adds those that depend on its type, as one of this type.
    #[tactic(auto, using(crate::proofs::Objects::WarningsInTurn::with_none))]
    fn warn_as(&self, word: Word, warned: &mut Warned)
        ensures { all_in warned.new ≡ joined (all_in warned.old) (warned_as word (frame_in self.now)) }
    {
        match word {
            Word::Point => self.slots.warn_shape(Simple::Point, warned),
            Word::MultiPoint => self.slots.warn_shape(Simple::MultiPoint, warned),
            Word::LineString => self.slots.warn_shape(Simple::LineString, warned),
            Word::MultiLineString => self.slots.warn_shape(Simple::MultiLineString, warned),
            Word::Polygon => self.slots.warn_shape(Simple::Polygon, warned),
            Word::MultiPolygon => self.slots.warn_shape(Simple::MultiPolygon, warned),
            Word::GeometryCollection => self.warn_collected(warned),
            Word::Feature => self.gathered.geometry.add_to(warned),
            Word::FeatureCollection => self.gathered.features.add_to(warned),
            Word::Other => {}
        }
    }

    /// Adds those that depend on its type.
    #[tactic(auto, using(crate::proofs::Objects::WarningsInTurn::with_none))]
    fn warn_by_type(&self, warned: &mut Warned)
        ensures { all_in warned.new ≡ joined (all_in warned.old) (warned_by self.now.slots.type_value (frame_in self.now)) }
    {
        if let Some(value) = self.slots.type_value {
            if self.slots.role.allows(value.word) {
                self.warn_as(value.word, warned);
            }
        }
    }

    /// Whether a few looks show that nothing is found in the object, as mostly nothing is.
    #[inline]
    pub fn is_clean(&self) -> bool
        ensures { IsTrue result → settled (frame_in self.now) ≡ none_found }
    {
        self.gathered.is_nothing()
            && (self.slots.is_unwarned() && (!self.slots.is_nested() && self.slots.is_sound()))
    }

    /// Whether nothing is found in an object that stands as a feature. With its role and its type known, fewer looks show it.
    #[inline]
    pub fn is_clean_element(&self) -> bool
        ensures role { IsTrue result → self.now.slots.role ≡ Role.Feature }
        ensures clean { IsTrue result → settled (frame_in self.now) ≡ none_found }
    {
        self.gathered.is_nothing() && (self.slots.is_unwarned() && self.slots.is_sound_element())
    }

    /// Sets what is found in the object, at its close.
    #[tactic(auto, using(crate::proofs::Objects::WarningsInTurn::to_none))]
    pub fn settle(&self, found: &mut Findings)
        ensures { found_in found.new ≡ settled (frame_in self.now) }
    {
        found.fault = self.slots.settle();
        found.warned.clear();
        self.gathered.own.add_to(&mut found.warned);
        self.warn_by_type(&mut found.warned);
    }
}
