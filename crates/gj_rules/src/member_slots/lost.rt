//! Whether the object of a text can still become valid, whatever its members to come are.
ghost use Rattle.std.specs.Prelude.{◌≡◌};

use super::MemberSlots;
use super::member_rules::MemberRules;
use gj_json::Word;

impl MemberSlots {
    ghost use Rattle.gj_rules.specs.Internal.FrameReading.{slots_in};
    ghost use Rattle.gj_rules.specs.Internal.LostObjects.{fails_as, all_fail, is_lost};

    /// It has a fault as an object of this type; a missing member may still come.
    fn fails_as(&self, word: Word) -> bool
        ensures { result ≡ fails_as word (slots_in self.now) }
    {
        let rules = MemberRules::of(word).without_due();
        word == Word::Other
            || (self.members_fault(rules).is_some() || self.word_fault(word).is_some())
    }

    /// It has a fault as an object of each type.
    fn fails_as_any(&self) -> bool
        ensures { result ≡ all_fail (slots_in self.now) }
    {
        let collections = self.fails_as(Word::GeometryCollection)
            && (self.fails_as(Word::Feature) && self.fails_as(Word::FeatureCollection));
        let shapes = self.fails_as(Word::Polygon)
            && (self.fails_as(Word::MultiPolygon) && collections);
        self.fails_as(Word::Point)
            && (self.fails_as(Word::MultiPoint)
                && (self.fails_as(Word::LineString)
                    && (self.fails_as(Word::MultiLineString) && shapes)))
    }

    /// The object of a text has a fault, whatever its members to come are.
    pub fn is_lost(&self) -> bool
        ensures { result ≡ is_lost (slots_in self.now) }
    {
        let by_type = match self.type_value {
            Some(value) => self.fails_as(value.word),
            None => self.fails_as_any(),
        };
        self.repeated.is_some() || by_type
    }
}
