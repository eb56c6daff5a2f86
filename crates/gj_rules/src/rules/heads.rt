//! Beginnings of objects that are reported as one event.

ghost use Rattle.std.specs.Prelude.{◌≡◌, ◌+◌, ◌++◌, ◌∷◌, [], List, IsTrue};
ghost use Rattle.gj_json.specs.declared.event.Event.{Event};
ghost use Rattle.gj_json.specs.declared.event.What.TheVariants as W;
ghost use Rattle.gj_json.specs.Head.{typed_events, located_events, opened_events};

use super::FramedRules;
use crate::mode::Mode;
use crate::role::Role;
use gj_json::{Known, Located, Opened, Typed, What};

impl<const FRAMES: usize> FramedRules<FRAMES> {
    ghost use Rattle.gj_rules.specs.Rules.{StandsFor};

    /// A geometry opens.
    #[inline(always)]
    fn open_geometry(&mut self, place: u64)
        requires skipped { self.old.skipped ≡ 0 }
        requires mode { self.old.mode ≡ Mode.Due Known.Geometry }
        ensures { (events : List Event) → StandsFor self.old events → StandsFor self.new (events ++ record { place = place; what = W.OpenObject } ∷ []) }
    {
        self.push_frame(Role::Geometry, place);
    }

    /// A feature opens.
    #[inline(always)]
    fn open_feature(&mut self, place: u64)
        requires skipped { self.old.skipped ≡ 0 }
        requires mode { self.old.mode ≡ Mode.Elements Role.Feature }
        ensures { (events : List Event) → StandsFor self.old events → StandsFor self.new (events ++ record { place = place; what = W.OpenObject } ∷ []) }
    {
        self.push_frame(Role::Feature, place);
    }

    /// The type of the object that has just opened.
    #[inline(always)]
    fn tell_type(&mut self, typed: &Typed)
        ensures { (events : List Event) → StandsFor self.old events
            → StandsFor self.new (events ++ record { place = typed.now.name_at; what = W.Name Known.TypeName }
            ∷ record { place = typed.now.word_at; what = W.Text typed.now.word } ∷ []) }
    {
        self.tell_member(Known::TypeName, typed.name_at);
        self.tell_type_value(typed.word, typed.word_at);
    }

    /// The beginning of an object. Mostly it is a feature.
    #[inline(never)]
    pub(crate) fn tell_typed(&mut self, typed: &Typed)
        ensures { (events : List Event) → StandsFor self.old events → StandsFor self.new (events ++ typed_events typed.now) }
    {
        if self.awaits(Mode::Elements(Role::Feature)) {
            self.open_feature(typed.place);
            self.tell_type(typed);
        } else {
            self.tell_inner_typed(typed);
        }
    }

    #[inline(never)]
    fn tell_inner_typed(&mut self, typed: &Typed)
        ensures { (events : List Event) → StandsFor self.old events → StandsFor self.new (events ++ typed_events typed.now) }
    {
        self.tell_open_object(typed.place);
        self.tell_name(Known::TypeName, typed.name_at);
        self.tell_text(typed.word, typed.word_at);
    }

    /// The beginning of a member `geometry`. Mostly it is the first one of a feature.
    #[inline(never)]
    pub(crate) fn tell_located(&mut self, located: &Located)
        ensures { (events : List Event) → StandsFor self.old events → StandsFor self.new (events ++ located_events located.now) }
    {
        self.tell_member(Known::Geometry, located.place);
        if self.awaits(Mode::Due(Known::Geometry)) {
            self.open_geometry(located.typed.place);
            self.tell_type(&located.typed);
        } else {
            self.tell_inner_typed(&located.typed);
        }
        self.tell_member(Known::Coordinates, located.coordinates);
    }

    /// The object of a member `properties` opens.
    #[inline(always)]
    fn open_properties(&mut self, place: u64)
        requires skipped { self.old.skipped ≡ 0 }
        requires mode { self.old.mode ≡ Mode.Due Known.Properties }
        ensures { (events : List Event) → StandsFor self.old events → StandsFor self.new (events ++ record { place = place; what = W.OpenObject } ∷ []) }
    {
        self.begin(Known::Properties, What::OpenObject, place);
    }

    /// The beginning of a member `properties`. Mostly it is the first one of a feature.
    #[inline(always)]
    pub(crate) fn tell_properties(&mut self, opened: &Opened)
        ensures { (events : List Event) → StandsFor self.old events → StandsFor self.new (events ++ opened_events opened.now) }
    {
        self.tell_member(Known::Properties, opened.place);
        if self.awaits(Mode::Due(Known::Properties)) {
            self.open_properties(opened.bracket);
        } else {
            self.tell_open_object(opened.bracket);
        }
    }
}
