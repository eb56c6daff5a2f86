//! An event by its kind. In each of these functions the kind is known, so that only what it needs is looked at.
ghost use Rattle.std.specs.Prelude.{◌≡◌, ◌++◌, ◌∷◌, [], List, IsTrue};
ghost use Rattle.gj_json.specs.declared.event.Event.{Event};
ghost use Rattle.gj_json.specs.declared.event.What.TheVariants as W;

use super::FramedRules;
use crate::mode::Mode;
use gj_json::{Event, Known, What, Word};
use gj_number::Decimal;

impl<const FRAMES: usize> FramedRules<FRAMES> {
    ghost use Rattle.gj_rules.specs.Internal.RulesState.{Feeds};
    ghost use Rattle.gj_rules.specs.Rules.{StandsFor};

    #[inline(always)]
    pub(super) fn tell_what(&mut self, what: What, place: u64)
        ensures { (events : List Event) → StandsFor self.old events → StandsFor self.new (events ++ record { place = place; what = what } ∷ []) }
    {
        if self.is_feeding() {
            self.feed(&Event { place, what });
        } else {
            self.take(what, place);
        }
    }

    /// A name. Mostly it is one of an object with a role.
    #[inline(always)]
    pub(super) fn tell_member(&mut self, name: Known, place: u64)
        ensures { (events : List Event) → StandsFor self.old events → StandsFor self.new (events ++ record { place = place; what = W.Name name } ∷ []) }
    {
        if self.awaits(Mode::Names) {
            self.names(What::Name(name), place);
        } else {
            self.tell_inner_name(name, place);
        }
    }

    /// A name that is reported separately.
    #[inline(never)]
    pub(super) fn tell_name(&mut self, name: Known, place: u64)
        ensures { (events : List Event) → StandsFor self.old events → StandsFor self.new (events ++ record { place = place; what = W.Name name } ∷ []) }
    {
        self.tell_member(name, place);
    }

    #[inline(never)]
    fn tell_inner_name(&mut self, name: Known, place: u64)
        ensures { (events : List Event) → StandsFor self.old events → StandsFor self.new (events ++ record { place = place; what = W.Name name } ∷ []) }
    {
        self.tell_what(What::Name(name), place);
    }

    #[inline(never)]
    pub(super) fn tell_text(&mut self, word: Word, place: u64)
        ensures { (events : List Event) → StandsFor self.old events → StandsFor self.new (events ++ record { place = place; what = W.Text word } ∷ []) }
    {
        self.tell_what(What::Text(word), place);
    }

    /// A string right after a name `type`. Mostly it is the type of an object with a role.
    #[inline(always)]
    pub(super) fn tell_type_value(&mut self, word: Word, place: u64)
        ensures { (events : List Event) → StandsFor self.old events → StandsFor self.new (events ++ record { place = place; what = W.Text word } ∷ []) }
    {
        if self.awaits(Mode::Due(Known::TypeName)) {
            self.value(Known::TypeName, What::Text(word), place);
        } else {
            self.tell_text(word, place);
        }
    }

    #[inline(never)]
    pub(super) fn tell_open_object(&mut self, place: u64)
        ensures { (events : List Event) → StandsFor self.old events → StandsFor self.new (events ++ record { place = place; what = W.OpenObject } ∷ []) }
    {
        self.tell_what(What::OpenObject, place);
    }

    /// The end of an object. Mostly it is one with a role.
    #[inline(never)]
    pub(crate) fn tell_close_object(&mut self, place: u64)
        ensures { (events : List Event) → StandsFor self.old events → StandsFor self.new (events ++ record { place = place; what = W.CloseObject } ∷ []) }
    {
        if self.awaits(Mode::Names) {
            self.names(What::CloseObject, place);
        } else {
            self.tell_inner_close(place);
        }
    }

    #[inline(never)]
    fn tell_inner_close(&mut self, place: u64)
        ensures { (events : List Event) → StandsFor self.old events → StandsFor self.new (events ++ record { place = place; what = W.CloseObject } ∷ []) }
    {
        self.tell_what(What::CloseObject, place);
    }

    /// A number in the value of `coordinates`.
    fn feed_number(&mut self, value: &Option<Decimal>, place: u64)
        requires skipped { self.old.skipped ≡ 0 }
        requires mode { self.old.mode ≡ Mode.Due Known.Coordinates }
        ensures { Feeds self.old (record { place = place; what = W.Number value.now }) self.new }
    {
        self.coordinates.number(place, value);
        if self.coordinates.done() {
            self.end_coordinates();
        }
    }

    /// A number. Mostly it is one in a `coordinates`.
    #[inline(never)]
    fn tell_number(&mut self, value: &Option<Decimal>, place: u64)
        ensures { (events : List Event) → StandsFor self.old events → StandsFor self.new (events ++ record { place = place; what = W.Number value.now } ∷ []) }
    {
        if self.awaits(Mode::Due(Known::Coordinates)) {
            self.feed_number(value, place);
        } else {
            self.tell_inner_number(value, place);
        }
    }

    #[inline(never)]
    fn tell_inner_number(&mut self, value: &Option<Decimal>, place: u64)
        ensures { (events : List Event) → StandsFor self.old events → StandsFor self.new (events ++ record { place = place; what = W.Number value.now } ∷ []) }
    {
        self.tell_what(What::Number(*value), place);
    }

    /// The start of an array in the value of `coordinates`.
    fn feed_open_array(&mut self, place: u64)
        requires skipped { self.old.skipped ≡ 0 }
        requires mode { self.old.mode ≡ Mode.Due Known.Coordinates }
        ensures { Feeds self.old (record { place = place; what = W.OpenArray }) self.new }
    {
        self.coordinates.open_array(place);
        if self.coordinates.done() {
            self.end_coordinates();
        }
    }

    /// The end of an array in the value of `coordinates`.
    fn feed_close_array(&mut self, place: u64)
        requires skipped { self.old.skipped ≡ 0 }
        requires mode { self.old.mode ≡ Mode.Due Known.Coordinates }
        ensures { Feeds self.old (record { place = place; what = W.CloseArray }) self.new }
    {
        self.coordinates.close_array(place);
        if self.coordinates.done() {
            self.end_coordinates();
        }
    }

    /// The start of an array. Mostly it is one in a `coordinates`.
    #[inline(never)]
    pub(super) fn tell_open_array(&mut self, place: u64)
        ensures { (events : List Event) → StandsFor self.old events → StandsFor self.new (events ++ record { place = place; what = W.OpenArray } ∷ []) }
    {
        if self.awaits(Mode::Due(Known::Coordinates)) {
            self.feed_open_array(place);
        } else {
            self.tell_inner_open_array(place);
        }
    }

    #[inline(never)]
    fn tell_inner_open_array(&mut self, place: u64)
        ensures { (events : List Event) → StandsFor self.old events → StandsFor self.new (events ++ record { place = place; what = W.OpenArray } ∷ []) }
    {
        self.tell_what(What::OpenArray, place);
    }

    /// The end of an array. Mostly it is one in a `coordinates`.
    #[inline(never)]
    pub(super) fn tell_close_array(&mut self, place: u64)
        ensures { (events : List Event) → StandsFor self.old events → StandsFor self.new (events ++ record { place = place; what = W.CloseArray } ∷ []) }
    {
        if self.awaits(Mode::Due(Known::Coordinates)) {
            self.feed_close_array(place);
        } else {
            self.tell_inner_close_array(place);
        }
    }

    #[inline(never)]
    fn tell_inner_close_array(&mut self, place: u64)
        ensures { (events : List Event) → StandsFor self.old events → StandsFor self.new (events ++ record { place = place; what = W.CloseArray } ∷ []) }
    {
        self.tell_what(What::CloseArray, place);
    }

    /// A null, as `geometry` and `properties` often are.
    #[inline(never)]
    fn tell_null(&mut self, place: u64)
        ensures { (events : List Event) → StandsFor self.old events → StandsFor self.new (events ++ record { place = place; what = W.Null } ∷ []) }
    {
        self.tell_what(What::Null, place);
    }

    /// A number, a null, or another event.
    #[inline(always)]
    pub(super) fn tell_rest(&mut self, event: Event)
        ensures { (events : List Event) → StandsFor self.old events → StandsFor self.new (events ++ event ∷ []) }
    {
        match &event.what {
            What::Number(value) => self.tell_number(value, event.place),
            What::Null => self.tell_null(event.place),
            _ => self.tell_other(event),
        }
    }

    #[inline(never)]
    fn tell_other(&mut self, event: Event)
        ensures { (events : List Event) → StandsFor self.old events → StandsFor self.new (events ++ event ∷ []) }
    {
        self.tell_what(event.what, event.place);
    }
}
