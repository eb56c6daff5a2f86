//! Rules that report each feature as it ends.
ghost use Rattle.std.specs.Prelude.{◌≡◌, ℕ, suc, ◌<◌, ◌≤◌, ◌^◌, [], ◌∷◌, ◌++◌, List, length, true, None};
ghost use Rattle.gj_json.specs.declared.event.Event.{Event};
ghost use Rattle.gj_json.specs.declared.event.What.TheVariants as W;

use crate::feature::{CleanFeature, Feature, FeatureSink, ForgetfulSink};
use crate::mode::Mode;
use crate::rules::Rules;
use crate::rules::features::no_feature;
use gj_json::{CutPosition, Event, EventSink, Flat, Head, Known, LatePoint, Located, What};

/// What is kept from one event to the next, so that each feature can be reported with its number and its `id`.
#[derive(Clone, Copy)]
pub struct FeatureCount {
    /// How many features have ended.
    pub index: u64,
    /// Where the value of the first `id` of the open feature begins, or the feature itself where it is an array.
    pub begun: Option<u64>,
}

impl FeatureCount {
    /// Before the first feature.
    fn new() -> Self
        ensures index { result.index ≡ 0 }
        ensures begun { result.begun ≡ None }
    {
        FeatureCount {
            index: 0,
            begun: None,
        }
    }

    /// After the end of a feature.
    #[inline(always)]
    fn end(&mut self)
        ensures index { self.old.index < 2 ^ 63 → self.new.index ≡ suc self.old.index }
        ensures begun { self.new.begun ≡ None }
    {
        self.index = self.index.wrapping_add(1);
        self.begun = None;
    }
}

/// Rules that report what is found in each feature of a text, with the last event of the feature.
///
/// A feature is an element of the array that the first `features` of the text's object holds (RFC 7946, section 3.3),
/// whatever that object's type says and wherever it stands.
#[derive(Drop)]
pub struct FeatureRules<S> {
    rules: Rules,
    count: FeatureCount,
    sink: S,
}

impl<S: FeatureSink> FeatureRules<S> {
    ghost use Rattle.gj_json.specs.Events.{all_events, events_by};
    ghost use Rattle.gj_json.specs.Head.{point_events};
    ghost use Rattle.gj_json.specs.Text.{IsText};
    ghost use Rattle.gj_json.specs.Tree.{Text, depth};
    ghost use Rattle.gj_json.specs.declared.names.Word.{Word};
    ghost use Rattle.gj_rules.specs.declared.feature.Feature.{Feature};
    ghost use Rattle.gj_rules.specs.CleanFeature.{feature_of};
    ghost use Rattle.gj_rules.specs.Levels.{most_levels};
    ghost use Rattle.gj_rules.specs.Rules.{StandsFor as RulesStandFor};
    ghost use Rattle.gj_rules.specs.Internal.FeatureSteps.{Stand, Heard, IsHeard, features_by, ended, hear_at, at_end, no_feature};
    ghost use Rattle.gj_rules.specs.Internal.RulesState.{core_of};

    /// Before the first event of a text.
    pub fn new(sink: S) -> Self
        ensures stands { S.told sink [] → Stand (S.told result.sink) result.rules result.count [] }
        ensures sink { result.sink ≡ sink }
    {
        FeatureRules {
            rules: Rules::new(),
            count: FeatureCount::new(),
            sink,
        }
    }

    /// The rules, to which the same events were reported.
    pub fn rules(&self) -> &Rules
        ensures { (events : List Event) → Stand (S.told self.now.sink) self.now.rules self.now.count events → RulesStandFor result.now events }
    {
        &self.rules
    }

    /// What the features were reported to: those that are complete in the first bytes of a text of fewer than 2^63 events.
    pub fn sink(&self) -> &S
        ensures value { result.now ≡ self.now.sink }
        ensures told { (text : Text) (bytes : List ℕ) (n : ℕ) → IsText text bytes → depth text.value ≤ most_levels → length (all_events text) < 2 ^ 63
            → Stand (S.told self.now.sink) self.now.rules self.now.count (events_by n text) → S.told result.now (features_by n text) }
    {
        &self.sink
    }

    /// What the features were reported to.
    pub(crate) fn into_sink(self) -> S
        ensures { result ≡ self.sink }
    {
        self.sink
    }

    /// Reports what follows to another sink, and returns the one that had the features before. What holds of these must hold of both.
    pub(crate) fn set_sink(&mut self, sink: S) -> S
        ensures stands { ((features : List Feature) → S.told self.old.sink features → S.told sink features) → (events : List Event)
            → Stand (S.told self.old.sink) self.old.rules self.old.count events → Stand (S.told self.new.sink) self.new.rules self.new.count events }
        ensures sink { self.new.sink ≡ sink }
        ensures old { result ≡ self.old.sink }
    {
        std::mem::replace(&mut self.sink, sink)
    }

    /// A feature ends in which this is found.
    fn tell_ended(&mut self, feature: &Feature)
        ensures rules { self.new.rules ≡ self.old.rules }
        ensures heard { (at : ℕ) (h : Heard) → length h.told < 2 ^ 63 → IsHeard (S.told self.old.sink) self.old.count h
            → IsHeard (S.told self.new.sink) self.new.count (ended at feature.now h) }
    {
        self.sink.tell_feature(feature);
        self.count.end();
    }

    /// A feature ends in which nothing is found.
    #[inline(always)]
    fn tell_clean(&mut self, clean: &CleanFeature)
        ensures rules { self.new.rules ≡ self.old.rules }
        ensures heard { (at : ℕ) (h : Heard) → length h.told < 2 ^ 63 → IsHeard (S.told self.old.sink) self.old.count h
            → IsHeard (S.told self.new.sink) self.new.count (ended at (feature_of clean.now) h) }
    {
        self.sink.tell_clean(clean);
        self.count.end();
    }

    /// An element ends that is no object.
    #[inline(never)]
    fn tell_no_feature(&mut self, place: u64, close: Option<u64>)
        ensures rules { self.new.rules ≡ self.old.rules }
        ensures heard { (at : ℕ) (h : Heard) → length h.told < 2 ^ 63 → IsHeard (S.told self.old.sink) self.old.count h
            → IsHeard (S.told self.new.sink) self.new.count (ended at (no_feature (length h.told) place close) h) }
    {
        self.tell_ended(&no_feature(self.count.index, place, close));
    }

    /// What an event does to the features, but for the end of an object, as the rules stand before it.
    // Where the kind is known, this is a look or two.
    #[inline(always)]
    fn hear(&mut self, what: &What, place: u64)
        requires open { what.now ≡ W.CloseObject → ⊥ }
        ensures rules { self.new.rules ≡ self.old.rules }
        ensures heard { (at : ℕ) (h : Heard) → length h.told < 2 ^ 63 → IsHeard (S.told self.old.sink) self.old.count h
            → IsHeard (S.told self.new.sink) self.new.count
            (hear_at self.old.rules.skipped self.old.rules.mode (core_of self.old.rules).top what.now place at h) }
    {
        match what {
            What::Name(_) | What::CloseObject => {}
            What::CloseArray => {
                if self.rules.ends_array_feature() {
                    self.tell_no_feature(self.count.begun.unwrap_or(0), Some(place));
                }
            }
            What::OpenObject => {
                if self.rules.awaits_id() {
                    self.count.begun = Some(place);
                }
            }
            What::OpenArray => {
                if self.rules.awaits_id() || self.rules.awaits_feature() {
                    self.count.begun = Some(place);
                }
            }
            _ => {
                if self.rules.awaits_id() {
                    self.count.begun = Some(place);
                }
                if self.rules.awaits_feature() {
                    self.tell_no_feature(place, None);
                }
            }
        }
    }

    /// A feature ends that is an object. Mostly nothing is found in it.
    #[inline(never)]
    fn tell_end(&mut self, place: u64)
        requires ends { at_end self.old.rules.skipped self.old.rules.mode (core_of self.old.rules).top.slots.role ≡ true }
        ensures { (events : List Event) → Stand (S.told self.old.sink) self.old.rules self.old.count events
            → Stand (S.told self.new.sink) self.new.rules self.new.count (events ++ record { place = place; what = W.CloseObject } ∷ []) }
    {
        if self.rules.is_clean_feature() {
            let clean = CleanFeature {
                index: self.count.index,
                place: self.rules.place(),
                close: place,
                id: self.count.begun,
            };
            self.rules.close_clean();
            self.tell_clean(&clean);
        } else {
            let feature = self
                .rules
                .feature_found(self.count.index, place, self.count.begun);
            self.rules.tell_close_object(place);
            self.tell_ended(&feature);
        }
    }

    /// The end of an object.
    #[inline(always)]
    fn tell_close_object(&mut self, place: u64)
        ensures { (events : List Event) → Stand (S.told self.old.sink) self.old.rules self.old.count events
            → Stand (S.told self.new.sink) self.new.rules self.new.count (events ++ record { place = place; what = W.CloseObject } ∷ []) }
    {
        if self.rules.ends_feature() {
            self.tell_end(place);
        } else {
            self.rules.tell_close_object(place);
        }
    }

    /// An event that is not the end of an object.
    #[inline(always)]
    fn tell_heard(&mut self, event: Event)
        requires open { event.what ≡ W.CloseObject → ⊥ }
        ensures { (events : List Event) → Stand (S.told self.old.sink) self.old.rules self.old.count events
            → Stand (S.told self.new.sink) self.new.rules self.new.count (events ++ event ∷ []) }
    {
        self.hear(&event.what, event.place);
        self.rules.tell(event);
    }

    /// A whole Point where it is no first `geometry` of a feature, by its beginning, its position and its end.
    #[inline(never)]
    fn tell_point_in_turn(&mut self, located: &Located, flat: &Flat, close: u64)
        ensures { (events : List Event) → Stand (S.told self.old.sink) self.old.rules self.old.count events
            → Stand (S.told self.new.sink) self.new.rules self.new.count (events ++ point_events located.now flat.now close) }
    {
        self.tell_head(Head::Geometry(*located));
        self.tell_flat(flat);
        self.tell_close_object(close);
    }
}

impl<S: ForgetfulSink> FeatureRules<S> {
    ghost use Rattle.gj_rules.specs.Internal.FeatureSteps.{Stand};

    /// Before the first event of another text, whatever was reported: little is written, and the sink forgets.
    pub(crate) fn begin_again(&mut self)
        ensures { Stand (S.told self.new.sink) self.new.rules self.new.count [] }
    {
        self.rules.begin_again();
        self.count = FeatureCount::new();
        self.sink.forget();
    }
}

impl<S: FeatureSink> EventSink for FeatureRules<S> {
    ghost use Rattle.gj_rules.specs.Internal.FeatureSteps.{Stand, ignored_of, lists};

    ghost heard = { λ all events. Stand (S.told all.sink) all.rules all.count events };

    ghost ignores = { λ all. ignored_of (lists all.rules.mode) all.rules.skipped };

    #[inline(always)]
    fn tell(&mut self, event: Event) {
        match event.what {
            What::CloseObject => self.tell_close_object(event.place),
            _ => self.tell_heard(event),
        }
    }

    // The numbers of an array that is a feature or that holds the features are reported one after another.
    #[inline(always)]
    fn tell_flat(&mut self, flat: &Flat) {
        if self.rules.is_in_value() {
            self.rules.tell_flat(flat);
        } else {
            self.tell_flat_in_turn(flat);
        }
    }

    #[inline(always)]
    fn tell_positions(&mut self, positions: &[CutPosition]) -> usize {
        if self.rules.awaits(Mode::Due(Known::Coordinates)) {
            self.rules.tell_positions(positions)
        } else {
            0
        }
    }

    #[inline(always)]
    fn tell_head(&mut self, head: Head) {
        match head {
            Head::Object(typed) => {
                self.hear(&What::OpenObject, typed.place);
                self.rules.tell_typed(&typed);
            }
            Head::Geometry(located) => self.rules.tell_located(&located),
            Head::Properties(opened) => self.rules.tell_properties(&opened),
        }
    }

    #[inline(always)]
    fn tell_point(&mut self, located: &Located, flat: &Flat, close: u64) {
        if self.rules.takes_point() {
            self.rules.tell_point(located, flat, close);
        } else {
            self.tell_point_in_turn(located, flat, close);
        }
    }

    #[inline(always)]
    fn tell_late_point(&mut self, point: &LatePoint, flat: &Flat) {
        if self.rules.takes_point() {
            self.rules.tell_late_point(point, flat);
        } else {
            self.tell_late_point_in_turn(point, flat);
        }
    }

    // The end of a feature that is an array is reported.
    fn ignored(&self) -> u16 {
        if self.rules.lists_features() {
            0
        } else {
            self.rules.ignored()
        }
    }

    fn pass(&mut self, left: u16) {
        self.rules.pass(left);
    }
}
