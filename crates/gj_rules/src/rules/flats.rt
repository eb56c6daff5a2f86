//! Arrays of numbers that are reported at once.

ghost use Rattle.std.specs.Prelude.{◌≡◌, ◌≤◌, ◌++◌, List, length, take, IsTrue};
ghost use Rattle.gj_json.specs.declared.flat.Flat.{Flat};
ghost use Rattle.gj_json.specs.CutPosition.{AreCutPositions, Rise, flats_events};
ghost use Rattle.gj_json.specs.declared.event.Event.{Event};
ghost use Rattle.gj_json.specs.Flat.{flat_events};

use super::FramedRules;
use crate::mode::Mode;
use gj_json::{CutPosition, EventSink, Flat, Known};

impl<const FRAMES: usize> FramedRules<FRAMES> {
    ghost use Rattle.gj_rules.specs.Internal.RulesState.{FeedsMany};
    ghost use Rattle.gj_rules.specs.Rules.{StandsFor};

    /// An array of numbers in the value of `coordinates`.
    #[inline(always)]
    pub(super) fn feed_flat(&mut self, flat: &Flat)
        requires skipped { self.old.skipped ≡ 0 }
        requires mode { self.old.mode ≡ Mode.Due Known.Coordinates }
        ensures { FeedsMany self.old (flat_events flat.now) self.new }
    {
        if self.coordinates.ends_by_flat(flat) {
            self.end_coordinates();
        }
    }

    /// Arrays of two or three numbers in the value of `coordinates`, one after another, which come as their cut values: how many of
    /// them it takes.
    #[inline(always)]
    pub(super) fn feed_positions(&mut self, positions: &[CutPosition]) -> usize
        requires skipped { self.old.skipped ≡ 0 }
        requires mode { self.old.mode ≡ Mode.Due Known.Coordinates }
        requires rising { Rise positions.now }
        ensures few { result ≤ length positions.now }
        ensures stands { (flats : List Flat) → AreCutPositions (take result positions.now) flats → (events : List Event) → StandsFor self.old events
            → StandsFor self.new (events ++ flats_events flats) }
    {
        self.coordinates.take_cuts(positions)
    }

    /// An array of numbers anywhere else, by its events in turn.
    #[inline(never)]
    pub(super) fn tell_each(&mut self, flat: &Flat)
        ensures { (events : List Event) → StandsFor self.old events → StandsFor self.new (events ++ flat_events flat.now) }
    {
        self.tell_flat_in_turn(flat);
    }
}
