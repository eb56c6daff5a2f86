//! Members `geometry` that are a whole Point, which is reported at once.

ghost use Rattle.std.specs.Prelude.{◌≡◌, ◌++◌, List, IsTrue};
ghost use Rattle.gj_json.specs.declared.event.Event.{Event};
ghost use Rattle.gj_json.specs.Head.{point_events};

use super::FramedRules;
use crate::mode::Mode;
use gj_coords::{is_plain_point, point_warned};
use gj_json::{EventSink, Flat, Known, Located};

impl<const FRAMES: usize> FramedRules<FRAMES> {
    ghost use Rattle.gj_rules.specs.Internal.FrameCalls.{named, due_after};
    ghost use Rattle.gj_rules.specs.Internal.RulesState.{core_of};
    ghost use Rattle.gj_rules.specs.Internal.TakenPoints.{IsPointTaken};
    ghost use Rattle.gj_rules.specs.Rules.{StandsFor};

    /// Whether a name `geometry` that comes next is the first one of an object in which its value is looked at.
    #[inline(always)]
    fn awaits_geometry(&self) -> bool
        ensures { IsTrue result → due_after Known.Geometry (core_of self.now).top ≡ Known.Geometry }
    {
        self.frames[self.around as usize].awaits_geometry()
    }

    /// Whether a whole Point that comes next is the first `geometry` of an object in which its value is looked at.
    #[inline(always)]
    pub(crate) fn takes_point(&self) -> bool
        ensures skipped { IsTrue result → self.now.skipped ≡ 0 }
        ensures mode { IsTrue result → self.now.mode ≡ Mode.Names }
        ensures due { IsTrue result → due_after Known.Geometry (core_of self.now).top ≡ Known.Geometry }
    {
        self.awaits(Mode::Names) && self.awaits_geometry()
    }

    /// Takes such a Point: all that it shows of the object around is the name of its member, and what deserves a warning in its
    /// position. Mostly nothing does.
    #[inline(always)]
    pub(super) fn take_point(&mut self, place: u64, flat: &Flat)
        ensures frame { IsPointTaken flat.now (named Known.Geometry place (core_of self.old).top) (core_of self.new).top }
        ensures core { core_of self.new ≡ record (core_of self.old) { top = (core_of self.new).top } }
    {
        self.name_geometry(place);
        if !is_plain_point(flat) {
            self.warn_point(flat);
        }
    }

    /// The name of a member `geometry` whose value is over.
    #[inline(always)]
    fn name_geometry(&mut self, place: u64)
        ensures { core_of self.new ≡ record (core_of self.old) { top = named Known.Geometry place (core_of self.old).top } }
    {
        self.frames[self.around as usize].name(Known::Geometry, place);
    }

    /// What deserves a warning in its position.
    #[inline(never)]
    fn warn_point(&mut self, flat: &Flat)
        ensures frame { IsPointTaken flat.now (core_of self.old).top (core_of self.new).top }
        ensures core { core_of self.new ≡ record (core_of self.old) { top = (core_of self.new).top } }
    {
        let warned = point_warned(flat);
        self.frames[self.around as usize].warn(Known::Geometry, &warned);
    }

    /// Any other whole Point, by its beginning, its position and its end.
    #[inline(never)]
    pub(super) fn tell_point_in_turn(&mut self, located: &Located, flat: &Flat, close: u64)
        ensures { (events : List Event) → StandsFor self.old events → StandsFor self.new (events ++ point_events located.now flat.now close) }
    {
        self.tell_located(located);
        self.tell_each(flat);
        self.tell_close_object(close);
    }
}
