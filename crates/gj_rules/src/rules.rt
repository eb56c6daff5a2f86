//! The rules and the warnings of RFC 7946, found from the events of a text.
ghost use Rattle.std.specs.Prelude.{◌≡◌, ℕ, ◌<◌, ◌≤◌, ◌^◌, [], List, length, true, false, None, IsTrue};
ghost use Rattle.gj_rules.specs.declared.rules.TheConstants.{MOST_FRAMES};

mod doomed;
mod events;
pub(crate) mod features;
mod flats;
mod heads;
mod kinds;
mod points;

use crate::findings::Findings;
use crate::frame::Frame;
use crate::mode::Mode;
use crate::role::Role;
use gj_coords::laws::kept_warnings;
use gj_coords::{Bbox, Coordinates, Fault, Warned, Warnings};
use gj_json::{
    CutPosition, Event, EventSink, Flat, Head, Known, LatePoint, Located, MOST_LEVELS, What,
};
use std::mem::size_of;

/// How many objects with a role can be open in a text within the limits: at most one for each two levels, and one.
pub const MOST_FRAMES: usize = MOST_LEVELS as usize / 2 + 1;

/// Finds the least fault and the warnings of a text from its events, in whatever order the members
/// stand.
///
/// Only an object with a role has a frame, whatever its type and those of the objects around it. A
/// value without a role is skipped by a count of its levels.
///
/// There are `FRAMES` frames, which are written when the rules are made: on a small text, that is most of the cost. They are
/// enough for a text that nests at most `2 * FRAMES - 2` levels deep. [`Rules`] has enough of them for every text.
#[derive(Drop)]
pub struct FramedRules<const FRAMES: usize> {
    /// The frames of the open objects with a role, the outermost first: up to that of the innermost one.
    frames: [Frame; FRAMES],
    /// How many are open around the innermost one. Its frame is the one at this index.
    around: u16,
    coordinates: Coordinates,
    bbox: Bbox,
    /// What is found in the text, once it has ended, and until then the warning of a byte order mark.
    answer: Findings,
    mode: Mode,
    /// How many levels of a value are open that is not looked into.
    skipped: u16,
    ghost fits: { around < FRAMES },
    ghost few: { FRAMES ≤ MOST_FRAMES },
}

/// The rules with as many frames as there can be open objects with a role.
pub type Rules = FramedRules<MOST_FRAMES>;

// The frames lie in it from the start.
const _: () = prove!(size_of::<Rules>() <= MOST_FRAMES * size_of::<Frame>() + 4096);

impl Rules {
    ghost use Rattle.gj_rules.specs.Rules.{StandsFor};

    /// Before the first event of a text.
    pub fn new() -> Self
        ensures stands { StandsFor result [] }
    {
        FramedRules::at_start()
    }
}

impl<const FRAMES: usize> FramedRules<FRAMES> {
    ghost use Rattle.gj_json.specs.Tree.{Tree, Text, depth};
    ghost use Rattle.gj_json.specs.Events.{all_events, events_by, value_events};
    ghost use Rattle.gj_json.specs.Text.{IsText};
    ghost use Rattle.gj_coords.specs.Fault.{least};
    ghost use Rattle.gj_coords.specs.Internal.KeptWarnings.{none_in};
    ghost use Rattle.gj_coords.specs.Internal.GatheredWarnings.{all_in};
    ghost use Rattle.gj_coords.specs.WarningsStand.{StandsFor as WarningsStandFor};
    ghost use Rattle.gj_rules.specs.Faults.{text_faults};
    ghost use Rattle.gj_rules.specs.TextWarnings.{text_warnings};
    ghost use Rattle.gj_rules.specs.Internal.TextKept.{text_kept};
    ghost use Rattle.gj_rules.specs.Judged.{judged_at};
    ghost use Rattle.gj_rules.specs.Internal.FrameReading.{found_in};
    ghost use Rattle.gj_rules.specs.Internal.FrameCalls.{settled, taken_in};
    ghost use Rattle.gj_rules.specs.Internal.EventSteps.{start, core_step, is_feeding, ended_as};
    ghost use Rattle.gj_rules.specs.Internal.Summaries.{StandsForCoordinates, StandsForBbox};
    ghost use Rattle.gj_rules.specs.Internal.RulesState.{core_of, frames_by, Holds, HasRoom, Feeds};
    ghost use Rattle.gj_rules.specs.Levels.{most_levels, levels_within};
    ghost use Rattle.gj_rules.specs.Internal.SkippedLevels.{most_skipped};
    ghost use Rattle.gj_rules.specs.Rules.{StandsFor};

    /// Before the first event of a text.
    pub(crate) fn at_start() -> Self
        requires some { 0 < FRAMES }
        requires few { FRAMES ≤ MOST_FRAMES }
        ensures stands { StandsFor result [] }
    {
        FramedRules::started()
    }

    fn started() -> Self
        requires some { 0 < FRAMES }
        requires few { FRAMES ≤ MOST_FRAMES }
        ensures core { core_of result ≡ start.core }
        ensures holds { Holds result [] }
    {
        FramedRules {
            frames: [Frame::new(Role::Root, 0); FRAMES],
            around: 0,
            coordinates: Coordinates::new(),
            bbox: Bbox::new(),
            answer: Findings::none(),
            mode: Mode::RootDue,
            skipped: 0,
        }
    }

    /// Before the first event of another text, whatever was reported: the few fields are written that say which others count.
    pub fn begin_again(&mut self)
        ensures stands { StandsFor self.new [] }
    {
        self.start_again();
    }

    fn start_again(&mut self)
        ensures core { core_of self.new ≡ start.core }
        ensures holds { Holds self.new [] }
    {
        self.frames[0].again(Role::Root, 0);
        self.around = 0;
        self.answer.clear();
        self.mode = Mode::RootDue;
        self.skipped = 0;
    }

    /// The least fault of the text whose events were reported.
    pub fn fault(&self) -> Option<Fault>
        ensures { (text : Text) → depth text.value ≤ levels_within FRAMES → StandsFor self.now (all_events text) → result ≡ least (text_faults text) }
    {
        self.answer.fault
    }

    /// The warnings of the text whose events were reported: those that the definition lists, for a text of fewer than 2^64 events.
    pub fn warnings(&self) -> Warnings
        ensures kept { (text : Text) → depth text.value ≤ levels_within FRAMES → StandsFor self.now (all_events text) → result ≡ text_kept text }
        ensures stands { (text : Text) → depth text.value ≤ levels_within FRAMES → StandsFor self.now (all_events text) →
            length (all_events text) < 2 ^ 64 → WarningsStandFor result (text_warnings text) }
    {
        kept_warnings();
        self.answer.warned.all()
    }

    /// Whether nothing is found in the text whose events were reported: no fault, and no warning of any kind.
    #[inline]
    pub(crate) fn is_clean(&self) -> bool
        ensures fault { IsTrue result → self.now.answer.fault ≡ None }
        ensures warned { IsTrue result → none_in (all_in self.now.answer.warned) ≡ true }
    {
        match self.answer.fault {
            None => self.answer.warned.is_empty(),
            Some(_) => false,
        }
    }

    /// The number of open objects with a role in a prefix of a text, which is that of the frames in use.
    pub fn judged(&self) -> u16
        ensures { (text : Text) (bytes : List ℕ) (n : ℕ) → IsText text bytes → depth text.value ≤ levels_within FRAMES → StandsFor self.now (events_by n text)
            → result ≡ judged_at n text }
    {
        self.frames()
    }

    fn frames(&self) -> u16
        ensures { result ≡ frames_by self.now.mode (core_of self.now).outer }
    {
        match self.mode {
            Mode::RootDue | Mode::Done => 0,
            _ => self.around + 1,
        }
    }

    /// The role of the innermost open object with one.
    fn role(&self) -> Role
        ensures { result ≡ (core_of self.now).top.slots.role }
    {
        self.frames[self.around as usize].role()
    }

    /// Sets what is found in it, at its close.
    fn settle(&self, found: &mut Findings)
        ensures { found_in found.new ≡ settled (core_of self.now).top }
    {
        self.frames[self.around as usize].settle(found);
    }

    /// An event that goes to no summary.
    // Where its kind is known, it is one step of these.
    #[inline(always)]
    fn take(&mut self, what: What, place: u64)
        ensures core { self.old.skipped < most_skipped → (self.old.skipped ≡ 0 → HasRoom FRAMES what (core_of self.old).outer)
            → core_of self.new ≡ core_step (record { place = place; what = what }) (core_of self.old) }
        ensures holds { is_feeding self.old.skipped self.old.mode ≡ false → Holds self.new [] }
    {
        if self.skipped > 0 {
            self.skip(what);
            self.renew();
        } else {
            match self.mode {
                Mode::RootDue => self.root(what, place),
                Mode::Names => self.names(what, place),
                Mode::Due(name) => self.value(name, what, place),
                Mode::Elements(role) => self.element(role, what, place),
                Mode::Done => {}
            }
        }
    }

    /// Renews the summary that takes the next value, where there is one.
    #[inline(always)]
    fn renew(&mut self)
        ensures core { core_of self.new ≡ core_of self.old }
        ensures holds { Holds self.new [] }
    {
        if self.skipped == 0 {
            match self.mode {
                Mode::Due(Known::Coordinates) => self.new_coordinates(),
                Mode::Due(Known::Bbox) => self.bbox = Bbox::new(),
                _ => {}
            }
        }
    }

    #[inline(never)]
    fn new_coordinates(&mut self)
        ensures core { core_of self.new ≡ core_of self.old }
        ensures holds { StandsForCoordinates self.new.coordinates [] }
    {
        self.coordinates.again();
    }

    /// Whether this comes next, outside of values that are not looked into.
    #[inline(always)]
    pub(crate) fn awaits(&self, mode: Mode) -> bool
        ensures skipped { IsTrue result → self.now.skipped ≡ 0 }
        ensures mode { IsTrue result → self.now.mode ≡ mode }
    {
        self.skipped == 0 && self.mode == mode
    }

    /// Whether the next event goes to a summary.
    #[inline(always)]
    fn is_feeding(&self) -> bool
        ensures { result ≡ is_feeding self.now.skipped self.now.mode }
    {
        if self.skipped > 0 {
            return false;
        }
        match self.mode {
            Mode::Due(Known::Coordinates) | Mode::Due(Known::Bbox) => true,
            _ => false,
        }
    }

    /// An event of the value of `coordinates`.
    fn feed_coordinates(&mut self, event: &Event)
        requires skipped { self.old.skipped ≡ 0 }
        requires mode { self.old.mode ≡ Mode.Due Known.Coordinates }
        ensures { Feeds self.old event.now self.new }
    {
        self.coordinates.take(event);
        if self.coordinates.done() {
            self.end_coordinates();
        }
    }

    /// The value of `coordinates` has ended.
    #[inline(never)]
    fn end_coordinates(&mut self)
        ensures { (value : Tree) → depth value ≤ most_levels → StandsForCoordinates self.old.coordinates (value_events value)
            → core_of self.new ≡ ended_as Known.Coordinates value (core_of self.old) }
    {
        self.frames[self.around as usize].set_shapes(&self.coordinates);
        self.mode = Mode::Names;
    }

    /// An event of the value of `bbox`.
    fn feed_bbox(&mut self, event: &Event)
        requires skipped { self.old.skipped ≡ 0 }
        requires mode { self.old.mode ≡ Mode.Due Known.Bbox }
        ensures { Feeds self.old event.now self.new }
    {
        self.bbox.event(*event);
        if self.bbox.done() {
            self.end_bbox();
        }
    }

    /// The value of `bbox` has ended.
    #[inline(never)]
    fn end_bbox(&mut self)
        ensures { (value : Tree) → depth value ≤ most_levels → StandsForBbox self.old.bbox (value_events value)
            → core_of self.new ≡ ended_as Known.Bbox value (core_of self.old) }
    {
        let found = Findings {
            fault: self.bbox.fault(),
            warned: Warned::of(self.bbox.warnings()),
        };
        self.take_in(Known::Bbox, &found);
    }

    /// The value of the first member `name` has ended, or an element of it, and this is found in it.
    fn take_in(&mut self, name: Known, found: &Findings)
        ensures { core_of self.new ≡ record (core_of self.old) { mode = Mode.Names; top = taken_in name (found_in found.now) (core_of self.old).top } }
    {
        self.frames[self.around as usize].take(name, found);
        self.mode = Mode::Names;
    }

    /// An event of the value that a summary takes.
    // Only here it is looked at whole.
    #[inline(never)]
    fn feed(&mut self, event: &Event)
        requires { is_feeding self.old.skipped self.old.mode ≡ true }
        ensures { Feeds self.old event.now self.new }
    {
        match self.mode {
            Mode::Due(Known::Coordinates) => self.feed_coordinates(event),
            _ => self.feed_bbox(event),
        }
    }
}

impl<const FRAMES: usize> EventSink for FramedRules<FRAMES> {
    ghost use Rattle.gj_rules.specs.Rules.{StandsFor};

    ghost heard = { λ rules events. StandsFor rules events };

    ghost ignores = { λ rules. rules.skipped };

    // Whoever reports an event mostly knows of which kind it is. The usual kinds go on without the room of a number.
    #[inline(always)]
    fn tell(&mut self, event: Event) {
        match event.what {
            What::Name(name) => self.tell_name(name, event.place),
            What::Text(word) => self.tell_text(word, event.place),
            What::OpenObject => self.tell_open_object(event.place),
            What::CloseObject => self.tell_close_object(event.place),
            What::OpenArray => self.tell_open_array(event.place),
            What::CloseArray => self.tell_close_array(event.place),
            _ => self.tell_rest(event),
        }
    }

    #[inline(always)]
    fn tell_flat(&mut self, flat: &Flat) {
        if self.awaits(Mode::Due(Known::Coordinates)) {
            self.feed_flat(flat);
        } else {
            self.tell_each(flat);
        }
    }

    #[inline(always)]
    fn tell_positions(&mut self, positions: &[CutPosition]) -> usize {
        if self.awaits(Mode::Due(Known::Coordinates)) {
            self.feed_positions(positions)
        } else {
            0
        }
    }

    #[inline(always)]
    fn tell_head(&mut self, head: Head) {
        match head {
            Head::Object(typed) => self.tell_typed(&typed),
            Head::Geometry(located) => self.tell_located(&located),
            Head::Properties(opened) => self.tell_properties(&opened),
        }
    }

    #[inline(always)]
    fn tell_point(&mut self, located: &Located, flat: &Flat, close: u64) {
        if self.takes_point() {
            self.take_point(located.place, flat);
        } else {
            self.tell_point_in_turn(located, flat, close);
        }
    }

    #[inline(always)]
    fn tell_late_point(&mut self, point: &LatePoint, flat: &Flat) {
        if self.takes_point() {
            self.take_point(point.place, flat);
        } else {
            self.tell_late_point_in_turn(point, flat);
        }
    }

    fn ignored(&self) -> u16 {
        self.skipped
    }

    fn pass(&mut self, left: u16) {
        self.skipped = left;
        self.renew();
    }
}
