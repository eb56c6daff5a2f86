//! What an event does that goes to no summary.
ghost use Rattle.std.specs.Prelude.{◌≡◌, ◌+◌, ◌<◌, [], length, false, IsTrue};
ghost use Rattle.gj_json.specs.declared.event.What.TheVariants as W;

use super::FramedRules;
use crate::findings::Findings;
use crate::mode::Mode;
use crate::opening::{levels_in, opening_fault, word_in};
use crate::role::Role;
use gj_coords::{Fault, Kind, Rule};
use gj_json::{Known, What};

impl<const FRAMES: usize> FramedRules<FRAMES> {
    ghost use Rattle.gj_rules.specs.Internal.FrameCalls.{settled};
    ghost use Rattle.gj_rules.specs.Internal.Summaries.{none_found};
    ghost use Rattle.gj_rules.specs.Internal.EventSteps.{skip, pushed, popped, root_step, names_step, due_step, begun, element_step, is_feeding};
    ghost use Rattle.gj_rules.specs.Internal.RulesState.{core_of, HasRoom, Holds};
    ghost use Rattle.gj_rules.specs.Internal.SkippedLevels.{most_skipped};

    /// An object with a role opens. Its frame is the next one: a text that is not too deep for the frames has no more open.
    #[inline(always)]
    pub(super) fn push_frame(&mut self, role: Role, place: u64)
        ensures rests { is_feeding 0 self.new.mode ≡ false }
        ensures core { length (core_of self.old).outer + 1 < FRAMES → core_of self.new ≡ pushed role place (core_of self.old) }
    {
        if self.around as usize + 1 < FRAMES {
            self.around += 1;
        }
        self.frames[self.around as usize].again(role, place);
        self.mode = Mode::Names;
    }

    /// An object with a role opens, and is reported separately.
    #[inline(never)]
    fn push(&mut self, role: Role, place: u64)
        ensures rests { is_feeding 0 self.new.mode ≡ false }
        ensures core { length (core_of self.old).outer + 1 < FRAMES → core_of self.new ≡ pushed role place (core_of self.old) }
    {
        self.push_frame(role, place);
    }

    /// The innermost object with a role closes.
    #[inline(never)]
    fn pop(&mut self)
        ensures rests { is_feeding 0 self.new.mode ≡ false }
        ensures core { core_of self.new ≡ popped (core_of self.old).outer (core_of self.old).top.slots.role (settled (core_of self.old).top)
            (core_of self.old) }
    {
        if self.is_top_clean() {
            self.pop_clean();
        } else {
            self.pop_found();
        }
    }

    /// Whether a few looks show that nothing is found in it.
    #[inline]
    pub(super) fn is_top_clean(&self) -> bool
        ensures { IsTrue result → settled (core_of self.now).top ≡ none_found }
    {
        self.frames[self.around as usize].is_clean()
    }

    /// It closes, and nothing is found in it: then nothing changes in the object around it.
    #[tactic(auto, using(crate::proofs::Objects::WarningsInTurn::with_none))]
    #[inline]
    pub(super) fn pop_clean(&mut self)
        ensures rests { is_feeding 0 self.new.mode ≡ false }
        ensures core { core_of self.new ≡ popped (core_of self.old).outer (core_of self.old).top.slots.role none_found (core_of self.old) }
    {
        let role = self.role();
        if self.around > 0 {
            self.around -= 1;
            self.mode = Mode::behind(role);
        } else {
            self.mode = Mode::Done;
            self.answer.fault = None;
        }
    }

    #[inline(never)]
    fn pop_found(&mut self)
        ensures rests { is_feeding 0 self.new.mode ≡ false }
        ensures core { core_of self.new ≡ popped (core_of self.old).outer (core_of self.old).top.slots.role (settled (core_of self.old).top)
            (core_of self.old) }
    {
        let role = self.role();
        let mut found = Findings::none();
        self.settle(&mut found);
        if self.around > 0 {
            self.around -= 1;
            self.frames[self.around as usize].take(role.member(), &found);
            self.mode = Mode::behind(role);
        } else {
            self.mode = Mode::Done;
            self.answer.fault = found.fault;
            self.answer.warned.take(&found.warned);
        }
    }

    /// The value of the text begins, or a byte order mark stands before it.
    #[inline(never)]
    pub(super) fn root(&mut self, what: What, place: u64)
        ensures rests { is_feeding 0 self.old.mode ≡ false → is_feeding 0 self.new.mode ≡ false }
        ensures core { core_of self.new ≡ root_step what place (core_of self.old) }
    {
        match what {
            What::Mark => self.answer.warned.note(Kind::W1, place),
            What::OpenObject => {
                self.mode = Mode::Names;
                self.frames[self.around as usize].again(Role::Root, place);
            }
            _ => {
                self.mode = Mode::Done;
                self.skipped = levels_in(&what);
                self.answer.fault = Some(Fault {
                    place,
                    rule: Rule::G1,
                });
            }
        }
    }

    /// A name.
    #[inline(always)]
    fn name(&mut self, name: Known, place: u64)
        ensures { core_of self.new ≡ names_step (W.Name name) place (core_of self.old) }
    {
        let due = self.frames[self.around as usize].name(name, place);
        self.mode = Mode::Due(due);
    }

    /// A name, or the end of the object.
    #[inline(always)]
    pub(super) fn names(&mut self, what: What, place: u64)
        ensures core { core_of self.new ≡ names_step what place (core_of self.old) }
        ensures holds { Holds self.new [] }
    {
        match what {
            What::Name(name) => {
                self.name(name, place);
                self.renew();
            }
            _ => self.pop(),
        }
    }

    /// A value begins that holds no value with a role.
    #[inline(always)]
    pub(super) fn begin(&mut self, name: Known, what: What, place: u64)
        ensures rests { is_feeding 0 self.new.mode ≡ false }
        ensures core { core_of self.new ≡ begun name what place (core_of self.old) }
    {
        self.mode = Mode::Names;
        self.skipped = levels_in(&what);
        let word = word_in(&what);
        let fault = opening_fault(name, &what, place);
        match name {
            Known::TypeName => self.frames[self.around as usize].set_type(place, word),
            _ => self.frames[self.around as usize].join(name, fault),
        }
    }

    /// The value of a first member begins.
    #[inline(always)]
    pub(super) fn value(&mut self, name: Known, what: What, place: u64)
        ensures rests { is_feeding 0 self.new.mode ≡ false }
        ensures core { HasRoom FRAMES what (core_of self.old).outer → core_of self.new ≡ due_step name what place (core_of self.old) }
    {
        match (name, what) {
            (Known::Geometry, What::OpenObject) => self.push(Role::Geometry, place),
            (Known::Geometries, What::OpenArray) => self.mode = Mode::Elements(Role::Part),
            (Known::Features, What::OpenArray) => self.mode = Mode::Elements(Role::Feature),
            _ => self.begin(name, what, place),
        }
    }

    /// An element of an array of values with this role begins, or the array ends.
    #[inline(always)]
    pub(super) fn element(&mut self, role: Role, what: What, place: u64)
        ensures rests { is_feeding 0 self.old.mode ≡ false → is_feeding 0 self.new.mode ≡ false }
        ensures core { HasRoom FRAMES what (core_of self.old).outer → core_of self.new ≡ element_step role what place (core_of self.old) }
    {
        match what {
            What::OpenObject => self.push(role, place),
            What::CloseArray => self.mode = Mode::Names,
            _ => {
                self.skipped = levels_in(&what);
                self.frames[self.around as usize].join(
                    role.member(),
                    Some(Fault {
                        place,
                        rule: Rule::G1,
                    }),
                );
            }
        }
    }

    /// A part of a value that is not looked into.
    #[inline(always)]
    pub(super) fn skip(&mut self, what: What)
        ensures { self.old.skipped < most_skipped → core_of self.new ≡ record (core_of self.old) { skipped = skip what self.old.skipped } }
    {
        match what {
            What::OpenObject | What::OpenArray => self.skipped = self.skipped.saturating_add(1),
            What::CloseObject | What::CloseArray => self.skipped = self.skipped.saturating_sub(1),
            _ => {}
        }
    }
}
