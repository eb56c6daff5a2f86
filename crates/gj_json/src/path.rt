//! The way from the root of a text to one of its values.

ghost use Rattle.std.specs.Prelude.{◌≡◌, ◌≤◌, ◌<◌, [], ◌∷◌, length, slice_get};
ghost use Rattle.gj_json.specs.declared.limits.TheConstants.{MOST_LEVELS};
ghost use Rattle.gj_json.specs.declared.path.PathStep.TheVariants.{Index};

use crate::event::{Event, What};
use crate::flat::Flat;
use crate::limits::MOST_LEVELS;
use crate::names::Known;
use crate::sink::EventSink;

/// A step from an array to one of its elements, or from an object to the value of one of its members (RFC 8259, sections 4
/// and 5).
#[derive(Clone, Copy, Debug, PartialEq, Eq)]
pub enum PathStep {
    /// So many elements stand before it.
    Index(u64),
    /// The member has this name.
    Member(Known),
}

/// Whether a member of this name holds no features, no geometry and no coordinates (RFC 7946, sections 3 and 5).
#[inline(always)]
fn holds_no_geometry(name: Known) -> bool {
    match name {
        Known::Features | Known::Geometry | Known::Geometries | Known::Coordinates | Known::Bbox =>
            false,
        _ => true,
    }
}

/// The step to the first element of an array.
const FIRST: PathStep = PathStep::Index(0);

/// The steps from the root of a text (RFC 8259, section 2) to one of its values, the outermost first, one for each open level.
#[derive(Clone, Copy, Debug, PartialEq, Eq)]
pub struct Path {
    /// After the steps stand first elements, so that equal paths are equal here too.
    steps: [PathStep; MOST_LEVELS as usize],
    count: u16,
    ghost few: { count ≤ MOST_LEVELS },
    ghost room: { count ≤ length steps },
}

impl Path {
    ghost use Rattle.gj_json.specs.Path.{steps_of};
    ghost use Rattle.gj_json.specs.Internal.PathTrail.{inner_steps, outer_steps, inner_step, with_inner, advanced, IsSmall, HasRoom, followed};

    /// The path to the root.
    pub(crate) fn new() -> Self
        ensures { inner_steps result ≡ [] }
    {
        Path {
            steps: [FIRST; MOST_LEVELS as usize],
            count: 0,
        }
    }

    /// How many steps it has.
    pub fn len(&self) -> u16
        ensures value { result ≡ length (steps_of self.now) }
        ensures small { result ≤ MOST_LEVELS }
    {
        self.count
    }

    /// The step at `i`, counted from 0 at the root; `None` where the path is shorter.
    pub fn step(&self, i: u16) -> Option<PathStep>
        ensures { result ≡ slice_get (steps_of self.now) i }
    {
        if i < self.len() {
            Some(self.steps[i as usize])
        } else {
            None
        }
    }

    /// The innermost step.
    fn inner(&self) -> Option<PathStep>
        ensures { result ≡ inner_step (inner_steps self.now) }
    {
        if self.count == 0 {
            None
        } else {
            Some(self.steps[self.count as usize - 1])
        }
    }

    fn set_inner(&mut self, step: PathStep)
        ensures { inner_steps self.new ≡ with_inner step (inner_steps self.old) }
    {
        if self.count > 0 {
            self.steps[self.count as usize - 1] = step;
        }
    }

    /// Adds the first element's step, where there is room.
    fn open(&mut self)
        ensures { length (inner_steps self.old) < MOST_LEVELS → inner_steps self.new ≡ Index 0 ∷ inner_steps self.old }
    {
        if self.count < MOST_LEVELS {
            self.steps[self.count as usize] = FIRST;
            self.count += 1;
        }
    }

    /// Removes the innermost step, where there is one.
    pub(crate) fn close(&mut self)
        ensures { inner_steps self.new ≡ outer_steps (inner_steps self.old) }
    {
        if self.count > 0 {
            self.count -= 1;
            self.steps[self.count as usize] = FIRST;
        }
    }

    /// Goes on to the next element, where the innermost step is into an array.
    fn advance(&mut self)
        ensures { IsSmall (advanced (inner_steps self.old)) → inner_steps self.new ≡ advanced (inner_steps self.old) }
    {
        if let Some(PathStep::Index(index)) = self.inner() {
            if index < u64::MAX {
                self.set_inner(PathStep::Index(index + 1));
            }
        }
    }

    /// Whether the innermost level is the value of a member that holds no feature, no geometry and no coordinates.
    #[inline(always)]
    fn is_in_other_member(&self) -> bool {
        if self.count < 2 {
            return false;
        }
        match self.steps[self.count as usize - 2] {
            PathStep::Member(known) => holds_no_geometry(known),
            PathStep::Index(_) => false,
        }
    }

    /// Takes the steps to where they are after an event.
    #[inline(always)]
    fn follow(&mut self, what: What)
        ensures { HasRoom what (inner_steps self.old) → inner_steps self.new ≡ followed what (inner_steps self.old) }
    {
        match what {
            What::OpenArray | What::OpenObject => self.open(),
            What::CloseArray | What::CloseObject => {
                self.close();
                self.advance();
            }
            What::Name(known) => self.set_inner(PathStep::Member(known)),
            _ => self.advance(),
        }
    }
}

/// The index of a level's step is how many elements of its array have ended.
impl EventSink for Path {
    ghost use Rattle.gj_json.specs.Internal.PathTrail.{inner_steps, Follows};

    ghost heard = { λ path events. Follows (inner_steps path) events [] };

    #[inline(always)]
    fn tell(&mut self, event: Event) {
        self.follow(event.what);
    }

    #[inline(always)]
    fn tell_flat(&mut self, _flat: &Flat) {
        self.advance();
    }

    fn ignored(&self) -> u16 {
        0
    }

    fn pass(&mut self, _left: u16) {}

    #[inline(always)]
    fn may_miss(&self) -> bool {
        self.is_in_other_member()
    }

    #[inline(always)]
    fn tell_closed(&mut self) -> bool {
        self.close();
        self.advance();
        true
    }
}
