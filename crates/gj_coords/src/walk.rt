//! One walk over the value of `coordinates` for the six types at once.
//!
//! Each level is read once, in each role that it has under some type: the value itself as each of the six types; its
//! elements as positions, lines, linear rings and polygons; theirs as positions and linear rings; and theirs as positions.
ghost use Rattle.std.specs.Prelude.{◌≡◌, IfSome};
ghost use Rattle.gj_coords.specs.Internal.SteadyWalk.{IsCounted};

mod level;
mod outermost;

use crate::element::Element;
use crate::fault::Fault;
use crate::position::{Numbers, misshapen};
use crate::simple::Simple;
use crate::walk::level::Level;
use crate::walk::outermost::Outermost;
use crate::warned::Warned;
use gj_json::{CutPosition, Event, Flat, Numbered, What};
use gj_number::Decimal;

/// How far a value has come.
#[derive(Clone, Copy)]
pub enum Stage {
    /// Nothing has come.
    Due,
    /// In the innermost open array an element or the end is due.
    Open,
    /// There an element is read past.
    Past,
    /// The value is no array, and is read past.
    Broken,
    /// The outermost array is closed.
    Done,
}

/// How many arrays are open.
#[derive(Clone, Copy)]
pub enum Depth {
    First,
    Second,
    Third,
    /// The innermost can only be a position: an array or object in it is read past.
    Fourth,
}

/// A value as far as it has come, and what its open arrays have gathered: the outermost, the next, and so on. What is
/// held of an array that is not open does not matter.
#[derive(Clone, Copy)]
pub struct Walk {
    pub outer: Outermost,
    pub middle: Level,
    pub inner: Level,
    pub numbers: Numbers,
    /// What is read past.
    pub other: Element,
    pub depth: Depth,
    pub stage: Stage,
}

/// The place after which a position more in an array that has gathered these numbers changes no fault, where there is one.
fn steady_after(position: &Flat, numbers: &Numbers) -> Option<u64>
    ensures { IfSome result (λ floor. IsCounted numbers.now × (floor ≡ position.now.first.place)) }
{
    if numbers.values.count == numbers.tally.count.min(3) {
        Some(position.first.place)
    } else {
        None
    }
}

impl Walk {
    ghost use Rattle.std.specs.Prelude.{◌≡◌, ◌<◌, ◌≤◌, ℕ, List, IfSome, length, take};
    ghost use Rattle.gj_json.specs.declared.flat.Flat.{Flat};
    ghost use Rattle.gj_json.specs.CutPosition.{AreCutPositions};
    ghost use Rattle.gj_coords.specs.Internal.AddedPositions.{AllAfter, StayAll};
    ghost use Rattle.gj_json.specs.declared.event.What.TheVariants.{OpenArray, CloseArray, Number};
    ghost use Rattle.gj_json.specs.Flat.{number_event, flat_events};
    ghost use Rattle.gj_coords.specs.declared.walk.Stage.TheVariants.{Open, Past};
    ghost use Rattle.gj_coords.specs.Internal.ElementReader.{inside, levels_after};
    ghost use Rattle.gj_coords.specs.Internal.SentEvents.{event_at};
    ghost use Rattle.gj_coords.specs.Internal.ValueMachine.{run};
    ghost use Rattle.gj_coords.specs.Internal.LevelGather.{fault_as, warned_as, quiet_as};
    ghost use Rattle.gj_coords.specs.Internal.Progress.{waiting, opened, closed, added, passing, joined, step, ended};
    ghost use Rattle.gj_coords.specs.Internal.WalkProgress.{open_progress, progress, answer_of};
    ghost use Rattle.gj_coords.specs.Internal.SteadyWalk.{IsSteady, StaysSteady};

    pub fn new() -> Walk
        ensures { progress result ≡ waiting }
    {
        Walk {
            outer: Outermost::new(),
            middle: Level::new(),
            inner: Level::new(),
            numbers: Numbers::none(),
            other: Element::new(),
            depth: Depth::First,
            stage: Stage::Due,
        }
    }

    /// Begins anew, whatever has come.
    pub fn again(&mut self)
        ensures { progress self.new ≡ waiting }
    {
        self.stage = Stage::Due;
    }

    /// Takes one event, whatever it is.
    pub fn event(&mut self, event: &Event)
        ensures { progress self.new ≡ step (progress self.old) event.now }
    {
        match &event.what {
            What::OpenArray => self.open_array(event.place),
            What::CloseArray => self.close_array(event.place),
            What::Number(value) => self.number(event.place, value),
            What::OpenObject => self.pass(event),
            _ => self.add(event),
        }
    }

    /// Takes the opening bracket of an array.
    #[inline]
    pub fn open_array(&mut self, place: u64)
        ensures { progress self.new ≡ opened (progress self.old) (event_at place OpenArray) }
    {
        match self.stage {
            Stage::Due => {
                self.outer.open(place);
                self.depth = Depth::First;
                self.stage = Stage::Open;
            }
            Stage::Open => self.open_next(place),
            _ => self.pass_bracket(place, What::OpenArray),
        }
    }

    /// Opens an array in the innermost open one.
    #[inline]
    fn open_next(&mut self, place: u64)
        requires { self.old.stage ≡ Open }
        ensures { progress self.new ≡ opened (progress self.old) (event_at place OpenArray) }
    {
        match self.depth {
            Depth::First => {
                self.middle.open(place);
                self.depth = Depth::Second;
            }
            Depth::Second => {
                self.inner.open(place);
                self.depth = Depth::Third;
            }
            Depth::Third => {
                self.numbers.clear(place);
                self.depth = Depth::Fourth;
            }
            Depth::Fourth => self.pass_bracket(place, What::OpenArray),
        }
    }

    /// Takes the closing bracket of an array.
    #[inline]
    pub fn close_array(&mut self, place: u64)
        ensures { progress self.new ≡ closed (progress self.old) (event_at place CloseArray) }
    {
        match self.stage {
            Stage::Open => self.close_last(),
            _ => self.pass_bracket(place, What::CloseArray),
        }
    }

    /// Closes the innermost open array: the one around it gathers it.
    #[inline]
    fn close_last(&mut self)
        requires { self.old.stage ≡ Open }
        ensures { (place : ℕ) → progress self.new ≡ closed (progress self.old) (event_at place CloseArray) }
    {
        match self.depth {
            Depth::First => self.stage = Stage::Done,
            Depth::Second => {
                self.outer.add_level(&self.middle);
                self.depth = Depth::First;
            }
            Depth::Third => {
                self.middle.add_level(&self.inner);
                self.depth = Depth::Second;
            }
            Depth::Fourth => {
                self.inner.add_numbers(&self.numbers);
                self.depth = Depth::Third;
            }
        }
    }

    /// Takes a number.
    #[inline]
    pub fn number(&mut self, place: u64, value: &Option<Decimal>)
        ensures { progress self.new ≡ added (progress self.old) (event_at place (Number value.now)) }
    {
        match self.stage {
            Stage::Open => self.add_number(place, value),
            _ => self.pass(&Event {
                place,
                what: What::Number(*value),
            }),
        }
    }

    /// Adds a number to the innermost open array.
    #[inline]
    fn add_number(&mut self, place: u64, value: &Option<Decimal>)
        requires { self.old.stage ≡ Open }
        ensures { progress self.new ≡ added (progress self.old) (event_at place (Number value.now)) }
    {
        match self.depth {
            Depth::First => self.outer.add_other(&Event {
                place,
                what: What::Number(*value),
            }),
            Depth::Second => self.middle.add_number(place, value),
            Depth::Third => self.inner.add_number(place, value),
            Depth::Fourth => self.numbers.add_value(place, value),
        }
    }

    /// Takes an event that opens and closes nothing.
    fn add(&mut self, event: &Event)
        ensures { progress self.new ≡ added (progress self.old) event.now }
    {
        match self.stage {
            Stage::Open => self.join(event),
            _ => self.pass(event),
        }
    }

    /// Adds an element that is no array to the innermost open one, by its first event.
    fn join(&mut self, head: &Event)
        ensures stage { self.new.stage ≡ self.old.stage }
        ensures joined { open_progress self.new ≡ joined (open_progress self.old) head.now }
    {
        match self.depth {
            Depth::First => self.outer.add_other(head),
            Depth::Second => self.middle.add_other(head),
            Depth::Third => self.inner.add_other(head),
            Depth::Fourth => self.numbers.add_element(head),
        }
    }

    /// Takes a bracket of what is read past.
    fn pass_bracket(&mut self, place: u64, what: What)
        ensures { progress self.new ≡ passing (progress self.old) (event_at place what) }
    {
        self.pass(&Event { place, what });
    }

    /// Takes an event of what is read past, or the first of it.
    #[inline(never)]
    fn pass(&mut self, event: &Event)
        ensures { progress self.new ≡ passing (progress self.old) event.now }
    {
        match self.stage {
            Stage::Due => {
                self.begin(event);
                self.stage = Stage::Broken;
            }
            Stage::Open => {
                self.begin(event);
                self.stage = Stage::Past;
            }
            Stage::Past => self.pass_on(event),
            Stage::Broken => self.other.event(event),
            Stage::Done => {}
        }
    }

    /// Begins to read past a value.
    fn begin(&mut self, event: &Event)
        ensures { self.new ≡ record self.old { other = inside event.now (levels_after 0 event.now.what) } }
    {
        self.other = Element::new();
        self.other.event(event);
    }

    /// Takes an event of an element that is read past, and adds it where it has ended.
    fn pass_on(&mut self, event: &Event)
        requires { self.old.stage ≡ Past }
        ensures { progress self.new ≡ passing (progress self.old) event.now }
    {
        self.other.event(event);
        if self.other.done() {
            let head = self.other.first;
            self.join(&head);
            self.stage = Stage::Open;
        }
    }

    /// Takes an array of numbers that comes as one [`Flat`], and returns the place after which such arrays change no
    /// fault, where there is one.
    pub fn take_flat(&mut self, flat: &Flat) -> Option<u64>
        ensures taken { progress self.new ≡ run step (progress self.old) (flat_events flat.now) }
        ensures steady { IfSome result (λ floor. IsSteady floor self.new) }
    {
        match self.stage {
            Stage::Open => self.add_flat(flat),
            _ => {
                self.take_singly(flat);
                None
            }
        }
    }

    /// Adds such an array to the innermost open one.
    #[inline]
    fn add_flat(&mut self, flat: &Flat) -> Option<u64>
        requires { self.old.stage ≡ Open }
        ensures taken { progress self.new ≡ run step (progress self.old) (flat_events flat.now) }
        ensures steady { IfSome result (λ floor. IsSteady floor self.new) }
    {
        match self.depth {
            Depth::First => {
                self.outer.add_flat(flat);
                steady_after(flat, &self.outer.numbers)
            }
            Depth::Second => {
                self.middle.add_flat(flat);
                steady_after(flat, &self.middle.numbers)
            }
            Depth::Third => {
                self.inner.add_flat(flat);
                steady_after(flat, &self.inner.numbers)
            }
            Depth::Fourth => {
                self.numbers.add_array(flat.place);
                None
            }
        }
    }

    /// Takes such an array where it changes no fault.
    #[inline(always)]
    pub fn add_steady(&mut self, flat: &Flat)
        ensures { (floor : ℕ) → IsSteady floor self.old → floor < flat.now.place → StaysSteady floor flat.now self.old self.new }
    {
        match self.depth {
            Depth::Second => self.middle.add_steady(flat),
            Depth::First => self.outer.add_steady(flat),
            Depth::Third => self.inner.add_steady(flat),
            Depth::Fourth => {}
        }
    }

    /// Takes arrays of two or three numbers that come as their cut values, where they change no fault: those before the first of
    /// which more is asked, and returns how many.
    pub fn add_cuts(&mut self, positions: &[CutPosition]) -> usize
        ensures few { result ≤ length positions.now }
        ensures steady { (floor : ℕ) (flats : List Flat) → AreCutPositions (take result positions.now) flats → AllAfter floor flats
            → IsSteady floor self.old → StayAll floor flats self.old self.new }
    {
        match self.depth {
            Depth::Second => self.middle.add_cuts(positions),
            Depth::First => self.outer.add_cuts(positions),
            Depth::Third => self.inner.add_cuts(positions),
            Depth::Fourth => 0,
        }
    }

    /// Takes its events one by one.
    #[inline(never)]
    fn take_singly(&mut self, flat: &Flat)
        ensures { progress self.new ≡ run step (progress self.old) (flat_events flat.now) }
    {
        self.open_array(flat.place);
        self.take_number(&flat.first);
        self.take_number(&flat.second);
        if let Some(number) = &flat.third {
            self.take_number(number);
        }
        self.close_array(flat.close);
    }

    fn take_number(&mut self, number: &Numbered)
        ensures { progress self.new ≡ added (progress self.old) (number_event number.now) }
    {
        self.number(number.place, &Some(number.value.decimal()));
    }

    /// Whether the value has ended.
    pub fn done(&self) -> bool
        ensures { result ≡ ended (progress self.now) }
    {
        match self.stage {
            Stage::Broken => self.other.done(),
            Stage::Done => true,
            _ => false,
        }
    }

    /// The least fault of the value that was read, for a type.
    pub fn fault(&self, simple: Simple) -> Option<Fault>
        ensures { result ≡ fault_as simple (answer_of self.now) }
    {
        match self.stage {
            Stage::Broken => misshapen(self.other.first.place),
            _ => self.outer.fault(simple),
        }
    }

    /// Whether a few comparisons show that nothing in the value that was read deserves a warning under any type. `false`
    /// promises nothing.
    #[inline]
    pub fn is_quiet(&self) -> bool
        ensures { result ≡ quiet_as (answer_of self.now) }
    {
        match self.stage {
            Stage::Broken => false,
            _ => self.outer.is_quiet(),
        }
    }

    /// What deserves a warning in the value that was read, for a type.
    pub fn warned(&self, simple: Simple) -> Warned
        ensures { result ≡ warned_as simple (answer_of self.now) }
    {
        match self.stage {
            Stage::Broken => Warned::none(),
            _ => self.outer.warned(simple),
        }
    }
}
