//! How many elements an array has, as far as the rules ask.
ghost use Rattle.std.specs.Prelude.{◌≡◌, nat_lt};
ghost use Rattle.gj_coords.specs.Internal.ElementCount.{tally_at, counted, few_in, line_closed};

use crate::fault::{Fault, Rule, lesser_fault};

/// No rule asks for more elements than these.
const MOST_COUNTED: u8 = 4;

/// The least number of positions of a line.
pub const LINE_NEEDS: u8 = 2;

/// Where an array begins, and how many elements it has, counted up to the most that a rule asks for.
#[derive(Clone, Copy)]
pub struct Tally {
    pub place: u64,
    pub count: u8,
}

impl Tally {
    pub fn open(place: u64) -> Tally
        ensures { result ≡ tally_at place }
    {
        Tally { place, count: 0 }
    }

    /// Whether one more element is counted.
    #[inline(always)]
    pub fn is_open(&self) -> bool
        ensures { result ≡ nat_lt self.now.count 4 }
    {
        self.count < MOST_COUNTED
    }

    pub fn add(&mut self)
        ensures { self.new ≡ counted self.old }
    {
        if self.is_open() {
            self.count += 1;
        }
    }

    /// The fault of an array that has fewer elements than it needs.
    pub fn few(&self, needed: u8, rule: Rule) -> Option<Fault>
        ensures { result ≡ few_in needed rule self.now }
    {
        if self.count < needed {
            Some(Fault {
                place: self.place,
                rule,
            })
        } else {
            None
        }
    }
}

/// The least fault of a line whose positions have this least fault.
pub fn line_fault(tally: &Tally, positions: Option<Fault>) -> Option<Fault>
    ensures { result ≡ line_closed tally.now positions }
{
    lesser_fault(tally.few(LINE_NEEDS, Rule::G13), positions)
}
