//! Positions (RFC 7946, section 3.1.1).
ghost use Rattle.std.specs.Prelude.{◌≡◌};
ghost use Rattle.gj_coords.specs.CoordinateWarnings.{is_precise};
ghost use Rattle.gj_coords.specs.Internal.PositionGather.{misshapen_at, position_closed};

use crate::fault::{Fault, Rule, join_fault, lesser_fault};
use crate::kind_warnings::KindWarnings;
use crate::position_warned::note_position;
use crate::tally::Tally;
use crate::warned::Warned;
use crate::winding::Corner;
use gj_json::{Event, What};
use gj_number::Decimal;

/// The least number of elements of a position.
const NEEDED: u8 = 2;

/// The number of first numbers of a position that must be held, and are compared.
pub const MOST_VALUES: u8 = 3;

/// A number with more decimal places than these is too precise.
pub const MOST_PLACES: u8 = 7;

/// The exact values of a position's first three numbers, and their count.
#[derive(Clone, Copy, PartialEq, Eq)]
pub struct Values {
    pub count: u8,
    pub first: Option<Decimal>,
    pub second: Option<Decimal>,
    pub third: Option<Decimal>,
}

/// What a position gathers of its elements.
#[derive(Clone, Copy)]
pub struct Numbers {
    pub values: Values,
    pub tally: Tally,
    pub fault: Option<Fault>,
    /// Those of the first three that are too precise.
    pub precise: KindWarnings,
}

impl Values {
    ghost use Rattle.std.specs.Prelude.{◌≡◌};
    ghost use Rattle.gj_coords.specs.Internal.PositionGather.{no_values, pushed, corner_in};

    pub fn none() -> Values
        ensures { result ≡ no_values }
    {
        Values {
            count: 0,
            first: None,
            second: None,
            third: None,
        }
    }

    fn clear(&mut self)
        ensures { self.new ≡ no_values }
    {
        self.count = 0;
        self.first = None;
        self.second = None;
        self.third = None;
    }

    fn push(&mut self, value: &Option<Decimal>)
        ensures { self.new ≡ pushed self.old.count value.now self.old }
    {
        match self.count {
            0 => self.first = *value,
            1 => self.second = *value,
            2 => self.third = *value,
            _ => return,
        }
        self.count += 1;
    }

    /// The corner of the first two, where they are in range.
    pub fn corner(&self) -> Option<Corner>
        ensures { result ≡ corner_in self.now }
    {
        Corner::new(&self.first, &self.second)
    }
}

fn is_precise(value: &Option<Decimal>) -> bool
    ensures { result ≡ is_precise value.now }
{
    match value {
        Some(decimal) => decimal.places() > u16::from(MOST_PLACES),
        None => false,
    }
}

impl Numbers {
    ghost use Rattle.std.specs.Prelude.{◌≡◌};
    ghost use Rattle.gj_json.specs.declared.event.What.TheVariants.{OpenArray, Number};
    ghost use Rattle.gj_coords.specs.Internal.SentEvents.{event_at};
    ghost use Rattle.gj_coords.specs.Internal.PositionGather.{number_added, first_judged, array_counted, arrays_counted, numbers_start};
    ghost use Rattle.gj_coords.specs.Internal.PositionGather.{position_least, position_noted, judged_noted};
    ghost use Rattle.gj_coords.specs.Internal.SteadyWalk.{IsCounted};

    pub fn none() -> Numbers
        ensures { result ≡ numbers_start 0 }
    {
        Numbers {
            values: Values::none(),
            tally: Tally::open(0),
            fault: None,
            precise: KindWarnings::nothing(),
        }
    }

    pub fn clear(&mut self, place: u64)
        ensures { self.new ≡ numbers_start place }
    {
        self.values.clear();
        self.tally = Tally::open(place);
        self.fault = None;
        self.precise = KindWarnings::nothing();
    }

    /// Adds one of the first three numbers.
    fn judge_first(&mut self, place: u64, value: &Option<Decimal>)
        ensures { self.new ≡ first_judged self.old place value.now }
    {
        if value.is_none() {
            let unheld = Fault {
                place,
                rule: Rule::G16,
            };
            join_fault(&mut self.fault, Some(unheld));
        } else if is_precise(value) {
            self.precise = self.precise.join(KindWarnings::one(place));
        }
    }

    /// Adds an element by its first event.
    pub fn add_element(&mut self, element: &Event)
        ensures { self.new ≡ number_added self.old element.now }
    {
        match &element.what {
            What::Number(value) => self.add_value(element.place, value),
            _ => {
                join_fault(&mut self.fault, misshapen(element.place));
                self.values.push(&None);
                self.tally.add();
            }
        }
    }

    /// Adds an element that is a number.
    #[inline]
    pub fn add_value(&mut self, place: u64, value: &Option<Decimal>)
        ensures { self.new ≡ number_added self.old (event_at place (Number value.now)) }
    {
        if self.values.count < MOST_VALUES {
            self.judge_first(place, value);
        }
        self.values.push(value);
        self.tally.add();
    }

    /// Adds an element that is an array.
    pub fn add_array(&mut self, place: u64)
        ensures { self.new ≡ number_added self.old (event_at place OpenArray) }
    {
        join_fault(&mut self.fault, misshapen(place));
        self.values.push(&None);
        self.tally.add();
    }

    /// Counts an element that is an array, whose fault changes nothing. Mostly as many are counted as are.
    #[tactic(auto, using(crate::proofs::Walks::SteadyLaws::counted_whole))]
    #[inline(always)]
    pub fn count_array(&mut self)
        ensures { IsCounted self.old → self.new ≡ array_counted self.old }
    {
        if self.tally.is_open() {
            self.count_one();
        }
    }

    /// Counts so many elements that are arrays, whose faults change nothing. It stops where as many are counted as are.
    #[inline(always)]
    pub fn count_arrays(&mut self, count: usize)
        ensures { IsCounted self.old → self.new ≡ arrays_counted count self.old }
    {
        let mut left = count;
        while self.tally.is_open() && left > 0 {
            self.count_one();
            left -= 1;
        }
    }

    #[inline(never)]
    fn count_one(&mut self)
        ensures { self.new ≡ array_counted self.old }
    {
        self.values.push(&None);
        self.tally.add();
    }

    /// The least fault of the whole position.
    pub fn least_fault(&self) -> Option<Fault>
        ensures { result ≡ position_least self.now }
    {
        lesser_fault(self.tally.few(NEEDED, Rule::G12), self.fault)
    }

    /// Notes what deserves a warning in a position that breaks no rule and has this corner.
    #[inline]
    pub fn warn(&self, corner: &Option<Corner>, warned: &mut Warned)
        ensures { warned.new ≡ position_noted warned.old self.now.tally.place self.now.tally.count corner.now self.now.precise }
    {
        note_position(
            self.tally.place,
            self.tally.count,
            corner,
            self.precise,
            warned,
        );
    }

    /// Notes what deserves a warning in a position, if it breaks no rule.
    pub fn warn_as(&self, fault: &Option<Fault>, warned: &mut Warned)
        ensures { warned.new ≡ judged_noted fault.now warned.old (position_closed self.now) }
    {
        if fault.is_none() {
            self.warn(&self.values.corner(), warned);
        }
    }
}

/// The fault of a value of the wrong shape.
pub fn misshapen(place: u64) -> Option<Fault>
    ensures { result ≡ misshapen_at place }
{
    Some(Fault {
        place,
        rule: Rule::G11,
    })
}
