//! The south and the north of a bounding box.
ghost use Rattle.std.specs.Prelude.{◌≡◌};
ghost use Rattle.gj_coords.specs.BoxWarnings.{is_above};
ghost use Rattle.gj_coords.specs.Internal.PositionGather.{value_in};
ghost use Rattle.gj_coords.specs.Winding.{cut_value};

use gj_json::What;
use gj_number::Decimal;

/// The numbers that give south and north, as cut numbers: the second, the fourth and the fifth.
#[derive(Clone, Copy)]
pub struct Latitudes {
    pub second: Option<i64>,
    pub fourth: Option<i64>,
    pub fifth: Option<i64>,
    /// How many elements there are, counted up to one more than a box with a height has.
    pub count: u8,
}

/// The number, where the event is one that is held.
pub fn number_in(what: &What) -> Option<Decimal>
    ensures { result ≡ value_in what.now }
{
    match what {
        What::Number(value) => *value,
        _ => None,
    }
}

fn cut_of(number: Option<Decimal>) -> Option<i64>
    ensures { result ≡ cut_value number }
{
    match number {
        Some(decimal) => decimal.cut(),
        None => None,
    }
}

/// Whether both are there, and the first is above the second.
fn is_above(south: Option<i64>, north: Option<i64>) -> bool
    ensures { result ≡ is_above south north }
{
    match (south, north) {
        (Some(south), Some(north)) => south > north,
        _ => false,
    }
}

impl Latitudes {
    ghost use Rattle.std.specs.Prelude.{◌≡◌};
    ghost use Rattle.gj_coords.specs.Internal.BoxElements.{no_latitudes, latitude_added, is_upside_down};

    /// No element has come.
    pub fn none() -> Latitudes
        ensures { result ≡ no_latitudes }
    {
        Latitudes {
            second: None,
            fourth: None,
            fifth: None,
            count: 0,
        }
    }

    /// Takes one element: a number that is held, or anything else.
    pub fn add(&mut self, number: Option<Decimal>)
        ensures { self.new ≡ latitude_added self.old.count number self.old }
    {
        match self.count {
            1 => self.second = cut_of(number),
            3 => self.fourth = cut_of(number),
            4 => self.fifth = cut_of(number),
            _ => {}
        }
        if self.count < 7 {
            self.count += 1;
        }
    }

    /// Whether the south is above the north: of four numbers the second is the south and the fourth the north, of six
    /// the second and the fifth.
    pub fn upside_down(&self) -> bool
        ensures { result ≡ is_upside_down self.now.count self.now }
    {
        match self.count {
            4 => is_above(self.second, self.fourth),
            6 => is_above(self.second, self.fifth),
            _ => false,
        }
    }
}
