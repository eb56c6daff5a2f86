//! How a linear ring runs (RFC 7946, section 3.1.6).

ghost use Rattle.std.specs.Prelude.{◌≡◌, ◌*◌, ◌^◌, ◌≤◌, ℤ, pos, ◌+ℤ◌, ◌*ℤ◌, Some};
ghost use Rattle.gj_number.specs.Exact.{cut_places};
ghost use Rattle.std.specs.Int.{int_wrap, w128};
ghost use Rattle.gj_number.specs.Short.{exact_of};
ghost use Rattle.gj_coords.specs.Winding.{bounded, bounded_cut, cut_value, both, sign_of};

use gj_number::{Decimal, Short};

/// The most degrees of a longitude.
pub const LONGITUDE_DEGREES: u8 = 180;

/// The most degrees of a latitude.
pub const LATITUDE_DEGREES: u8 = 90;

/// 180 degrees as a cut number.
const MOST_LONGITUDE: i32 = 1_800_000_000;

/// 90 degrees as a cut number.
const MOST_LATITUDE: i32 = 900_000_000;

/// The longitude and the latitude of a position that is in range, as cut numbers.
#[derive(Clone, Copy, Debug, PartialEq, Eq)]
pub struct Corner {
    pub x: i32,
    pub y: i32,
}

/// How a ring runs.
#[derive(Clone, Copy, Debug, PartialEq, Eq)]
pub enum Turn {
    /// Counterclockwise.
    Left,
    /// Clockwise.
    Right,
    /// Around no area.
    Straight,
    /// Some position is out of range.
    Unjudged,
}

/// Takes the corners of a ring in turn, and gives the direction of the ring. It holds one fixed record, whatever their number.
#[derive(Clone, Copy)]
pub struct Winding {
    /// The sum of the terms so far, in 128 bits.
    area: i128,
    last: Option<Corner>,
    /// Whether some position was out of range.
    unjudged: bool,
}

/// The sum of the terms so far, in 128 bits, and the last corner, while a loop adds corners to these two alone.
#[derive(Clone, Copy)]
pub struct RunningSum {
    area: i128,
    last: Corner,
}

impl Corner {
    ghost use Rattle.std.specs.Prelude.{◌≡◌, Some};
    ghost use Rattle.gj_number.specs.Short.{exact_of};
    ghost use Rattle.gj_coords.specs.Winding.{most_longitude, most_latitude, corner_of, cross};

    /// The corner of a longitude and a latitude, where both are in range.
    pub fn new(longitude: &Option<Decimal>, latitude: &Option<Decimal>) -> Option<Corner>
        ensures { result ≡ corner_of longitude.now latitude.now }
    {
        join(
            bounded_cut(longitude, MOST_LONGITUDE),
            bounded_cut(latitude, MOST_LATITUDE),
        )
    }

    /// The corner of two numbers of ordinary form, where both are in range.
    #[inline(always)]
    pub fn of(longitude: Short, latitude: Short) -> Option<Corner>
        ensures { result ≡ corner_of (Some (exact_of longitude)) (Some (exact_of latitude)) }
    {
        join(
            cut_within(longitude, LONGITUDE_DEGREES),
            cut_within(latitude, LATITUDE_DEGREES),
        )
    }

    /// The corner of two cut numbers, where both are in range.
    #[inline(always)]
    pub fn of_cuts(longitude: i64, latitude: i64) -> Option<Corner>
        ensures { result ≡ both (bounded most_longitude longitude) (bounded most_latitude latitude) }
    {
        join(
            within(longitude, MOST_LONGITUDE),
            within(latitude, MOST_LATITUDE),
        )
    }

    /// The term of the area for the edge from this corner to the next. It fits 64 bits.
    #[inline(always)]
    fn cross(&self, next: &Corner) -> i64
        ensures { result ≡ cross self.now next.now }
    {
        product(self.x, next.y) - product(next.x, self.y)
    }
}

/// The cut number of a number of ordinary form, where it is at most `degrees` from zero.
#[inline(always)]
fn cut_within(number: Short, degrees: u8) -> Option<i32>
    requires { degrees ≤ 200 }
    ensures { result ≡ bounded_cut (pos (degrees * 10 ^ cut_places)) (cut_value (Some (exact_of number))) }
{
    number.cut_within(degrees)
}

/// The cut number of a number, where it is at most `most` from zero.
fn bounded_cut(number: &Option<Decimal>, most: i32) -> Option<i32>
    ensures { result ≡ bounded_cut most (cut_value number.now) }
{
    match number {
        Some(decimal) => match decimal.cut() {
            Some(cut) => within(cut, most),
            None => None,
        },
        None => None,
    }
}

/// The number, where it is at most `most` from zero.
#[inline(always)]
fn within(number: i64, most: i32) -> Option<i32>
    ensures { result ≡ bounded most number }
{
    let most = i64::from(most);
    if -most <= number && number <= most {
        Some(number as i32)
    } else {
        None
    }
}

#[inline(always)]
fn join(x: Option<i32>, y: Option<i32>) -> Option<Corner>
    ensures { result ≡ both x y }
{
    match (x, y) {
        (Some(x), Some(y)) => Some(Corner { x, y }),
        _ => None,
    }
}

fn product(x: i32, y: i32) -> i64
    ensures { result ≡ x *ℤ y }
{
    i64::from(x) * i64::from(y)
}

#[inline(always)]
fn wrapped_sum(area: i128, term: i64) -> i128
    ensures { result ≡ int_wrap w128 (area +ℤ term) }
{
    area.wrapping_add(i128::from(term))
}

fn sign(area: i128) -> Turn
    ensures { result ≡ sign_of area }
{
    if area < 0 {
        Turn::Right
    } else if area > 0 {
        Turn::Left
    } else {
        Turn::Straight
    }
}

impl Turn {
    ghost use Rattle.std.specs.Prelude.{◌≡◌};
    ghost use Rattle.gj_coords.specs.Internal.WindingGather.{wrong_for_exterior, wrong_for_hole};

    /// Whether an exterior ring that runs so runs the wrong way.
    pub fn wrong_for_exterior(&self) -> bool
        ensures { result ≡ wrong_for_exterior self.now }
    {
        *self == Turn::Right
    }

    /// Whether a hole that runs so runs the wrong way.
    pub fn wrong_for_hole(&self) -> bool
        ensures { result ≡ wrong_for_hole self.now }
    {
        *self == Turn::Left
    }
}

impl RunningSum {
    ghost use Rattle.std.specs.Prelude.{◌≡◌};
    ghost use Rattle.gj_coords.specs.Internal.WindingGather.{sum_added};

    /// Adds a corner. Its two numbers are written one by one, so that a loop keeps each in a register.
    #[inline(always)]
    pub fn add(&mut self, corner: &Corner)
        ensures { self.new ≡ sum_added self.old corner.now }
    {
        self.area = wrapped_sum(self.area, self.last.cross(corner));
        self.last.x = corner.x;
        self.last.y = corner.y;
    }
}

impl Winding {
    ghost use Rattle.std.specs.Prelude.{◌≡◌};
    ghost use Rattle.gj_coords.specs.Internal.WindingGather.{no_winding, corner_added, winding_added, turn_in, sum_in, with_sum};

    /// No position has come.
    pub fn none() -> Winding
        ensures { result ≡ no_winding }
    {
        Winding {
            area: 0,
            last: None,
            unjudged: false,
        }
    }

    /// Takes one position: its corner, where it is in range.
    #[inline(always)]
    pub fn add(&mut self, corner: Option<Corner>)
        ensures { self.new ≡ winding_added self.old corner }
    {
        match corner {
            Some(corner) => self.add_corner(&corner),
            None => self.unjudged = true,
        }
    }

    /// Takes a corner: it writes the sum and the last corner in place.
    #[inline(always)]
    fn add_corner(&mut self, corner: &Corner)
        ensures { self.new ≡ corner_added self.old corner.now }
    {
        match &mut self.last {
            Some(last) => {
                self.area = wrapped_sum(self.area, last.cross(corner));
                last.x = corner.x;
                last.y = corner.y;
            }
            None => {
                // No edge ends in a first corner.
                self.area = wrapped_sum(self.area, 0);
                self.last = Some(*corner);
            }
        }
    }

    /// Its sum and its last corner, where there is one.
    #[inline(always)]
    pub fn running_sum(&self) -> Option<RunningSum>
        ensures { result ≡ sum_in self.now }
    {
        match &self.last {
            Some(last) => Some(RunningSum {
                area: self.area,
                last: *last,
            }),
            None => None,
        }
    }

    /// Takes a sum and a last corner for its own.
    #[inline(always)]
    pub fn set_running_sum(&mut self, sum: &RunningSum)
        ensures { self.new ≡ with_sum self.old sum.now }
    {
        self.area = sum.area;
        self.last = Some(sum.last);
    }

    /// How the positions run. The sum is exact where they are fewer than 2^64.
    pub fn turn(&self) -> Turn
        ensures { result ≡ turn_in self.now }
    {
        if self.unjudged {
            Turn::Unjudged
        } else {
            sign(self.area)
        }
    }
}
