//! What is found in `coordinates`, for each type that they may be of.
ghost use Rattle.std.specs.Prelude.{◌≡◌, ◌≤◌};
ghost use Rattle.gj_json.specs.Tree.{Tree, depth};
ghost use Rattle.gj_json.specs.Events.{value_events};
ghost use Rattle.gj_coords.specs.Internal.CoordinatesKept.{coordinates_kept};
ghost use Rattle.gj_coords.specs.Internal.GatheredWarnings.{all_in};
ghost use Rattle.gj_rules.specs.Levels.{most_levels};
ghost use Rattle.gj_rules.specs.Internal.FrameReading.{shapes_by};
ghost use Rattle.gj_rules.specs.Internal.Summaries.{StandsForCoordinates};
ghost use Rattle.gj_rules.specs.Members.{simple_of};

use gj_coords::{Coordinates, Fault, Simple, SimpleFaults, Warned};
use gj_json::Word;

/// What is found in a `coordinates` value for each of the six simple types.
///
/// A LineString has the warnings of a MultiPoint: those of each position.
#[derive(Clone, Copy)]
pub struct Shapes {
    /// The faults. Where they are kept for one type alone, `point` is that of this type.
    faults: SimpleFaults,
    /// The warnings, of which mostly there are none: of a Point, or of the one type for which they are kept.
    pub point_or_one: Warned,
    pub multi_point: Warned,
    pub multi_line_string: Warned,
    pub polygon: Warned,
    pub multi_polygon: Warned,
}

/// The simple type whose `coordinates` an object of the type `word` has, where it has some.
#[inline]
pub fn simple_of(word: Word) -> Option<Simple>
    ensures { result ≡ simple_of word }
{
    match word {
        Word::Point => Some(Simple::Point),
        Word::MultiPoint => Some(Simple::MultiPoint),
        Word::LineString => Some(Simple::LineString),
        Word::MultiLineString => Some(Simple::MultiLineString),
        Word::Polygon => Some(Simple::Polygon),
        Word::MultiPolygon => Some(Simple::MultiPolygon),
        _ => None,
    }
}

/// Sets the warnings of the value whose events the summary took, as the coordinates of this type.
#[tactic(auto, using(crate::proofs::Objects::WarningsInTurn::to_none))]
fn set_warned(warned: &mut Warned, summary: &Coordinates, simple: Simple)
    ensures { (value : Tree) → depth value ≤ most_levels → StandsForCoordinates summary.now (value_events value)
        → all_in warned.new ≡ coordinates_kept simple value }
{
    warned.clear();
    summary.warn(simple, warned);
}

impl Shapes {
    ghost use Rattle.gj_rules.specs.Internal.FrameReading.{shapes_in, one_in};
    ghost use Rattle.gj_rules.specs.Internal.Summaries.{no_shapes, shape_for, warned_for, shapes_of, found_as};

    /// Of no value.
    pub fn none() -> Self
        ensures { shapes_in result ≡ no_shapes }
    {
        let none = Warned::none();
        Shapes {
            faults: SimpleFaults::all(None),
            point_or_one: none,
            multi_point: none,
            multi_line_string: none,
            polygon: none,
            multi_polygon: none,
        }
    }

    /// Sets what is found in the value whose events the summary took.
    #[inline]
    pub fn set(&mut self, summary: &Coordinates)
        ensures { (value : Tree) → depth value ≤ most_levels → StandsForCoordinates summary.now (value_events value) → shapes_in self.new ≡ shapes_of value }
    {
        summary.faults(&mut self.faults);
        if summary.is_quiet() {
            self.point_or_one.clear();
            self.multi_point.clear();
            self.multi_line_string.clear();
            self.polygon.clear();
            self.multi_polygon.clear();
        } else {
            self.set_all_warned(summary);
        }
    }

    /// Sets what is found in it for one type alone, which takes the room of what is found for a Point.
    #[inline]
    pub fn set_one(&mut self, simple: Simple, summary: &Coordinates)
        ensures { (value : Tree) → depth value ≤ most_levels → StandsForCoordinates summary.now (value_events value) → one_in self.new ≡ found_as simple value }
    {
        self.faults.point = summary.fault(simple);
        if summary.is_quiet() {
            self.point_or_one.clear();
        } else {
            set_warned(&mut self.point_or_one, summary, simple);
        }
    }

    /// Sets all its warnings.
    #[inline(never)]
    fn set_all_warned(&mut self, summary: &Coordinates)
        ensures { (value : Tree) → depth value ≤ most_levels → StandsForCoordinates summary.now (value_events value)
            → shapes_in self.new ≡ shapes_by self.old.faults (λ simple. coordinates_kept simple value) }
    {
        set_warned(&mut self.point_or_one, summary, Simple::Point);
        set_warned(&mut self.multi_point, summary, Simple::MultiPoint);
        set_warned(
            &mut self.multi_line_string,
            summary,
            Simple::MultiLineString,
        );
        set_warned(&mut self.polygon, summary, Simple::Polygon);
        set_warned(&mut self.multi_polygon, summary, Simple::MultiPolygon);
    }

    /// The fault for the one type for which it is kept.
    pub fn one_fault(&self) -> Option<Fault>
        ensures { result ≡ (one_in self.now).fault }
    {
        self.faults.point
    }

    /// The fault for one type.
    pub fn fault(&self, simple: Simple) -> Option<Fault>
        ensures { result ≡ shape_for simple (shapes_in self.now) }
    {
        match simple {
            Simple::Point => self.faults.point,
            Simple::MultiPoint => self.faults.multi_point,
            Simple::LineString => self.faults.line_string,
            Simple::MultiLineString => self.faults.multi_line_string,
            Simple::Polygon => self.faults.polygon,
            Simple::MultiPolygon => self.faults.multi_polygon,
        }
    }

    /// The warnings for one type.
    pub fn warned(&self, simple: Simple) -> &Warned
        ensures { all_in result.now ≡ warned_for simple (shapes_in self.now) }
    {
        match simple {
            Simple::Point => &self.point_or_one,
            Simple::MultiPoint | Simple::LineString => &self.multi_point,
            Simple::MultiLineString => &self.multi_line_string,
            Simple::Polygon => &self.polygon,
            Simple::MultiPolygon => &self.multi_polygon,
        }
    }
}
