//! A watcher for each of the six types: the value of `coordinates` under one of them.
ghost use Rattle.std.specs.Prelude.{◌≡◌, ◌↔◌, ◌<◌, ◌^◌, ◌++◌, ◌∷◌, List as EventList, [], length, IsTrue};
ghost use Rattle.gj_json.specs.declared.event.Event.{Event};
ghost use Rattle.gj_json.specs.Tree.{Tree, depth};
ghost use Rattle.gj_json.specs.Events.{value_events};
ghost use Rattle.gj_coords.specs.declared.simple.Simple.{Simple};
ghost use Rattle.gj_coords.specs.Fault.{least};
ghost use Rattle.gj_coords.specs.Shape.{coordinates_faults};
ghost use Rattle.gj_coords.specs.WarningsStand.{StandsFor as WarningsStandFor};
ghost use Rattle.gj_coords.specs.CoordinateWarnings.{coordinates_warnings};

use crate::coordinates::Coordinates;
use crate::fault::Fault;
use crate::simple::Simple;
use crate::warnings::Warnings;
use gj_json::Event;
use std::marker::PhantomData;

/// Takes the events of one value of `coordinates`, and gives its least fault and its warnings under one type.
pub trait Watcher: Copy {
    /// The type.
    ghost simple: { Simple };

    /// It was given exactly these events.
    ghost stands: { Self → EventList Event → Type 0 };

    /// No event has come.
    fn new() -> Self
        ensures { stands result [] };

    /// Takes one event, whatever it is.
    fn event(&mut self, event: Event)
        ensures { (events : EventList Event) → stands self.old events → stands self.new (events ++ event ∷ []) };

    /// Whether the events are those of a whole value.
    fn done(&self) -> bool
        ensures at_the_end { (value : Tree) (events rest : EventList Event) → stands self.now events → events ++ rest ≡ value_events value →
            depth value < 2 ^ 64 → IsTrue result ↔ (rest ≡ []) };

    /// The least fault of the value under the type.
    fn fault(&self) -> Option<Fault>
        ensures least { (value : Tree) → stands self.now (value_events value) → depth value < 2 ^ 64 →
            result ≡ least (coordinates_faults simple value) };

    /// The warnings of the value under the type (RFC 7946, sections 3.1, 3.1.1, 3.1.6, 4 and 11.2).
    fn warnings(&self) -> Warnings
        ensures stands { (value : Tree) → stands self.now (value_events value) → length (value_events value) < 2 ^ 64 →
            WarningsStandFor result (coordinates_warnings simple value) };
}

/// Names the type that a watcher is for.
pub trait WatchedType: Copy {
    /// The type.
    ghost SIMPLE: { Simple };

    const SIMPLE: Simple;
}

/// A watcher that asks [`Coordinates`] for one type.
#[derive(Clone, Copy)]
pub struct Watch<T> {
    coordinates: Coordinates,
    watched: PhantomData<T>,
}

impl<T: WatchedType> Watcher for Watch<T> {
    ghost use Rattle.gj_coords.specs.Coordinates.{StandsFor};

    ghost simple = { T.SIMPLE };

    ghost stands = { λ watch events. StandsFor watch.coordinates events };

    fn new() -> Self {
        Watch {
            coordinates: Coordinates::new(),
            watched: PhantomData,
        }
    }

    fn event(&mut self, event: Event) {
        self.coordinates.event(event);
    }

    fn done(&self) -> bool {
        self.coordinates.done()
    }

    fn fault(&self) -> Option<Fault> {
        self.coordinates.fault(T::SIMPLE)
    }

    fn warnings(&self) -> Warnings {
        self.coordinates.warnings(T::SIMPLE)
    }
}

/// Watches the coordinates of a Point (RFC 7946, section 3.1.2).
pub type PointWatcher = Watch<AsPoint>;

#[derive(Clone, Copy)]
pub struct AsPoint;

impl WatchedType for AsPoint {
    ghost use Rattle.gj_coords.specs.declared.simple.Simple.TheVariants.{Point};

    ghost SIMPLE = { Point };

    const SIMPLE: Simple = Simple::Point;
}

/// Watches the coordinates of a MultiPoint (RFC 7946, section 3.1.3).
pub type MultiPointWatcher = Watch<AsMultiPoint>;

#[derive(Clone, Copy)]
pub struct AsMultiPoint;

impl WatchedType for AsMultiPoint {
    ghost use Rattle.gj_coords.specs.declared.simple.Simple.TheVariants.{MultiPoint};

    ghost SIMPLE = { MultiPoint };

    const SIMPLE: Simple = Simple::MultiPoint;
}

/// Watches the coordinates of a LineString (RFC 7946, section 3.1.4).
pub type LineStringWatcher = Watch<AsLineString>;

#[derive(Clone, Copy)]
pub struct AsLineString;

impl WatchedType for AsLineString {
    ghost use Rattle.gj_coords.specs.declared.simple.Simple.TheVariants.{LineString};

    ghost SIMPLE = { LineString };

    const SIMPLE: Simple = Simple::LineString;
}

/// Watches the coordinates of a MultiLineString (RFC 7946, section 3.1.5).
pub type MultiLineStringWatcher = Watch<AsMultiLineString>;

#[derive(Clone, Copy)]
pub struct AsMultiLineString;

impl WatchedType for AsMultiLineString {
    ghost use Rattle.gj_coords.specs.declared.simple.Simple.TheVariants.{MultiLineString};

    ghost SIMPLE = { MultiLineString };

    const SIMPLE: Simple = Simple::MultiLineString;
}

/// Watches the coordinates of a Polygon (RFC 7946, section 3.1.6).
pub type PolygonWatcher = Watch<AsPolygon>;

#[derive(Clone, Copy)]
pub struct AsPolygon;

impl WatchedType for AsPolygon {
    ghost use Rattle.gj_coords.specs.declared.simple.Simple.TheVariants.{Polygon};

    ghost SIMPLE = { Polygon };

    const SIMPLE: Simple = Simple::Polygon;
}

/// Watches the coordinates of a MultiPolygon (RFC 7946, section 3.1.7).
pub type MultiPolygonWatcher = Watch<AsMultiPolygon>;

#[derive(Clone, Copy)]
pub struct AsMultiPolygon;

impl WatchedType for AsMultiPolygon {
    ghost use Rattle.gj_coords.specs.declared.simple.Simple.TheVariants.{MultiPolygon};

    ghost SIMPLE = { MultiPolygon };

    const SIMPLE: Simple = Simple::MultiPolygon;
}
