//! A watcher of each type finds what `Coordinates` finds for this type.
use super::walked::Walked;
use crate::checks::holds;
use crate::coords::sample::tell;
use gj_coords::Simple::{LineString, MultiLineString, MultiPoint, MultiPolygon, Point, Polygon};
use gj_coords::{
    LineStringWatcher, MultiLineStringWatcher, MultiPointWatcher, MultiPolygonWatcher,
    PointWatcher, PolygonWatcher, Simple, Watcher,
};
use gj_json::{Event, EventSink};
use std::process::Abort;

/// A watcher, given each event.
#[derive(Drop)]
struct Watched<W> {
    watcher: W,
    /// Whether it was done before the last event.
    early: bool,
}

impl<W: Watcher> EventSink for Watched<W> {
    ghost heard = { λ watched events. Unit {0} };

    fn tell(&mut self, event: Event) {
        self.early = self.early || self.watcher.done();
        self.watcher.event(event);
    }

    fn ignored(&self) -> u16 {
        0
    }

    fn pass(&mut self, _left: u16) {}
}

/// Values that have other faults or warnings as each of the types.
static VALUES: [&str; 3] = ["[]", "[1,200]", "[[[0,0],[0,1],[1,1],[0,0]]]"];

fn expect_as<W: Watcher>(rt: &impl Abort, simple: Simple) {
    for text in VALUES.iter() {
        let mut watched: Watched<W> = Watched {
            watcher: Watcher::new(),
            early: false,
        };
        tell(text.as_bytes(), &mut watched);
        let walk = Walked::of_text(text).walk;
        holds(rt, watched.watcher.done() && !watched.early, text);
        holds(rt, watched.watcher.fault() == walk.fault(simple), text);
        holds(
            rt,
            watched.watcher.warnings() == walk.warnings(simple),
            text,
        );
    }
}

#[test]
fn each_type(rt: HostRuntime) {
    expect_as::<PointWatcher>(&rt, Point);
    expect_as::<MultiPointWatcher>(&rt, MultiPoint);
    expect_as::<LineStringWatcher>(&rt, LineString);
    expect_as::<MultiLineStringWatcher>(&rt, MultiLineString);
    expect_as::<PolygonWatcher>(&rt, Polygon);
    expect_as::<MultiPolygonWatcher>(&rt, MultiPolygon);
}
