//! Positions given as one `Flat`, as the coordinates of a Point: whether the way they are written shows that they are plain, and
//! what deserves a warning in them.
use super::sample::tell_spaced;
use crate::checks::equal;
use gj_coords::{Kind, Warnings, is_plain_point, point_warned};
use gj_json::{Event, EventSink, Flat};

/// Whether the last `Flat` is plain as a Point, where one has come, and its warnings.
#[derive(Drop)]
struct Last {
    plain: Option<bool>,
    warnings: Warnings,
}

impl EventSink for Last {
    ghost heard = { λ last events. Unit {0} };

    fn tell(&mut self, _event: Event) {}

    fn tell_flat(&mut self, flat: &Flat) {
        self.plain = Some(is_plain_point(flat));
        self.warnings = point_warned(flat).all();
    }

    fn ignored(&self) -> u16 {
        0
    }

    fn pass(&mut self, _left: u16) {}
}

/// What comes of the position in an object.
fn last_of(object: &str) -> Last {
    let mut last = Last {
        plain: None,
        warnings: Warnings::none(),
    };
    tell_spaced(object, &mut last);
    last
}

/// An object with a position in it, and whether the position is plain.
static ROWS: [(&str, bool); 11] = [
    ("{\"a\":[1,2]}", true),
    ("{\"a\":[1,2,3]}", true),
    ("{\"a\":[-180,90.0000000]}", true),
    ("{\"a\":[1.1234567,-2.7654321,3.0000001]}", true),
    ("{\"a\":[1,2,1000.5]}", true),
    ("{\"a\":[180.0000001,2]}", false),
    ("{\"a\":[1,-90.0000001]}", false),
    ("{\"a\":[1.12345678,2]}", false),
    ("{\"a\":[1,2.12345678]}", false),
    ("{\"a\":[1,2,3.12345678]}", false),
    ("{\"a\":[1.50000000,2]}", false),
];

#[test]
fn plain_as_a_point(rt: HostRuntime) {
    for (object, plain) in ROWS.iter() {
        equal(&rt, last_of(object).plain, Some(*plain), object);
    }
}

/// An object with a position in it, a kind of warning, how many of it the position deserves, and where the first stands.
static WARNED: [(&str, Kind, u32, Option<u64>); 8] = [
    ("{\"a\":[1.1234567,2,3]}", Kind::W4, 0, None),
    ("{\"a\":[1.12345678,2]}", Kind::W4, 1, Some(6)),
    ("{\"a\":[1.12345678,2.12345678]}", Kind::W4, 2, Some(6)),
    ("{\"a\":[1,2.12345678,3.12345678]}", Kind::W4, 2, Some(8)),
    ("{\"a\":[1.50000000,2]}", Kind::W4, 0, None),
    ("{\"a\":[181.12345678,2]}", Kind::W5, 1, Some(5)),
    ("{\"a\":[181.12345678,2]}", Kind::W4, 1, Some(6)),
    ("{\"a\":[180.00000001,2]}", Kind::W5, 0, None),
];

#[test]
fn warned_of_as_a_point(rt: HostRuntime) {
    for (object, kind, count, first) in WARNED.iter() {
        let warnings = last_of(object).warnings;
        equal(&rt, warnings.count(*kind), *count, object);
        equal(&rt, warnings.first(*kind), *first, object);
    }
}
