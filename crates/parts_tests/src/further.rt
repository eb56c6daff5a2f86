//! A further reading of a file: what it finds after the first finding, where few are held at once.

use crate::sequences::{Bytes, holds};
use geolint_report::every::further::Further;
use geolint_report::every::listing::Asked;
use geolint_report::progress::Meter;
use gj_json::Limits;
use gj_rules::Framing;
use std::io;

/// An input, and where its findings after the first are.
static INPUTS: [(&[u8], Option<Framing>, &[u64], &str); 4] = [
    (b"{\"features\":[7,8,9,1]}", None, &[15, 17, 19], "features"),
    (b"1\n2\n3", Some(Framing::Lines), &[2, 4], "lines"),
    (b"\x1E1\n\x1E2\n", Some(Framing::Sequence), &[4], "records"),
    (b"{\"features\":[]}", None, &[], "no feature"),
];

/// Where the findings after the first are, of which so many are held at once.
fn places_after(
    rt: &HostRuntime,
    bytes: &'static [u8],
    framing: Option<Framing>,
    room: u64,
) -> io::Result<Vec<u64>> {
    let mut meter = Meter::new(rt.clone()?);
    let mut source = Bytes { bytes, place: 0 };
    let mut places = Vec::new(rt.alloc());
    let mut asked = Asked {
        with_warnings: false,
        skipped: 1,
        room,
    };
    let mut further = Further::new(rt.alloc(), Limits::usual(), framing, asked);
    for _ in 0..20 {
        if further.has_ended() {
            break;
        }
        further.ask(rt.alloc(), Limits::usual(), framing, asked);
        further.read_on(&mut source, &mut meter);
        for note in further.notes(asked)? {
            places.push(note.told.place)?;
            asked.skipped = asked.skipped.saturating_add(1);
        }
    }
    Ok(places)
}

/// Those that a piece has beyond what is held are found by a reading that begins anew.
#[test]
fn each_finding_comes_once_and_in_order(rt: HostRuntime) -> io::Result<()> {
    for (bytes, framing, wanted, case) in INPUTS.iter() {
        for room in [1, 2, 9] {
            let places = places_after(&rt, bytes, *framing, room)?;
            holds(&rt, places.as_slice() == *wanted, case);
        }
    }
    Ok(())
}
