//! A FeatureCollection checked in parts.

use crate::sequences::{Bytes, holds};
use file_parts::collections::{check_features, join_features};
use file_parts::{CheckedPart, Share};
use geolint_report::progress::Meter;
use gj_coords::Kind;
use gj_json::Limits;
use gj_rules::{SeqVerdict, Verdict};
use std::io;

/// A feature in the middle, and one at the end, has a position out of range.
const TEXT: &[u8] = br#"{"features":[{"type":"Feature","geometry":null,"properties":null},
{"type":"Feature","geometry":null,"properties":{"a":"},{\"b\""}},
{"type":"Feature","geometry":{"type":"Point","coordinates":[200,1]},"properties":null},
{"type":"Feature","geometry":{"type":"Point","coordinates":[300,1]},"properties":null}],"type":"FeatureCollection"}"#;

fn part_of(rt: &HostRuntime, number: u64) -> io::Result<CheckedPart> {
    let Some(share) = Share::new(number, 2) else {
        return Err(io::Error::from(io::ErrorKind::InvalidInput));
    };
    let mut meter = Meter::new(rt.clone()?);
    let mut source = Bytes {
        bytes: TEXT,
        place: 0,
    };
    check_features(
        &mut source,
        TEXT.len() as u64,
        share,
        Limits::usual(),
        &mut meter,
    )
}

/// Whether the joined verdict is that of the text, and so many of the parts were passed over.
fn is_whole(rt: &HostRuntime, parts: &[CheckedPart], passed: u64) -> io::Result<bool> {
    let mut meter = Meter::new(rt.clone()?);
    let mut source = Bytes {
        bytes: TEXT,
        place: 0,
    };
    let joined = join_features(&mut source, Limits::usual(), parts, &mut meter)?;
    match joined.verdict {
        Verdict::Valid(warnings) => { Ok(joined.passed == passed && warnings.count(Kind::W5) == 2) }
        _ => Ok(false),
    }
}

#[test]
fn features_are_checked_in_two_parts(rt: HostRuntime) -> io::Result<()> {
    let first = part_of(&rt, 1)?;
    let second = part_of(&rt, 2)?;
    let features = match (first.verdict, second.verdict) {
        (SeqVerdict::Valid { records: one, .. }, SeqVerdict::Valid { records: two, .. }) => {
            (one, two)
        }
        _ => (0, 0),
    };
    holds(&rt, features == (2, 1), "three features after the first");
    holds(&rt, first.begin == 65, "right after the first feature");
    holds(&rt, is_whole(&rt, &[first, second], 2)?, "both parts");
    holds(&rt, is_whole(&rt, &[second, first], 1)?, "in another order");
    holds(&rt, is_whole(&rt, &[second], 1)?, "one part");
    holds(&rt, is_whole(&rt, &[], 0)?, "none");
    Ok(())
}
