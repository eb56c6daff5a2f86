//! Rows of warnings, and what is reported of them.
ghost use Rattle.std.specs.Prelude.{◌∷◌, []};
ghost use Rattle.gj_coords.specs.Warnings.{warning_at};
ghost use Rattle.gj_coords.specs.WarningsStand.{StandsFor};

use crate::checks::{equal, holds};
use crate::rows::{Found, warnings_at};
use gj_coords::Kind::{W1, W2, W3, W4, W5, W6, W7, W8, W9};
use gj_coords::{KINDS, Kind, Warnings};
use std::process::Abort;

fn at(kind: Kind, place: u64) -> Warnings
    ensures { StandsFor result (warning_at place kind ∷ []) }
{
    Warnings::none().add(kind, place)
}

#[test]
fn numbers(rt: HostRuntime) {
    for index in 0..KINDS.len() {
        let kind = KINDS[index];
        let found = (kind.number() as usize, kind.index());
        equal(&rt, found, (index + 1, index), kind.text());
    }
}

/// Tests how many warnings of a kind there are, and where the first stands.
fn expect(rt: &impl Abort, warnings: Warnings, kind: Kind, wanted: (u32, Option<u64>), name: &str) {
    let found = (warnings.count(kind), warnings.first(kind));
    equal(rt, found, wanted, name);
}

#[test]
fn no_warnings(rt: HostRuntime) {
    for kind in KINDS.iter() {
        expect(&rt, Warnings::none(), *kind, (0, None), kind.text());
    }
    holds(&rt, Warnings::none().is_empty(), "no warnings");
}

#[test]
fn one_of_each_kind(rt: HostRuntime) {
    for kind in KINDS.iter() {
        let one = at(*kind, 30);
        holds(&rt, !one.is_empty(), kind.text());
        for other in KINDS.iter() {
            let same = *other == *kind;
            let wanted = if same { (1, Some(30)) } else { (0, None) };
            expect(&rt, one, *other, wanted, kind.text());
        }
    }
}

/// What it is, a warning, how many times all so far are doubled, those that are added then, a kind, and how many of it
/// there are and where the first stands.
static COUNTS: [(&str, (Kind, u64), u32, Found, Kind, (u32, Option<u64>)); 13] = [
    ("a mark at 0", (W1, 0), 0, &[], W1, (1, Some(0))),
    (
        "the last place",
        (W5, u64::MAX),
        0,
        &[],
        W5,
        (1, Some(u64::MAX)),
    ),
    ("in order", (W9, 1), 0, &[(W9, 9)], W9, (2, Some(1))),
    (
        "the lesser second",
        (W3, 50),
        0,
        &[(W3, 36)],
        W3,
        (2, Some(36)),
    ),
    ("0 second", (W3, 50), 0, &[(W3, 0)], W3, (2, Some(0))),
    (
        "twice at one place",
        (W3, 36),
        0,
        &[(W3, 36)],
        W3,
        (2, Some(36)),
    ),
    (
        "two kinds, the first",
        (W4, 31),
        0,
        &[(W5, 30)],
        W4,
        (1, Some(31)),
    ),
    (
        "two kinds, the second",
        (W4, 31),
        0,
        &[(W5, 30)],
        W5,
        (1, Some(30)),
    ),
    (
        "31 doublings",
        (W4, 7),
        31,
        &[],
        W4,
        (2_147_483_648, Some(7)),
    ),
    ("32 doublings", (W4, 7), 32, &[], W4, (u32::MAX, Some(7))),
    ("40 doublings", (W4, 7), 40, &[], W4, (u32::MAX, Some(7))),
    (
        "one more than the greatest",
        (W4, 7),
        32,
        &[(W4, 5)],
        W4,
        (u32::MAX, Some(5)),
    ),
    (
        "another kind beside the greatest",
        (W4, 7),
        32,
        &[(W5, 5)],
        W5,
        (1, Some(5)),
    ),
];

#[test]
fn counts_and_places(rt: HostRuntime) {
    for (name, first, doublings, added, kind, wanted) in COUNTS.iter() {
        let mut warnings = at(first.0, first.1);
        for _ in 0..*doublings {
            warnings = warnings.join(warnings);
        }
        for (kind, place) in *added {
            warnings = warnings.add(*kind, *place);
        }
        holds(&rt, !warnings.is_empty(), name);
        expect(&rt, warnings, *kind, *wanted, name);
    }
}

/// What they are, the first warnings, those that are joined to them, a kind, and how many of it there are and where the
/// first stands.
static JOINED: [(&str, Found, Found, Kind, (u32, Option<u64>)); 5] = [
    ("joined", &[(W2, 33)], &[(W2, 59)], W2, (2, Some(33))),
    (
        "joined the other way",
        &[(W2, 59)],
        &[(W2, 33)],
        W2,
        (2, Some(33)),
    ),
    (
        "joined, two kinds",
        &[(W8, 43)],
        &[(W7, 4)],
        W8,
        (1, Some(43)),
    ),
    ("none first", &[], &[(W6, 30)], W6, (1, Some(30))),
    ("none last", &[(W6, 30)], &[], W6, (1, Some(30))),
];

#[test]
fn counts_and_places_of_joined_warnings(rt: HostRuntime) {
    for (name, one, other, kind, wanted) in JOINED.iter() {
        let warnings = warnings_at(one).join(warnings_at(other));
        holds(&rt, !warnings.is_empty(), name);
        expect(&rt, warnings, *kind, *wanted, name);
    }
}

/// One warning, its place moved on by `by` bytes.
fn one_shifted(kind: Kind, place: u32, by: u32) -> Warnings {
    at(kind, place as u64).shifted(by as u64)
}

#[test]
fn shifted(rt: HostRuntime) {
    for kind in KINDS.iter() {
        let on = one_shifted(*kind, 30, 39);
        for other in KINDS.iter() {
            let count = at(*kind, 30).count(*other);
            let first = if *other == *kind { Some(69) } else { None };
            expect(&rt, on, *other, (count, first), kind.text());
        }
    }
    let first = one_shifted(W1, 0, 1).first(W1);
    equal(&rt, first, Some(1), "a place of 0 is a place");
}
