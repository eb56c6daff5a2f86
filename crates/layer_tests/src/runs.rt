//! What is found in runs of features that are checked apart from their text, and the verdict of a text of which one is passed over.

use crate::checks::{equal, holds};
use gj_coords::Kind;
use gj_join::{Joiner, RunLinter, after_brace, warnings_at};
use gj_json::{Limits, MOST_LEVELS};
use gj_rules::{Linter, Verdict};

/// Bytes after a feature: how many features the run has, where it ends in them, how many of its features have a `crs`, whether a
/// feature with a fault has ended, and what the bytes are.
type Row = (&'static [u8], u64, u64, u32, bool, &'static str);

static RUNS: [Row; 7] = [
    (b"", 0, 0, 0, false, "no byte"),
    (
        b",{\"type\":\"Feature\",\"geometry\":null,\"properties\":null} ,{\"type\":\"Feature\",\"geometry\":null,\"properties\":null,\"crs\":1} ",
        2,
        115,
        1,
        false,
        "two features, and white space after each",
    ),
    (
        b",{\"type\":\"Feature\",\"geometry\":null,\"properties\":null}],\"features\":[{}]}",
        1,
        53,
        0,
        false,
        "the array ends, and the text goes on",
    ),
    (
        b",{\"type\":\"Feature\",\"geometry\":null,\"properties\":null},{},{\"type\":\"Feature\",\"geometry\":null,\"properties\":null}",
        1,
        53,
        0,
        true,
        "a feature with a fault between two",
    ),
    (
        b",{\"type\":\"Feature\",\"geometry\":null,\"properties\":null},7 ",
        1,
        53,
        0,
        true,
        "an element that is no object",
    ),
    (
        b",{\"type\":\"Feature\",\"geometry\":null,\"properties\":{\"a\":[{\"type\":\"Feature\"},",
        0,
        0,
        0,
        false,
        "a feature that has not ended",
    ),
    (b"{}", 0, 0, 0, false, "no comma"),
];

/// The sum of a run is the same wherever it begins and however it comes in pieces, but for its places.
#[test]
fn sums_of_runs(rt: HostRuntime) {
    for (bytes, features, end, crs, has_ended, row) in RUNS.iter() {
        for begin in [15, 16, 1 << 40] {
            let Some(mut run) = RunLinter::new(Limits::usual(), begin) else {
                holds(&rt, false, row);
                return;
            };
            let half = bytes.len() / 2;
            run.feed(&bytes[..half]);
            run.feed(&bytes[half..]);
            let sum = run.sum();
            equal(&rt, sum.begin, begin, row);
            equal(&rt, sum.end, begin.saturating_add(*end), row);
            equal(&rt, sum.features, *features, row);
            equal(&rt, sum.warnings.count(Kind::W9), *crs, row);
            holds(&rt, run.has_ended() == *has_ended, row);
        }
    }
}

/// Bytes, and how many of them end with the first brace that the beginning of an object follows after a comma.
static SEAMS: [(&[u8], Option<usize>); 6] = [
    (b"", None),
    (b"1},{\"", Some(2)),
    (b"} \t,\r\n{ \"", Some(1)),
    (b"},{},[{}],{\"", None),
    (b"}},{}},{\"", Some(6)),
    (b"},{", None),
];

#[test]
fn likely_places(rt: HostRuntime) {
    for (bytes, place) in SEAMS.iter() {
        holds(&rt, after_brace(bytes) == *place, "where a run may begin");
    }
}

#[test]
fn many_warnings_at_once(rt: HostRuntime) {
    for count in [0, 1, 6, 7, u32::MAX] {
        let all = warnings_at(Kind::W5, 9, count);
        equal(&rt, all.count(Kind::W5), count, "how many");
        holds(
            &rt,
            (all.first(Kind::W5) == Some(9)) == (count > 0),
            "where they are",
        );
        equal(&rt, all.count(Kind::W4), 0, "of another kind");
    }
}

/// No feature ends before the byte 15, beyond the limit, or where three levels are too deep.
#[test]
fn where_runs_begin(rt: HostRuntime) {
    for (depth, most, begin, is_some) in [
        (MOST_LEVELS, 100, 14, false),
        (MOST_LEVELS, 100, 101, false),
        (MOST_LEVELS, 100, 100, true),
        (2, 100, 100, false),
        (3, 100, 100, true),
    ] {
        if let Some(limits) = Limits::new(depth, most) {
            let run = RunLinter::new(limits, begin);
            holds(&rt, run.is_some() == is_some, "where a run may begin");
        }
    }
}

/// What stands before a run, whether a feature has ended there, what stands after the run, and what the whole is.
static TEXTS: [(&[u8], bool, &[u8], &str); 6] = [
    (
        b"{\"type\":\"FeatureCollection\",\"features\":[{\"type\":\"Feature\",\"geometry\":null,\"properties\":null}",
        true,
        b",{\"type\":\"Feature\",\"geometry\":null,\"properties\":null,\"crs\":null}]}",
        "valid, with warnings in the run and after it",
    ),
    (
        b"{\"features\":[{\"type\":\"Feature\",\"geometry\":null,\"properties\":null}",
        true,
        b"],\"type\":\"Features\"}",
        "of a wrong type",
    ),
    (
        b"{\"type\":\"FeatureCollection\",\"features\":[[]",
        true,
        b"]}",
        "broken before the run",
    ),
    (
        b"{\"type\":\"FeatureCollection\",\"features\":[{\"type\":\"Feature\",\"geometry\":null,\"properties\":null}",
        true,
        b"}",
        "refused after the run",
    ),
    (
        b"{\"type\":\"FeatureCollection\",\"a\":[{\"type\":\"Feature\",\"geometry\":null,\"properties\":null}",
        false,
        b"],\"features\":[]}",
        "with the run in another member",
    ),
    (
        b"{\"type\":\"FeatureCollection\",\"features\":[7",
        false,
        b"]}",
        "with an element without a bracket before the run",
    ),
];

static RUN: &[u8] = b",{\"type\":\"Feature\",\"crs\":null,\"geometry\":null,\"properties\":null}";

fn verdict(pieces: [&[u8]; 3]) -> Verdict {
    let mut linter = Linter::new(Limits::usual());
    for piece in pieces {
        linter.feed(piece);
    }
    linter.finish()
}

/// A run is passed over where a feature has ended right before it, and the verdict is that of one reading.
#[test]
fn runs_passed_over(rt: HostRuntime) {
    for (before, is_after, after, row) in TEXTS.iter() {
        let begin = before.len() as u64;
        let Some(mut run) = RunLinter::new(Limits::usual(), begin) else {
            holds(&rt, false, row);
            return;
        };
        run.feed(RUN);
        let sum = run.sum();
        let mut joiner = Joiner::new(Limits::usual());
        holds(&rt, !joiner.pass_over(&sum), row);
        joiner.feed(before);
        holds(&rt, joiner.pass_over(&sum) == *is_after, row);
        if !is_after {
            joiner.feed(RUN);
        }
        equal(
            &rt,
            joiner.offset(),
            begin.saturating_add(RUN.len() as u64),
            row,
        );
        joiner.feed(after);
        holds(&rt, joiner.end() == verdict([*before, RUN, *after]), row);
    }
}
