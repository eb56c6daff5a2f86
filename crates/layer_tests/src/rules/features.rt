//! What is reported of the features of texts, and after which byte: byte by byte, and in two pieces at every cut.

use self::Outcome::{Breaks, Crs, Fine};
use crate::checks::{holds, holds_at, holds_in};
use gj_coords::{Fault, Kind, Rule, Warnings};
use gj_json::{Cause, JsonFault, Limits, Reader};
use gj_rules::{CleanFeature, Feature, FeatureLinter, FeatureRules, FeatureSink, Linter, Verdict};
use std::process::Abort;

/// More than any row has.
const MOST: usize = 8;

/// The first features that were reported, and how many were.
#[derive(Drop)]
struct FirstFeatures {
    features: [Option<Feature>; MOST],
    count: usize,
}

impl FirstFeatures {
    fn new() -> Self {
        FirstFeatures {
            features: [None; MOST],
            count: 0,
        }
    }
}

impl FeatureSink for FirstFeatures {
    ghost told = { λ sink features. Unit {0} };

    fn tell_feature(&mut self, feature: &Feature) {
        if self.count < MOST {
            self.features[self.count] = Some(*feature);
            self.count += 1;
        }
    }
}

/// What a feature has: nothing to report, a `crs` at this place (RFC 7946, section 4), or a rule that it breaks there.
#[derive(Clone, Copy)]
enum Outcome {
    Fine,
    Crs(u64),
    Breaks(Rule, u64),
}

/// How many bytes of the text complete a feature, where it begins, ends and has its id, and what it has.
type Due = (usize, u64, Option<u64>, Option<u64>, Outcome);

fn feature_of(index: u64, due: &Due) -> Feature {
    let (_, place, close, id, outcome) = *due;
    let mut feature = Feature {
        index,
        place,
        close,
        id,
        fault: None,
        warnings: Warnings::none(),
    };
    match outcome {
        Fine => {}
        Crs(crs) => feature.warnings = Warnings::none().add(Kind::W9, crs),
        Breaks(rule, place) => feature.fault = Some(Fault { place, rule }),
    }
    feature
}

/// A linter, before the first byte of a text.
fn linter() -> FeatureLinter<FirstFeatures> {
    FeatureLinter::new(Limits::usual(), FirstFeatures::new())
}

impl FirstFeatures {
    /// Whether exactly those of these features were reported, in order, that the first `bytes` bytes complete.
    fn are(&self, dues: &[Due], bytes: usize) -> bool {
        let mut count = 0;
        for due in dues.iter().filter(|due| due.0 <= bytes) {
            let feature = feature_of(count as u64, due);
            if self.features.get(count) != Some(&Some(feature)) {
                return false;
            }
            count += 1;
        }
        self.count == count
    }
}

/// The verdict of the linter without features.
fn verdict(bytes: &[u8]) -> Verdict {
    let mut linter = Linter::new(Limits::usual());
    linter.feed(bytes);
    linter.finish()
}

/// A text, its features, and what it is.
static FEATURES: [(&str, &[Due], &str); 15] = [
    (
        "{\"type\":\"FeatureCollection\",\"features\":[]}",
        &[],
        "no element",
    ),
    (
        "{\"type\":\"FeatureCollection\",\"features\":[{\"type\":\"Feature\",\"geometry\":null,\"properties\":null},{\"type\":\"Feature\",\"geometry\":null,\"properties\":null}]}",
        &[
            (92, 40, Some(91), None, Fine),
            (145, 93, Some(144), None, Fine),
        ],
        "two features",
    ),
    (
        "{\"features\":[{\"type\":\"FeatureCollection\",\"features\":[{\"type\":\"Feature\",\"geometry\":null,\"properties\":null}]}]}",
        &[(107, 13, Some(106), None, Breaks(Rule::G3, 21))],
        "a nested collection is an element, and its features are none",
    ),
    (
        "{\"features\":[7],\"features\":[8]}",
        &[(15, 13, None, None, Breaks(Rule::G1, 13))],
        "the second features holds none",
    ),
    (
        "{\"features\":{},\"features\":[8]}",
        &[],
        "the first features is no array",
    ),
    (
        "{\"features\":[1,\"a\",null,true,[],[1,2],[[3]]]}",
        &[
            (15, 13, None, None, Breaks(Rule::G1, 13)),
            (18, 15, None, None, Breaks(Rule::G1, 15)),
            (23, 19, None, None, Breaks(Rule::G1, 19)),
            (28, 24, None, None, Breaks(Rule::G1, 24)),
            (31, 29, Some(30), None, Breaks(Rule::G1, 29)),
            (37, 32, Some(36), None, Breaks(Rule::G1, 32)),
            (43, 38, Some(42), None, Breaks(Rule::G1, 38)),
        ],
        "elements that are no objects",
    ),
    (
        "{\"features\":[7,{}],\"type\":\"Point\"}",
        &[
            (15, 13, None, None, Breaks(Rule::G1, 13)),
            (17, 15, Some(16), None, Breaks(Rule::G2, 15)),
        ],
        "a root that is no collection, and whose type comes last",
    ),
    ("[{\"features\":[7]}]", &[], "a root that is no object"),
    (
        "{\"a\":{\"features\":[7]},\"b\":[{\"features\":[8]}]}",
        &[],
        "features of inner objects",
    ),
    (
        "{\"features\":[{\"id\":\"a\",\"properties\":{\"id\":[{\"id\":1}]},\"geometry\":{\"type\":\"Point\",\"coordinates\":[1,2],\"id\":3},\"type\":\"Feature\"}]}",
        &[(126, 13, Some(125), Some(19), Fine)],
        "a type that comes last, and the names id of inner objects",
    ),
    (
        "{\"features\":[{\"geometry\":null,\"properties\":null,\"type\":\"Point\"}]}",
        &[(63, 13, Some(62), None, Breaks(Rule::G3, 55))],
        "a wrong type that comes last",
    ),
    (
        "{\"features\":[{\"id\":[0,1],\"type\":\"Feature\",\"id\":5,\"geometry\":null,\"properties\":null}]}",
        &[(83, 13, Some(82), Some(19), Breaks(Rule::G19, 19))],
        "the first id counts",
    ),
    (
        "{\"features\":[{\"i\\u0064\":{\"a\":1},\"type\":\"Feature\",\"geometry\":null,\"properties\":null},{\"type\":\"Feature\",\"geometry\":null,\"properties\":null}]}",
        &[
            (83, 13, Some(82), Some(24), Breaks(Rule::G19, 24)),
            (136, 84, Some(135), None, Fine),
        ],
        "an id with an escape, and none in the next element",
    ),
    ("7", &[], "a number alone"),
    (
        "{\"features\":[{\"type\":\"Feature\",\"geometry\":null,\"properties\":null,\"crs\":1},{\"type\":\"Feature\",\"geometry\":null,\"crs\":1}]}",
        &[
            (73, 13, Some(72), None, Crs(65)),
            (116, 74, Some(115), None, Breaks(Rule::G7, 74)),
        ],
        "the warning of a feature, and none of a broken one",
    ),
];

/// Tests what is reported after each byte, and the verdict.
fn expect_by_bytes(rt: &impl Abort, bytes: &[u8], dues: &[Due], row: &str) {
    let mut linter = linter();
    for (at, byte) in bytes.iter().enumerate() {
        linter.feed(&[*byte]);
        holds_at(rt, linter.sink().are(dues, at + 1), row, at);
        holds_at(rt, linter.offset() == at as u64 + 1, row, at);
    }
    let (found, sink) = linter.finish();
    holds(rt, found == verdict(bytes), row);
    holds(rt, sink.are(dues, bytes.len()), row);
}

/// Tests what is reported before a cut at each place, and after the text.
fn expect_cut(rt: &impl Abort, bytes: &[u8], dues: &[Due], row: &str) {
    for cut in 0..bytes.len() {
        let mut linter = linter();
        linter.feed(&bytes[..cut]);
        holds_at(rt, linter.sink().are(dues, cut), row, cut);
        linter.feed(&bytes[cut..]);
        let (_, sink) = linter.finish();
        holds_at(rt, sink.are(dues, bytes.len()), row, cut);
    }
}

#[test]
fn each_feature_is_told_with_its_last_byte(rt: HostRuntime) {
    for (text, dues, row) in FEATURES.iter() {
        expect_by_bytes(&rt, text.as_bytes(), dues, row);
        expect_cut(&rt, text.as_bytes(), dues, row);
    }
}

/// A prefix, how many features are reported, and why and where it is refused.
static REFUSED: [(&[u8], usize, Cause, u64); 3] = [
    (b"{\"features\":[{},{\"id\":", 1, Cause::Truncated, 22),
    (b"{\"features\":[{},{}]]", 2, Cause::Syntax, 19),
    (b"{\"features\":[7", 0, Cause::Truncated, 14),
];

#[test]
fn features_before_a_refusal(rt: HostRuntime) {
    for (bytes, count, cause, place) in REFUSED.iter() {
        let mut linter = linter();
        linter.feed(bytes);
        holds_in(&rt, linter.offset() == *place, bytes, 0);
        let (found, sink) = linter.finish();
        let fault = JsonFault {
            place: *place,
            cause: *cause,
        };
        holds_in(&rt, found == Verdict::NotJson(fault), bytes, 0);
        holds_in(&rt, sink.count == *count, bytes, 0);
    }
}

/// The rules fed by a reader of one's own.
#[test]
fn rules_that_tell_features(rt: HostRuntime) {
    let mut reader = Reader::new(Limits::usual());
    let mut rules = FeatureRules::new(FirstFeatures::new());
    let _ = reader.feed(b"{\"features\":[{},7]}", &mut rules);
    holds(&rt, rules.sink().count == 2, "an object and a number");
    let fault = Fault {
        place: 0,
        rule: Rule::G2,
    };
    let is_found = rules.rules().fault() == Some(fault);
    holds(&rt, is_found, "the type of the root is missing");
}

/// A clean feature is reported to a sink that only knows features all the same.
#[test]
fn clean_feature(rt: HostRuntime) {
    let mut sink = FirstFeatures::new();
    sink.tell_clean(&CleanFeature {
        index: 3,
        place: 50,
        close: 90,
        id: Some(70),
    });
    holds(&rt, sink.count == 1, "one feature");
    let fine = feature_of(3, &(0, 50, Some(90), Some(70), Fine));
    let is_fine = sink.features[0] == Some(fine);
    holds(&rt, is_fine, "it has no fault and no warning");
}

/// What follows goes to another sink, and the one that had the features before comes back.
#[test]
fn features_of_two_sinks(rt: HostRuntime) {
    let mut linter = linter();
    linter.feed(b"{\"features\":[7,8,");
    let before = linter.set_sink(FirstFeatures::new());
    linter.feed(b"9]}");
    let (_, after) = linter.finish();
    holds(&rt, before.count == 2, "two before");
    let last = feature_of(2, &(19, 17, None, None, Breaks(Rule::G1, 17)));
    let is_last = after.count == 1 && after.features[0] == Some(last);
    holds(&rt, is_last, "one after");
}

/// What comes before three spaces and after them, whether they are taken at once, and where.
static SPACES: [(&[u8], &[u8], bool, &str); 6] = [
    (b"{\"features\":[{}", b",7]}", true, "after an element"),
    (
        b"{\"features\":[",
        b"7]}",
        true,
        "in an array that has opened",
    ),
    (b"{\"a\":", b"7}", true, "before a value"),
    (
        b"{\"features\":[7",
        b"]}",
        false,
        "after what may be a part of a number",
    ),
    (b"{\"a", b"\":7}", false, "in a name"),
    (b"{}}", b"", false, "after a refusal"),
];

/// Spaces that are taken at once are those that are fed.
#[test]
fn spaces_at_once(rt: HostRuntime) {
    for (before, after, taken, row) in SPACES.iter() {
        let mut at_once = linter();
        let mut fed = linter();
        at_once.feed(before);
        fed.feed(before);
        holds(&rt, at_once.take_spaces(3) == *taken, row);
        if *taken {
            fed.feed(b"   ");
        }
        at_once.feed(after);
        fed.feed(after);
        holds(&rt, at_once.offset() == fed.offset(), row);
        holds(&rt, at_once.finish().0 == fed.finish().0, row);
    }
}
