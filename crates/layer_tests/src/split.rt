//! The features of a text and the records of an input, split into valid and broken ones.
ghost use Rattle.std.specs.Prelude.{None};

use crate::checks::{equal, holds};
use gj_json::Limits;
use gj_rules::Framing;
use gj_split::{Counts, Outputs, Ranges, split, split_records};
use std::alloc::Global;
use std::io;
use std::process::Abort;

/// The most bytes that are read at once.
const PIECE: usize = 7;

/// A text in memory.
#[derive(Drop)]
struct InMemory<'t> {
    bytes: &'t [u8],
}

impl<'t> Ranges for InMemory<'t> {
    ghost text = { None };

    fn read_at(&self, place: u64, piece: &mut [u8]) -> io::Result<usize> {
        let rest = match usize::try_from(place) {
            Ok(at) if at < self.bytes.len() => &self.bytes[at..],
            _ => &self.bytes[..0],
        };
        let count = rest.len().min(piece.len()).min(PIECE);
        piece[..count].copy_from_slice(&rest[..count]);
        Ok(count)
    }
}

/// The framing of an input if it has records, the input, what both parts hold of it, and what it is.
type Row = (
    Option<Framing>,
    &'static str,
    &'static str,
    &'static str,
    &'static str,
);

fn count_of(sequence: &str) -> u64 {
    sequence.bytes().filter(|byte| *byte == 0x1E).count() as u64
}

fn expect(rt: &impl Abort, alloc: Global, row: &Row) {
    let (framing, input, valid, broken, case) = row;
    let source = InMemory {
        bytes: input.as_bytes(),
    };
    let outputs = Outputs {
        valid: Vec::new(alloc),
        broken: Vec::new(alloc),
        list: Vec::new(alloc),
    };
    let (is_read, counts, outputs) = match *framing {
        None => {
            let ended = split(&source, Limits::usual(), outputs);
            (ended.outcome.is_ok(), ended.counts, ended.outputs)
        }
        Some(framing) => {
            let ended = split_records(&source, framing, Limits::usual(), outputs);
            (ended.outcome.is_ok(), ended.counts, ended.outputs)
        }
    };
    holds(rt, is_read, case);
    equal(rt, outputs.valid.as_slice(), valid.as_bytes(), case);
    equal(rt, outputs.broken.as_slice(), broken.as_bytes(), case);
    let wanted = Counts {
        valid: count_of(valid),
        broken: count_of(broken),
    };
    equal(rt, counts, wanted, case);
    let lines = outputs
        .list
        .as_slice()
        .iter()
        .filter(|byte| **byte == b'\n')
        .count();
    equal(rt, lines as u64, wanted.broken, case);
}

static OF_FEATURES: Row = (
    None,
    "{\"type\":\"FeatureCollection\",\"features\":[{\"type\":\"Feature\",\"geometry\":null,\"properties\":null} ,1,{\"type\":\"Feature\",\"geometry\":null,\"properties\":null}]}",
    "\u{1e}{\"type\":\"Feature\",\"geometry\":null,\"properties\":null}\n\u{1e}{\"type\":\"Feature\",\"geometry\":null,\"properties\":null}\n",
    "\u{1e}1\n",
    "a text",
);

#[test]
fn each_feature_goes_to_one_part(rt: HostRuntime) {
    expect(&rt, rt.alloc(), &OF_FEATURES);
}

static OF_RECORDS: [Row; 6] = [
    (
        Some(Framing::Sequence),
        "\u{1e}{\"type\":\"Point\",\"coordinates\":[]}\n\u{1e}[]\n\u{1e}{\"type\":\"Point\",\"coordinates\":[]}\n",
        "\u{1e}{\"type\":\"Point\",\"coordinates\":[]}\n\u{1e}{\"type\":\"Point\",\"coordinates\":[]}\n",
        "\u{1e}[]\n",
        "a broken record in the middle",
    ),
    (
        Some(Framing::Sequence),
        "\u{1e}{\"type\":\"Point\",\"coordinates\":[]}\n\n\u{1e}{\"type\":\"Point\",\"coordinates\":[]}",
        "\u{1e}{\"type\":\"Point\",\"coordinates\":[]}\n\n",
        "\u{1e}{\"type\":\"Point\",\"coordinates\":[]}\n",
        "two LF, and none at the end",
    ),
    (
        Some(Framing::Sequence),
        "x\u{1e}\u{1e}{\"type\":\"Point\",\"coordinates\":[]}\n\u{1e}{\u{1e}{\"type\":\"Point\",\"coordinates\":[]}\n\u{1e}",
        "\u{1e}{\"type\":\"Point\",\"coordinates\":[]}\n\u{1e}{\"type\":\"Point\",\"coordinates\":[]}\n",
        "\u{1e}x\n\u{1e}{\n\u{1e}\n",
        "bytes before the first RS, a cut record, and an RS at the end",
    ),
    (
        Some(Framing::Lines),
        "{\"type\":\"Point\",\"coordinates\":[]}\r\n \t\r\n\n1\n{\"type\":\"Point\",\"coordinates\":[]}",
        "\u{1e}{\"type\":\"Point\",\"coordinates\":[]}\r\n\u{1e}{\"type\":\"Point\",\"coordinates\":[]}\n",
        "\u{1e}1\n",
        "CR LF, blank lines, and no LF at the end",
    ),
    (Some(Framing::Lines), "", "", "", "no line"),
    (Some(Framing::Sequence), "", "", "", "no record"),
];

#[test]
fn each_record_goes_to_one_part(rt: HostRuntime) {
    for row in OF_RECORDS.iter() {
        expect(&rt, rt.alloc(), row);
    }
}
