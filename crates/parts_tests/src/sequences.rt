//! Text sequences and newline-delimited texts checked in parts: where each part begins and ends, the verdict of the whole, and the lines of parts.

ghost use Rattle.std.specs.Prelude.{◌≤◌, None, length};

use file_parts::{CheckedPart, ListedPart, Misfit, Share, check_part, join_parts};
use geolint_report::every::listing::{Asked, Item, Note, Notes, notes_for};
use geolint_report::every::reading::judge_every;
use geolint_report::every::tally::Tally;
use geolint_report::judge::Reading;
use geolint_report::progress::Meter;
use geolint_report::report::Told;
use geolint_report::source::{Peek, Rewind, Source};
use geolint_report::texts::Code;
use gj_coords::{Fault, Kind, Rule, Warnings};
use gj_json::{Limits, MOST_LEVELS};
use gj_rules::{Framing, Record, RecordSink, Records, SeqVerdict, Sequence, Verdict};
use part_lines::{
    FileState, Listed, PartLine, Refusal, Settings, join_lines, join_notes, put_line, read_line,
};
use report_forms::options::{Kinds, Strictness};
use std::alloc::Global;
use std::io;
use std::process::Abort;

/// Tests what must be so of a case.
pub(crate) fn holds(rt: &impl Abort, is_so: bool, case: &str) {
    assert!(rt; is_so, "{case}");
}

/// Tests what must be so of a case in so many parts.
fn holds_in(rt: &impl Abort, is_so: bool, case: &str, parts: usize) {
    assert!(rt; is_so, "{case}, in {parts} parts");
}

/// A source in memory.
#[derive(Drop)]
pub(crate) struct Bytes<'a> {
    pub(crate) bytes: &'a [u8],
    pub(crate) place: usize,
}

/// Copies the bytes from a place on, as far as there is room, and answers how many there were.
fn copy_from(bytes: &[u8], place: usize, piece: &mut [u8]) -> usize
    ensures { result ≤ length piece.new }
{
    let rest = bytes.get(place..bytes.len()).unwrap_or(&[]);
    let count = rest.len().min(piece.len());
    for i in 0..count {
        piece[i] = rest[i];
    }
    count
}

impl<'a> Source for Bytes<'a> {
    ghost remaining = { λ _. None };

    ghost text = { λ _. None };

    ghost failed_reads = { λ _. 0 };

    fn read_piece(&mut self, piece: &mut [u8]) -> io::Result<usize> {
        let count = copy_from(self.bytes, self.place, piece);
        self.place = self.place.saturating_add(count);
        Ok(count)
    }
}

impl<'a> Peek for Bytes<'a> {
    fn peek(&self, place: u64, piece: &mut [u8]) -> usize {
        copy_from(self.bytes, place as usize, piece)
    }
}

impl<'a> Rewind for Bytes<'a> {
    fn size(&self) -> Option<u64> {
        Some(self.bytes.len() as u64)
    }

    fn rewind(&mut self) -> io::Result<()> {
        self.place = 0;
        Ok(())
    }

    fn read_from(&mut self, place: u64, piece: &mut [u8]) -> io::Result<usize> {
        Ok(copy_from(self.bytes, place as usize, piece))
    }

    fn expect_unchanged(&mut self) -> io::Result<()> {
        Ok(())
    }
}

fn limits_of(most: u64) -> Limits {
    Limits::new(MOST_LEVELS, most).unwrap_or(Limits::usual())
}

/// It keeps nothing of the records.
#[derive(Drop)]
struct NoRecords;

impl RecordSink for NoRecords {
    ghost told = { λ sink records. Unit {0} };

    fn tell_record(&mut self, _found: &Record) {}
}

/// The verdict of one reading.
fn verdict_of(bytes: &[u8], framing: Framing, most: u64) -> SeqVerdict {
    match framing {
        Framing::Sequence => {
            let mut sequence = Sequence::new(limits_of(most));
            sequence.feed(bytes);
            sequence.finish()
        }
        Framing::Lines => {
            let mut lines = Records::new(framing, limits_of(most));
            lines.feed(bytes, &mut NoRecords);
            lines.finish(&mut NoRecords)
        }
    }
}

/// What is found of a part.
fn part_of(
    rt: &HostRuntime,
    bytes: &'static [u8],
    number: u64,
    parts: u64,
    framing: Framing,
    most: u64,
) -> io::Result<CheckedPart> {
    Ok(listed_part_of(rt, bytes, number, parts, framing, most, None)?.part)
}

/// What is found of a part, with the notes on its records.
fn listed_part_of(
    rt: &HostRuntime,
    bytes: &'static [u8],
    number: u64,
    parts: u64,
    framing: Framing,
    most: u64,
    asked: Option<Asked>,
) -> io::Result<ListedPart> {
    let Some(share) = Share::new(number, parts) else {
        return Err(io::Error::from(io::ErrorKind::InvalidInput));
    };
    let mut meter = Meter::new(rt.clone()?);
    let source = Bytes { bytes, place: 0 };
    let (found, _) = check_part(
        rt.alloc(),
        source,
        bytes.len() as u64,
        share,
        framing,
        limits_of(most),
        asked,
        &mut meter,
    );
    found
}

/// The verdict of all parts together.
fn joined(
    rt: &HostRuntime,
    bytes: &'static [u8],
    parts: u64,
    framing: Framing,
    most: u64,
) -> io::Result<SeqVerdict> {
    let mut all = Vec::new(rt.alloc());
    for before in 0..parts {
        match all.push(part_of(rt, bytes, before + 1, parts, framing, most)?) {
            Ok(()) => {}
            Err(_) => return Err(io::Error::from(io::ErrorKind::OutOfMemory)),
        }
    }
    match join_parts(all.as_slice(), bytes.len() as u64) {
        Ok(verdict) => Ok(verdict),
        Err(_) => Err(io::Error::from(io::ErrorKind::InvalidData)),
    }
}

const POINTS: &[u8] =
    b"\x1E{\"type\":\"Point\",\"coordinates\":[1,2]}\n\x1E{\"type\":\"Point\",\"coordinates\":[181,2]}\n\x1E{\"type\":\"Point\",\"coordinates\":[1,2]}\n";

/// Some bytes, the number of a part and how many there are, where it begins and ends, and what it is.
type Cut = (&'static [u8], u64, u64, (u64, u64), &'static str);

/// Where the parts of a sequence begin and end, found by hand.
static CUTS: [Cut; 14] = [
    (b"", 1, 1, (0, 0), "no byte"),
    (b"", 2, 3, (0, 0), "a part of no byte"),
    (POINTS, 1, 1, (0, 116), "one part"),
    (POINTS, 1, 2, (0, 78), "two parts, the first"),
    (POINTS, 2, 2, (78, 116), "two parts, the second"),
    (
        b"\x1E1\n\x1E\x1E\x1E2\n",
        1,
        2,
        (0, 8),
        "no cut within a run of separators, the first",
    ),
    (
        b"\x1E1\n\x1E\x1E\x1E2\n",
        2,
        2,
        (8, 8),
        "no cut within a run of separators, the second: no byte",
    ),
    (
        b"\x1E1\n\x1E\x1E\x1E2\n",
        3,
        4,
        (6, 6),
        "a range in which no record begins",
    ),
    (
        b"\x1E1\n\x1E\x1E\x1E2\n",
        2,
        4,
        (3, 8),
        "a range that begins with a run",
    ),
    (
        b"\x1E12345678\n\x1E2\n",
        1,
        4,
        (0, 10),
        "a record longer than its range",
    ),
    (
        b"\x1E12345678\n\x1E2\n",
        2,
        4,
        (7, 7),
        "and a range within it",
    ),
    (
        b"\x1E1\n\x1E2\n",
        5,
        9,
        (5, 5),
        "more parts than bytes, a range without a separator",
    ),
    (
        b"x\x1E1\n\x1E2\n",
        1,
        3,
        (0, 4),
        "a byte before the first separator",
    ),
    (
        b"x\x1E1\n\x1E2\n",
        3,
        3,
        (7, 7),
        "no record begins in the last range",
    ),
];

/// Where the parts of lines begin and end, found by hand: each of them has the lines whose first bytes are in its range.
static LINE_CUTS: [Cut; 10] = [
    (b"", 2, 3, (0, 0), "a part of no byte"),
    (b"1\n2\n3\n", 1, 1, (0, 6), "one part"),
    (
        b"1\n2\n3\n",
        1,
        2,
        (0, 4),
        "a range that ends within a line",
    ),
    (
        b"1\n2\n3\n",
        2,
        2,
        (4, 6),
        "a range that begins within a line",
    ),
    (b"1\n2\n3\n", 1, 3, (0, 2), "a range that ends with a line"),
    (
        b"1\n2\n3\n",
        2,
        3,
        (2, 4),
        "a range that begins with a line",
    ),
    (b"12345678\n2\n", 2, 4, (6, 6), "a range within a line"),
    (
        b"12345678\n2\n",
        4,
        4,
        (9, 11),
        "a range in which a line begins",
    ),
    (
        b"1\n\n\n\n2\n",
        2,
        4,
        (2, 4),
        "blank lines, which are lines",
    ),
    (b"1\n2", 4, 4, (3, 3), "no cut within a line without LF"),
];

fn are_cut_there(
    abort: &impl Abort,
    rt: &HostRuntime,
    cuts: &'static [Cut],
    framing: Framing,
) -> io::Result<()> {
    for (bytes, number, parts, wanted, case) in cuts.iter() {
        let part = part_of(rt, bytes, *number, *parts, framing, 1 << 20)?;
        holds(abort, (part.begin, part.end) == *wanted, case);
    }
    Ok(())
}

#[test]
fn parts_begin_and_end_there(rt: HostRuntime) -> io::Result<()> {
    are_cut_there(&rt, &rt, &CUTS, Framing::Sequence)
}

#[test]
fn parts_of_lines_begin_and_end_there(rt: HostRuntime) -> io::Result<()> {
    are_cut_there(&rt, &rt, &LINE_CUTS, Framing::Lines)
}

const LINES: &[u8] =
    b"{\"type\":\"Point\",\"coordinates\":[1,2]}\n\n \t\r\n{\"type\":\"Point\",\"coordinates\":[181,2]}\r\n{\"type\":\"Point\",\"coordinates\":[1,2]}";

/// Some bytes, a limit on them, and what they are.
type Input = (&'static [u8], u64, &'static str);

static SEQUENCES: [Input; 9] = [
    (b"", 1 << 20, "no byte"),
    (b"\x1E\x1E\x1E", 1 << 20, "separators alone"),
    (POINTS, 1 << 20, "three records, and a warning"),
    (POINTS, 100, "a limit within the third record"),
    (POINTS, 78, "a limit where a record begins"),
    (
        b"\x1E\x1E{\"type\":\"Point\",\"coordinates\":[1,2]}\n\x1E\x1E\x1E\x1E\x1E\x1E\x1E\x1E\x1E\x1E\x1E{\"type\":\"Point\",\"coordinates\":[181,2]}\n",
        1 << 20,
        "runs of separators",
    ),
    (
        b"\x1E{\"type\":\"Point\"}\n\x1E{\"type\":\"Point\",\"coordinates\":[181,2]}\n\x1E{\"type\":\"Point\"}\n",
        1 << 20,
        "a fault in the first record and in the last",
    ),
    (
        b"x\x1E{}\n\x1E{}\n",
        1 << 20,
        "a byte before the first separator",
    ),
    (b"{}\n{}\n{}\n", 1 << 20, "no separator"),
];

static LINE_INPUTS: [Input; 7] = [
    (b"", 1 << 20, "no byte"),
    (b"\n\r\n \n\n", 1 << 20, "blank lines alone"),
    (LINES, 1 << 20, "three lines, and a warning"),
    (LINES, 100, "a limit within the third line"),
    (LINES, 42, "a limit where a line begins"),
    (
        b"{\"type\":\"Point\"}\n{\"type\":\"Point\",\"coordinates\":[181,2]}\n{\"type\":\"Point\"}\n",
        1 << 20,
        "a fault in the first line and in the last",
    ),
    (b"{}\n\n{}\n[", 1 << 20, "half a line at the end"),
];

/// The verdict of up to nine parts is that of one reading.
fn are_one_reading(
    abort: &impl Abort,
    rt: &HostRuntime,
    inputs: &'static [Input],
    framing: Framing,
) -> io::Result<()> {
    for (bytes, most, case) in inputs.iter() {
        let whole = verdict_of(bytes, framing, *most);
        for parts in 1..10 {
            let all = joined(rt, bytes, parts as u64, framing, *most)?;
            holds_in(abort, all == whole, case, parts);
        }
    }
    Ok(())
}

#[test]
fn parts_are_one_reading(rt: HostRuntime) -> io::Result<()> {
    are_one_reading(&rt, &rt, &SEQUENCES, Framing::Sequence)
}

#[test]
fn parts_of_lines_are_one_reading(rt: HostRuntime) -> io::Result<()> {
    are_one_reading(&rt, &rt, &LINE_INPUTS, Framing::Lines)
}

/// Nothing is found of a part where the source ends before it should.
#[test]
fn short_sources_have_no_such_part(rt: HostRuntime) -> io::Result<()> {
    for (number, given) in SHORT.iter() {
        let Some(share) = Share::new(*number, 3) else {
            return Err(io::Error::from(io::ErrorKind::InvalidInput));
        };
        let mut meter = Meter::new(rt.clone()?);
        let source = Bytes {
            bytes: &POINTS[..*given],
            place: 0,
        };
        let (found, _) = check_part(
            rt.alloc(),
            source,
            116,
            share,
            Framing::Sequence,
            limits_of(1 << 20),
            None,
            &mut meter,
        );
        match found {
            Ok(_) => holds(&rt, false, "a part of a source that ends early"),
            Err(error) => holds(
                &rt,
                error.kind() == io::ErrorKind::UnexpectedEof,
                "another error of a source that ends early",
            ),
        }
    }
    Ok(())
}

/// The number of a part of three, and how many bytes the source gives: none after the first or second record, within the part's range,
/// and before its end.
static SHORT: [(u64, usize); 5] = [(1, 38), (1, 20), (2, 38), (2, 60), (3, 78)];

/// Parts that are not those of a text, one after the other, are refused.
#[test]
fn parts_out_of_order_are_refused(rt: HostRuntime) -> io::Result<()> {
    let first = part_of(&rt, POINTS, 1, 2, Framing::Sequence, 1 << 20)?;
    let second = part_of(&rt, POINTS, 2, 2, Framing::Sequence, 1 << 20)?;
    let refused = Err(Misfit::NotInOrder);
    holds(&rt, join_parts(&[first, second], 116).is_ok(), "in order");
    holds(
        &rt,
        join_parts(&[second, first], 116) == refused,
        "in another order",
    );
    holds(
        &rt,
        join_parts(&[first, first], 116) == refused,
        "one of them twice",
    );
    holds(
        &rt,
        join_parts(&[first], 116) == refused,
        "the last one missing",
    );
    holds(
        &rt,
        join_parts(&[second], 116) == refused,
        "the first one missing",
    );
    Ok(())
}

/// The verdict of so many records with these warnings, or that of the record of this number, which breaks a rule.
fn verdict_with(number: u64, fault: Option<(Rule, u64)>, found: &[(Kind, u64)]) -> SeqVerdict {
    if let Some((rule, place)) = fault {
        return SeqVerdict::Record {
            number,
            verdict: Verdict::Broken(Fault { place, rule }),
        };
    }
    let mut warnings = Warnings::none();
    for (kind, place) in found {
        warnings = warnings.add(*kind, *place);
    }
    SeqVerdict::Valid {
        records: number,
        warnings,
    }
}

/// A part within a file of 116 bytes.
fn part_with(verdict: SeqVerdict) -> CheckedPart {
    CheckedPart {
        begin: 40,
        end: 99,
        verdict,
    }
}

/// The line of a part of a file of 116 bytes.
fn line_of(rt: &HostRuntime, number: u64, checked: CheckedPart) -> io::Result<PartLine> {
    let Some(share) = Share::new(number, 2) else {
        return Err(io::Error::from(io::ErrorKind::InvalidInput));
    };
    let mut allowed = Kinds::none();
    allowed.insert(Kind::W4);
    allowed.insert(Kind::W9);
    Ok(PartLine {
        file: FileState {
            path: String::from_str(rt.alloc(), "a \"b\".geojsons")?,
            size: 116,
            modified: String::from_str(rt.alloc(), "17.000000005")?,
        },
        settings: Settings {
            framing: Some(Framing::Sequence),
            limits: limits_of(1000),
            strictness: Strictness {
                strict: true,
                allowed,
                denied: Kinds::none(),
            },
        },
        share,
        checked,
        listed: None,
    })
}

/// Tests a line as it is written, and as it is written once more after it was read.
fn is_written_so(rt: &impl Abort, alloc: Global, line: &PartLine, wanted: &str) -> io::Result<()> {
    let mut written = Vec::new(alloc);
    put_line(alloc, line, &mut written)?;
    holds(rt, written.as_slice() == wanted.as_bytes(), wanted);
    match read_line(alloc, wanted.as_bytes().trim_ascii_end()) {
        Ok(read) => {
            let mut again = Vec::new(alloc);
            put_line(alloc, &read, &mut again)?;
            holds(rt, again.as_slice() == wanted.as_bytes(), wanted);
            holds(rt, read.checked.verdict == line.checked.verdict, wanted);
        }
        Err(_) => holds(rt, false, wanted),
    }
    Ok(())
}

/// A part as a row has it: its framing, how many records it has or which decides, the rule that this one breaks and where, the
/// warnings, and its line.
type Written = (
    Option<Framing>,
    u64,
    Option<(Rule, u64)>,
    &'static [(Kind, u64)],
    &'static str,
);

static WRITTEN: [Written; 3] = [
    (
        Some(Framing::Sequence),
        12,
        None,
        &[
            (Kind::W5, 30),
            (Kind::W5, 20),
            (Kind::W1, 7),
            (Kind::W5, 25),
        ],
        "{\"geolint_part\":2,\"part\":2,\"parts\":2,\"path\":\"a \\\"b\\\".geojsons\",\"size\":116,\"modified\":\"17.000000005\",\"framing\":\"seq\",\"max_bytes\":1000,\"strict\":true,\"allow\":[\"W4\",\"W9\"],\"deny\":[],\"begin\":40,\"end\":99,\"records\":12,\"warnings\":[{\"kind\":\"W1\",\"count\":1,\"at\":47},{\"kind\":\"W5\",\"count\":3,\"at\":60}],\"sha256\":\"78af16f4c28e181cbcb94a3771f6a01ae47b7d23488d68305e0eae4c5fc23db3\"}\n",
    ),
    (
        Some(Framing::Lines),
        3,
        Some((Rule::G15, 5)),
        &[],
        "{\"geolint_part\":2,\"part\":2,\"parts\":2,\"path\":\"a \\\"b\\\".geojsons\",\"size\":116,\"modified\":\"17.000000005\",\"framing\":\"ndjson\",\"max_bytes\":1000,\"strict\":true,\"allow\":[\"W4\",\"W9\"],\"deny\":[],\"begin\":40,\"end\":99,\"record\":3,\"fault\":\"G15\",\"at\":45,\"sha256\":\"eedb18c06cccee405a068008b7d4c00c8d91ab4f78935f57b6741998ae198def\"}\n",
    ),
    (
        None,
        12,
        None,
        &[
            (Kind::W5, 30),
            (Kind::W5, 20),
            (Kind::W1, 7),
            (Kind::W5, 25),
        ],
        "{\"geolint_part\":2,\"part\":2,\"parts\":2,\"path\":\"a \\\"b\\\".geojsons\",\"size\":116,\"modified\":\"17.000000005\",\"framing\":\"features\",\"max_bytes\":1000,\"strict\":true,\"allow\":[\"W4\",\"W9\"],\"deny\":[],\"begin\":40,\"end\":99,\"records\":12,\"warnings\":[{\"kind\":\"W1\",\"count\":1,\"at\":7},{\"kind\":\"W5\",\"count\":3,\"at\":20}],\"sha256\":\"4ba1704a9e2aff050735707b37f24bc9083b738e3690d739eecd08cdd39c56f1\"}\n",
    ),
];

#[test]
fn lines_are_read_as_they_are_written(rt: HostRuntime) -> io::Result<()> {
    for (framing, number, fault, found, wanted) in WRITTEN.iter() {
        let verdict = verdict_with(*number, *fault, found);
        let mut line = line_of(&rt, 2, part_with(verdict))?;
        line.settings.framing = *framing;
        is_written_so(&rt, rt.alloc(), &line, wanted)?;
    }
    Ok(())
}

/// A line is refused where any byte of it is another.
#[test]
fn altered_lines_are_refused(rt: HostRuntime) -> io::Result<()> {
    let wanted = LISTED.as_bytes().trim_ascii_end();
    for index in 0..wanted.len() {
        let mut text = Vec::from_slice(rt.alloc(), wanted)?;
        text[index] ^= 1;
        holds(
            &rt,
            read_line(rt.alloc(), text.as_slice()).is_err(),
            "an altered line",
        );
    }
    Ok(())
}

/// Lines in any order, and lines that are not those of all parts of one file.
#[test]
fn lines_are_joined_or_refused(rt: HostRuntime) -> io::Result<()> {
    let first = part_of(&rt, POINTS, 1, 2, Framing::Sequence, 1000)?;
    let second = part_of(&rt, POINTS, 2, 2, Framing::Sequence, 1000)?;
    let whole = Ok(verdict_of(POINTS, Framing::Sequence, 1000));
    let alloc = rt.alloc();
    let all = [line_of(&rt, 1, first)?, line_of(&rt, 2, second)?];
    holds(&rt, join_lines(alloc, &all) == whole, "in order");
    let all = [line_of(&rt, 2, second)?, line_of(&rt, 1, first)?];
    holds(&rt, join_lines(alloc, &all) == whole, "in another order");
    holds(&rt, join_lines(alloc, &[]) == Err(Refusal::None), "no line");
    let all = [line_of(&rt, 2, second)?];
    holds(
        &rt,
        join_lines(alloc, &all) == Err(Refusal::Missing(1)),
        "one alone",
    );
    let all = [line_of(&rt, 1, first)?, line_of(&rt, 1, first)?];
    holds(
        &rt,
        join_lines(alloc, &all) == Err(Refusal::Twice(1)),
        "one twice",
    );
    let mut other = line_of(&rt, 2, second)?;
    other.file.size = 117;
    let all = [line_of(&rt, 1, first)?, other];
    holds(
        &rt,
        join_lines(alloc, &all) == Err(Refusal::Changed(1)),
        "another size",
    );
    let mut other = line_of(&rt, 2, second)?;
    other.settings.strictness.strict = false;
    let all = [line_of(&rt, 1, first)?, other];
    holds(
        &rt,
        join_lines(alloc, &all) == Err(Refusal::OtherOptions(1)),
        "not strict",
    );
    let mut other = line_of(&rt, 2, second)?;
    other.settings.framing = Some(Framing::Lines);
    let all = [line_of(&rt, 1, first)?, other];
    holds(
        &rt,
        join_lines(alloc, &all) == Err(Refusal::OtherOptions(1)),
        "another framing",
    );
    Ok(())
}

const ASKED: Asked = Asked {
    with_warnings: true,
    skipped: 0,
    room: 5,
};

/// The number of a record, and what is found of it where.
static NOTED: [(u64, Code, u64); 2] = [
    (2, Code::Rule(Rule::G15), 5),
    (9, Code::Kind(Kind::W3), 59),
];

const LISTED: &str =
    "{\"geolint_part\":2,\"part\":2,\"parts\":2,\"path\":\"a \\\"b\\\".geojsons\",\"size\":116,\"modified\":\"17.000000005\",\"framing\":\"seq\",\"max_bytes\":1000,\"strict\":true,\"allow\":[\"W4\",\"W9\"],\"deny\":[],\"begin\":40,\"end\":99,\"records\":1,\"warnings\":[],\"every\":\"warnings\",\"most\":5,\"items\":1,\"items_broken\":1,\"counts\":[{\"code\":\"G15\",\"count\":1},{\"code\":\"W3\",\"count\":1}],\"findings\":7,\"listed\":[{\"record\":2,\"code\":\"G15\",\"at\":45},{\"record\":9,\"code\":\"W3\",\"at\":99}],\"sha256\":\"accff0a1b4e381e6a25187ea01681e53b08d0cdc88c798ff2d2aef589705ffd9\"}\n";

/// A part that lists what is found in its records.
#[test]
fn listed_findings_are_read_as_they_are_written(rt: HostRuntime) -> io::Result<()> {
    let mut notes = Notes {
        notes: Vec::new(rt.alloc()),
        count: 7,
        tally: Tally::none(),
    };
    notes.tally.add_item();
    for (number, code, place) in NOTED.iter() {
        let told = Told {
            code: *code,
            place: *place,
        };
        let item = Item::Record(*number);
        notes.tally.add_note(Note { item, told });
        notes.notes.push(Note { item, told })?;
    }
    let mut line = line_of(&rt, 2, part_with(verdict_with(1, None, &[])))?;
    line.listed = Some(Listed {
        asked: ASKED,
        notes,
    });
    is_written_so(&rt, rt.alloc(), &line, LISTED)
}

/// The notes of one reading.
fn notes_of(rt: &HostRuntime, bytes: &'static [u8], framing: Framing) -> io::Result<Notes> {
    let mut meter = Meter::new(rt.clone()?);
    let mut source = Bytes { bytes, place: 0 };
    let reading = match framing {
        Framing::Sequence => Reading::Sequence,
        Framing::Lines => Reading::Lines,
    };
    let found = judge_every(
        rt.alloc(),
        &mut source,
        limits_of(1 << 20),
        reading,
        ASKED,
        &mut meter,
    )?;
    match notes_for(found.0, found.1, ASKED)? {
        Some(notes) => Ok(notes),
        None => Err(io::Error::from(io::ErrorKind::InvalidData)),
    }
}

/// The lines of all parts, with what is found in them.
fn lines_of(
    rt: &HostRuntime,
    bytes: &'static [u8],
    parts: u64,
    framing: Framing,
) -> io::Result<Vec<PartLine>> {
    let mut lines = Vec::new(rt.alloc());
    for before in 0..parts {
        let found = listed_part_of(rt, bytes, before + 1, parts, framing, 1 << 20, Some(ASKED))?;
        let Some(share) = Share::new(before + 1, parts) else {
            return Err(io::Error::from(io::ErrorKind::InvalidInput));
        };
        let mut line = line_of(rt, 1, found.part)?;
        line.file.size = bytes.len() as u64;
        line.share = share;
        line.listed = match found.notes {
            Some(notes) => Some(Listed {
                asked: ASKED,
                notes,
            }),
            None => None,
        };
        lines.push(line)?;
    }
    Ok(lines)
}

static LISTED_INPUTS: [(&[u8], Framing, &str); 5] = [
    (POINTS, Framing::Sequence, "a warning"),
    (LINES, Framing::Lines, "lines with a warning"),
    (
        b"x\x1E{\"type\":\"Point\"}\n\x1E{\"type\":\"Point\",\"coordinates\":[181,2]}\n\x1E[\n",
        Framing::Sequence,
        "a byte before the first separator",
    ),
    (
        b"{}\n\n{}\n[\n{\"type\":\"Point\",\"coordinates\":[181,2]}\n{}\n{}\n{}",
        Framing::Lines,
        "more findings than are asked for",
    ),
    (b"", Framing::Lines, "no byte"),
];

/// The findings of up to nine parts are those of one reading.
#[test]
fn findings_of_parts_are_those_of_one_reading(rt: HostRuntime) -> io::Result<()> {
    for (bytes, framing, case) in LISTED_INPUTS.iter() {
        let whole = notes_of(&rt, bytes, *framing)?;
        for parts in 1..10 {
            let lines = lines_of(&rt, bytes, parts as u64, *framing)?;
            match join_notes(rt.alloc(), lines.as_slice(), ASKED) {
                Ok(joined) => holds_in(&rt, are_alike(&joined, &whole), case, parts),
                Err(_) => holds_in(&rt, false, case, parts),
            }
        }
    }
    Ok(())
}

fn are_alike(one: &Notes, other: &Notes) -> bool {
    one.count == other.count
        && one.tally.items == other.tally.items
        && one.tally.broken == other.tally.broken
        && one.tally.counts == other.tally.counts
        && one.notes.len() == other.notes.len()
        && one.notes.iter().zip(other.notes.as_slice()).all(|(a, b)| {
            a.item == b.item && a.told.code == b.told.code && a.told.place == b.told.place
        })
}
