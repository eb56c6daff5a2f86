//! Rows of inputs and what they are refused for; each in one piece, byte by byte and at every cut into two.

ghost use Rattle.std.specs.Prelude.{◌≤◌, length};

mod flats;
mod heads;
mod lanes;
mod limits;
mod runs;
mod tokens;

use crate::checks::{equal, holds, holds_at, holds_in};
use arrayvec::ArrayVec;
use gj_json::{Cause, Event, EventSink, Known, Limits, MOST_LEVELS, Reader, What, Word};
use gj_number::{Decimal, Literal};
use std::alloc::AllocError;
use std::process::Abort;

/// The first events that a reader gave.
#[derive(Drop)]
struct FirstEvents {
    events: ArrayVec<Event, 16>,
}

impl EventSink for FirstEvents {
    ghost heard = { λ sink events. Unit {0} };

    fn tell(&mut self, event: Event) {
        if self.events.get(15).is_none() {
            self.events.push(event);
        }
    }

    fn ignored(&self) -> u16 {
        0
    }

    fn pass(&mut self, _left: u16) {}
}

/// Ignores what is in an array or an object.
#[derive(Drop)]
struct Ignoring {
    levels: u16,
}

impl EventSink for Ignoring {
    ghost heard = { λ sink events. Unit {0} };

    ghost ignores = { λ sink. sink.levels };

    fn tell(&mut self, event: Event) {
        match event.what {
            What::OpenArray | What::OpenObject => self.levels = self.levels.saturating_add(1),
            What::CloseArray | What::CloseObject => self.levels = self.levels.saturating_sub(1),
            _ => {}
        }
    }

    fn ignored(&self) -> u16 {
        self.levels
    }

    fn pass(&mut self, left: u16) {
        self.levels = left;
    }
}

fn no_events() -> FirstEvents {
    FirstEvents {
        events: ArrayVec::new(),
    }
}

/// Why and where an input is refused, if it is.
type Refusal = Option<(Cause, u64)>;

fn end(reader: Reader) -> Refusal {
    match reader.finish() {
        Ok(_) => None,
        Err(fault) => Some((fault.cause, fault.place)),
    }
}

fn in_two(limits: Limits, first: &[u8], second: &[u8]) -> Refusal {
    let mut reader = Reader::new(limits);
    let mut sink = no_events();
    let _ = reader.feed(first, &mut sink);
    let _ = reader.feed(second, &mut sink);
    end(reader)
}

/// The fault of an input in two pieces, where the sink ignores what it can, and whether it knows at the end how many
/// levels are open.
fn ignored_in_two(limits: Limits, first: &[u8], second: &[u8]) -> (Refusal, bool) {
    let mut reader = Reader::new(limits);
    let mut sink = Ignoring { levels: 0 };
    let _ = reader.feed(first, &mut sink);
    let _ = reader.feed(second, &mut sink);
    let levels = reader.levels();
    (end(reader), sink.levels == levels)
}

fn by_bytes(limits: Limits, input: &[u8]) -> Refusal {
    let mut reader = Reader::new(limits);
    for byte in input {
        let _ = reader.push(*byte);
    }
    end(reader)
}

/// Tests what an input is refused for: byte by byte, and at each cut into two, also where a sink ignores what it can.
fn expect(rt: &impl Abort, limits: Limits, input: &[u8], expected: Refusal, row: &str) {
    holds(rt, by_bytes(limits, input) == expected, row);
    for cut in 0..=input.len() {
        let (first, second) = (&input[..cut], &input[cut..]);
        holds_at(rt, in_two(limits, first, second) == expected, row, cut);
        let ignored = ignored_in_two(limits, first, second);
        holds_at(rt, ignored == (expected, true), row, cut);
    }
}

/// A text, and what it is.
static ADMITTED: [(&[u8], &str); 14] = [
    (b"{\"type\":\"Point\",\"coordinates\":[1,2]}", "a point"),
    (
        b"[1, -0.5e+3, {\"a\": null, \"b\": [true, false]}] ",
        "a value of each kind",
    ),
    (
        b"{\"\\u0074ype\":\"\\u0050oint\",\"coordinates\":[1,2]}",
        "escaped names",
    ),
    (
        b"\"\\\"\\\\\\/\\b\\f\\n\\r\\t\\uD800\\uabCD\"",
        "each escape, a lone surrogate and both cases of digits",
    ),
    (b"\xEF\xBB\xBF{}", "a byte order mark"),
    (b"\xEF\xBB\xBF \r\n\t7", "white space after a mark"),
    (b"0", "zero"),
    (b"-0", "minus zero"),
    (b"1E-7", "an exponent"),
    (b"1.50", "a fraction"),
    (b"\"\x7F\"", "the byte 7F is a character"),
    (b"\"\xC2\x80\xDF\xBF\"", "characters of two bytes"),
    (
        b"\"\xE0\xA0\x80\xED\x9F\xBF\xEF\xBF\xBF\"",
        "characters of three bytes",
    ),
    (
        b"\"\xF0\x90\x80\x80\xF4\x8F\xBF\xBF\"",
        "characters of four bytes",
    ),
];

#[test]
fn texts_are_admitted(rt: HostRuntime) {
    for (input, row) in ADMITTED.iter() {
        expect(&rt, Limits::usual(), input, None, row);
    }
}

/// An input, how deep and how long it may be, what it is refused for, and what it is.
static IGNORED: [(&[u8], u16, u64, Refusal, &str); 14] = [
    (
        b"{\"a\":{\"b\":[true,null,{\"c\":\"x\\n\xC3\xA9\",\"d\":-1.5e3}],\"e\":{}} , \"f\" : [ false ] }",
        MOST_LEVELS,
        100,
        None,
        "values of each kind",
    ),
    (
        b"{\"a\":[1,,2]}",
        MOST_LEVELS,
        100,
        Some((Cause::Syntax, 8)),
        "two commas",
    ),
    (
        b"{\"a\":{\"b\" \"c\"}}",
        MOST_LEVELS,
        100,
        Some((Cause::Syntax, 10)),
        "a name without a colon",
    ),
    (
        b"{\"a\":[true,\"\xFF\"]}",
        MOST_LEVELS,
        100,
        Some((Cause::Syntax, 12)),
        "no UTF-8",
    ),
    (
        b"{\"a\":[\"b\":1]}",
        MOST_LEVELS,
        100,
        Some((Cause::Syntax, 9)),
        "a colon in an array",
    ),
    (
        b"{\"a\":{\"b\",1}}",
        MOST_LEVELS,
        100,
        Some((Cause::Syntax, 9)),
        "a comma after a name",
    ),
    (
        b"{\"a\":{true:1}}",
        MOST_LEVELS,
        100,
        Some((Cause::Syntax, 6)),
        "a literal name for a name",
    ),
    (
        b"{\"a\":{\"b\":1,true}}",
        MOST_LEVELS,
        100,
        Some((Cause::Syntax, 12)),
        "no name after a comma",
    ),
    (
        b"{\"a\":[tru]}",
        MOST_LEVELS,
        100,
        Some((Cause::Syntax, 9)),
        "a part of a literal name",
    ),
    (
        b"{\"a\":[\"b\" true]}",
        MOST_LEVELS,
        100,
        Some((Cause::Syntax, 10)),
        "no comma",
    ),
    (
        b"{\"a\":[\"b\"}}",
        MOST_LEVELS,
        100,
        Some((Cause::Syntax, 9)),
        "the other bracket",
    ),
    (b"{\"a\":[[]]}", 2, 100, Some((Cause::Depth, 6)), "too deep"),
    (
        b"{\"a\":[true,false]}",
        MOST_LEVELS,
        14,
        Some((Cause::Length, 14)),
        "too long",
    ),
    (
        b"{\"a\":[true,false",
        MOST_LEVELS,
        100,
        Some((Cause::Truncated, 16)),
        "no end",
    ),
];

#[test]
fn ignored_levels_are_checked(rt: HostRuntime) {
    for (input, depth, bytes, expected, row) in IGNORED.iter() {
        let limits = Limits::new(*depth, *bytes).unwrap_or(Limits::usual());
        expect(&rt, limits, input, *expected, row);
    }
}

/// An input, why and where it is refused, and what it is.
static REFUSED: [(&[u8], Cause, u64, &str); 36] = [
    (b"", Cause::Truncated, 0, "the empty input"),
    (
        b"{\"a\":\"\xE2\x82(",
        Cause::Syntax,
        8,
        "a character cut short by another byte",
    ),
    (
        b"{\"type\":\"Point\"} x",
        Cause::Syntax,
        17,
        "a letter after the text",
    ),
    (b"01", Cause::Syntax, 1, "a zero before a number"),
    (b"[1,2", Cause::Truncated, 4, "an array that is open"),
    (b"\xEF\xBB", Cause::Truncated, 2, "two bytes of a mark"),
    (b"\xEF{", Cause::Syntax, 1, "a byte of a mark, and another"),
    (
        b" \xEF\xBB\xBF1",
        Cause::Syntax,
        1,
        "a mark after white space",
    ),
    (
        b"\xEF\xBB\xBF\xEF\xBB\xBF1",
        Cause::Syntax,
        3,
        "a second mark",
    ),
    (
        b"{\"a\":1,}",
        Cause::Syntax,
        7,
        "a comma before a closing brace",
    ),
    (
        b"[1,]",
        Cause::Syntax,
        3,
        "a comma before a closing bracket",
    ),
    (b"[1 2]", Cause::Syntax, 3, "no comma"),
    (b"-", Cause::Truncated, 1, "a sign alone"),
    (b"1.", Cause::Truncated, 2, "a point and no digit"),
    (b"1.e", Cause::Syntax, 2, "an exponent after a point"),
    (b"1e+", Cause::Truncated, 3, "an exponent with no digit"),
    (b"+1", Cause::Syntax, 0, "a plus sign"),
    (b"tru", Cause::Truncated, 3, "a literal name cut short"),
    (
        b"trux",
        Cause::Syntax,
        3,
        "another letter in a literal name",
    ),
    (b"True", Cause::Syntax, 0, "an upper-case letter"),
    (b"\"\\x\"", Cause::Syntax, 2, "an escape that is none"),
    (b"\"\\u12G4\"", Cause::Syntax, 5, "a digit that is none"),
    (b"\"\\u123\"", Cause::Syntax, 6, "three digits"),
    (b"\"\n", Cause::Syntax, 1, "a line feed in a string"),
    (
        b"\"\x1F",
        Cause::Syntax,
        1,
        "a control character in a string",
    ),
    (
        b"\"\x80",
        Cause::Syntax,
        1,
        "a byte that begins no character",
    ),
    (
        b"\"\xC0\x80",
        Cause::Syntax,
        1,
        "a longer form of two bytes",
    ),
    (
        b"\"\xE0\x9F\xBF",
        Cause::Syntax,
        2,
        "a longer form of three bytes",
    ),
    (b"\"\xED\xA0\x80", Cause::Syntax, 2, "a surrogate in UTF-8"),
    (
        b"\"\xF0\x8F\xBF\xBF",
        Cause::Syntax,
        2,
        "a longer form of four bytes",
    ),
    (b"\"\xF4\x90\x80\x80", Cause::Syntax, 2, "past U+10FFFF"),
    (b"\"\xF5", Cause::Syntax, 1, "a byte past those of UTF-8"),
    (b"{1:2}", Cause::Syntax, 1, "a name that is no string"),
    (b"{\"a\" 1}", Cause::Syntax, 5, "no colon"),
    (b"[}", Cause::Syntax, 1, "a brace that closes an array"),
    (
        b"{\"a\":1]",
        Cause::Syntax,
        6,
        "a bracket that closes an object",
    ),
];

#[test]
fn inputs_are_refused(rt: HostRuntime) {
    for (input, cause, place, row) in REFUSED.iter() {
        expect(&rt, Limits::usual(), input, Some((*cause, *place)), row);
    }
}

const fn event(place: u64, what: What) -> Event {
    Event { place, what }
}

/// The value of a number, from its own reader.
fn decimal(number: &[u8]) -> Option<Decimal> {
    let mut literal = Literal::new();
    for byte in number {
        let _ = literal.push(*byte);
    }
    literal.value()
}

/// The first number that a sink was given.
fn first_number(sink: &FirstEvents) -> Option<Decimal> {
    for event in &sink.events {
        if let What::Number(value) = event.what {
            return value;
        }
    }
    None
}

/// The first name that a sink was given.
fn first_name(sink: &FirstEvents) -> Option<Known> {
    for event in &sink.events {
        if let What::Name(known) = event.what {
            return Some(known);
        }
    }
    None
}

/// The first string that a sink was given.
fn first_word(sink: &FirstEvents) -> Option<Word> {
    for event in &sink.events {
        if let What::Text(word) = event.what {
            return Some(word);
        }
    }
    None
}

/// The first events of an input in two pieces.
fn told(input: &[u8], cut: usize) -> FirstEvents
    requires { cut ≤ length input.now }
{
    let mut reader = Reader::new(Limits::usual());
    let mut sink = no_events();
    let _ = reader.feed(&input[..cut], &mut sink);
    let _ = reader.feed(&input[cut..], &mut sink);
    sink
}

static NAMES: [(&[u8], Known); 17] = [
    (b"{\"type\":1}", Known::TypeName),
    (b"{\"coordinates\":1}", Known::Coordinates),
    (b"{\"geometries\":1}", Known::Geometries),
    (b"{\"geometry\":1}", Known::Geometry),
    (b"{\"properties\":1}", Known::Properties),
    (b"{\"features\":1}", Known::Features),
    (b"{\"bbox\":1}", Known::Bbox),
    (b"{\"id\":1}", Known::Id),
    (b"{\"crs\":1}", Known::Crs),
    (b"{\"\\u0074ype\":1}", Known::TypeName),
    (b"{\"t\\u0079pe\":1}", Known::TypeName),
    (b"{\"Type\":1}", Known::Other),
    (b"{\"types\":1}", Known::Other),
    (b"{\"typ\":1}", Known::Other),
    (b"{\"\":1}", Known::Other),
    (b"{\"t\xC3\xBFpe\":1}", Known::Other),
    (b"{\"coordinatescoordinates\":1}", Known::Other),
];

#[test]
fn names_are_known(rt: HostRuntime) {
    for (input, known) in NAMES.iter() {
        for cut in 0..input.len() {
            let found = first_name(&told(input, cut));
            holds_in(&rt, found == Some(*known), input, cut);
        }
    }
}

static TYPES: [(&[u8], Word); 14] = [
    (b"[\"Point\"]", Word::Point),
    (b"[\"MultiPoint\"]", Word::MultiPoint),
    (b"[\"LineString\"]", Word::LineString),
    (b"[\"MultiLineString\"]", Word::MultiLineString),
    (b"[\"Polygon\"]", Word::Polygon),
    (b"[\"MultiPolygon\"]", Word::MultiPolygon),
    (b"[\"GeometryCollection\"]", Word::GeometryCollection),
    (b"[\"Feature\"]", Word::Feature),
    (b"[\"FeatureCollection\"]", Word::FeatureCollection),
    (b"[\"\\u0050oint\"]", Word::Point),
    (b"[\"point\"]", Word::Other),
    (b"[\"Points\"]", Word::Other),
    (b"[\"GeometryCollections\"]", Word::Other),
    (b"[\"\\ud800\"]", Word::Other),
];

#[test]
fn types_are_known(rt: HostRuntime) {
    for (input, word) in TYPES.iter() {
        for cut in 0..input.len() {
            let found = first_word(&told(input, cut));
            holds_in(&rt, found == Some(*word), input, cut);
        }
    }
}

#[test]
fn each_byte_alone_gives_the_name(rt: HostRuntime) {
    let mut reader = Reader::new(Limits::usual());
    let mut sink = no_events();
    for byte in b"{\"f\\u0065atures\":[]}" {
        if let Ok(events) = reader.push(*byte) {
            for event in &events {
                sink.tell(*event);
            }
        }
    }
    holds(
        &rt,
        first_name(&sink) == Some(Known::Features),
        "an escape in it",
    );
}

#[test]
fn a_name_has_any_length(rt: HostRuntime) {
    let mut reader = Reader::new(Limits::usual());
    let mut sink = no_events();
    let begun = reader.feed(b"{\"", &mut sink);
    holds(&rt, begun.is_ok(), "the name begins");
    for _ in 0..1_000 {
        let taken = reader.feed(&[b't'; 1_000], &mut sink);
        holds(&rt, taken.is_ok(), "it goes on");
    }
    let ended = reader.feed(b"\":0}", &mut sink);
    holds(&rt, ended.is_ok(), "the name ends");
    let is_other = first_name(&sink) == Some(Known::Other);
    holds(&rt, is_other, "no known name");
    holds(&rt, end(reader).is_none(), "the whole text");
}

/// A text, and the parts of its number: negative, digits, power.
static NUMBERS: [(&[u8], Option<(bool, u128, i16)>); 16] = [
    (b"[0]", Some((false, 0, 0))),
    (b"[-0.0]", Some((false, 0, 0))),
    (b"[0e99999]", Some((false, 0, 0))),
    (b"[1.50,2]", Some((false, 15, -1))),
    (b"[15e-1]", Some((false, 15, -1))),
    (b"[-180]", Some((true, 18, 1))),
    (b"[1e+2 ]", Some((false, 1, 2))),
    (b"[100e-2]", Some((false, 1, 0))),
    (b"[1e-07]", Some((false, 1, -7))),
    (b"[-0.00000019]", Some((true, 19, -8))),
    (
        b"[1.4210854715202004e-14]",
        Some((false, 14210854715202004, -30)),
    ),
    (
        b"[9999999999.9999999]",
        Some((false, 99999999999999999, -7)),
    ),
    (b"{\"a\":1e400}", Some((false, 1, 400))),
    (b"[0.1e-399]", Some((false, 1, -400))),
    (b"[1e401]", None),
    (b"[1234567890123456789012345678901]", None),
];

#[test]
fn numbers_have_their_values(rt: HostRuntime) {
    for (input, parts) in NUMBERS.iter() {
        for cut in 0..input.len() {
            let value = first_number(&told(input, cut)).map(|decimal| decimal.parts());
            holds_in(&rt, value == *parts, input, cut);
        }
    }
}

/// An input, and whether it may end there.
static ENDS: [(&[u8], bool); 9] = [
    (b"{\"a\":[1]}", true),
    (b"{}\n", true),
    (b"[]", true),
    (b"null", true),
    (b"1 ", true),
    // only the end of the text completes its event
    (b"1", false),
    (b"", false),
    (b"[", false),
    (b"{}}", false),
];

#[test]
fn texts_that_may_end(rt: HostRuntime) {
    for (input, expected) in ENDS.iter() {
        let mut reader = Reader::new(Limits::usual());
        let mut sink = no_events();
        let _ = reader.feed(input, &mut sink);
        holds_in(&rt, reader.is_whole() == *expected, input, input.len());
    }
}

/// Whether the input in two pieces gives these events, and its end the last one.
fn are_told(input: &[u8], cut: usize, told: &[Event], last: &Option<Event>) -> bool
    requires { cut ≤ length input.now }
{
    let mut reader = Reader::new(Limits::usual());
    let mut sink = no_events();
    let _ = reader.feed(&input[..cut], &mut sink);
    let _ = reader.feed(&input[cut..], &mut sink);
    if sink.events.as_slice() != told {
        return false;
    }
    match reader.finish() {
        Ok(found) => found == *last,
        Err(_) => false,
    }
}

#[test]
fn events_come_in_order(rt: HostRuntime) -> Result<(), AllocError> {
    let rows: [(&[u8], &[Event], Option<Event>); 6] = [
        (
            b"{\"a\":1}",
            &[
                event(0, What::OpenObject),
                event(1, What::Name(Known::Other)),
                event(5, What::Number(decimal(b"1"))),
                event(6, What::CloseObject),
            ],
            None,
        ),
        (b"7", &[], Some(event(0, What::Number(decimal(b"7"))))),
        (b"\"x\"", &[event(0, What::Text(Word::Other))], None),
        (
            b"\xEF\xBB\xBF[]",
            &[
                event(0, What::Mark),
                event(3, What::OpenArray),
                event(4, What::CloseArray),
            ],
            None,
        ),
        (
            b"[true,null ,false]",
            &[
                event(0, What::OpenArray),
                event(1, What::True),
                event(6, What::Null),
                event(12, What::False),
                event(17, What::CloseArray),
            ],
            None,
        ),
        (
            b"[-1.5e3,\"\\n\"]",
            &[
                event(0, What::OpenArray),
                event(1, What::Number(decimal(b"-1.5e3"))),
                event(8, What::Text(Word::Other)),
                event(12, What::CloseArray),
            ],
            None,
        ),
    ];
    for row in &rows {
        for cut in 0..row.0.len() {
            holds_in(&rt, are_told(row.0, cut, row.1, &row.2), row.0, cut);
        }
    }
    Ok(())
}

#[test]
fn a_number_is_told_at_the_next_byte(rt: HostRuntime) {
    let mut reader = Reader::new(Limits::usual());
    let mut sink = no_events();
    let _ = reader.feed(b"[12", &mut sink);
    holds(&rt, sink.events.len() == 1, "the bracket alone");
    let _ = reader.feed(b"x", &mut sink);
    holds(&rt, sink.events.len() == 1, "a refused byte ends no number");
}

/// What comes next, how many levels are open then, how many bytes are taken, and what that shows.
static TAKEN: [(&[u8], u16, u64, &str); 3] = [
    (
        b"{\"features\":[{\"properties\":{\"a\":[",
        5,
        33,
        "five are open",
    ),
    (b"]}", 3, 35, "three are open"),
    (b"]]]", 3, 35, "nothing is taken from a refused byte on"),
];

#[test]
fn levels_and_offset_are_those_of_the_bytes_taken(rt: HostRuntime) {
    let mut reader = Reader::new(Limits::usual());
    let mut sink = no_events();
    for (piece, levels, offset, row) in TAKEN.iter() {
        let _ = reader.feed(piece, &mut sink);
        equal(
            &rt,
            (reader.levels(), reader.offset()),
            (*levels, *offset),
            row,
        );
    }
}

#[test]
fn starts_of_characters_are_those_that_std_knows(rt: HostRuntime) {
    for first in 0x80..=0xFF {
        for second in 0x80..=0xFF {
            let mut reader = Reader::new(Limits::usual());
            let mut sink = no_events();
            let input = [b'"', first, second];
            let taken = reader.feed(&input, &mut sink).is_ok();
            let known = starts_a_character(first, second);
            holds_in(&rt, taken == known, &input, 2);
        }
    }
}

/// Whether std finds no mistake in the two bytes but that more are to come.
fn starts_a_character(first: u8, second: u8) -> bool {
    match std::str::from_utf8(&[first, second]) {
        Ok(_) => true,
        Err(error) => error.error_len().is_none(),
    }
}

/// What comes before many digits, the digit, and what comes after them.
static LONG_NUMBERS: [(&[u8], u8, &[u8]); 4] = [
    (b"[[[[1", b'0', b"]]]]"),
    (b"[[[[0.", b'3', b"]]]]"),
    (b"[[[[-1e", b'9', b"]]]]"),
    (b"[[[[1E-", b'0', b"7]]]]"),
];

#[test]
fn a_number_has_any_length(rt: HostRuntime) {
    for (before, digit, after) in LONG_NUMBERS.iter() {
        let mut reader = Reader::new(Limits::usual());
        let mut sink = no_events();
        let begun = reader.feed(before, &mut sink).is_ok();
        holds_in(&rt, begun, before, 0);
        for round in 0..1_000 {
            let taken = reader.feed(&[*digit; 1_000], &mut sink).is_ok();
            holds_in(&rt, taken && reader.levels() == 4, before, round);
        }
        let ended = reader.feed(after, &mut sink).is_ok();
        holds_in(&rt, ended && end(reader).is_none(), before, 1_000);
    }
}
