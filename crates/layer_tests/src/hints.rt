//! What files that are no valid GeoJSON look like.
use crate::checks::{equal, holds, holds_in};
use gj_hints::{Clues, Hint, Wrong, hint};

/// What is said of a file in which something is wrong at a place.
fn said(file: &[u8], place: usize, wrong: Wrong) -> Option<Hint> {
    let head = file.get(..file.len().min(512)).unwrap_or(file);
    let before = file.get(place.saturating_sub(64)..place).unwrap_or(&[]);
    let after = file.get(place..).unwrap_or(&[]);
    hint(
        wrong,
        &Clues {
            head,
            before,
            after,
        },
    )
}

/// What a file begins with, and what it is.
static OF_ANOTHER_KIND: [(&[u8], Hint); 38] = [
    (b"\x1F\x8B\x08\x00\x00", Hint::Gzip),
    (b"PK\x03\x04\x14\x00", Hint::Zip),
    (b"%PDF-1.7\n", Hint::Pdf),
    (b"\x00\x00\x27\x0A\x00\x00", Hint::Shapefile),
    (b"SQLite format 3\x00\x10\x00", Hint::GeoPackage),
    (b"fgb\x03fgb\x00", Hint::FlatGeobuf),
    (b"PAR1\x15\x04", Hint::Parquet),
    (b"\xFF\xFE{\x00", Hint::Utf16),
    (b"\xFE\xFF\x00{", Hint::Utf16),
    (b"{\x00\"\x00t\x00", Hint::Utf16),
    (b"\x00{\x00\"", Hint::Utf16),
    (b"<!DOCTYPE html>\n<html>", Hint::Html),
    (b"<!doctype html>", Hint::Html),
    (b"\n  <html lang=\"de\">", Hint::Html),
    (
        b"<?xml version=\"1.0\"?>\n<kml xmlns=\"http://www.opengis.net/kml/2.2\">",
        Hint::Kml,
    ),
    (
        b"\xEF\xBB\xBF<?xml version=\"1.0\"?><wfs:FeatureCollection xmlns:gml=\"http://www.opengis.net/gml/3.2\">",
        Hint::Gml,
    ),
    (b"<?xml version=\"1.0\"?>\n<gpx version=\"1.1\">", Hint::Gpx),
    (
        b"<gpx version=\"1.1\"><wpt lat=\"54\" lon=\"9\"/>",
        Hint::Waypoints,
    ),
    (b"<osm version=\"0.6\">", Hint::Xml),
    (b"\x89PNG\r\n\x1A\n", Hint::Image),
    (b"\xFF\xD8\xFF\xE0\x00\x10JFIF", Hint::Image),
    (b"GIF89a", Hint::Image),
    (b"II*\x00\x08\x00", Hint::Image),
    (b"MM\x00*\x00\x00", Hint::Image),
    (b"name,lon,lat\nKirk,9.4,54.7\n", Hint::Columns),
    (b"\xEF\xBB\xBF\"name\";\"lon\"\n", Hint::Columns),
    (b"Sorry, this is not there.\n", Hint::PlainText),
    (b"POLYGON((9 54,9 55,8 55,9 54))\n", Hint::PlainText),
    (b" json_agg \n----------\n {}\n", Hint::Psql),
    (b"var map = {\"type\":\"Point\"};", Hint::Script),
    (b"show({\"type\":\"Point\"});", Hint::Script),
    (b"export default {\"type\":\"Point\"};", Hint::Script),
    (b"<<<<<<< HEAD\n{}\n=======\n", Hint::Conflict),
    (b"{}", Hint::NoSeparator),
    (b"\x1E{}\n", Hint::TextSequence),
    (b"'{}'", Hint::SingleQuotes),
    (b"# a note\n{}", Hint::Comment),
    (b"// a note\n{}", Hint::Comment),
];

#[test]
fn names_files_of_another_kind(rt: HostRuntime) {
    for (file, expected) in OF_ANOTHER_KIND.iter() {
        let found = said(file, 0, Wrong::Refused);
        holds_in(&rt, found == Some(*expected), file, 0);
    }
}

/// A file, the place where something is wrong in it, what is said, and what it is.
type Row = (&'static [u8], usize, Option<Hint>, &'static str);

static LIKE_JSON: [Row; 54] = [
    (b"[NaN]", 1, Some(Hint::NotANumber), "Python's word"),
    (b"[-nan]", 2, Some(Hint::NotANumber), "C's word"),
    (
        b"[nan]",
        2,
        Some(Hint::NotANumber),
        "the n could begin null",
    ),
    (b"[nax]", 2, Some(Hint::Word), "another word"),
    (b"[NULL]", 1, Some(Hint::Word), "in capitals"),
    (
        b"{\"a\":undefined}",
        5,
        Some(Hint::Word),
        "JavaScript's word",
    ),
    (b"{\"a\":True}", 5, Some(Hint::PythonWord), "Python's word"),
    (b"{'a': None}", 1, Some(Hint::PythonText), "and its quotes"),
    (b"{'a': (9, 54)}", 1, Some(Hint::PythonText), "a tuple"),
    (b"{a:1}", 1, Some(Hint::PlainName), "a name"),
    (b"[Infinity]", 1, Some(Hint::Infinity), "Python's word"),
    (b"[-Infinity]", 2, Some(Hint::Infinity), "and its negative"),
    (b"[inf]", 1, Some(Hint::Infinity), "C's word"),
    (b"{'a':1}", 1, Some(Hint::SingleQuotes), "a name"),
    (b"{} // a note", 3, Some(Hint::Comment), "of a line"),
    (b"[1, /* one */ 2]", 4, Some(Hint::Comment), "in a line"),
    (b"[1 / 2]", 3, None, "one slash is no comment"),
    (
        b"[1,\n]",
        4,
        Some(Hint::ExtraComma),
        "after the last element",
    ),
    (
        b"{\"a\":1, }",
        8,
        Some(Hint::ExtraComma),
        "after the last member",
    ),
    (b"[1,,2]", 3, Some(Hint::ExtraComma), "two"),
    (
        b"[,1]",
        1,
        Some(Hint::ExtraComma),
        "before the first element",
    ),
    (b"{ ,", 2, Some(Hint::ExtraComma), "before the first member"),
    (b"[1 2]", 3, None, "a comma too few"),
    (b"[1}", 2, None, "another bracket"),
    (
        b"[\"caf\xE9\"]",
        6,
        Some(Hint::Latin1),
        "after the first letter",
    ),
    (
        b"[\"\xA7 1\"]",
        2,
        Some(Hint::Latin1),
        "no character begins so",
    ),
    (
        b"[\"\xC3\x9F\xDFe\"]",
        5,
        Some(Hint::Latin1),
        "after one in UTF-8",
    ),
    (
        b"[\"\xE2\x82x\"]",
        4,
        Some(Hint::Latin1),
        "two bytes of three",
    ),
    (
        b"[\"\xF0\x9F\x8Cx\"]",
        5,
        Some(Hint::Latin1),
        "three bytes of four",
    ),
    (
        b"[\"\xF0\x9Fx\"]",
        4,
        Some(Hint::Latin1),
        "two bytes of four",
    ),
    (
        b"[\"\xC3\x9F\n\"]",
        4,
        Some(Hint::LineBreak),
        "a line break after a whole letter",
    ),
    (
        b"[\"\xE2\x82\xAC\n\"]",
        5,
        Some(Hint::LineBreak),
        "and after one of three bytes",
    ),
    (
        b"[\xC2\xA01]",
        1,
        None,
        "a letter in UTF-8 outside a string",
    ),
    (b"[\"C:\\maps\"]", 5, Some(Hint::Backslash), "no escape"),
    (b"[\"\\u00g0\"]", 6, None, "a digit of an escape"),
    (
        b"{\"a\":\"the \"old\" pier\"}",
        11,
        Some(Hint::InnerQuote),
        "a quotation mark",
    ),
    (
        b"{\"a\":\"12\" pipe\"}",
        10,
        Some(Hint::InnerQuote),
        "a mark of inches",
    ),
    (b"{\"a\" b", 5, None, "a colon is missing"),
    (
        b"{\xE2\x80\x9Ca\xE2\x80\x9D:1}",
        1,
        Some(Hint::TypographicQuotes),
        "typographic",
    ),
    (b"[.5]", 1, Some(Hint::NumberForm), "a point first"),
    (b"[-.5]", 2, Some(Hint::NumberForm), "after a sign"),
    (b"[+5]", 1, Some(Hint::NumberForm), "a plus"),
    (b"[1, 05]", 5, Some(Hint::NumberForm), "a zero first"),
    (b"[1.]", 3, Some(Hint::NumberForm), "a point last"),
    (b"[...]", 1, None, "left out"),
    (
        b"{\"a\":41,5}",
        8,
        Some(Hint::DecimalComma),
        "a decimal comma",
    ),
    (
        b"{\"a\":1 \"b\":2}",
        7,
        Some(Hint::MissingComma),
        "a comma too few",
    ),
    (b"{\"a\" \"b\"}", 5, None, "a colon too few"),
    (
        b"{\"a\":{},\n{",
        9,
        Some(Hint::MissingBrace),
        "a brace too few",
    ),
    (
        b"{}\n,{",
        3,
        Some(Hint::CommaBetween),
        "a comma between two records",
    ),
    (b"{\"a\":\x00\x00", 5, Some(Hint::Zeros), "zeros"),
    (
        b"[\n=======\n",
        2,
        Some(Hint::Conflict),
        "a mark of a merge",
    ),
    (b"[1", 2, None, "the end of the file"),
    (b"[\"\xC3", 3, None, "the end inside a letter"),
];

#[test]
fn names_what_only_looks_like_json(rt: HostRuntime) {
    for (file, place, expected, row) in LIKE_JSON.iter() {
        equal(&rt, said(file, *place, Wrong::Refused), *expected, row);
    }
}

static SECOND_TEXTS: [Row; 6] = [
    (b"{}\n{}", 3, Some(Hint::SecondText), "in a line of its own"),
    (b"{} []", 3, Some(Hint::SecondText), "an array"),
    (
        b"{}, {}",
        2,
        Some(Hint::CommaBetween),
        "a list without its brackets",
    ),
    (b"{}\"", 2, None, "a quotation mark"),
    (b"\"{\"\"type\"\"", 3, Some(Hint::DoubledQuotes), "of a CSV"),
    (b"{} # a note", 3, Some(Hint::Comment), "a note is none"),
];

#[test]
fn names_a_second_text(rt: HostRuntime) {
    for (file, place, expected, row) in SECOND_TEXTS.iter() {
        equal(&rt, said(file, *place, Wrong::TextFollows), *expected, row);
    }
    let found = said(b"[{} {}]", 4, Wrong::Refused);
    equal(&rt, found, None, "a second object in an array");
}

/// A file, the place where something is wrong in it, what that is, and what is said.
static OTHER_FORMATS: [(&[u8], usize, Wrong, Option<Hint>); 12] = [
    (
        b"{\"type\": \"Topology\", \"objects\": {}}",
        9,
        Wrong::OtherType,
        Some(Hint::TopoJson),
    ),
    (b"{\"type\": \"point\"}", 9, Wrong::OtherType, None),
    (
        b"{\"type\": null}",
        9,
        Wrong::OtherType,
        Some(Hint::NullGeometry),
    ),
    (
        b"{\"type\":\"Point\",\"coordinates\":null}",
        30,
        Wrong::OtherShape,
        Some(Hint::NullGeometry),
    ),
    (b"[\"9\",\"54\"]", 1, Wrong::OtherShape, None),
    (
        b"{\"rings\":[[[9,54],[9,55],[8,55],[9,54]]]}",
        0,
        Wrong::NoType,
        Some(Hint::EsriJson),
    ),
    (
        b"{\"geometryType\":\"esriGeometryPoint\",\"features\":[]}",
        0,
        Wrong::NoType,
        Some(Hint::EsriJson),
    ),
    (
        b"{\"x\":9,\"y\":54,\"spatialReference\":{\"wkid\":4326}}",
        0,
        Wrong::NoType,
        Some(Hint::EsriJson),
    ),
    (
        b"{\"features\":[{\"attributes\":{\"ID\":1}}]}",
        0,
        Wrong::NoType,
        Some(Hint::EsriJson),
    ),
    (b"{\"Type\":\"Point\"}", 0, Wrong::NoType, None),
    (
        b"\"{\\\"type\\\":\\\"Point\\\"}\"",
        0,
        Wrong::NoObject,
        Some(Hint::TextInString),
    ),
    (b"\"POINT (9 54)\"", 0, Wrong::NoObject, None),
];

#[test]
fn names_other_formats_in_json(rt: HostRuntime) {
    for (file, place, wrong, expected) in OTHER_FORMATS.iter() {
        let found = said(file, *place, *wrong);
        holds_in(&rt, found == *expected, file, *place);
    }
}

const SWAPPED: Option<Hint> = Some(Hint::SwappedAxes);

static POSITIONS: [(&[u8], Option<Hint>, &str); 16] = [
    (b"[-33.86, 151.21]", SWAPPED, "Sydney"),
    (b"[ 35.68 , 139.69 , 40 ]", SWAPPED, "with a height"),
    (b"[\n  43.7,\n  -92\n]", SWAPPED, "whole degrees, in lines"),
    (b"[89.9,90]", SWAPPED, "the least latitude that is none"),
    (b"[89,179.9]", SWAPPED, "and the greatest longitude"),
    (b"[151.21,-33.86]", None, "the right order"),
    (b"[151.21,133.86]", None, "no latitude at all"),
    (b"[54.78,9.44]", None, "both could be latitudes"),
    (b"[90,120]", None, "the first might be no latitude"),
    (b"[12,180]", None, "the second might be no longitude"),
    (b"[5.4e1,120]", None, "an exponent"),
    (b"[522000,6070000]", Some(Hint::Metres), "metres"),
    (b"[12.5,-6070000.25]", Some(Hint::Metres), "one number"),
    (b"[200,999.5]", None, "no metres"),
    (b"[12]", None, "one number"),
    (b"{\"lat\":12,\"lon\":120}", None, "an object"),
];

#[test]
fn names_swapped_coordinates(rt: HostRuntime) {
    for (position, expected, row) in POSITIONS.iter() {
        equal(&rt, said(position, 0, Wrong::OutOfRange), *expected, row);
    }
}

static NUMBERS: [(&[u8], Hint, &str); 11] = [
    (
        b"9.42999999999999971578290569595992565155029296875,54]",
        Hint::ManyDigits,
        "all digits of a double",
    ),
    (
        b"1234567890123456789012345678901]",
        Hint::ManyDigits,
        "31 digits",
    ),
    (
        b"-0.001234567890123456789012345678901]",
        Hint::ManyDigits,
        "zeros before them",
    ),
    (
        b"1.234567890123456789012345678901e500]",
        Hint::ManyDigits,
        "and too large",
    ),
    (b"1e401]", Hint::LargeNumber, "an exponent"),
    (
        b"-1E+401,2]",
        Hint::LargeNumber,
        "a negative one is large too",
    ),
    (
        b"123456789012345678901234567890e400]",
        Hint::LargeNumber,
        "30 digits",
    ),
    (
        b"1234567890123456789012345678900e400]",
        Hint::LargeNumber,
        "and a zero",
    ),
    (b"4e-500]", Hint::SmallNumber, "nearly zero"),
    (b"-1.5E-401 ]", Hint::SmallNumber, "below it"),
    (
        b"0.000000000000000000000000000000000000000000000001]",
        Hint::SmallNumber,
        "zeros",
    ),
];

#[test]
fn says_why_a_number_is_not_read(rt: HostRuntime) {
    for (number, expected, row) in NUMBERS.iter() {
        let found = said(number, 0, Wrong::BeyondProfile);
        equal(&rt, found, Some(*expected), row);
    }
}

static HINTS: [Hint; 53] = [
    Hint::Gzip,
    Hint::Zip,
    Hint::Shapefile,
    Hint::GeoPackage,
    Hint::FlatGeobuf,
    Hint::Parquet,
    Hint::Pdf,
    Hint::Kml,
    Hint::Gml,
    Hint::Html,
    Hint::Xml,
    Hint::Utf16,
    Hint::Latin1,
    Hint::NotANumber,
    Hint::Infinity,
    Hint::SingleQuotes,
    Hint::Comment,
    Hint::ExtraComma,
    Hint::SecondText,
    Hint::TextSequence,
    Hint::TopoJson,
    Hint::EsriJson,
    Hint::TextInString,
    Hint::SwappedAxes,
    Hint::Metres,
    Hint::ManyDigits,
    Hint::LargeNumber,
    Hint::SmallNumber,
    Hint::Image,
    Hint::Gpx,
    Hint::Waypoints,
    Hint::Columns,
    Hint::Psql,
    Hint::DoubledQuotes,
    Hint::Script,
    Hint::PlainText,
    Hint::NoSeparator,
    Hint::Conflict,
    Hint::Zeros,
    Hint::PythonWord,
    Hint::PythonText,
    Hint::Word,
    Hint::PlainName,
    Hint::LineBreak,
    Hint::Backslash,
    Hint::InnerQuote,
    Hint::TypographicQuotes,
    Hint::NumberForm,
    Hint::DecimalComma,
    Hint::MissingComma,
    Hint::MissingBrace,
    Hint::CommaBetween,
    Hint::NullGeometry,
];

#[test]
fn texts_stand_in_a_json_string(rt: HostRuntime) {
    for hint in HINTS.iter() {
        for byte in hint.text().bytes() {
            let is_plain = byte >= 0x20 && byte < 0x7F && byte != b'"' && byte != b'\\';
            holds(&rt, is_plain, hint.text());
        }
    }
}
