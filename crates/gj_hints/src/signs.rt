//! The signs by which a file shows what it is, or what is wrong at a place of it. The first one that is seen decides, so the
//! general ones come last.

use crate::kind::Hint;
use crate::sign::{Gap, Sign};

/// What begins a name in a program.
const LETTERS: &[u8] = b"ABCDEFGHIJKLMNOPQRSTUVWXYZabcdefghijklmnopqrstuvwxyz_$";

const DIGITS: &[u8] = b"0123456789";

/// What goes on in a string: letters, with the first bytes of those with marks, of Greek and of Cyrillic ones, and digits.
const IN_STRINGS: &[u8] =
    b"ABCDEFGHIJKLMNOPQRSTUVWXYZabcdefghijklmnopqrstuvwxyz0123456789\xC3\xC4\xC5\xC6\xCE\xCF\xD0\xD1";

/// What a file is, or what stands at a place that is refused.
pub(crate) const SIGNS: [(Sign, &[u8], Hint); 64] = [
    (Sign::Begins, b"\x1F\x8B", Hint::Gzip),
    (Sign::Begins, b"PK\x03\x04", Hint::Zip),
    (Sign::Begins, b"%PDF", Hint::Pdf),
    // The number 9994, its highest byte first.
    (Sign::Begins, b"\x00\x00\x27\x0A", Hint::Shapefile),
    (Sign::Begins, b"SQLite format 3", Hint::GeoPackage),
    (Sign::Begins, b"fgb\x03", Hint::FlatGeobuf),
    (Sign::Begins, b"PAR1", Hint::Parquet),
    (Sign::Begins, b"\x89PNG", Hint::Image),
    // JPEG, and TIFF by the order of its bytes.
    (Sign::Begins, b"\xFF\xD8\xFF", Hint::Image),
    (Sign::Begins, b"GIF8", Hint::Image),
    (Sign::Begins, b"II*\x00", Hint::Image),
    (Sign::Begins, b"MM\x00*", Hint::Image),
    // The byte order mark in UTF-16, and `{` in it, by the order of the bytes.
    (Sign::Begins, b"\xFF\xFE", Hint::Utf16),
    (Sign::Begins, b"\xFE\xFF", Hint::Utf16),
    (Sign::Begins, b"{\x00", Hint::Utf16),
    (Sign::Begins, b"\x00{", Hint::Utf16),
    (Sign::Begins, b"<<<<<<<", Hint::Conflict),
    (Sign::Begins, b"\"{\"\"", Hint::DoubledQuotes),
    (Sign::Markup, b"<kml", Hint::Kml),
    (Sign::Markup, b"opengis.net/gml", Hint::Gml),
    (Sign::Markup, b"<html", Hint::Html),
    (Sign::Markup, b"<HTML", Hint::Html),
    (Sign::Markup, b"<!DOCTYPE html", Hint::Html),
    (Sign::Markup, b"<!doctype html", Hint::Html),
    (Sign::Markup, b"<wpt", Hint::Waypoints),
    (Sign::Markup, b"<gpx", Hint::Gpx),
    (Sign::Markup, b"", Hint::Xml),
    (Sign::Columns, b",;\t", Hint::Columns),
    (Sign::Titled, b"\n---", Hint::Psql),
    (Sign::Lettered, b"({", Hint::Script),
    (Sign::Lettered, b"={", Hint::Script),
    (Sign::Lettered, b"= {", Hint::Script),
    (Sign::Lettered, b"default {", Hint::Script),
    (Sign::Start, b"\x1E", Hint::TextSequence),
    // The start of a text is refused only where a sequence is due.
    (Sign::Start, b"{", Hint::NoSeparator),
    (Sign::OtherEncoding, b"", Hint::Latin1),
    (Sign::At, b"NaN", Hint::NotANumber),
    (Sign::At, b"nan", Hint::NotANumber),
    (Sign::At, b"Inf", Hint::Infinity),
    (Sign::At, b"inf", Hint::Infinity),
    (Sign::At, b"INF", Hint::Infinity),
    (Sign::At, b"True", Hint::PythonWord),
    (Sign::At, b"False", Hint::PythonWord),
    (Sign::At, b"None", Hint::PythonWord),
    (Sign::Quoted, b"': True", Hint::PythonText),
    (Sign::Quoted, b"': False", Hint::PythonText),
    (Sign::Quoted, b"': None", Hint::PythonText),
    (Sign::Quoted, b"': (", Hint::PythonText),
    (Sign::At, b"'", Hint::SingleQuotes),
    (Sign::At, b"\xE2\x80\x9C", Hint::TypographicQuotes),
    (Sign::At, b"\xE2\x80\x9D", Hint::TypographicQuotes),
    (Sign::At, b"\xE2\x80\x9E", Hint::TypographicQuotes),
    (Sign::At, b"//", Hint::Comment),
    (Sign::At, b"/*", Hint::Comment),
    (Sign::At, b"#", Hint::Comment),
    (Sign::At, b"<<<<<<<", Hint::Conflict),
    (Sign::At, b"=======", Hint::Conflict),
    (Sign::At, b">>>>>>>", Hint::Conflict),
    (Sign::At, b"\x00", Hint::Zeros),
    // These are refused in strings alone, or within a word or a number.
    (Sign::At, b"\n", Hint::LineBreak),
    (Sign::At, b"\r", Hint::LineBreak),
    (Sign::At, b"\t", Hint::LineBreak),
    (Sign::At, b"undefined", Hint::Word),
    (Sign::OtherWord, b"", Hint::PlainText),
];

/// What the bytes around the place are: the last two before it and the first two from it on are of these sets. A set is written as
/// a text; of an empty one any byte is, and none too.
pub(crate) const AROUND: [(Gap, &[u8], &[u8], &[u8], &[u8], Hint); 5] = [
    // The `n` of `nan` could begin `null`.
    (Gap::None, b"", b"n", b"a", b"n", Hint::NotANumber),
    // In a string a letter is refused after a backslash alone.
    (Gap::None, b"", b"\\", IN_STRINGS, b"", Hint::Backslash),
    (Gap::White, b"", b",", b"}],", b"", Hint::ExtraComma),
    (Gap::White, b"", b"[{", b",", b"", Hint::ExtraComma),
    // After a member of an object, and after an element, a comma is allowed.
    (Gap::White, b"", b"}", b",", b"", Hint::CommaBetween),
];

/// The same, inside an array or an object.
pub(crate) const INSIDE: [(Gap, &[u8], &[u8], &[u8], &[u8], Hint); 11] = [
    (Gap::None, DIGITS, b",", DIGITS, b"", Hint::DecimalComma),
    (Gap::White, b"}", b",", b"{", b"", Hint::MissingBrace),
    (
        Gap::None,
        b" ([-/.,:\"",
        b"\"",
        IN_STRINGS,
        b"",
        Hint::InnerQuote,
    ),
    (Gap::White, DIGITS, b"\"", LETTERS, b"", Hint::InnerQuote),
    (
        Gap::White,
        b"",
        b"}]0123456789el",
        b"\"",
        b"",
        Hint::MissingComma,
    ),
    (Gap::White, b"", b":[,-", b"+.", DIGITS, Hint::NumberForm),
    (Gap::None, b":[,- \n\t", b"0", DIGITS, b"", Hint::NumberForm),
    (Gap::None, DIGITS, b".", b",]} ", b"", Hint::NumberForm),
    (Gap::White, b"", b"{", LETTERS, b"", Hint::PlainName),
    (Gap::White, b"", b":[", LETTERS, b"", Hint::Word),
    (Gap::None, b":[ ", b"fnt", LETTERS, b"", Hint::Word),
];
