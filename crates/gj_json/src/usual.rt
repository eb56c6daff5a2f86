//! The names and the types that most features have, each distinguished from others by a comparison of words. A word is filled up
//! with spaces to the length of a vector.

ghost use Rattle.std.specs.Prelude.{◌<◌, ◌≤◌, length};
ghost use Rattle.gj_json.specs.Internal.WholeTokens.{IsUsualName, IsUsualText};

use crate::lanes::begins;
use crate::names::{Known, Word};

/// A shorter piece is not looked at: it may have no room for each of them.
const ROOM: usize = 16;

/// One of the usual names: how many bytes it has with its quotes, or 0 where there is none, and which it is.
#[derive(Clone, Copy)]
pub struct UsualName {
    pub count: usize,
    pub known: Known,
}

/// One of the usual types: how many bytes it has with its quotes, or 0 where there is none, and which it is.
#[derive(Clone, Copy)]
pub struct UsualText {
    pub count: usize,
    pub word: Word,
}

const NO_NAME: UsualName = UsualName {
    count: 0,
    known: Known::Other,
};

const NO_TEXT: UsualText = UsualText {
    count: 0,
    word: Word::Other,
};

/// The usual name that the piece starts with, where its colon follows at once.
#[inline(always)]
pub fn usual_name(piece: &[u8]) -> UsualName
    ensures within { 0 < result.count → result.count < length piece.now }
    ensures usual { 0 < result.count → IsUsualName piece.now result.count result.known }
{
    if piece.len() < ROOM {
        return NO_NAME;
    }
    match piece[1] {
        b't' if begins(piece, b"\"type\":         ", 7) => UsualName {
            count: 6,
            known: Known::TypeName,
        },
        b'g' if begins(piece, b"\"geometry\":     ", 11) => UsualName {
            count: 10,
            known: Known::Geometry,
        },
        b'c' if begins(piece, b"\"coordinates\":  ", 14) => UsualName {
            count: 13,
            known: Known::Coordinates,
        },
        b'p' if begins(piece, b"\"properties\":   ", 13) => UsualName {
            count: 12,
            known: Known::Properties,
        },
        b'i' if begins(piece, b"\"id\":           ", 5) => UsualName {
            count: 4,
            known: Known::Id,
        },
        _ => NO_NAME,
    }
}

/// The usual type that the piece starts with.
#[inline(always)]
pub fn usual_text(piece: &[u8]) -> UsualText
    ensures within { result.count ≤ length piece.now }
    ensures short { result.count ≤ 12 }
    ensures usual { 0 < result.count → IsUsualText piece.now result.count result.word }
{
    if piece.len() < ROOM {
        return NO_TEXT;
    }
    match piece[1] {
        b'F' if begins(piece, b"\"Feature\"       ", 9) => UsualText {
            count: 9,
            word: Word::Feature,
        },
        b'P' if begins(piece, b"\"Point\"         ", 7) => UsualText {
            count: 7,
            word: Word::Point,
        },
        b'P' if begins(piece, b"\"Polygon\"       ", 9) => UsualText {
            count: 9,
            word: Word::Polygon,
        },
        b'L' if begins(piece, b"\"LineString\"    ", 12) => UsualText {
            count: 12,
            word: Word::LineString,
        },
        _ => NO_TEXT,
    }
}
