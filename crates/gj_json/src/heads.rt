//! The beginnings of features and geometries as most writers put them, each recognized by a comparison of words.

ghost use Rattle.std.specs.Prelude.{◌≡◌, ◌+◌, ◌<◌, ◌≤◌, length, take, IsTrue};
ghost use Rattle.std.specs.List.{AllByRecursion};
ghost use Rattle.gj_json.specs.Bytes.{IsWhite};
ghost use Rattle.gj_json.specs.Internal.FlatParts.{cut};
ghost use Rattle.gj_json.specs.Internal.WholeHeads.{spaces, BeginsTyped, IsTyped, IsFollowing, IsFound, OpensProperties};
ghost use Rattle.gj_json.specs.declared.heads.TheConstants.{ROOM, TYPED_ROOM};

use crate::lanes::{begins, is_white};
use crate::names::Word;
use crate::usual::usual_text;

/// A shorter piece is not looked at: it may have no room for each of them.
const ROOM: usize = 52;

/// As above, for the beginning of an object.
const TYPED_ROOM: usize = 26;

/// The beginning of an object by its type: how many bytes it has, or 0 where there is none, and where the name and the type stand.
#[derive(Clone, Copy)]
pub struct UsualTyped {
    pub count: usize,
    pub name_at: usize,
    pub word_at: usize,
    pub word: Word,
}

/// The end of an element and the beginning of the next, of which there is none where it has no bytes: where the bracket stands that
/// ends the element, and the one that begins the next.
#[derive(Clone, Copy)]
pub struct UsualNext {
    pub close: usize,
    pub at: usize,
    pub typed: UsualTyped,
}

/// The beginning of a member `geometry`: how many bytes it has up to its coordinates, or 0 where there is none, and where
/// the bracket, the name `type`, the type and the name `coordinates` stand.
#[derive(Clone, Copy)]
pub struct UsualLocated {
    pub count: usize,
    pub bracket: usize,
    pub name_at: usize,
    pub word_at: usize,
    pub word: Word,
    pub coordinates: usize,
}

const NOT_TYPED: UsualTyped = UsualTyped {
    count: 0,
    name_at: 0,
    word_at: 0,
    word: Word::Other,
};

const NO_NEXT: UsualNext = UsualNext {
    close: 0,
    at: 0,
    typed: NOT_TYPED,
};

const NOT_LOCATED: UsualLocated = UsualLocated {
    count: 0,
    bracket: 0,
    name_at: 0,
    word_at: 0,
    word: Word::Other,
    coordinates: 0,
};

/// Whether so many spaces stand at an index: one, or none.
#[inline(always)]
pub fn has_spaces(piece: &[u8], at: usize, count: usize) -> bool
    requires within { at < length piece.now }
    requires few { count ≤ 1 }
    ensures { IsTrue result → cut piece.now at (at + count) ≡ spaces count }
{
    count == 0 || piece[at] == b' '
}

/// The beginning of an object by its type, with so many spaces after the bracket, and so many after the colon and the comma.
#[inline(always)]
fn typed_with(piece: &[u8], inside: usize, gap: usize) -> UsualTyped
    requires room { TYPED_ROOM ≤ length piece.now }
    requires few_inside { inside ≤ 1 }
    requires few { gap ≤ 1 }
    ensures short { result.count ≤ 24 }
    ensures on { 0 < result.count → result.name_at < result.word_at }
    ensures few { result.word_at ≤ result.count }
    ensures typed { 0 < result.count
        → BeginsTyped 0 result.name_at result.word_at result.word (spaces inside) (spaces gap) (take result.count piece.now) }
    ensures usual { 0 < result.count → IsTyped piece.now result.count result.name_at result.word_at result.word }
{
    let name_at = 1 + inside;
    let after_colon = name_at + 7;
    let word_at = after_colon + gap;
    if piece[0] != b'{' || !begins(&piece[name_at..], b"\"type\":         ", 7) {
        return NOT_TYPED;
    }
    let text = usual_text(&piece[word_at..]);
    let comma = word_at + text.count;
    if text.count == 0 || piece[comma] != b',' {
        return NOT_TYPED;
    }
    if !has_spaces(piece, 1, inside) || !has_spaces(piece, after_colon, gap) {
        return NOT_TYPED;
    }
    if !has_spaces(piece, comma + 1, gap) {
        return NOT_TYPED;
    }
    UsualTyped {
        count: comma + 1 + gap,
        name_at,
        word_at,
        word: text.word,
    }
}

/// The beginning of an object by its type: with no spaces, or with one after the colon and the comma, and after the bracket one or none.
#[inline(always)]
pub fn usual_typed(piece: &[u8]) -> UsualTyped
    ensures within { result.count ≤ length piece.now }
    ensures on { 0 < result.count → result.name_at < result.word_at }
    ensures few { result.word_at ≤ result.count }
    ensures usual { 0 < result.count → IsTyped piece.now result.count result.name_at result.word_at result.word }
{
    if piece.len() < TYPED_ROOM {
        return NOT_TYPED;
    }
    if piece[1] == b' ' {
        return typed_with(piece, 1, 1);
    }
    if piece[8] == b' ' {
        return typed_with(piece, 0, 1);
    }
    typed_with(piece, 0, 0)
}

/// Where the white space at an index of a piece ends, of which one byte is passed at the most.
#[inline(always)]
pub fn gap_end(piece: &[u8], at: usize) -> usize
    requires { at ≤ length piece.now }
    ensures on { at ≤ result }
    ensures few { result ≤ at + 1 }
    ensures within { result ≤ length piece.now }
    ensures white { AllByRecursion IsWhite (cut piece.now at result) }
{
    if at < piece.len() && is_white(piece[at]) {
        return at + 1;
    }
    at
}

/// The end of the element that the piece starts with, and the beginning of the next feature, with a byte of white space before that
/// end and after the comma, or none.
#[inline(always)]
pub fn following_typed(piece: &[u8]) -> UsualNext
    ensures within { 0 < result.typed.count → result.at + result.typed.count ≤ length piece.now }
    ensures on { 0 < result.typed.count → result.typed.name_at < result.typed.word_at }
    ensures few { result.typed.word_at ≤ result.typed.count }
    ensures follows { 0 < result.typed.count → IsFollowing piece.now result }
{
    if piece.len() < ROOM {
        return NO_NEXT;
    }
    let close = gap_end(piece, 0);
    if piece[close] != b'}' || piece[close + 1] != b',' {
        return NO_NEXT;
    }
    let at = gap_end(piece, close + 2);
    UsualNext {
        close,
        at,
        typed: usual_typed(&piece[at..]),
    }
}

/// The beginning of a member `geometry`, with so many spaces before its bracket, after it, and after the colons and the comma in it.
#[inline(always)]
fn located_with(piece: &[u8], before: usize, inside: usize, gap: usize) -> UsualLocated
    requires room { ROOM ≤ length piece.now }
    requires few_before { before ≤ 1 }
    requires few_inside { inside ≤ 1 }
    requires few { gap ≤ 1 }
    ensures { 0 < result.count → IsFound piece.now result }
{
    let bracket = 11 + before;
    if !begins(piece, b"\"geometry\":     ", 11) || !has_spaces(piece, 11, before) {
        return NOT_LOCATED;
    }
    let typed = typed_with(&piece[bracket..], inside, gap);
    let coordinates = bracket + typed.count;
    if typed.count == 0 || !begins(&piece[coordinates..], b"\"coordinates\":  ", 14) {
        return NOT_LOCATED;
    }
    if !has_spaces(piece, coordinates + 14, gap) {
        return NOT_LOCATED;
    }
    UsualLocated {
        count: coordinates + 14 + gap,
        bracket,
        name_at: bracket + typed.name_at,
        word_at: bracket + typed.word_at,
        word: typed.word,
        coordinates,
    }
}

/// The beginning of a member `geometry`: with no spaces, with one after each colon and comma, and after the bracket one or none, or with
/// one before the bracket alone.
#[inline(always)]
pub fn usual_located(piece: &[u8]) -> UsualLocated
    ensures { 0 < result.count → IsFound piece.now result }
{
    if piece.len() < ROOM {
        return NOT_LOCATED;
    }
    if piece[11] == b'{' {
        return located_with(piece, 0, 0, 0);
    }
    if piece[13] == b' ' {
        return located_with(piece, 1, 1, 1);
    }
    if piece[20] == b' ' {
        return located_with(piece, 1, 0, 1);
    }
    located_with(piece, 1, 0, 0)
}

/// The beginning of a member `properties` that is an object, with a space after its colon or none: how many bytes, or 0.
#[inline(always)]
pub fn properties_run(piece: &[u8]) -> usize
    ensures within { result ≤ length piece.now }
    ensures opens { 0 < result → OpensProperties (take result piece.now) }
{
    if piece.len() < ROOM {
        return 0;
    }
    if begins(piece, b"\"properties\":{  ", 14) {
        return 14;
    }
    if begins(piece, b"\"properties\": { ", 15) {
        return 15;
    }
    0
}
