//! Members `geometry` that are a whole Point whose coordinates stand before its type, as writers with sorted names put them.

ghost use Rattle.std.specs.Prelude.{◌+◌, ◌^◌, ◌<◌, ◌≤◌, length};
ghost use Rattle.std.specs.Option.{IfSome};
ghost use Rattle.gj_json.specs.Internal.LatePoints.{BeginsLate, EndsLate, IsLatePoint};

use crate::flat::Flat;
use crate::flats::read_lone_flat;
use crate::head::LatePoint;
use crate::heads::has_spaces;
use crate::lanes::begins;

/// A shorter piece has no room for the beginning.
const START_ROOM: usize = 29;

/// A shorter piece has no room for the end.
const END_ROOM: usize = 26;

/// The beginning up to the coordinates: how many bytes it has, and where the bracket stands.
#[derive(Clone, Copy)]
pub struct LateStart {
    pub count: usize,
    pub bracket: usize,
}

/// The end from the comma after the coordinates on: where the name `type`, the type and the bracket stand.
#[derive(Clone, Copy)]
pub struct LateEnd {
    pub name_at: usize,
    pub word_at: usize,
    pub close: usize,
}

/// The beginning that the piece starts with, with so many spaces before the bracket and after each colon.
#[inline(always)]
fn late_start(piece: &[u8], gap: usize) -> Option<LateStart>
    requires { gap ≤ 1 }
    ensures within { IfSome result (λ first. first.count ≤ length piece.now) }
    ensures on { IfSome result (λ first. first.bracket < first.count) }
    ensures begins { IfSome result (λ first. BeginsLate piece.now first) }
{
    if piece.len() < START_ROOM || !begins(piece, b"\"geometry\":     ", 11) {
        return None;
    }
    let bracket = 11 + gap;
    if piece[bracket] != b'{' || !begins(&piece[bracket + 1..], b"\"coordinates\":  ", 14) {
        return None;
    }
    if !has_spaces(piece, 11, gap) || !has_spaces(piece, bracket + 15, gap) {
        return None;
    }
    Some(LateStart {
        count: bracket + 15 + gap,
        bracket,
    })
}

/// The end that the piece starts with, with so many spaces after the comma and the colon.
#[inline(always)]
fn late_end(piece: &[u8], gap: usize) -> Option<LateEnd>
    requires { gap ≤ 1 }
    ensures within { IfSome result (λ last. last.close < length piece.now) }
    ensures name { IfSome result (λ last. last.name_at ≤ last.close) }
    ensures word { IfSome result (λ last. last.word_at ≤ last.close) }
    ensures ends { IfSome result (λ last. EndsLate piece.now last) }
{
    let name_at = 1 + gap;
    let word_at = name_at + 7 + gap;
    if piece.len() < END_ROOM
        || piece[0] != b','
        || !begins(&piece[name_at..], b"\"type\":         ", 7)
    {
        return None;
    }
    if !begins(&piece[word_at..], b"\"Point\"}        ", 8) {
        return None;
    }
    if !has_spaces(piece, 1, gap) || !has_spaces(piece, name_at + 7, gap) {
        return None;
    }
    Some(LateEnd {
        name_at,
        word_at,
        close: word_at + 7,
    })
}

/// Such a member, which the piece starts with, and its position, where the piece begins at the place `start`.
// It is one function for all sinks, so that its code does not stand in each of the readers.
#[inline(never)]
pub fn late_point(piece: &[u8], start: u64, flat: &mut Flat) -> Option<LatePoint>
    requires small { start + length piece.now ≤ 2 ^ 60 }
    ensures on { IfSome result (λ point. start ≤ point.close) }
    ensures within { IfSome result (λ point. point.close < start + length piece.now) }
    ensures late { IfSome result (λ point. IsLatePoint point flat.new start piece.now) }
{
    let gap = if piece.len() > 11 && piece[11] == b' ' {
        1
    } else {
        0
    };
    let first = late_start(piece, gap)?;
    let rest = &piece[first.count..];
    if rest.is_empty() || rest[0] != b'[' {
        return None;
    }
    let count = read_lone_flat(rest, start + first.count as u64, flat)?;
    let until = first.count + count;
    let last = late_end(&piece[until..], gap)?;
    let bracket = start + first.bracket as u64;
    let comma = start + until as u64;
    Some(LatePoint {
        place: start,
        bracket,
        coordinates: bracket + 1,
        name_at: comma + last.name_at as u64,
        word_at: comma + last.word_at as u64,
        close: comma + last.close as u64,
    })
}
