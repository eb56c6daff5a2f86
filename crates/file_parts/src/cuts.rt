//! Where an input of records may be cut.

ghost use Rattle.std.specs.Prelude.{◌≡◌, ◌<◌, ◌≤◌, ◌+◌, max, min, IfOk, IfSome, get_or, length};
ghost use Rattle.std.specs.Option.{SomeIff};
ghost use Rattle.gj_join.specs.Parts.{may_begin};
ghost use Rattle.file_parts.specs.Cuts.{IsFirstCut};
ghost use Rattle.file_parts.specs.Internal.Begins.{IsFirstBegin};
ghost use Rattle.file_parts.specs.Internal.EarlyEnds.{CountsFailureOrEnds};

use geolint_report::source::Rewind;
use gj_json::Limits;
use gj_rules::Framing;
use std::io::{self, ErrorKind};

/// The most bytes that are looked at together.
const PIECE: usize = 16384;

/// The first of the places from `from` up to `until` where the input may be cut: before an RS that no other precedes, or after
/// an LF. The source has bytes up to `until`: where it gives none before, the error says so.
pub fn find_cut<S: Rewind>(
    source: &mut S,
    from: u64,
    until: u64,
    framing: Framing,
    limits: Limits,
) -> io::Result<Option<u64>>
    requires { 0 < from }
    ensures cut { IfOk result (λ cut. IfSome (S.text source.old) (λ text. IsFirstCut framing limits text from until cut)) }
    ensures range { IfOk result (λ cut. IfSome cut (λ place. (from ≤ place) × (place < min until limits.bytes))) }
    ensures text { S.text source.new ≡ S.text source.old }
    ensures failed { CountsFailureOrEnds (S.text source.old) (max from (min until limits.bytes)) (S.failed_reads source.old)
        (S.failed_reads source.new) result }
{
    let until = lesser(until, limits.bytes());
    let separator = framing.separator();
    let mut follows_separator = byte_at(source, from - 1)? == separator;
    let mut place = from;
    let mut piece = [0; PIECE];
    while place < until {
        let count = source.read_from(place, &mut piece)?;
        if count == 0 {
            return Err(io::Error::from(ErrorKind::UnexpectedEof));
        }
        let read = &piece[..count];
        if let Some(index) = first_begin(framing, read, follows_separator) {
            return Ok(before(place + index as u64, until));
        }
        follows_separator = read[count - 1] == separator;
        place += count as u64;
    }
    Ok(None)
}

/// The byte at a place. Where the source gives none there, the error says so.
pub fn byte_at<S: Rewind>(source: &mut S, place: u64) -> io::Result<u8>
    ensures byte { IfOk result (λ byte. IfSome (S.text source.old) (λ text. (place < length text) × (byte ≡ get_or text place 0))) }
    ensures text { S.text source.new ≡ S.text source.old }
    ensures failed { CountsFailureOrEnds (S.text source.old) (place + 1) (S.failed_reads source.old) (S.failed_reads source.new) result }
{
    let mut byte = [0];
    if source.read_from(place, &mut byte)? == 0 {
        return Err(io::Error::from(ErrorKind::UnexpectedEof));
    }
    Ok(byte[0])
}

/// The lesser of two numbers.
fn lesser(one: u64, other: u64) -> u64
    ensures { result ≡ min one other }
{
    if one < other { one } else { other }
}

/// A place that is before another.
fn before(place: u64, until: u64) -> Option<u64>
    ensures { SomeIff result (place < until) place }
{
    if place < until { Some(place) } else { None }
}

/// Whether a part may begin with a byte, given whether the byte before it is a separator, and whether it is one itself.
fn may_begin(framing: Framing, follows: bool, separates: bool) -> bool
    ensures { result ≡ may_begin framing follows separates }
{
    match framing {
        Framing::Sequence => separates && !follows,
        Framing::Lines => follows,
    }
}

/// The first byte with which a part may begin.
fn first_begin(framing: Framing, piece: &[u8], follows_separator: bool) -> Option<usize>
    ensures { IsFirstBegin framing follows_separator piece.now result }
{
    let separator = framing.separator();
    let mut follows = follows_separator;
    for i in 0..piece.len() {
        let separates = piece[i] == separator;
        if may_begin(framing, follows, separates) {
            return Some(i);
        }
        follows = separates;
    }
    None
}
