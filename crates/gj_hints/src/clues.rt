//! What a hint goes by.
ghost use Rattle.std.specs.Prelude.{◌≡◌};
ghost use Rattle.gj_hints.specs.Hints.{anywhere, by_bytes_around, by_bytes_inside, by_sign, out_of_range, hint_of, refused, following, other_type, is_esri, when};

use crate::bytes::{begins, holds_one_of};
use crate::kind::Hint;
use crate::number::number_hint;
use crate::sign::{first_around, first_seen};
use crate::signs::{AROUND, INSIDE, SIGNS};
use crate::swapped::{are_metres, is_swapped};

/// What stands in Esri's JSON, and not in GeoJSON.
const ESRI: [&[u8]; 6] = [
    b"\"esriGeometry",
    b"\"spatialReference\"",
    b"\"attributes\"",
    b"\"fieldAliases\"",
    b"\"rings\"",
    b"\"paths\"",
];

/// What is wrong with a file, as far as a hint depends on it.
#[derive(Clone, Copy, Debug, PartialEq, Eq)]
pub enum Wrong {
    /// No JSON text begins with the bytes up to the place.
    Refused,
    /// Bytes follow a whole text.
    TextFollows,
    /// A value is no object.
    NoObject,
    /// An object has no `type`.
    NoType,
    /// A `type` is not allowed.
    OtherType,
    /// Coordinates are not of the shape that their type asks for.
    OtherShape,
    /// A number is longer, greater or nearer to zero than is read.
    BeyondProfile,
    /// A position is out of range.
    OutOfRange,
}

/// The bytes that a hint goes by.
#[derive(Clone, Copy)]
pub struct Clues<'a> {
    /// The first bytes of the file.
    pub head: &'a [u8],
    /// The last bytes before the place.
    pub before: &'a [u8],
    /// The bytes from the place on.
    pub after: &'a [u8],
}

/// What the bytes look like, where that helps the reader: a guess, by the first bytes of the file and those around the place.
pub fn hint(wrong: Wrong, clues: &Clues<'_>) -> Option<Hint>
    ensures { result ≡ hint_of wrong clues.now }
{
    match wrong {
        Wrong::Refused => refused(clues),
        Wrong::TextFollows => following(clues),
        Wrong::NoObject => when(begins(clues.after, b"\"{"), Hint::TextInString),
        Wrong::NoType => when(is_esri(clues.head), Hint::EsriJson),
        Wrong::OtherType => other_type(clues.after),
        Wrong::OtherShape => when(begins(clues.after, b"null"), Hint::NullGeometry),
        Wrong::BeyondProfile => Some(number_hint(clues.after)),
        Wrong::OutOfRange => out_of_range(clues.after),
    }
}

/// What a position looks like that is out of range.
fn out_of_range(after: &[u8]) -> Option<Hint>
    ensures { result ≡ out_of_range after.now }
{
    if is_swapped(after) {
        Some(Hint::SwappedAxes)
    } else {
        when(are_metres(after), Hint::Metres)
    }
}

/// What a file is, or what is wrong where it is refused.
fn refused(clues: &Clues<'_>) -> Option<Hint>
    ensures { result ≡ refused clues.now }
{
    match anywhere(clues) {
        Some(hint) => Some(hint),
        None => by_bytes_inside(clues),
    }
}

/// What is seen of a file, also after a whole text.
fn anywhere(clues: &Clues<'_>) -> Option<Hint>
    ensures { result ≡ anywhere clues.now }
{
    match by_sign(clues) {
        Some(hint) => Some(hint),
        None => by_bytes_around(clues),
    }
}

#[tactic(auto, unfolding(crate::specs::Hints::by_sign))]
fn by_sign(clues: &Clues<'_>) -> Option<Hint>
    ensures { result ≡ by_sign clues.now }
{
    first_seen(&SIGNS, clues)
}

#[tactic(auto, unfolding(crate::specs::Hints::by_bytes_around))]
fn by_bytes_around(clues: &Clues<'_>) -> Option<Hint>
    ensures { result ≡ by_bytes_around clues.now }
{
    first_around(&AROUND, clues)
}

#[tactic(auto, unfolding(crate::specs::Hints::by_bytes_inside))]
fn by_bytes_inside(clues: &Clues<'_>) -> Option<Hint>
    ensures { result ≡ by_bytes_inside clues.now }
{
    first_around(&INSIDE, clues)
}

/// What follows a whole text.
fn following(clues: &Clues<'_>) -> Option<Hint>
    ensures { result ≡ following clues.now }
{
    if begins(clues.after, b"{") || begins(clues.after, b"[") {
        Some(Hint::SecondText)
    } else {
        anywhere(clues)
    }
}

/// What a `type` looks like that is not allowed.
fn other_type(after: &[u8]) -> Option<Hint>
    ensures { result ≡ other_type after.now }
{
    if begins(after, b"\"Topology\"") {
        Some(Hint::TopoJson)
    } else {
        when(begins(after, b"null"), Hint::NullGeometry)
    }
}

/// Whether the first bytes are those of Esri's JSON.
fn is_esri(head: &[u8]) -> bool
    ensures { result ≡ is_esri head.now }
{
    holds_one_of(head, &ESRI)
}

fn when(holds: bool, hint: Hint) -> Option<Hint>
    ensures { result ≡ when holds hint }
{
    if holds { Some(hint) } else { None }
}
