//! The beginnings of features and of their members as most writers put them, each reported as one event.

ghost use Rattle.std.specs.Prelude.{◌<◌};

use crate::names::Word;

/// The beginning of an object by its type, as `{"type":"Feature",`.
#[derive(Clone, Copy)]
pub struct Typed {
    /// The place of `{`, as bytes from the start of the text.
    pub place: u64,
    /// The place of the name `type`.
    pub name_at: u64,
    /// The place of the type.
    pub word_at: u64,
    pub word: Word,
    ghost on: { place < word_at },
}

/// The beginning of a member `geometry` up to its coordinates, as `"geometry":{"type":"Point","coordinates":`.
#[derive(Clone, Copy)]
pub struct Located {
    /// The place of the name `geometry`.
    pub place: u64,
    pub typed: Typed,
    /// The place of the name `coordinates`.
    pub coordinates: u64,
}

/// A member `geometry` that is a whole Point whose coordinates stand before its type, but for its position, as
/// `"geometry":{"coordinates":[1,2],"type":"Point"}`.
#[derive(Clone, Copy)]
pub struct LatePoint {
    /// The place of the name `geometry`.
    pub place: u64,
    /// The place of `{`.
    pub bracket: u64,
    /// The place of the name `coordinates`.
    pub coordinates: u64,
    /// The place of the name `type`.
    pub name_at: u64,
    /// The place of the type.
    pub word_at: u64,
    /// The place of `}`.
    pub close: u64,
}

/// The beginning of a member `properties` that is an object, as `"properties":{`.
#[derive(Clone, Copy)]
pub struct Opened {
    /// The place of the name `properties`.
    pub place: u64,
    /// The place of `{`.
    pub bracket: u64,
}

/// A beginning that is reported as one event.
#[derive(Clone, Copy)]
pub enum Head {
    /// Of an object.
    Object(Typed),
    /// Of a member `geometry`.
    Geometry(Located),
    /// Of a member `properties`.
    Properties(Opened),
}
