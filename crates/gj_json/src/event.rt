//! What a reader reports.

use crate::names::{Known, Word};
use gj_number::Decimal;

/// What is at a place of a text (RFC 8259, sections 3 to 7).
#[derive(Clone, Copy, Debug, Default, PartialEq, Eq)]
pub enum What {
    /// `{`.
    #[default]
    OpenObject,
    /// `}`.
    CloseObject,
    /// `[`.
    OpenArray,
    /// `]`.
    CloseArray,
    /// The name of a member, as it is after its escapes are undone.
    Name(Known),
    /// A string that is a value, as it is after its escapes are undone.
    Text(Word),
    /// A number, with its value where that is held (see [`Decimal`]).
    Number(Option<Decimal>),
    /// The literal name `true`.
    True,
    /// The literal name `false`.
    False,
    /// The literal name `null`.
    Null,
    /// A byte order mark, at the start of the text (section 8.1).
    Mark,
}

/// A part of a text: what it is, and where its first byte stands.
///
/// A string and a name are reported at their closing quote, a number at the byte after it or at the end of the text.
#[derive(Clone, Copy, Debug, Default, PartialEq, Eq)]
pub struct Event {
    /// How many bytes of the text come before it.
    pub place: u64,
    pub what: What,
}
