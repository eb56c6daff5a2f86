//! What the reader keeps of the text so far, beside the levels that are open.

use crate::constant::Constant;
use crate::levels::Level;
use crate::names::{Known, Word};

/// What the second byte of a character in UTF-8 may be, as the first byte says (RFC 3629, section 4).
#[derive(Clone, Copy, PartialEq, Eq)]
pub enum Bounds {
    /// 80 to BF (hexadecimal), as each byte after the second.
    Any,
    /// A0 to BF: no longer form than needed.
    AfterE0,
    /// 80 to 9F: no surrogate.
    AfterED,
    /// 90 to BF: no longer form than needed.
    AfterF0,
    /// 80 to 8F: nothing past U+10FFFF.
    AfterF4,
}

/// How far the character under way in a string has come.
#[derive(Clone, Copy, PartialEq, Eq)]
pub enum StringState {
    /// No character is under way.
    Plain,
    /// After a backslash.
    Escape,
    /// After `\u`, and after the digits of this value.
    HexDue,
    HexOne(u32),
    HexTwo(u32),
    HexThree(u32),
    /// In a character of several bytes: how many follow the next, what the next may be, and the bits so far.
    InCharacter(u8, Bounds, u32),
}

/// What may come next.
#[derive(Clone, Copy, PartialEq, Eq)]
pub enum Mode {
    /// A byte order mark, white space or a value: nothing has come.
    TextDue,
    /// After one byte, or two, of a mark.
    MarkOne,
    MarkTwo,
    ValueDue,
    ValueDone,
    ArrayOpened,
    ObjectOpened,
    /// So many letters of the literal name have come.
    ConstantOn(Constant, u8),
    NumberOn,
    StringOn(StringState),
    NameDue,
    NameOn(StringState),
    ColonDue,
}

/// What a byte ends. A number ends before a byte, whatever that does.
#[derive(Clone, Copy, PartialEq, Eq)]
pub enum Ending {
    Nothing,
    /// A byte order mark.
    Mark,
    Literal(Constant),
    /// A string that is a value.
    Text(Word),
    Name(Known),
    /// An element or a member that a comma follows.
    Item,
}

/// What a byte does.
#[derive(Clone, Copy, PartialEq, Eq)]
pub enum Move {
    Refuse,
    /// It leads to this mode, and ends this.
    Go(Mode, Ending),
    Open(Level),
    /// It closes the innermost level, which is this.
    Close(Level),
}

/// What a byte does to a string under way.
#[derive(Clone, Copy, PartialEq, Eq)]
pub enum StringMove {
    Ends,
    Goes(StringState),
    /// A character has ended with the byte, and none is under way.
    Reads(u32),
    Refuses,
}
