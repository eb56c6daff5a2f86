//! What a byte is to the grammar of RFC 8259.
ghost use Rattle.std.specs.Prelude.{◌≡◌};
ghost use Rattle.gj_json.specs.Internal.ByteClasses.{class_of};

use crate::constant::Constant;

/// What a byte is to the grammar, outside of a string.
#[derive(Clone, Copy, PartialEq, Eq)]
pub enum Class {
    White,
    OpenArray,
    CloseArray,
    OpenObject,
    CloseObject,
    Comma,
    Colon,
    Quote,
    /// The first byte of a number.
    NumberStart,
    /// The first letter of a literal name.
    Letter(Constant),
    Other,
}

/// The class of a byte.
#[inline(always)]
#[tactic(auto, unfolding(crate::specs::Internal::ByteClasses::class_of))]
pub fn classify(byte: u8) -> Class
    ensures { result ≡ class_of byte }
{
    match byte {
        b'0'..=b'9' => Class::NumberStart,
        b' ' | b'\t' | b'\n' | b'\r' => Class::White,
        b'[' => Class::OpenArray,
        b']' => Class::CloseArray,
        b'{' => Class::OpenObject,
        b'}' => Class::CloseObject,
        b',' => Class::Comma,
        b':' => Class::Colon,
        b'"' => Class::Quote,
        b'-' => Class::NumberStart,
        b'n' => Class::Letter(Constant::Null),
        b't' => Class::Letter(Constant::True),
        b'f' => Class::Letter(Constant::False),
        _ => Class::Other,
    }
}
