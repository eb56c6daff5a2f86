//! The words for the bytes that can follow in a text (RFC 8259), and which bytes each means.
ghost use Rattle.std.specs.Prelude.{◌≡◌};
ghost use Rattle.gj_hints.specs.Choices.{begins_value, is_white};

/// Bytes that have words of their own.
#[derive(Clone, Copy)]
pub enum Choice {
    /// What begins a value, or a byte order mark before it.
    ValueOrMark,
    Value,
    /// What goes on in a string.
    Character,
    /// What goes on after a backslash.
    Escape,
    Name,
    Hexadecimal,
    /// This byte.
    Exactly([u8; 1]),
    /// What goes on after digits of a number, after a 0 that begins it, and after digits behind its point.
    Number,
    AfterZero,
    AfterPoint,
    /// What goes on after the `e` of a number.
    Exponent,
    Digit,
    /// The next byte of a character in UTF-8, from the first to the second.
    Continuation(u8, u8),
}

/// All of them. One is named if all its bytes can follow and none of them is named before: so those of more bytes come first.
pub const CHOICES: [Choice; 28] = [
    Choice::Character,
    Choice::ValueOrMark,
    Choice::Value,
    Choice::Escape,
    Choice::Name,
    Choice::Hexadecimal,
    Choice::Exactly(*b","),
    Choice::Exactly(*b":"),
    Choice::Exactly(*b"}"),
    Choice::Exactly(*b"]"),
    Choice::Number,
    Choice::AfterZero,
    Choice::AfterPoint,
    Choice::Exponent,
    Choice::Digit,
    Choice::Exactly(*b"a"),
    Choice::Exactly(*b"e"),
    Choice::Exactly(*b"l"),
    Choice::Exactly(*b"r"),
    Choice::Exactly(*b"s"),
    Choice::Exactly(*b"u"),
    Choice::Continuation(0x80, 0xBF),
    Choice::Continuation(0x90, 0xBF),
    Choice::Continuation(0xA0, 0xBF),
    Choice::Continuation(0x80, 0x9F),
    Choice::Continuation(0x80, 0x8F),
    Choice::Continuation(0xBB, 0xBB),
    Choice::Continuation(0xBF, 0xBF),
];

impl Choice {
    ghost use Rattle.std.specs.Prelude.{◌≡◌};
    ghost use Rattle.gj_hints.specs.Choices.{has, choice_text};

    /// Its words.
    pub fn text(&self) -> &[u8]
        ensures { result.now ≡ choice_text self.now }
    {
        match self {
            Choice::ValueOrMark | Choice::Value => b"a value",
            Choice::Character => b"a character, an escape or \"",
            Choice::Escape => b"one of \"\\/bfnrtu",
            Choice::Name => b"a name",
            Choice::Hexadecimal => b"a hexadecimal digit",
            Choice::Exactly(byte) => byte,
            Choice::Number | Choice::AfterZero | Choice::AfterPoint => b"more of the number",
            Choice::Exponent => b"a digit or a sign",
            Choice::Digit => b"a digit",
            Choice::Continuation(_, _) => b"the next byte of a character in UTF-8",
        }
    }

    /// Whether the byte is one of those that it means.
    pub(crate) fn has(self, byte: u8) -> bool
        ensures { result ≡ has self byte }
    {
        match self {
            Choice::ValueOrMark => begins_value(byte) || byte == 0xEF,
            Choice::Value => begins_value(byte),
            Choice::Character => matches!(byte, 0x20..=0x7F | 0xC2..=0xF4),
            Choice::Escape => matches!(
                byte,
                b'"' | b'\\' | b'/' | b'b' | b'f' | b'n' | b'r' | b't' | b'u'
            ),
            Choice::Name => byte == b'"',
            Choice::Hexadecimal => matches!(byte, b'0'..=b'9' | b'A'..=b'F' | b'a'..=b'f'),
            Choice::Exactly(bytes) => byte == bytes[0],
            Choice::Number => matches!(byte, b'0'..=b'9' | b'.' | b'e' | b'E'),
            Choice::AfterZero => matches!(byte, b'.' | b'e' | b'E'),
            Choice::AfterPoint => matches!(byte, b'0'..=b'9' | b'e' | b'E'),
            Choice::Exponent => matches!(byte, b'0'..=b'9' | b'+' | b'-'),
            Choice::Digit => byte.is_ascii_digit(),
            Choice::Continuation(low, high) => low <= byte && byte <= high,
        }
    }
}

/// Whether the byte begins a value.
fn begins_value(byte: u8) -> bool
    ensures { result ≡ begins_value byte }
{
    matches!(
        byte,
        b'"' | b'-' | b'0'..=b'9' | b'[' | b'{' | b'f' | b'n' | b't'
    )
}

/// Whether the byte is white space (RFC 8259, section 2).
pub fn is_white(byte: u8) -> bool
    ensures { result ≡ is_white byte }
{
    matches!(byte, b' ' | b'\t' | b'\n' | b'\r')
}
