//! The characters of a string (RFC 8259, section 7; RFC 3629, section 4), a byte at a time.

ghost use Rattle.std.specs.Prelude.{◌≤◌, ◌-◌, ◌≡◌, ◌<◌, IfSome};
ghost use Rattle.gj_json.specs.Characters.{escape_of, hex_of};
ghost use Rattle.gj_json.specs.Utf8Bytes.{lead_of};
ghost use Rattle.gj_json.specs.Internal.TextMachine.{string_next, plain_step, lead_step, tail_step, within};
ghost use Rattle.gj_json.specs.Internal.Transitions.{string_move, IsStringState, IsStringMove, value_limit};

use crate::mode::{Bounds, StringMove, StringState};

const BACKSPACE: u8 = 8;

const FORM_FEED: u8 = 12;

/// The character that a short escape means, by the byte after its backslash.
#[tactic(auto, unfolding(crate::specs::Characters::escape_of))]
fn escaped(byte: u8) -> Option<u8>
    ensures { result ≡ escape_of byte }
{
    match byte {
        b'"' => Some(b'"'),
        b'\\' => Some(b'\\'),
        b'/' => Some(b'/'),
        b'b' => Some(BACKSPACE),
        b'f' => Some(FORM_FEED),
        b'n' => Some(b'\n'),
        b'r' => Some(b'\r'),
        b't' => Some(b'\t'),
        _ => None,
    }
}

#[tactic(auto, unfolding(crate::specs::Characters::hex_of))]
fn hex(byte: u8) -> Option<u32>
    ensures value { result ≡ hex_of byte }
    ensures small { IfSome result (λ d. d < 16) }
{
    match byte {
        b'0'..=b'9' => Some((byte - b'0') as u32),
        b'A'..=b'F' => Some((byte - b'A' + 10) as u32),
        b'a'..=b'f' => Some((byte - b'a' + 10) as u32),
        _ => None,
    }
}

#[tactic(auto, unfolding(crate::specs::Utf8Bytes::lead_of))]
fn lead(byte: u8) -> StringMove
    ensures value { result ≡ string_move (lead_step (lead_of byte)) }
    ensures state { IsStringMove result }
{
    if byte <= 0xC1 {
        StringMove::Refuses
    } else if byte <= 0xDF {
        StringMove::Goes(StringState::InCharacter(0, Bounds::Any, (byte - 0xC0) as u32))
    } else if byte == 0xE0 {
        StringMove::Goes(StringState::InCharacter(1, Bounds::AfterE0, 0))
    } else if byte <= 0xEC {
        StringMove::Goes(StringState::InCharacter(1, Bounds::Any, (byte - 0xE0) as u32))
    } else if byte == 0xED {
        StringMove::Goes(StringState::InCharacter(1, Bounds::AfterED, 13))
    } else if byte <= 0xEF {
        StringMove::Goes(StringState::InCharacter(1, Bounds::Any, (byte - 0xE0) as u32))
    } else if byte == 0xF0 {
        StringMove::Goes(StringState::InCharacter(2, Bounds::AfterF0, 0))
    } else if byte <= 0xF3 {
        StringMove::Goes(StringState::InCharacter(2, Bounds::Any, (byte - 0xF0) as u32))
    } else if byte == 0xF4 {
        StringMove::Goes(StringState::InCharacter(2, Bounds::AfterF4, 4))
    } else {
        StringMove::Refuses
    }
}

fn is_within(bounds: Bounds, byte: u8) -> bool
    ensures { result ≡ within bounds byte }
{
    match bounds {
        Bounds::Any => 0x80 <= byte && byte <= 0xBF,
        Bounds::AfterE0 => 0xA0 <= byte && byte <= 0xBF,
        Bounds::AfterED => 0x80 <= byte && byte <= 0x9F,
        Bounds::AfterF0 => 0x90 <= byte && byte <= 0xBF,
        Bounds::AfterF4 => 0x80 <= byte && byte <= 0x8F,
    }
}

fn tail(more: u8, value: u32) -> StringMove
    requires { (1 ≤ more → value < value_limit (more - 1)) × (more ≤ 2) }
    ensures value { result ≡ string_move (tail_step more value) }
    ensures state { IsStringMove result }
{
    if more == 0 {
        StringMove::Reads(value)
    } else {
        StringMove::Goes(StringState::InCharacter(more - 1, Bounds::Any, value))
    }
}

#[inline(always)]
#[tactic(auto, unfolding(crate::specs::Internal::TextMachine::plain_step))]
fn next_plain(byte: u8) -> StringMove
    ensures value { result ≡ string_move (plain_step byte) }
    ensures state { IsStringMove result }
{
    if byte == b'"' {
        StringMove::Ends
    } else if byte == b'\\' {
        StringMove::Goes(StringState::Escape)
    } else if b' ' <= byte && byte <= 0x7F {
        StringMove::Reads(byte as u32)
    } else {
        lead(byte)
    }
}

/// What a byte does to a string under way.
#[inline(always)]
pub fn next_string(state: StringState, byte: u8) -> StringMove
    requires { IsStringState state }
    ensures value { result ≡ string_move (string_next state byte) }
    ensures state { IsStringMove result }
{
    match state {
        StringState::Plain => next_plain(byte),
        StringState::Escape => {
            if byte == b'u' {
                StringMove::Goes(StringState::HexDue)
            } else {
                match escaped(byte) {
                    Some(character) => StringMove::Reads(character as u32),
                    None => StringMove::Refuses,
                }
            }
        }
        StringState::HexDue => match hex(byte) {
            Some(digit) => StringMove::Goes(StringState::HexOne(digit)),
            None => StringMove::Refuses,
        },
        StringState::HexOne(value) => match hex(byte) {
            Some(digit) => StringMove::Goes(StringState::HexTwo(value * 16 + digit)),
            None => StringMove::Refuses,
        },
        StringState::HexTwo(value) => match hex(byte) {
            Some(digit) => StringMove::Goes(StringState::HexThree(value * 16 + digit)),
            None => StringMove::Refuses,
        },
        StringState::HexThree(value) => match hex(byte) {
            Some(digit) => StringMove::Reads(value * 16 + digit),
            None => StringMove::Refuses,
        },
        StringState::InCharacter(more, bounds, value) => {
            if is_within(bounds, byte) {
                tail(more, value * 64 + (byte % 64) as u32)
            } else {
                StringMove::Refuses
            }
        }
    }
}
