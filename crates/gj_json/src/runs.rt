//! Bytes in a row that complete nothing and open or close nothing.

ghost use Rattle.std.specs.Prelude.{◌≡◌, ◌≤◌, ◌<◌, ◌++◌, ℕ, List, if◌then◌else◌, get_or, length, take};
ghost use Rattle.std.specs.List.{AllByRecursion, prefix_len};
ghost use Rattle.gj_json.specs.Internal.Transitions.{IsStringState};
ghost use Rattle.gj_json.specs.Internal.QuietBytes.{IsQuiet, Reads, StopsString, awaits_token, is_between, is_unescaped_ascii, is_white};
ghost use Rattle.gj_json.specs.Internal.KeptContent.{IsAscii, Holds};
ghost use Rattle.gj_json.specs.declared.mode.StringState.TheVariants.{Plain};

use crate::characters::characters_run;
use crate::content::Content;
use crate::lanes::{Ascii, run};
pub use crate::lanes::{is_white, white_run};
use crate::mode::{Mode, StringMove, StringState};
use crate::strings::next_string;

/// Whether white space may stand before what comes next.
#[inline(always)]
pub fn is_between_tokens(mode: Mode) -> bool
    ensures { result ≡ awaits_token mode }
{
    match mode {
        Mode::ValueDue
        | Mode::ValueDone
        | Mode::ArrayOpened
        | Mode::ObjectOpened
        | Mode::NameDue
        | Mode::ColonDue => true,
        _ => false,
    }
}

/// How many bytes at the start of the piece leave the mode as it is, and complete no event.
#[inline(always)]
pub fn quiet_run(mode: Mode, piece: &[u8]) -> usize
    ensures within { result ≤ length piece.now }
    ensures quiet { AllByRecursion (IsQuiet mode) (take result piece.now) }
    ensures longest { result ≡ (if awaits_token mode then prefix_len is_white piece.now else 0) }
{
    if is_between_tokens(mode) {
        return white_run(piece);
    }
    0
}

/// Bytes of a string: how many, and how far the character under way has come after them.
#[derive(Clone, Copy)]
pub struct StringRun {
    pub count: usize,
    pub state: StringState,
}

/// How many bytes at the start of the piece are characters by themselves, where none is under way.
fn plain_front(state: StringState, piece: &[u8]) -> usize
    ensures within { result ≤ length piece.now }
    ensures ascii { AllByRecursion IsAscii (take result piece.now) }
    ensures longest { state ≡ Plain → result ≡ prefix_len is_unescaped_ascii piece.now }
    ensures reads { Reads state (take result piece.now) (take result piece.now) state }
{
    match state {
        StringState::Plain => run::<Ascii>(piece),
        _ => 0,
    }
}

/// Whether a string or a name is open in which no character is under way.
pub fn is_between(mode: Mode) -> bool
    ensures { result ≡ is_between mode }
{
    match mode {
        Mode::StringOn(StringState::Plain) | Mode::NameOn(StringState::Plain) => true,
        _ => false,
    }
}

/// How many bytes the whole characters have that stand at the start of the piece, where none is under way and nothing is
/// kept of them.
fn text_front(content: &Content, state: StringState, piece: &[u8]) -> usize
    ensures within { result ≤ length piece.now }
    ensures reads { (characters : List ℕ) × Reads state (take result piece.now) characters state
        × ((so_far : List ℕ) → Holds content.now so_far → Holds content.now (so_far ++ characters)) }
{
    if !content.is_other() {
        return 0;
    }
    match state {
        StringState::Plain => characters_run(piece),
        _ => 0,
    }
}

/// Takes the bytes at the start of the piece that go on in a string, and the characters that end in them.
pub fn string_run(content: &mut Content, state: StringState, piece: &[u8]) -> StringRun
    requires { IsStringState state }
    ensures within { result.count ≤ length piece.now }
    ensures state { IsStringState result.state }
    ensures longest { result.count < length piece.now → StopsString result.state (get_or piece.now result.count 0) }
    ensures reads { (characters : List ℕ) × Reads state (take result.count piece.now) characters result.state
        × ((so_far : List ℕ) → Holds content.old so_far → Holds content.new (so_far ++ characters)) }
{
    let mut count = 0;
    let mut here = state;
    while count < piece.len() {
        let plain = plain_front(here, &piece[count..]);
        content.push_run(&piece[count..count + plain]);
        count += plain;
        count += text_front(content, here, &piece[count..]);
        if count == piece.len() {
            break;
        }
        match next_string(here, piece[count]) {
            StringMove::Goes(next) => here = next,
            StringMove::Reads(character) => {
                content.push(character);
                here = StringState::Plain;
            }
            _ => break,
        }
        count += 1;
    }
    StringRun { count, state: here }
}
