//! What a byte does, from what the reader keeps.

ghost use Rattle.std.specs.Prelude.{◌≡◌, ◌==◌, ◌<◌, if◌then◌else◌, length};
ghost use Rattle.gj_json.specs.Internal.NamedBytes.{mark_first};
ghost use Rattle.gj_json.specs.Internal.ByteClasses.{class_of};
ghost use Rattle.gj_json.specs.Grammar.{letters_of};
ghost use Rattle.gj_json.specs.Internal.Transitions.{begin_move, due_move, array_move, name_move, object_move, name_due_move, colon_move, after_move};
ghost use Rattle.gj_json.specs.Internal.Transitions.{constant_move, value_string_move, name_string_move, string_move, move_of, IsMode, IsMove, IsStringState};
ghost use Rattle.gj_json.specs.Internal.TextMachine.{string_next};
ghost use Rattle.gj_json.specs.Internal.KeptContent.{words_in};
ghost use Rattle.gj_json.specs.Internal.ReaderStep.{opened};
ghost use Rattle.gj_json.specs.declared.mode.Ending.TheVariants.{Nothing};
ghost use Rattle.gj_json.specs.declared.mode.Mode.TheVariants.{MarkOne};
ghost use Rattle.gj_json.specs.declared.mode.Move.TheVariants.{Go, Refuse};
ghost use Rattle.gj_json.specs.Internal.ToldEvents.{Ends};

use crate::class::{Class, classify};
use crate::constant::Constant;
use crate::content::Content;
use crate::levels::Level;
use crate::mode::{Ending, Mode, Move, StringMove, StringState};
use crate::strings::next_string;

/// U+FEFF in UTF-8.
const MARK_FIRST: u8 = 0xEF;

const MARK_SECOND: u8 = 0xBB;

const MARK_THIRD: u8 = 0xBF;

#[inline(always)]
fn begin(class: Class) -> Move
    ensures value { result ≡ begin_move class }
    ensures mode { IsMove result }
{
    match class {
        Class::OpenArray => Move::Open(Level::Array),
        Class::OpenObject => Move::Open(Level::Object),
        Class::Quote => Move::Go(Mode::StringOn(StringState::Plain), Ending::Nothing),
        Class::NumberStart => Move::Go(Mode::NumberOn, Ending::Nothing),
        Class::Letter(which) => Move::Go(Mode::ConstantOn(which, 1), Ending::Nothing),
        _ => Move::Refuse,
    }
}

#[inline(always)]
fn begin_name(class: Class) -> Move
    ensures value { result ≡ name_move class }
    ensures mode { IsMove result }
{
    match class {
        Class::Quote => Move::Go(Mode::NameOn(StringState::Plain), Ending::Nothing),
        _ => Move::Refuse,
    }
}

/// What a byte after a value does.
#[inline(always)]
#[tactic(auto, unfolding(crate::specs::Internal::ByteClasses::class_of))]
pub fn after_value(inner: Option<Level>, byte: u8) -> Move
    ensures value { result ≡ after_move inner (class_of byte) }
    ensures mode { IsMove result }
{
    match byte {
        b',' => match inner {
            Some(Level::Object) => Move::Go(Mode::NameDue, Ending::Item),
            Some(Level::Array) => Move::Go(Mode::ValueDue, Ending::Item),
            None => Move::Refuse,
        },
        b'}' => match inner {
            Some(Level::Object) => Move::Close(Level::Object),
            _ => Move::Refuse,
        },
        b']' => match inner {
            Some(Level::Array) => Move::Close(Level::Array),
            _ => Move::Refuse,
        },
        b' ' | b'\t' | b'\n' | b'\r' => Move::Go(Mode::ValueDone, Ending::Nothing),
        _ => Move::Refuse,
    }
}

/// The mode after the bracket that opens a level.
#[inline(always)]
pub fn opened_mode(level: Level) -> Mode
    ensures { result ≡ opened level }
{
    match level {
        Level::Array => Mode::ArrayOpened,
        Level::Object => Mode::ObjectOpened,
    }
}

fn letters(which: Constant) -> &'static [u8]
    ensures { result.now ≡ letters_of which }
{
    match which {
        Constant::Null => b"null",
        Constant::True => b"true",
        Constant::False => b"false",
    }
}

fn next_letter(which: Constant, count: u8, byte: u8) -> Move
    requires { count < length (letters_of which) }
    ensures value { result ≡ constant_move which count byte }
    ensures mode { IsMove result }
{
    let all = letters(which);
    if byte == all[count as usize] {
        if count as usize + 1 == all.len() {
            Move::Go(Mode::ValueDone, Ending::Literal(which))
        } else {
            Move::Go(Mode::ConstantOn(which, count + 1), Ending::Nothing)
        }
    } else {
        Move::Refuse
    }
}

fn next_of_text(byte: u8) -> Move
    ensures value { result ≡ (if byte == mark_first then Go MarkOne Nothing else due_move (class_of byte)) }
    ensures mode { IsMove result }
{
    if byte == MARK_FIRST {
        return Move::Go(Mode::MarkOne, Ending::Nothing);
    }
    value_due(classify(byte))
}

fn expect(byte: u8, expected: u8, mode: Mode, ending: Ending) -> Move
    requires { IsMode mode }
    ensures value { result ≡ (if byte == expected then Go mode ending else Refuse) }
    ensures mode { IsMove result }
{
    if byte == expected {
        Move::Go(mode, ending)
    } else {
        Move::Refuse
    }
}

#[inline(always)]
fn value_due(class: Class) -> Move
    ensures value { result ≡ due_move class }
    ensures mode { IsMove result }
{
    match class {
        Class::White => Move::Go(Mode::ValueDue, Ending::Nothing),
        class => begin(class),
    }
}

#[inline(always)]
fn array_opened(class: Class) -> Move
    ensures value { result ≡ array_move class }
    ensures mode { IsMove result }
{
    match class {
        Class::White => Move::Go(Mode::ArrayOpened, Ending::Nothing),
        Class::CloseArray => Move::Close(Level::Array),
        class => begin(class),
    }
}

#[inline(always)]
fn object_opened(class: Class) -> Move
    ensures value { result ≡ object_move class }
    ensures mode { IsMove result }
{
    match class {
        Class::White => Move::Go(Mode::ObjectOpened, Ending::Nothing),
        Class::CloseObject => Move::Close(Level::Object),
        class => begin_name(class),
    }
}

#[inline(always)]
fn name_due(class: Class) -> Move
    ensures value { result ≡ name_due_move class }
    ensures mode { IsMove result }
{
    match class {
        Class::White => Move::Go(Mode::NameDue, Ending::Nothing),
        class => begin_name(class),
    }
}

#[inline(always)]
fn colon_due(class: Class) -> Move
    ensures value { result ≡ colon_move class }
    ensures mode { IsMove result }
{
    match class {
        Class::White => Move::Go(Mode::ColonDue, Ending::Nothing),
        Class::Colon => Move::Go(Mode::ValueDue, Ending::Nothing),
        _ => Move::Refuse,
    }
}

/// In a string or a name, of which this is the content so far.
fn in_string(state: StringState, content: &Content, byte: u8) -> Move
    requires { IsStringState state }
    ensures value { result ≡ value_string_move (words_in content.now) (string_move (string_next state byte)) }
    ensures mode { IsMove result }
{
    match next_string(state, byte) {
        StringMove::Ends => Move::Go(Mode::ValueDone, Ending::Text(content.word())),
        StringMove::Goes(next) => Move::Go(Mode::StringOn(next), Ending::Nothing),
        StringMove::Reads(_) => Move::Go(Mode::StringOn(StringState::Plain), Ending::Nothing),
        StringMove::Refuses => Move::Refuse,
    }
}

fn in_name(state: StringState, content: &Content, byte: u8) -> Move
    requires { IsStringState state }
    ensures value { result ≡ name_string_move (words_in content.now) (string_move (string_next state byte)) }
    ensures mode { IsMove result }
{
    match next_string(state, byte) {
        StringMove::Ends => Move::Go(Mode::ColonDue, Ending::Name(content.known())),
        StringMove::Goes(next) => Move::Go(Mode::NameOn(next), Ending::Nothing),
        StringMove::Reads(_) => Move::Go(Mode::NameOn(StringState::Plain), Ending::Nothing),
        StringMove::Refuses => Move::Refuse,
    }
}

/// What a byte does in a mode, where `inner` is the innermost level that is open, a number under way has ended, and this is
/// the content of the string or the name under way.
#[inline(always)]
pub fn next(mode: Mode, inner: Option<Level>, content: &Content, byte: u8) -> Move
    requires { IsMode mode }
    ensures value { result ≡ move_of mode Ends inner (words_in content.now) byte }
    ensures mode { IsMove result }
{
    match mode {
        Mode::TextDue => next_of_text(byte),
        Mode::MarkOne => expect(byte, MARK_SECOND, Mode::MarkTwo, Ending::Nothing),
        Mode::MarkTwo => expect(byte, MARK_THIRD, Mode::ValueDue, Ending::Mark),
        Mode::ValueDue => value_due(classify(byte)),
        Mode::ValueDone | Mode::NumberOn => after_value(inner, byte),
        Mode::ArrayOpened => array_opened(classify(byte)),
        Mode::ObjectOpened => object_opened(classify(byte)),
        Mode::ConstantOn(which, count) => next_letter(which, count, byte),
        Mode::StringOn(state) => in_string(state, content, byte),
        Mode::NameDue => name_due(classify(byte)),
        Mode::NameOn(state) => in_name(state, content, byte),
        Mode::ColonDue => colon_due(classify(byte)),
    }
}
