//! Where in a number its next byte stands.
ghost use Rattle.std.specs.Prelude.{◌≡◌, ◌≤◌, Some, length, take, IsTrue, IsFalse};
ghost use Rattle.gj_number.specs.Bytes.{IsDigit, IsNumberByte};
ghost use Rattle.gj_number.specs.Internal.NumberMachine.{class_of, next_of, may_end_in, state_after};
ghost use Rattle.gj_number.specs.declared.state.Class.TheVariants.{Other};

use crate::lanes::digit_run;

/// The classes of bytes that the grammar of a number (RFC 8259, section 6) distinguishes.
#[derive(Clone, Copy)]
pub(crate) enum Class {
    Minus,
    Plus,
    Point,
    /// `e` or `E`.
    Letter,
    Zero,
    NonZero,
    Other,
}

impl Class {
    #[inline]
    #[tactic(auto, unfolding(crate::specs::Internal::NumberMachine::class_of))]
    pub(crate) fn of(byte: u8) -> Class
        ensures { result ≡ class_of byte }
    {
        match byte {
            b'1'..=b'9' => Class::NonZero,
            b'0' => Class::Zero,
            b'-' => Class::Minus,
            b'+' => Class::Plus,
            b'.' => Class::Point,
            b'e' | b'E' => Class::Letter,
            _ => Class::Other,
        }
    }
}

/// Whether some number has this byte.
#[inline]
pub(crate) fn may_stand(byte: u8) -> bool
    ensures class { IsFalse result → class_of byte ≡ Other }
    ensures number { IsTrue result → IsNumberByte byte }
{
    match Class::of(byte) {
        Class::Other => false,
        _ => true,
    }
}

/// Whether the byte is one of those that stand after nearly every number of a text. No number contains it.
#[inline(always)]
#[tactic(auto, unfolding(crate::specs::Internal::NumberMachine::class_of))]
pub(crate) fn is_behind(byte: u8) -> bool
    ensures { IsTrue result → class_of byte ≡ Other }
{
    matches!(byte, b',' | b']' | b'}') || byte <= b' '
}

/// What has been read of a number.
#[derive(Clone, Copy)]
pub(crate) enum State {
    Start,
    AfterMinus,
    /// After a first digit 0, which no digit may follow.
    AfterZero,
    InNatural,
    AfterPoint,
    InFraction,
    AfterLetter,
    /// After the sign of an exponent.
    AfterSign,
    InExponent,
}

impl State {
    /// The state after a byte of this class, or `None` where no such byte is allowed here.
    #[inline(always)]
    pub(crate) fn next(self, class: Class) -> Option<State>
        ensures { result ≡ next_of self class }
    {
        match (self, class) {
            (State::Start, Class::Minus) => Some(State::AfterMinus),
            (State::Start | State::AfterMinus, Class::Zero) => Some(State::AfterZero),
            (State::Start | State::AfterMinus, Class::NonZero) => Some(State::InNatural),
            (State::InNatural, Class::Zero | Class::NonZero) => Some(State::InNatural),
            (State::AfterZero | State::InNatural, Class::Point) => Some(State::AfterPoint),
            (State::AfterPoint | State::InFraction, Class::Zero | Class::NonZero) => Some(
                State::InFraction,
            ),
            (State::AfterZero | State::InNatural | State::InFraction, Class::Letter) => Some(
                State::AfterLetter,
            ),
            (State::AfterLetter, Class::Minus | Class::Plus) => Some(State::AfterSign),
            (
                State::AfterLetter | State::AfterSign | State::InExponent,
                Class::Zero | Class::NonZero,
            ) => Some(State::InExponent),
            _ => None,
        }
    }

    /// How many of the first digits of the piece lead from the state to itself, as far as whole vectors of it go.
    #[inline(always)]
    pub(crate) fn pass_digits(self, piece: &[u8]) -> usize
        ensures length { result ≤ length piece.now }
        ensures same { state_after (Some self) (take result piece.now) ≡ Some self }
    {
        match self {
            State::InNatural => digit_run(piece),
            State::InFraction => digit_run(piece),
            State::InExponent => digit_run(piece),
            _ => 0,
        }
    }

    /// Whether the bytes so far are a number.
    #[inline]
    pub(crate) fn may_end(self) -> bool
        ensures { result ≡ may_end_in self }
    {
        match self {
            State::AfterZero | State::InNatural | State::InFraction | State::InExponent => true,
            _ => false,
        }
    }
}
