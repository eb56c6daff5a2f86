//! A number of JSON that is read a byte at a time.
ghost use Rattle.std.specs.Prelude.{◌≡◌, ◌↔◌, ℕ, ◌+◌, ◌<◌, ◌≤◌, List, [], ◌∷◌, ◌++◌, length, take, IsTrue};
ghost use Rattle.gj_number.specs.Grammar.{IsNumber, BeginsNumber};
ghost use Rattle.gj_number.specs.Value.{value_of};

use crate::decimal::Decimal;
use crate::digits::Digits;
use crate::exponent::Exponent;
use crate::state::{Class, State};
use std::mem::size_of;

/// What became of a byte.
#[derive(Clone, Copy, Debug, PartialEq, Eq)]
pub enum Step {
    /// The byte was taken.
    Goes,
    /// No number begins with the bytes so far and this one. Nothing changed.
    Ends,
}

/// The bytes of a number (RFC 8259, section 6) so far. It keeps a bounded part of them, and takes
/// any number of them.
#[derive(Clone, Copy)]
pub struct Literal {
    digits: Digits,
    exponent: Exponent,
    state: State,
    negative: bool,
}

// A literal is a part of each reader, and every byte of a text passes one.
const _: () = prove!(size_of::<Literal>() == 48);

impl Literal {
    ghost use Rattle.gj_number.specs.Literal.{StandsFor, KeepsScan};
    ghost use Rattle.gj_number.specs.Internal.NumberMachine.{Scan, taken, next_of, class_of};

    /// No byte so far.
    pub fn new() -> Literal
        ensures stands { StandsFor result [] }
    {
        Literal {
            digits: Digits::new(),
            exponent: Exponent {
                magnitude: 0,
                negative: false,
            },
            state: State::Start,
            negative: false,
        }
    }

    /// Takes a byte, if some number goes on so.
    #[inline(always)]
    pub fn push(&mut self, byte: u8) -> Step
        ensures stands { (bytes : List ℕ) → StandsFor self.old bytes → result ≡ Step.Goes → StandsFor self.new (bytes ++ byte ∷ []) }
        ensures begins { (bytes : List ℕ) → StandsFor self.old bytes → result ≡ Step.Goes → BeginsNumber (bytes ++ byte ∷ []) }
        ensures kept { result ≡ Step.Ends → self.new ≡ self.old }
        ensures refused { (bytes : List ℕ) → StandsFor self.old bytes → result ≡ Step.Ends → BeginsNumber (bytes ++ byte ∷ []) → ⊥ }
    {
        self.push_as(Class::of(byte), byte)
    }

    /// Takes a byte of this class, if some number goes on so.
    #[inline(always)]
    fn push_as(&mut self, class: Class, byte: u8) -> Step
        requires { class ≡ class_of byte }
        ensures stands { (bytes : List ℕ) → StandsFor self.old bytes → result ≡ Step.Goes → StandsFor self.new (bytes ++ byte ∷ []) }
        ensures begins { (bytes : List ℕ) → StandsFor self.old bytes → result ≡ Step.Goes → BeginsNumber (bytes ++ byte ∷ []) }
        ensures kept { result ≡ Step.Ends → self.new ≡ self.old }
        ensures refused { (bytes : List ℕ) → StandsFor self.old bytes → result ≡ Step.Ends → BeginsNumber (bytes ++ byte ∷ []) → ⊥ }
    {
        match self.state.next(class) {
            Some(state) => {
                self.take(state, byte);
                Step::Goes
            }
            None => Step::Ends,
        }
    }

    /// Takes a byte that leads to this state.
    #[inline(always)]
    fn take(&mut self, state: State, byte: u8)
        requires { next_of self.old.state (class_of byte) ≡ Some state }
        ensures { (scan : Scan) → KeepsScan self.old scan → KeepsScan self.new (taken state byte scan) }
    {
        self.state = state;
        match state {
            State::AfterMinus => self.negative = true,
            State::InNatural => self.digits.push_natural(byte - b'0'),
            State::InFraction => self.digits.push_fraction(byte - b'0'),
            State::AfterSign => self.exponent.negative = byte == b'-',
            State::InExponent => self.exponent.push(byte - b'0'),
            _ => {}
        }
    }

    /// Takes the first bytes of the piece as [`Literal::push`] of each would, up to the first that `push` would refuse.
    /// It returns how many it took.
    pub fn push_piece(&mut self, piece: &[u8]) -> usize
        ensures length { result ≤ length piece.now }
        ensures stands { (bytes : List ℕ) → StandsFor self.old bytes → StandsFor self.new (bytes ++ take result piece.now) }
        ensures begins { (bytes : List ℕ) → StandsFor self.new bytes → BeginsNumber bytes }
        ensures all { (bytes : List ℕ) → StandsFor self.old bytes → result < length piece.now → BeginsNumber (bytes ++ take (result + 1) piece.now) → ⊥ }
    {
        let mut at = 0;
        while at < piece.len() {
            match self.push(piece[at]) {
                Step::Goes => at += 1,
                Step::Ends => return at,
            }
            at += self.pass_run(&piece[at..]);
        }
        at
    }

    /// The number of first digits of the piece that change nothing: after very many digits, or past an exponent's limit.
    #[inline]
    fn pass_run(&self, piece: &[u8]) -> usize
        ensures length { result ≤ length piece.now }
        ensures stands { (bytes : List ℕ) → StandsFor self.now bytes → StandsFor self.now (bytes ++ take result piece.now) }
    {
        match self.state {
            State::InNatural => self.digits.pass_natural(piece),
            State::InFraction => self.digits.pass_fraction(piece),
            State::InExponent => self.exponent.pass_run(piece),
            _ => 0,
        }
    }

    /// Whether the bytes so far are a number.
    #[inline]
    pub fn may_end(&self) -> bool
        ensures number { (bytes : List ℕ) → StandsFor self.now bytes → IsTrue result ↔ IsNumber bytes }
    {
        self.state.may_end()
    }

    /// The decimal that the number denotes, or `None` where it is not held. Where the bytes so far are no number, as
    /// [`Literal::may_end`] says, the value means nothing.
    pub fn value(&self) -> Option<Decimal>
        ensures value { (bytes : List ℕ) → StandsFor self.now bytes → IsNumber bytes → result ≡ value_of bytes }
    {
        self.digits.decimal(self.negative, self.exponent)
    }
}
