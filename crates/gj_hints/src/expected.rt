//! What may follow the bytes of a text (RFC 8259), in words.
ghost use Rattle.std.specs.Prelude.{◌≡◌, ◌<◌, ◌↔◌, ◌++◌, ◌∷◌, ◌&&◌, [], ℕ, List, IfSome, IsTrue, false, get_or, length};
ghost use Rattle.gj_json.specs.Refusal.{IsAdmitted};
ghost use Rattle.gj_json.specs.Tree.{Text};
ghost use Rattle.gj_hints.specs.Choices.{has};
ghost use Rattle.gj_hints.specs.declared.choice.TheConstants.{CHOICES};
ghost use Rattle.gj_hints.specs.declared.choice.Choice.TheVariants.{ValueOrMark};
ghost use Rattle.gj_json.specs.Reader.{StandsFor, limits_of};
ghost use Rattle.gj_json.specs.Text.{IsViable};
ghost use Rattle.gj_hints.specs.Expected.{IsAfter, IsExpected, IsToldOf, allows, is_named};

use crate::choice::{CHOICES, Choice, is_white};
use gj_json::{Cause, Event, EventSink, Reader, one_refusal, viable_fronts};

const COUNT: usize = CHOICES.len();

/// What may follow the bytes that a reader was given.
#[derive(Clone, Copy)]
pub struct Expected {
    /// Which of [`CHOICES`] name the bytes that can follow. White space has no name.
    pub named: [bool; COUNT],
    /// Whether the text may end there.
    pub may_end: bool,
}

/// Keeps nothing of what is reported to it.
#[derive(Drop)]
struct NoEvents;

impl EventSink for NoEvents {
    ghost heard = { λ sink events. Unit {0} };

    fn tell(&mut self, _event: Event) {}

    fn ignored(&self) -> u16 {
        0
    }

    fn pass(&mut self, _left: u16) {}
}

/// What may follow the bytes that a reader was given; none where one of them was refused.
pub fn expected_after(reader: &Reader) -> Option<Expected>
    ensures { (bytes : List ℕ) → StandsFor reader.now bytes → length bytes < (limits_of reader.now).bytes
        → IfSome result (IsExpected (limits_of reader.now) bytes) }
{
    let mut same = *reader;
    match same.feed(&[], &mut NoEvents) {
        Ok(()) => {
            let named = choose(reader);
            if tells_all(reader, &named) {
                let may_end = may_end(reader);
                Some(Expected { named, may_end })
            } else {
                None
            }
        }
        Err(_) => None,
    }
}

/// Whether the text may end there.
fn may_end(reader: &Reader) -> bool
    ensures { (bytes : List ℕ) → StandsFor reader.now bytes → (IsTrue result) ↔ ((text : Text) × IsAdmitted (limits_of reader.now) text bytes) }
{
    one_refusal();
    match reader.finish() {
        Ok(_) => true,
        Err(_) => false,
    }
}

/// Whether the byte can follow, however deep the text nests.
fn can_follow(reader: &Reader, byte: u8) -> bool
    ensures { (bytes : List ℕ) → IsAfter reader.now bytes → (IsTrue result) ↔ IsViable (bytes ++ byte ∷ []) }
{
    viable_fronts();
    let mut next = *reader;
    match next.push(byte) {
        Ok(_) => true,
        Err(fault) => allows(fault.cause),
    }
}

fn allows(cause: Cause) -> bool
    ensures { result ≡ allows cause }
{
    !matches!(cause, Cause::Syntax)
}

/// The choices all of whose bytes can follow: the first that there is, and then those that name none of its bytes.
fn choose(reader: &Reader) -> [bool; COUNT] {
    let mut named = [false; COUNT];
    for i in 0..COUNT {
        named[i] = is_next(CHOICES[i], reader, &named);
    }
    named
}

/// Whether all bytes of a choice can follow, and none of them is named.
fn is_next(choice: Choice, reader: &Reader, named: &[bool; COUNT]) -> bool {
    for byte in 0..=255 {
        if choice.has(byte) && (is_named(named, byte) || !can_follow(reader, byte)) {
            return false;
        }
    }
    true
}

/// Whether each byte that is named can follow, and but for white space no other byte.
fn tells_all(reader: &Reader, named: &[bool; COUNT]) -> bool
    ensures { IsTrue result → (bytes : List ℕ) → IsAfter reader.now bytes → (byte : ℕ) → byte < 256 → IsToldOf bytes named.now byte }
{
    for byte in 0..256usize {
        if !tells(reader, named, byte as u8) {
            return false;
        }
    }
    true
}

fn tells(reader: &Reader, named: &[bool; COUNT], byte: u8) -> bool
    ensures { IsTrue result → (bytes : List ℕ) → IsAfter reader.now bytes → IsToldOf bytes named.now byte }
{
    is_white(byte) || is_named(named, byte) == can_follow(reader, byte)
}

/// Whether the byte is one of a choice that is named.
fn is_named(named: &[bool; COUNT], byte: u8) -> bool
    ensures { result ≡ is_named named.now byte }
{
    for i in 0..COUNT {
        if names(named, i, byte) {
            return true;
        }
    }
    false
}

fn names(named: &[bool; COUNT], i: usize, byte: u8) -> bool
    requires { i < 28 }
    ensures { result ≡ (get_or named.now i false && has (get_or CHOICES i ValueOrMark) byte) }
{
    named[i] && CHOICES[i].has(byte)
}
