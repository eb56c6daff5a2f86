//! The path to the value at a place.

ghost use Rattle.std.specs.Prelude.{◌≡◌, ℕ, ◌++◌, ◌∷◌, [], List, length, take, MatchResult, None, Some, Err};

use crate::fault::JsonFault;
use crate::limits::Limits;
use crate::path::Path;
use crate::reader::Reader;

/// Reads a text (RFC 8259) up to a place, and reports the path to the value there.
///
/// That is the value that begins with the last byte taken, where it is no array and no object; or else the innermost array
/// or object that is open; or else the root.
#[derive(Clone, Copy)]
pub struct Locator {
    /// The steps to the right edge of the text, one for each level that is open.
    trail: Path,
    reader: Reader,
}

impl Locator {
    ghost use Rattle.gj_json.specs.declared.fault.JsonFault.{JsonFault};
    ghost use Rattle.gj_json.specs.Tree.{Text};
    ghost use Rattle.gj_json.specs.Text.{IsText};
    ghost use Rattle.gj_json.specs.Reader.{Answers};
    ghost use Rattle.gj_json.specs.Path.{steps_of, path_at};
    ghost use Rattle.gj_json.specs.Locator.{StandsFor, limits_of, refusal_of, offset_of};

    /// A locator in a text under these limits, before its first byte.
    pub fn new(limits: Limits) -> Self
        ensures stands { StandsFor result [] }
        ensures limits { limits_of result ≡ limits }
        ensures offset { offset_of result ≡ 0 }
        ensures open { refusal_of result ≡ None }
    {
        let _most = limits.depth();
        Locator {
            trail: Path::new(),
            reader: Reader::new(limits),
        }
    }

    /// Takes a piece of the text, of any size: what [`Locator::push`] of each byte in turn leaves, up to one that is refused.
    ///
    /// The bytes before that one are taken; from then on each call returns the same fault and changes nothing.
    pub fn feed(&mut self, piece: &[u8]) -> Result<(), JsonFault>
        ensures stands { (bytes : List ℕ) → StandsFor self.old bytes → StandsFor self.new (bytes ++ piece.now) }
        ensures answer { (bytes : List ℕ) → StandsFor self.old bytes → Answers (limits_of self.old) (bytes ++ piece.now) result }
        ensures limits { limits_of self.new ≡ limits_of self.old }
        ensures refusal { MatchResult result (λ done. refusal_of self.new ≡ None) (λ fault. refusal_of self.new ≡ Some fault) }
        ensures again { (fault : JsonFault) → refusal_of self.old ≡ Some fault → (self.new ≡ self.old) × (result ≡ Err fault) }
    {
        self.reader.feed(piece, &mut self.trail)
    }

    /// Takes the next byte.
    ///
    /// A byte that is refused is not taken; from then on each call returns the same fault and changes nothing.
    pub fn push(&mut self, byte: u8) -> Result<(), JsonFault>
        ensures stands { (bytes : List ℕ) → StandsFor self.old bytes → StandsFor self.new (bytes ++ byte ∷ []) }
        ensures answer { (bytes : List ℕ) → StandsFor self.old bytes → Answers (limits_of self.old) (bytes ++ byte ∷ []) result }
        ensures limits { limits_of self.new ≡ limits_of self.old }
        ensures refusal { MatchResult result (λ done. refusal_of self.new ≡ None) (λ fault. refusal_of self.new ≡ Some fault) }
        ensures again { (fault : JsonFault) → refusal_of self.old ≡ Some fault → (self.new ≡ self.old) × (result ≡ Err fault) }
    {
        self.feed(&[byte])
    }

    /// The path to the value that the bytes that were taken lead to.
    pub fn path(&self) -> Path
        ensures path { (bytes rest : List ℕ) (text : Text) → StandsFor self.now bytes → IsText text (take (offset_of self.now) bytes ++ rest)
            → steps_of result ≡ path_at (offset_of self.now) text }
        ensures taken { (bytes rest : List ℕ) (text : Text) → StandsFor self.now bytes → refusal_of self.now ≡ None → IsText text (bytes ++ rest)
            → steps_of result ≡ path_at (length bytes) text }
        ensures refused { (bytes rest : List ℕ) (text : Text) (fault : JsonFault) → StandsFor self.now bytes → refusal_of self.now ≡ Some fault
            → IsText text (take fault.place bytes ++ rest)
            → steps_of result ≡ path_at fault.place text }
    {
        let mut path = self.trail;
        if !self.reader.begins_value() {
            path.close();
        }
        path
    }
}
