//! Runs of whole characters in a string or a name.

ghost use Rattle.std.specs.Prelude.{◌≡◌, ℕ, ◌+◌, ◌-◌, ◌^◌, ◌≤◌, min, ◌++◌, ◌∷◌, [], List, length, take, Some, None};

use super::Reader;
use crate::characters::whole_characters;
use crate::runs::is_between;

impl Reader {
    ghost use Rattle.gj_json.specs.declared.fault.JsonFault.{JsonFault};
    ghost use Rattle.gj_json.specs.Text.{IsViable};
    ghost use Rattle.gj_json.specs.Reader.{StandsFor, limits_of, refusal_of, Completed};
    ghost use Rattle.gj_json.specs.Runs.{IsLongestUtf8, plain_run_of, run_allowed, character_byte};

    /// How many bytes the whole characters have that stand unescaped at the start of what the limit on the bytes allows of
    /// the piece.
    fn allowed_characters(&self, piece: &[u8]) -> usize
        ensures longest { IsLongestUtf8 (take (min (plain_run_of piece.now) (self.now.limits.bytes - self.now.offset)) piece.now) result }
        ensures small { self.now.limits.bytes ≤ 2 ^ 60 }
    {
        let room = self.limits.bytes() - self.offset;
        if piece.len() as u64 <= room {
            whole_characters(piece)
        } else {
            whole_characters(&piece[..room as usize])
        }
    }

    /// Takes the whole characters at the start of the piece that stand unescaped in the string or the name that is open, as
    /// far as the limit on the bytes allows, and returns how many bytes they have.
    ///
    /// It takes nothing where no string and no name is open, where a character or an escape is under way in it, and after a
    /// refusal. A character that the end of the piece cuts is left to [`Reader::push`].
    pub fn skip_run(&mut self, piece: &[u8]) -> usize
        ensures within { result ≤ length piece.now }
        ensures longest { (bytes : List ℕ) → refusal_of self.old ≡ None → StandsFor self.old bytes → IsViable (bytes ++ character_byte ∷ [])
            → IsLongestUtf8 (take (run_allowed (limits_of self.old) bytes piece.now) piece.now) result }
        ensures elsewhere { (bytes : List ℕ) → refusal_of self.old ≡ None → StandsFor self.old bytes → (IsViable (bytes ++ character_byte ∷ []) → ⊥)
            → (result ≡ 0) × (self.new ≡ self.old) }
        ensures refused { (fault : JsonFault) → refusal_of self.old ≡ Some fault → (result ≡ 0) × (self.new ≡ self.old) }
        ensures stands { (bytes : List ℕ) → StandsFor self.old bytes → StandsFor self.new (bytes ++ take result piece.now) }
        ensures silent { (bytes : List ℕ) → refusal_of self.old ≡ None → StandsFor self.old bytes
            → Completed (length bytes) (length bytes + result) (bytes ++ take result piece.now) [] }
        ensures limits { limits_of self.new ≡ limits_of self.old }
        ensures refusal { refusal_of self.new ≡ refusal_of self.old }
    {
        if self.fault.is_some() {
            return 0;
        }
        if !is_between(self.mode) {
            return 0;
        }
        let count = self.allowed_characters(piece);
        self.content.push_text(&piece[..count]);
        self.skip(count, self.mode)
    }
}
