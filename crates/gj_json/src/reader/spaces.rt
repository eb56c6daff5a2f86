//! Spaces that are taken at once.

ghost use Rattle.std.specs.Prelude.{◌≡◌, ℕ, ◌+◌, ◌^◌, ◌≤◌, ◌++◌, [], List, length, replicate, false, IsTrue, None};

use super::Reader;
use crate::runs::is_between_tokens;

impl Reader {
    ghost use Rattle.gj_json.specs.BetweenTokens.{IsBetweenTokens};
    ghost use Rattle.gj_json.specs.Broken.{Broken, SpellsBroken};
    ghost use Rattle.gj_json.specs.Bytes.{space};
    ghost use Rattle.gj_json.specs.Reader.{StandsFor, limits_of, refusal_of, Completed};

    /// Takes so many spaces at once, where white space may stand before a token or after a value and the limit leaves room. Returns
    /// whether it did: otherwise nothing changes.
    pub fn take_spaces(&mut self, count: u64) -> bool
        ensures stands { (bytes : List ℕ) → IsTrue result → StandsFor self.old bytes → StandsFor self.new (bytes ++ replicate count space) }
        ensures silent { (bytes : List ℕ) → IsTrue result → StandsFor self.old bytes
            → Completed (length bytes) (length bytes + count) (bytes ++ replicate count space) [] }
        ensures taken { (bytes : List ℕ) (broken : Broken) → StandsFor self.old bytes → refusal_of self.old ≡ None → SpellsBroken broken bytes
            → IsBetweenTokens broken → length bytes + count ≤ (limits_of self.old).bytes → IsTrue result }
        ensures open { IsTrue result → refusal_of self.old ≡ None }
        ensures same { result ≡ false → self.new ≡ self.old }
        ensures limits { limits_of self.new ≡ limits_of self.old }
        ensures refusal { refusal_of self.new ≡ refusal_of self.old }
    {
        if self.fault.is_some() || !is_between_tokens(self.mode) {
            return false;
        }
        if count > self.limits.bytes() - self.offset {
            return false;
        }
        self.skip(count as usize, self.mode);
        true
    }
}
