//! Spaces that are taken at once.

ghost use Rattle.std.specs.Prelude.{◌≡◌, ◌≤◌, ℕ, ◌+◌, ◌++◌, List, length, replicate, false, IsTrue, None};

use super::FeatureLinter;
use crate::feature::FeatureSink;
use gj_json::bytes_taken;

impl<S: FeatureSink> FeatureLinter<S> {
    ghost use Rattle.gj_json.specs.BetweenTokens.{IsBetweenTokens};
    ghost use Rattle.gj_json.specs.Broken.{Broken, SpellsBroken};
    ghost use Rattle.gj_json.specs.Bytes.{space};
    ghost use Rattle.gj_rules.specs.FeatureLinter.{StandsFor, limits_of, refusal_of, sink_of};

    /// Takes so many spaces at once, as [`Reader::take_spaces`](gj_json::Reader::take_spaces) does. Returns whether it did: otherwise
    /// nothing changes.
    pub fn take_spaces(&mut self, count: u64) -> bool
        ensures stands { (bytes : List ℕ) → IsTrue result → StandsFor S.told self.old bytes → StandsFor S.told self.new (bytes ++ replicate count space) }
        ensures taken { (bytes : List ℕ) (broken : Broken) → StandsFor S.told self.old bytes → refusal_of self.old ≡ None → SpellsBroken broken bytes
            → IsBetweenTokens broken → length bytes + count ≤ (limits_of self.old).bytes → IsTrue result }
        ensures same { result ≡ false → self.new ≡ self.old }
        ensures limits { limits_of self.new ≡ limits_of self.old }
        ensures refusal { refusal_of self.new ≡ refusal_of self.old }
        ensures sink { sink_of self.new ≡ sink_of self.old }
    {
        bytes_taken();
        self.reader.take_spaces(count)
    }
}
