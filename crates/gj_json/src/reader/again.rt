//! A reader that reads one text after another.

ghost use Rattle.std.specs.Prelude.{◌≡◌, ℕ, [], List, None};

use super::Reader;
use crate::levels::Levels;
use crate::limits::Limits;
use crate::mode::Mode;

impl Reader {
    ghost use Rattle.gj_json.specs.Tree.{Text};
    ghost use Rattle.gj_json.specs.Text.{IsText};
    ghost use Rattle.gj_json.specs.Events.{events_by};
    ghost use Rattle.gj_json.specs.Reader.{StandsFor, limits_of, refusal_of, offset_of, levels_of};

    /// Begins anew, before the first byte of a text under these limits. It costs less than a new reader, and the names of members
    /// are expected to be as long as in the text before.
    pub fn begin_again(&mut self, limits: Limits)
        ensures stands { StandsFor self.new [] }
        ensures limits { limits_of self.new ≡ limits }
        ensures offset { offset_of self.new ≡ 0 }
        ensures open { refusal_of self.new ≡ None }
        ensures levels { levels_of self.new ≡ 0 }
        ensures events { (text : Text) (rest : List ℕ) → IsText text rest → events_by 0 text ≡ [] }
    {
        self.levels = Levels::new();
        self.offset = 0;
        self.limits = limits;
        self.mode = Mode::TextDue;
        self.fault = None;
    }
}
