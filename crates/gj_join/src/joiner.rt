//! Checks a text of which runs of features are passed over.

ghost use Rattle.std.specs.Prelude.{◌≡◌, ◌↔◌, ◌≤◌, ◌++◌, [], ℕ, List, length, false, IsTrue, None, Some};
ghost use Rattle.gj_json.specs.declared.fault.JsonFault.{JsonFault};

use crate::last_end::LastEnd;
use crate::sum::FeatureSum;
use crate::whole::whole_of;
use gj_coords::Warnings;
use gj_json::Limits;
use gj_rules::{FeatureLinter, Progress, Verdict};

/// Checks a text that it is fed, but for runs of features whose sums it is given. Its verdict is that of one reading.
#[derive(Drop)]
pub struct Joiner {
    /// It is given spaces in the place of each run.
    linter: FeatureLinter<LastEnd>,
    /// Those of the runs.
    warnings: Warnings,
    /// Whether a feature has ended right where it stands.
    is_after: bool,
}

impl Joiner {
    ghost use Rattle.gj_rules.specs.Linter.{Answers, refusal_in};
    ghost use Rattle.gj_rules.specs.Verdict.{IsVerdict};
    ghost use Rattle.gj_join.specs.Joiner.{Joins, limits_of, refusal_of, offset_of};
    ghost use Rattle.gj_join.specs.Runs.{StandsAfterFeature, IsSumOf};

    /// Before the first byte of a text under these limits.
    pub fn new(limits: Limits) -> Joiner
        ensures joins { Joins result [] }
        ensures limits { limits_of result ≡ limits }
        ensures refusal { refusal_of result ≡ None }
    {
        Joiner {
            linter: FeatureLinter::new(limits, LastEnd::new()),
            warnings: Warnings::none(),
            is_after: false,
        }
    }

    /// Takes the next bytes of the text, up to a byte that is refused.
    pub fn feed(&mut self, piece: &[u8]) -> Progress
        ensures joins { (bytes : List ℕ) → Joins self.old bytes → Joins self.new (bytes ++ piece.now) }
        ensures answer { (bytes : List ℕ) → Joins self.old bytes → Answers (limits_of self.old) (bytes ++ piece.now) result }
        ensures limits { limits_of self.new ≡ limits_of self.old }
        ensures refusal { refusal_of self.new ≡ refusal_in result }
    {
        let progress = self.linter.feed(piece);
        self.is_after = match progress {
            Progress::Open if piece.is_empty() => self.is_after,
            Progress::Open => self.linter.sink().is_at(self.linter.offset()),
            Progress::Refused(_) => false,
        };
        progress
    }

    /// Passes over the run that has this sum, where a feature has ended right where it begins, and the limit leaves room for it.
    /// Returns whether it did: otherwise nothing changes.
    pub fn pass_over(&mut self, sum: &FeatureSum) -> bool
        ensures joins { (bytes run : List ℕ) → IsTrue result → Joins self.old bytes → IsSumOf (limits_of self.old).depth run sum.now
            → Joins self.new (bytes ++ run) }
        ensures taken { (bytes : List ℕ) → Joins self.old bytes → refusal_of self.old ≡ None
            → StandsAfterFeature (limits_of self.old).depth bytes → sum.now.begin ≡ length bytes → sum.now.begin ≤ sum.now.end
            → sum.now.end ≤ (limits_of self.old).bytes → IsTrue result }
        ensures only { (bytes : List ℕ) → IsTrue result → Joins self.old bytes → (refusal_of self.old ≡ None)
            × StandsAfterFeature (limits_of self.old).depth bytes × (sum.now.begin ≡ length bytes) × (sum.now.begin ≤ sum.now.end)
            × (sum.now.end ≤ (limits_of self.old).bytes) }
        ensures same { result ≡ false → self.new ≡ self.old }
        ensures limits { limits_of self.new ≡ limits_of self.old }
        ensures refusal { refusal_of self.new ≡ refusal_of self.old }
    {
        if !self.is_at(sum) || !self.linter.take_spaces(sum.end - sum.begin) {
            return false;
        }
        self.warnings = self.warnings.join(sum.warnings);
        true
    }

    /// Whether a feature has ended right where the run of this sum begins.
    fn is_at(&self, sum: &FeatureSum) -> bool
        ensures { IsTrue result ↔ (IsTrue self.now.is_after × (offset_of self.now ≡ sum.now.begin) × (sum.now.begin ≤ sum.now.end)) }
    {
        self.is_after && self.linter.offset() == sum.begin && sum.begin <= sum.end
    }

    /// How many bytes it stands after: the place of the refused one, once there was one.
    pub fn offset(&self) -> u64
        ensures value { result ≡ offset_of self.now }
        ensures taken { (bytes : List ℕ) → Joins self.now bytes → refusal_of self.now ≡ None → result ≡ length bytes }
        ensures refused { (bytes : List ℕ) (fault : JsonFault) → Joins self.now bytes → refusal_of self.now ≡ Some fault → result ≡ fault.place }
    {
        self.linter.offset()
    }

    /// The verdict of the text, in place. What the joiner stands for afterwards is not said.
    pub fn end(&mut self) -> Verdict
        ensures { (bytes : List ℕ) → Joins self.old bytes → IsVerdict (limits_of self.old) bytes result }
    {
        whole_of(self.linter.end(), self.warnings)
    }
}
