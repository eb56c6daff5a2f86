//! A run of features, checked apart from the text that it stands in.

use crate::sum::FeatureSum;
use crate::totals::Totals;
use gj_json::Limits;
use gj_rules::{FeatureLinter, Progress};

/// Checks the bytes from a place of a text on as if a feature of the text had ended there, and adds up what is found in the features
/// that follow. Places count from the start of the text.
#[derive(Drop)]
pub struct RunLinter {
    linter: FeatureLinter<Totals>,
    begin: u64,
}

impl RunLinter {
    ghost use Rattle.std.specs.Prelude.{◌≡◌, ◌↔◌, ◌++◌, ◌+◌, ◌≤◌, ◌<◌, ◌^◌, [], ℕ, List, length, drop, IsTrue, IsSome, IfSome};
    ghost use Rattle.gj_json.specs.Events.{all_events};
    ghost use Rattle.gj_json.specs.Text.{IsTextWithin};
    ghost use Rattle.gj_json.specs.Tree.{Text};
    ghost use Rattle.gj_rules.specs.FeatureFindings.{findings_by, least_found};
    ghost use Rattle.gj_rules.specs.Linter.{Answers, refusal_in};
    ghost use Rattle.gj_join.specs.RunLinter.{StandsFor, limits_of};
    ghost use Rattle.gj_join.specs.Runs.{IsLongestSum, IsOver, MayBegin, stand_at};

    /// Before the first byte after a feature that ends at this place, or `None` where none can end there within these limits.
    pub fn new(limits: Limits, begin: u64) -> Option<RunLinter>
        ensures some { IsSome result ↔ MayBegin limits begin }
        ensures stands { IfSome result (λ run. StandsFor run begin []) }
        ensures limits { IfSome result (λ run. limits_of run ≡ limits) }
    {
        if begin < 15 || begin > limits.bytes() || limits.depth() < 3 {
            return None;
        }
        let mut linter = FeatureLinter::new(limits, Totals::new());
        linter.feed(b"{\"features\":[");
        linter.take_spaces(begin - 15);
        linter.feed(b"{}");
        Some(RunLinter { linter, begin })
    }

    /// Takes the next bytes, up to a byte that is refused. After a refusal each call returns the same fault and changes nothing.
    pub fn feed(&mut self, piece: &[u8]) -> Progress
        ensures stands { (begin : ℕ) (bytes : List ℕ) → StandsFor self.old begin bytes → StandsFor self.new begin (bytes ++ piece.now) }
        ensures answer { (begin : ℕ) (bytes : List ℕ) → StandsFor self.old begin bytes
            → Answers (limits_of self.old) (stand_at begin ++ (bytes ++ piece.now)) result }
        ensures over { (begin : ℕ) (bytes : List ℕ) → StandsFor self.old begin bytes → IsSome (refusal_in result)
            → IsOver (limits_of self.old) begin (bytes ++ piece.now) }
        ensures limits { limits_of self.new ≡ limits_of self.old }
    {
        self.linter.feed(piece)
    }

    /// Whether a feature with a fault has ended after the place, so that the run ends before it, whatever follows: so it is for each
    /// text that goes on so and has fewer than 2^63 events.
    pub fn has_ended(&self) -> bool
        ensures fault { (begin : ℕ) (bytes rest : List ℕ) (text : Text) → StandsFor self.now begin bytes
            → IsTextWithin (limits_of self.now).depth text (stand_at begin ++ (bytes ++ rest)) → begin + length bytes ≤ (limits_of self.now).bytes
            → length (all_events text) < 2 ^ 63
            → IsTrue result ↔ IsSome (least_found (drop 1 (findings_by (begin + length bytes) text))) }
        ensures over { (begin : ℕ) (bytes : List ℕ) → StandsFor self.now begin bytes → IsTrue result → IsOver (limits_of self.now) begin bytes }
    {
        !self.linter.sink().is_sound()
    }

    /// What is found in the longest run of whole features without a fault that the bytes begin with.
    pub fn sum(&self) -> FeatureSum
        ensures { (begin : ℕ) (bytes : List ℕ) → StandsFor self.now begin bytes → IsLongestSum (limits_of self.now) begin bytes result }
    {
        let totals = self.linter.sink();
        let features = totals.features();
        let end = if features == 0 {
            self.begin
        } else {
            totals.close().saturating_add(1)
        };
        FeatureSum {
            begin: self.begin,
            end,
            features,
            warnings: totals.warnings(),
        }
    }
}
