//! An input that comes in pieces, checked, with what is found in each of its features.

ghost use Rattle.std.specs.Prelude.{◌≡◌, ℕ, ◌<◌, ◌≤◌, ◌^◌, ◌++◌, [], List, length, take, None, Some};
ghost use Rattle.gj_json.specs.declared.fault.JsonFault.{JsonFault};
ghost use Rattle.gj_json.specs.declared.limits.TheConstants.{MOST_LEVELS};
ghost use Rattle.gj_json.specs.Reader.{limits_of as reader_limits};

use crate::feature::{FeatureSink, ForgetfulSink};
use crate::feature_laws::features_say;
use crate::feature_rules::FeatureRules;
use crate::linter::{Progress, tell_last, verdict_of};
use crate::verdict::Verdict;
use gj_coords::laws::kept_warnings;
use gj_json::{Limits, MOST_LEVELS, Reader, bytes_taken, few_events, one_refusal, one_text};

/// Checks an input as [`Linter`](crate::Linter) does, and reports what is found in each of its features, with the last byte
/// of the feature.
///
/// A feature is an element of the array that the first `features` of the text's object holds (RFC 7946, section 3.3),
/// whatever that object's type says and wherever it stands. A feature that is a number is reported with the byte after it.
#[derive(Drop)]
pub struct FeatureLinter<S> {
    rules: FeatureRules<S>,
    reader: Reader,
    ghost shallow: { (reader_limits reader).depth ≤ MOST_LEVELS },
    ghost short: { (reader_limits reader).bytes ≤ 2 ^ 60 },
}

impl<S: FeatureSink> FeatureLinter<S> {
    ghost use Rattle.gj_json.specs.Events.{all_events};
    ghost use Rattle.gj_json.specs.Refusal.{IsAdmitted};
    ghost use Rattle.gj_json.specs.Text.{IsTextWithin};
    ghost use Rattle.gj_json.specs.Tree.{Text};
    ghost use Rattle.gj_rules.specs.declared.feature.Feature.{Feature};
    ghost use Rattle.gj_rules.specs.FeatureFindings.{feature_findings, findings_by};
    ghost use Rattle.gj_rules.specs.FeatureLinter.{StandsFor, limits_of, refusal_of, offset_of, sink_of};
    ghost use Rattle.gj_rules.specs.FeaturesTold.{TellFindings};
    ghost use Rattle.gj_rules.specs.Linter.{Answers, refusal_in};
    ghost use Rattle.gj_rules.specs.Verdict.{IsVerdict};

    /// Before the first byte of an input under these limits. The features are reported to this sink.
    pub fn new(limits: Limits, sink: S) -> Self
        ensures stands { S.told sink [] → StandsFor S.told result [] }
        ensures limits { limits_of result ≡ limits }
        ensures refusal { refusal_of result ≡ None }
        ensures offset { offset_of result ≡ 0 }
        ensures sink { sink_of result ≡ sink }
    {
        FeatureLinter {
            rules: FeatureRules::new(sink),
            reader: Reader::new(limits),
        }
    }

    /// Takes the next bytes of the input, up to a byte that is refused, and reports the features that are complete in them,
    /// in order. After a refusal each call returns the same fault and changes nothing.
    pub fn feed(&mut self, piece: &[u8]) -> Progress
        ensures stands { (bytes : List ℕ) → StandsFor S.told self.old bytes → StandsFor S.told self.new (bytes ++ piece.now) }
        ensures answer { (bytes : List ℕ) → StandsFor S.told self.old bytes → Answers (limits_of self.old) (bytes ++ piece.now) result }
        ensures limits { limits_of self.new ≡ limits_of self.old }
        ensures on { offset_of self.old ≤ offset_of self.new }
        ensures refusal { refusal_of self.new ≡ refusal_in result }
        ensures again { (fault : JsonFault) → refusal_of self.old ≡ Some fault → (self.new ≡ self.old) × (result ≡ Progress.Refused fault) }
    {
        bytes_taken();
        match self.reader.feed(piece, &mut self.rules) {
            Ok(()) => Progress::Open,
            Err(fault) => Progress::Refused(fault),
        }
    }

    /// The verdict of the input that was fed, however it came in pieces, and what its features were reported to: all of them,
    /// where the input is a JSON text.
    pub fn finish(mut self) -> (Verdict, S)
        ensures verdict { (bytes : List ℕ) → StandsFor S.told self bytes → IsVerdict (limits_of self) bytes result.0 }
        ensures told { (bytes : List ℕ) (text : Text) → StandsFor S.told self bytes → IsAdmitted (limits_of self) text bytes
            → TellFindings (S.told result.1) (feature_findings text) }
        ensures refused { (fault : JsonFault) → result.0 ≡ Verdict.NotJson fault → result.1 ≡ sink_of self }
        ensures again { (fault : JsonFault) → refusal_of self ≡ Some fault → result.0 ≡ Verdict.NotJson fault }
    {
        let verdict = self.end();
        (verdict, self.rules.into_sink())
    }

    /// The verdict of the input that was fed, in place: all its features are reported, where it is a JSON text. What
    /// the linter stands for afterwards is not said.
    pub fn end(&mut self) -> Verdict
        ensures verdict { (bytes : List ℕ) → StandsFor S.told self.old bytes → IsVerdict (limits_of self.old) bytes result }
        ensures told { (bytes : List ℕ) (text : Text) → StandsFor S.told self.old bytes → IsAdmitted (limits_of self.old) text bytes
            → TellFindings (S.told (sink_of self.new)) (feature_findings text) }
        ensures refused { (fault : JsonFault) → result ≡ Verdict.NotJson fault → sink_of self.new ≡ sink_of self.old }
        ensures again { (fault : JsonFault) → refusal_of self.old ≡ Some fault → result ≡ Verdict.NotJson fault }
    {
        bytes_taken();
        few_events();
        kept_warnings();
        one_refusal();
        one_text();
        match self.reader.finish() {
            Err(fault) => Verdict::NotJson(fault),
            Ok(last) => {
                tell_last(&mut self.rules, last);
                let rules = self.rules.rules();
                verdict_of(rules.fault(), rules.warnings())
            }
        }
    }

    /// What the features are reported to: those that are complete in the bytes that were taken, for each text that goes on so and
    /// has fewer than 2^63 events.
    pub fn sink(&self) -> &S
        ensures value { result.now ≡ sink_of self.now }
        ensures told { (bytes rest : List ℕ) (text : Text) → StandsFor S.told self.now bytes
            → IsTextWithin (limits_of self.now).depth text (take (offset_of self.now) bytes ++ rest)
            → length (all_events text) < 2 ^ 63 → TellFindings (S.told result.now) (findings_by (offset_of self.now) text) }
    {
        features_say();
        self.rules.sink()
    }

    /// Reports the features that follow to another sink, and returns the one that had those before. The linter stands for the same
    /// bytes where the new sink may have had all features that the old one may have had.
    pub fn set_sink(&mut self, sink: S) -> S
        ensures stands { ((features : List Feature) → S.told (sink_of self.old) features → S.told sink features)
            → (bytes : List ℕ) → StandsFor S.told self.old bytes → StandsFor S.told self.new bytes }
        ensures limits { limits_of self.new ≡ limits_of self.old }
        ensures refusal { refusal_of self.new ≡ refusal_of self.old }
        ensures offset { offset_of self.new ≡ offset_of self.old }
        ensures sink { sink_of self.new ≡ sink }
        ensures old { result ≡ sink_of self.old }
    {
        self.rules.set_sink(sink)
    }

    /// How many bytes were taken: the place of the refused one, once there was one.
    pub fn offset(&self) -> u64
        ensures value { result ≡ offset_of self.now }
        ensures taken { (bytes : List ℕ) → StandsFor S.told self.now bytes → refusal_of self.now ≡ None → result ≡ length bytes }
        ensures refused { (bytes : List ℕ) (fault : JsonFault) → StandsFor S.told self.now bytes → refusal_of self.now ≡ Some fault → result ≡ fault.place }
        ensures within { (bytes : List ℕ) → StandsFor S.told self.now bytes → result ≤ length bytes }
    {
        bytes_taken();
        self.reader.offset()
    }
}

impl<S: ForgetfulSink> FeatureLinter<S> {
    ghost use Rattle.gj_rules.specs.FeatureLinter.{StandsFor, limits_of, refusal_of, offset_of};

    /// Begins anew under these limits, in place: little is written, and the sink forgets.
    pub fn begin_again(&mut self, limits: Limits)
        ensures stands { StandsFor S.told self.new [] }
        ensures limits { limits_of self.new ≡ limits }
        ensures refusal { refusal_of self.new ≡ None }
        ensures offset { offset_of self.new ≡ 0 }
    {
        self.rules.begin_again();
        self.reader.begin_again(limits);
    }
}

mod spaces;
