//! An input that comes in pieces, checked.

ghost use Rattle.std.specs.Prelude.{◌≡◌, ℕ, ◌≤◌, ◌^◌, ◌++◌, [], List, length, take, None, Some, IsTrue};
ghost use Rattle.gj_json.specs.declared.fault.JsonFault.{JsonFault};
ghost use Rattle.gj_json.specs.declared.limits.TheConstants.{MOST_LEVELS};
ghost use Rattle.gj_json.specs.Reader.{limits_of as reader_limits};
ghost use Rattle.gj_json.specs.Tree.{Text};
ghost use Rattle.gj_json.specs.Text.{IsText, IsTextWithin};
ghost use Rattle.gj_json.specs.Open.{open_at};
ghost use Rattle.gj_json.specs.declared.event.Event.{Event};
ghost use Rattle.std.specs.Option.{option_to_list};
ghost use Rattle.gj_rules.specs.Judged.{judged_at};
ghost use Rattle.gj_rules.specs.Internal.VerdictParts.{verdict_of};

use crate::frame::Frame;
use crate::rules::Rules;
use crate::verdict::Verdict;
use gj_coords::laws::kept_warnings;
use gj_coords::{Fault, Warnings};
use gj_json::{
    Event, EventSink, JsonFault, Limits, MOST_LEVELS, Reader, bytes_taken, few_events, one_refusal,
};
use std::mem::size_of;

/// What a piece of an input shows.
#[derive(Clone, Copy, Debug, PartialEq, Eq)]
pub enum Progress {
    /// The input is a prefix of a JSON text within the depth, and has no more bytes than are allowed. That some such text
    /// ends within these bytes is not said: a later byte may be refused for the length, whatever it is.
    Open,
    /// The input is refused, and so is every input that begins so.
    Refused(JsonFault),
}

/// Reports the event that only the end of the text completes, where there is one.
pub(crate) fn tell_last<S: EventSink>(sink: &mut S, last: Option<Event>)
    ensures { (events : List Event) → S.heard sink.old events → S.heard sink.new (events ++ option_to_list last) }
{
    if let Some(event) = last {
        sink.tell(event);
    }
}

/// The verdict of a JSON text with this least fault and these warnings.
pub(crate) fn verdict_of(fault: Option<Fault>, warnings: Warnings) -> Verdict
    ensures { result ≡ verdict_of fault warnings }
{
    match fault {
        Some(fault) => Verdict::Broken(fault),
        None => Verdict::Valid(warnings),
    }
}

/// Checks an input that comes in pieces of any size.
///
/// It holds one fixed record, with room for as many frames as there can be: one for each two open levels, and one.
#[derive(Drop)]
pub struct Linter {
    rules: Rules,
    reader: Reader,
    ghost shallow: { (reader_limits reader).depth ≤ MOST_LEVELS },
    ghost short: { (reader_limits reader).bytes ≤ 2 ^ 60 },
}

// The frames, and at most 8,192 bytes beside them.
const _: () = prove!(
    size_of::<Linter>() <= (MOST_LEVELS as usize / 2 + 1) * size_of::<Frame>() + 8192
);

impl Linter {
    ghost use Rattle.gj_json.specs.Refusal.{IsRefusal};
    ghost use Rattle.gj_rules.specs.Linter.{StandsFor, limits_of, refusal_of, offset_of, levels_of, Answers, refusal_in};
    ghost use Rattle.gj_coords.specs.Internal.KeptWarnings.{no_warnings};
    ghost use Rattle.gj_rules.specs.Verdict.{IsVerdict, NeverValid};
    ghost use Rattle.gj_rules.specs.Doomed.{BeginNoGeoJson};

    /// Before the first byte of an input under these limits.
    pub fn new(limits: Limits) -> Linter
        ensures stands { StandsFor result [] }
        ensures limits { limits_of result ≡ limits }
        ensures refusal { refusal_of result ≡ None }
        ensures offset { offset_of result ≡ 0 }
        ensures levels { levels_of result ≡ 0 }
    {
        Linter {
            rules: Rules::new(),
            reader: Reader::new(limits),
        }
    }

    /// Takes the next bytes of the input, up to a byte that is refused. From then on each call returns
    /// the same fault and changes nothing. A broken rule never ends the reading.
    pub fn feed(&mut self, piece: &[u8]) -> Progress
        ensures stands { (bytes : List ℕ) → StandsFor self.old bytes → StandsFor self.new (bytes ++ piece.now) }
        ensures answer { (bytes : List ℕ) → StandsFor self.old bytes → Answers (limits_of self.old) (bytes ++ piece.now) result }
        ensures limits { limits_of self.new ≡ limits_of self.old }
        ensures refusal { refusal_of self.new ≡ refusal_in result }
        ensures again { (fault : JsonFault) → refusal_of self.old ≡ Some fault → (self.new ≡ self.old) × (result ≡ Progress.Refused fault) }
    {
        bytes_taken();
        match self.reader.feed(piece, &mut self.rules) {
            Ok(()) => Progress::Open,
            Err(fault) => Progress::Refused(fault),
        }
    }

    /// The verdict of the input that was fed, however it came in pieces.
    pub fn finish(mut self) -> Verdict
        ensures verdict { (bytes : List ℕ) → StandsFor self bytes → IsVerdict (limits_of self) bytes result }
        ensures again { (fault : JsonFault) → refusal_of self ≡ Some fault → result ≡ Verdict.NotJson fault }
    {
        self.end()
    }

    /// The verdict of the input that was fed. What the linter then stands for is not said.
    fn end(&mut self) -> Verdict
        ensures verdict { (bytes : List ℕ) → StandsFor self.old bytes → IsVerdict (limits_of self.old) bytes result }
        ensures again { (fault : JsonFault) → refusal_of self.old ≡ Some fault → result ≡ Verdict.NotJson fault }
    {
        bytes_taken();
        few_events();
        kept_warnings();
        match self.reader.finish() {
            Err(fault) => Verdict::NotJson(fault),
            Ok(last) => {
                tell_last(&mut self.rules, last);
                verdict_of(self.rules.fault(), self.rules.warnings())
            }
        }
    }

    /// Whether the input that was fed is valid and has no warning, as far as can be said before its end: only a number, which
    /// no such input is, has its last event there.
    #[inline]
    pub(crate) fn is_clean(&self) -> bool
        ensures { (bytes : List ℕ) → StandsFor self.now bytes → IsTrue result → IsVerdict (limits_of self.now) bytes (Verdict.Valid no_warnings) }
    {
        bytes_taken();
        few_events();
        kept_warnings();
        self.reader.is_whole() && self.rules.is_clean()
    }

    /// Begins anew under these limits, in place: little is written.
    pub(crate) fn begin_again(&mut self, limits: Limits)
        ensures stands { StandsFor self.new [] }
        ensures limits { limits_of self.new ≡ limits }
        ensures refusal { refusal_of self.new ≡ None }
        ensures offset { offset_of self.new ≡ 0 }
        ensures levels { levels_of self.new ≡ 0 }
    {
        self.rules.begin_again();
        self.reader.begin_again(limits);
    }

    /// The verdict of the input that was fed. The linter begins anew under these limits, in place: little is written, so it costs
    /// less than a new one.
    pub fn finish_and_begin(&mut self, limits: Limits) -> Verdict
        ensures verdict { (bytes : List ℕ) → StandsFor self.old bytes → IsVerdict (limits_of self.old) bytes result }
        ensures again { (fault : JsonFault) → refusal_of self.old ≡ Some fault → result ≡ Verdict.NotJson fault }
        ensures stands { StandsFor self.new [] }
        ensures limits { limits_of self.new ≡ limits }
        ensures refusal { refusal_of self.new ≡ None }
        ensures offset { offset_of self.new ≡ 0 }
        ensures levels { levels_of self.new ≡ 0 }
    {
        let verdict = self.end();
        self.begin_again(limits);
        verdict
    }

    /// An early no: where it returns true, no input that begins with the bytes fed is valid, so that nothing more
    /// need be read for a yes or no.
    ///
    /// It is true after a refusal, and once the value of the text has begun and is no object, or its object shows a
    /// known name twice, a first `type` that is none of the nine, or a name that its type forbids (RFC 7946, sections
    /// 1.4 and 7.1), whichever of the two came first.
    pub fn doomed(&self) -> bool
        ensures sound { (bytes : List ℕ) → StandsFor self.now bytes → IsTrue result → NeverValid (limits_of self.now) bytes }
        ensures refused { (fault : JsonFault) → refusal_of self.now ≡ Some fault → IsTrue result }
        ensures early { (bytes : List ℕ) → StandsFor self.now bytes → refusal_of self.now ≡ None → BeginNoGeoJson (limits_of self.now).depth bytes
            → IsTrue result }
    {
        bytes_taken();
        one_refusal();
        match self.reader.refusal() {
            Some(_) => true,
            None => self.rules.doomed(),
        }
    }

    /// The refusal, once there was one.
    #[inline]
    pub(crate) fn refusal(&self) -> Option<JsonFault>
        ensures value { result ≡ refusal_of self.now }
        ensures lasting { (bytes more : List ℕ) (fault : JsonFault) → StandsFor self.now bytes → refusal_of self.now ≡ Some fault
            → IsRefusal (limits_of self.now) (bytes ++ more) fault }
    {
        self.reader.refusal()
    }

    /// How many bytes were taken: the place of the refused one, once there was one.
    pub fn offset(&self) -> u64
        ensures value { result ≡ offset_of self.now }
        ensures taken { (bytes : List ℕ) → StandsFor self.now bytes → refusal_of self.now ≡ None → result ≡ length bytes }
        ensures refused { (bytes : List ℕ) (fault : JsonFault) → StandsFor self.now bytes → refusal_of self.now ≡ Some fault → result ≡ fault.place }
    {
        self.reader.offset()
    }

    /// How many arrays and objects are open after the bytes that were taken.
    pub fn levels(&self) -> u16
        ensures value { result ≡ levels_of self.now }
        ensures open { (bytes rest : List ℕ) (text : Text) → StandsFor self.now bytes → IsText text (take (offset_of self.now) bytes ++ rest)
            → result ≡ open_at (offset_of self.now) text }
        ensures small { result ≤ MOST_LEVELS }
    {
        self.reader.levels()
    }

    /// How many of the open objects have a role by their position: the number of frames in use.
    pub fn judged(&self) -> u16
        ensures open { (bytes rest : List ℕ) (text : Text) → StandsFor self.now bytes
            → IsTextWithin (limits_of self.now).depth text (take (offset_of self.now) bytes ++ rest)
            → result ≡ judged_at (offset_of self.now) text }
    {
        self.rules.judged()
    }
}
