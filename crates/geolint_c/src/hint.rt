//! What an input looks like that is not valid: the hint of geolint-files, for a report in plain numbers.
ghost use Rattle.std.specs.Prelude.{◌≡◌, ◌≤◌, ◌<◌, ◌-◌, [], length, take, drop, IsTrue};
ghost use Rattle.geolint_c.specs.Hints.{is_later_syntax, out_of_range, wrong_if_refused, wrong_by_rule, wrong_if_valid, wrong_of, place_of, AreClues, IsHint};
ghost use Rattle.geolint_c.specs.Hints.{IsHintText, AreOpen, IsHintIn, hint_text};
ghost use Rattle.geolint_c.specs.Texts.{with_zero};

use crate::report::{BROKEN, NOT_JSON, Report, VALID, Warned};
use crate::texts::hint_text;
use gj_hints::{Clues, Hint, Wrong, hint};
use gj_json::{Event, EventSink, Limits, Reader, bytes_taken, one_refusal};

/// How many of the first bytes of an input count.
const HEAD: usize = 512;

/// How many bytes count before a place, and from it on.
const AROUND: usize = 256;

/// The cause that a byte is not allowed where it is.
const SYNTAX: u32 = 1;

/// The warnings of positions out of range.
fn out_of_range(report: &Report) -> Warned
    ensures { result ≡ out_of_range report.now }
{
    report.warnings[4]
}

/// Whether a byte that is not allowed there is refused, and not the first one.
fn is_later_syntax(report: &Report) -> bool
    ensures { result ≡ is_later_syntax report.now }
{
    report.verdict == NOT_JSON && report.cause == SYNTAX && report.place > 0
}

fn wrong_if_refused(report: &Report, levels: u32) -> Wrong
    ensures { result ≡ wrong_if_refused report.now levels }
{
    if is_later_syntax(report) && levels == 0 {
        Wrong::TextFollows
    } else {
        Wrong::Refused
    }
}

fn wrong_by_rule(rule: u32) -> Option<Wrong>
    ensures { result ≡ wrong_by_rule rule }
{
    match rule {
        1 => Some(Wrong::NoObject),
        2 => Some(Wrong::NoType),
        3 => Some(Wrong::OtherType),
        11 => Some(Wrong::OtherShape),
        16 => Some(Wrong::BeyondProfile),
        _ => None,
    }
}

fn wrong_if_valid(report: &Report) -> Option<Wrong>
    ensures { result ≡ wrong_if_valid report.now }
{
    if out_of_range(report).count > 0 {
        Some(Wrong::OutOfRange)
    } else {
        None
    }
}

/// What is wrong with an input of this report, where `levels` arrays and objects are open before its place.
fn wrong_of(report: &Report, levels: u32) -> Option<Wrong>
    ensures { result ≡ wrong_of report.now levels }
{
    match report.verdict {
        NOT_JSON => Some(wrong_if_refused(report, levels)),
        BROKEN => wrong_by_rule(report.rule),
        VALID => wrong_if_valid(report),
        _ => None,
    }
}

/// The place that shows what is wrong.
fn place_of(report: &Report) -> u64
    ensures { result ≡ place_of report.now }
{
    if report.verdict == VALID {
        out_of_range(report).first
    } else {
        report.place
    }
}

/// The first bytes, as far as they count.
fn first_bytes(bytes: &[u8], most: usize) -> &[u8]
    ensures { result.now ≡ take most bytes.now }
{
    match bytes.get(..most) {
        Some(first) => first,
        None => bytes,
    }
}

/// The last bytes, as far as they count.
fn last_bytes(bytes: &[u8], most: usize) -> &[u8]
    ensures { result.now ≡ drop (length bytes.now - most) bytes.now }
{
    &bytes[bytes.len().saturating_sub(most)..]
}

fn clues_of<'a>(head: &'a [u8], before: &'a [u8], after: &'a [u8]) -> Clues<'a>
    ensures { AreClues head.now before.now after.now result }
{
    Clues {
        head: first_bytes(head, HEAD),
        before: last_bytes(before, AROUND),
        after: first_bytes(after, AROUND),
    }
}

/// The hint for what is wrong, by the first bytes of the input, and those before a place and from it on.
fn hint_by(wrong: Option<Wrong>, head: &[u8], before: &[u8], after: &[u8]) -> Option<Hint>
    ensures { IsHint wrong head.now before.now after.now result }
{
    let clues = clues_of(head, before, after);
    match wrong {
        Some(wrong) => hint(wrong, &clues),
        None => None,
    }
}

/// Keeps nothing of what is reported to it.
#[derive(Drop)]
struct NoEvents;

impl EventSink for NoEvents {
    ghost heard = { λ sink events. Unit {0} };

    fn tell(&mut self, _event: Event) {}

    fn ignored(&self) -> u16 {
        0
    }

    fn pass(&mut self, _left: u16) {}
}

/// How many arrays and objects are open after these bytes.
fn open_levels(before: &[u8]) -> u32
    ensures { AreOpen before.now result }
{
    bytes_taken();
    one_refusal();
    let mut reader = Reader::new(Limits::usual());
    match reader.feed(before, &mut NoEvents) {
        Ok(()) => reader.levels() as u32,
        // They begin no text, so nothing follows one.
        Err(_) => 1,
    }
}

/// How many arrays and objects are open after the bytes before the place of a report, where that counts.
fn levels_before(report: &Report, before: &[u8]) -> u32
    ensures { IsTrue (is_later_syntax report.now) → AreOpen before.now result }
{
    if is_later_syntax(report) {
        open_levels(before)
    } else {
        0
    }
}

/// The hint for a text in memory of this report; an empty text where there is none.
#[unsafe(no_mangle)]
pub extern "C" fn geolint_hint_text(report: &Report, bytes: &[u8], text: &mut &'static [u8])
    ensures within { place_of report.now ≤ length bytes.now → IsHintIn report.now bytes.now text.new.now }
    ensures beyond { length bytes.now < place_of report.now → text.new.now ≡ with_zero [] }
{
    let place = place_of(report);
    if place > bytes.len() as u64 {
        *text = hint_text(None);
        return;
    }
    let (before, after) = bytes.split_at(place as usize);
    let wrong = wrong_of(report, levels_before(report, before));
    *text = hint_text(hint_by(wrong, bytes, before, after));
}

/// The hint for an input of this report, by its first bytes, and those before the place and from it on; an empty text where
/// there is none. Before the place `levels` arrays and objects are open.
#[unsafe(no_mangle)]
pub extern "C" fn geolint_hint_around(
    report: &Report,
    levels: u32,
    head: &[u8],
    before: &[u8],
    after: &[u8],
    text: &mut &'static [u8],
)
    ensures { IsHintText (wrong_of report.now levels) head.now before.now after.now text.new.now }
{
    *text = hint_text(hint_by(wrong_of(report, levels), head, before, after));
}
