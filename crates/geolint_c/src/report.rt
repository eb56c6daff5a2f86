//! A verdict in plain numbers.
ghost use Rattle.std.specs.Prelude.{◌≡◌, ◌≢◌, ℕ, [], List};
ghost use Rattle.gj_json.specs.Limits.{Allowed};
ghost use Rattle.gj_coords.specs.Warnings.{Warning};
ghost use Rattle.gj_coords.specs.WarningsStand.{StandsFor};
ghost use Rattle.gj_rules.specs.Verdict.{Judgement, IsVerdict, Says};
ghost use Rattle.geolint_c.specs.Report.{cause_number, warned_of, all_warned, Reports, nothing_warned, valid_report, broken_report, refusal_report, report_of};
ghost use Rattle.geolint_c.specs.Report.{no_report};

use crate::status::DONE;
use gj_coords::{Fault, KINDS, Kind, Warnings};
use gj_json::{Cause, JsonFault};
use gj_rules::Verdict;

/// What a text is; 0 says that it was not checked.
pub const VALID: u32 = 1;

pub const BROKEN: u32 = 2;

pub const NOT_JSON: u32 = 3;

/// The warnings of one kind: how many, and the place of the first, which is 0 where there is none.
#[repr(C)]
#[derive(Clone, Copy)]
pub struct Warned {
    pub count: u64,
    pub first: u64,
}

/// A verdict: which of the three it is, or 0 where there is none, and then the status says why; the number of the broken
/// rule (1 to 21) or of the cause (1 to 4), otherwise 0; the place of either as a byte offset; and of each kind of warning,
/// in the order of their numbers, how many there are.
#[repr(C)]
#[derive(Clone, Copy)]
pub struct Report {
    pub status: u32,
    pub verdict: u32,
    pub rule: u32,
    pub cause: u32,
    pub place: u64,
    /// 1 where there is a warning, otherwise 0.
    pub warned: u64,
    pub warnings: [Warned; KINDS.len()],
}

/// The number in a cause's name.
fn cause_number(cause: Cause) -> u32
    ensures { result ≡ cause_number cause }
{
    match cause {
        Cause::Syntax => 1,
        Cause::Truncated => 2,
        Cause::Depth => 3,
        Cause::Length => 4,
    }
}

fn warned_of(warnings: &Warnings, kind: Kind) -> Warned
    ensures { (all : List Warning) → StandsFor warnings.now all → result ≡ warned_of all kind }
{
    let first = match warnings.first(kind) {
        Some(place) => place,
        None => 0,
    };
    Warned {
        count: warnings.count(kind) as u64,
        first,
    }
}

/// Those of each kind, in the order of their numbers.
pub fn all_warned(warnings: &Warnings) -> [Warned; KINDS.len()]
    ensures { (all : List Warning) → StandsFor warnings.now all → result ≡ all_warned all }
{
    [
        warned_of(warnings, Kind::W1),
        warned_of(warnings, Kind::W2),
        warned_of(warnings, Kind::W3),
        warned_of(warnings, Kind::W4),
        warned_of(warnings, Kind::W5),
        warned_of(warnings, Kind::W6),
        warned_of(warnings, Kind::W7),
        warned_of(warnings, Kind::W8),
        warned_of(warnings, Kind::W9),
    ]
}

/// No warning of any kind.
pub fn nothing_warned() -> [Warned; KINDS.len()]
    ensures { result ≡ nothing_warned }
{
    [Warned { count: 0, first: 0 }; KINDS.len()]
}

/// That of a valid text without a warning.
pub fn report_without_warning() -> Report
    ensures { result ≡ valid_report [] }
{
    Report {
        verdict: VALID,
        ..no_report(DONE)
    }
}

/// That of a valid text with these warnings.
#[inline(never)]
pub fn report_of_warned(warnings: &Warnings) -> Report
    ensures { (all : List Warning) → StandsFor warnings.now all → all ≢ [] → result ≡ valid_report all }
{
    Report {
        status: DONE,
        verdict: VALID,
        rule: 0,
        cause: 0,
        place: 0,
        warned: 1,
        warnings: all_warned(warnings),
    }
}

pub fn report_of_valid(warnings: &Warnings) -> Report
    ensures { (all : List Warning) → StandsFor warnings.now all → result ≡ valid_report all }
{
    if warnings.is_empty() {
        report_without_warning()
    } else {
        report_of_warned(warnings)
    }
}

pub fn report_of_broken(fault: Fault) -> Report
    ensures { result ≡ broken_report fault }
{
    Report {
        verdict: BROKEN,
        rule: fault.rule.number() as u32,
        place: fault.place,
        ..no_report(DONE)
    }
}

fn report_of_refusal(fault: JsonFault) -> Report
    ensures { result ≡ refusal_report fault }
{
    Report {
        verdict: NOT_JSON,
        cause: cause_number(fault.cause),
        place: fault.place,
        ..no_report(DONE)
    }
}

/// The verdict in plain numbers.
pub fn report_of(verdict: &Verdict) -> Report
    ensures says { (judgement : Judgement) → Says verdict.now judgement → result ≡ report_of judgement }
    ensures judged { (limits : Allowed) (bytes : List ℕ) → IsVerdict limits bytes verdict.now → Reports limits bytes result }
{
    match verdict {
        Verdict::Valid(warnings) => report_of_valid(warnings),
        Verdict::Broken(fault) => report_of_broken(*fault),
        Verdict::NotJson(fault) => report_of_refusal(*fault),
    }
}

/// What a call gives that checks nothing.
pub fn no_report(status: u32) -> Report
    ensures { result ≡ no_report status }
{
    Report {
        status,
        verdict: 0,
        rule: 0,
        cause: 0,
        place: 0,
        warned: 0,
        warnings: nothing_warned(),
    }
}
