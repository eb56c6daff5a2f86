//! What a piece shows, and what is found in a feature or in a record, in plain numbers.
ghost use Rattle.std.specs.Prelude.{◌≡◌};
ghost use Rattle.gj_rules.specs.FeatureFindings.{FeatureFinding};
ghost use Rattle.gj_rules.specs.FeaturesTold.{SaysFinding};
ghost use Rattle.geolint_c.specs.Finding.{IsFeature, IsRecord, IsWhole, finding_with, record_with, clean_finding, no_finding, no_whole};
ghost use Rattle.geolint_c.specs.Finding.{progress_of, no_progress, end_or_zero};
ghost use Rattle.geolint_c.specs.Report.{place_or_zero};

use crate::report::{
    Report, no_report, report_of, report_of_broken, report_of_valid, report_of_warned,
    report_without_warning,
};
use gj_rules::{Feature, Record, SeqVerdict};

/// What a call took of a piece: how many of its bytes, what they show, and 1 where a finding is ready, otherwise 0.
#[repr(C)]
#[derive(Clone, Copy)]
pub struct Progress {
    pub taken: u64,
    pub status: u32,
    pub ready: u32,
}

/// What is found in a feature or in a record: how many features come before it, or the record's number; the place of its first
/// byte, and that after its last; the place of the feature's `id`. A place that is not reported is 0.
#[repr(C)]
#[derive(Clone, Copy)]
pub struct Finding {
    pub number: u64,
    pub place: u64,
    pub end: u64,
    pub id: u64,
    pub report: Report,
}

/// What an input of records is as a whole: all are valid, with the warnings of all and how many there are; or what the first is
/// that is not valid, with its number.
#[repr(C)]
#[derive(Clone, Copy)]
pub struct Whole {
    pub report: Report,
    pub number: u64,
}

pub fn progress_of(taken: usize, status: u32, ready: bool) -> Progress
    ensures { result ≡ progress_of taken status ready }
{
    Progress {
        taken: taken as u64,
        status,
        ready: if ready { 1 } else { 0 },
    }
}

/// Nothing was taken, and why.
pub fn no_progress(status: u32) -> Progress
    ensures { result ≡ no_progress status }
{
    progress_of(0, status, false)
}

fn place_or_zero(place: Option<u64>) -> u64
    ensures { result ≡ place_or_zero place }
{
    match place {
        Some(place) => place,
        None => 0,
    }
}

/// The place after a closing bracket.
fn end_or_zero(close: Option<u64>) -> u64
    ensures { result ≡ end_or_zero close }
{
    match close {
        Some(close) => close.saturating_add(1),
        None => 0,
    }
}

/// What is found in a feature, with this report.
#[inline]
fn finding_with(feature: &Feature, report: Report) -> Finding
    ensures { result ≡ finding_with feature.now report }
{
    Finding {
        number: feature.index,
        place: feature.place,
        end: end_or_zero(feature.close),
        id: place_or_zero(feature.id),
        report,
    }
}

/// What is found in a feature.
pub fn finding_of_feature(feature: &Feature) -> Finding
    ensures { (finding : FeatureFinding) → SaysFinding feature.now finding → IsFeature finding result }
{
    match feature.fault {
        Some(fault) => finding_with(feature, report_of_broken(fault)),
        None if feature.warnings.is_empty() => finding_with(feature, report_without_warning()),
        None => finding_with(feature, report_of_warned(&feature.warnings)),
    }
}

/// What is found in a record of this number, which begins and ends there, with this report.
#[inline]
fn record_with(number: u64, place: u64, end: u64, report: Report) -> Finding
    ensures { result ≡ record_with number place end report }
{
    Finding {
        number,
        place,
        end,
        id: 0,
        report,
    }
}

/// What is found in a record of this number, which begins and ends there: nothing.
pub fn clean_finding(number: u64, place: u64, end: u64) -> Finding
    ensures { result ≡ clean_finding number place end }
{
    record_with(number, place, end, report_without_warning())
}

/// What is found in a record.
pub fn finding_of_record(found: &Record) -> Finding
    ensures { IsRecord found.now result }
{
    record_with(
        found.number,
        found.place,
        found.end,
        report_of(&found.verdict),
    )
}

/// No finding, and why there is none.
pub fn no_finding(status: u32) -> Finding
    ensures { result ≡ no_finding status }
{
    record_with(0, 0, 0, no_report(status))
}

/// What an input of records is as a whole.
pub fn whole_of(verdict: &SeqVerdict) -> Whole
    ensures { IsWhole verdict.now result }
{
    match verdict {
        SeqVerdict::Valid { records, warnings } => Whole {
            report: report_of_valid(warnings),
            number: *records,
        },
        SeqVerdict::Record { number, verdict } => Whole {
            report: report_of(verdict),
            number: *number,
        },
    }
}

/// No verdict, and why there is none.
pub fn no_whole(status: u32) -> Whole
    ensures { result ≡ no_whole status }
{
    Whole {
        report: no_report(status),
        number: 0,
    }
}
