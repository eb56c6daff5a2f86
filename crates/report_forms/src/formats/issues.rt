//! What the forms for programs that gather issues have of a file: its fault, or its kinds of warning in turn.
ghost use Rattle.std.specs.Prelude.{◌≡◌, ◌++◌, IfOk, OnOk};
ghost use Rattle.geolint_report.specs.Line.{Adds};
ghost use Rattle.report_forms.specs.Forms.Issues.{failing, issues_of, issues_of_kind, issues_from, issues_of_warnings};
ghost use Rattle.report_forms.specs.Forms.Issues.{and_found, break_unless, issue_details, issue_text, some_found, text_mark};
ghost use Rattle.report_forms.specs.Forms.Messages.{if_placed};

use crate::formats::hints::{hint_on, put_and_hint};
use crate::options::Options;
use crate::texts::{put_and_path, put_and_record, put_and_times, put_name};
use geolint_report::found::Found;
use geolint_report::judge::Finding;
use geolint_report::line::{put, put_number};
use geolint_report::report::{Report, Told, warning};
use geolint_report::texts::Code;
use gj_coords::{KINDS, Kind, Warnings};
use std::alloc::{AllocError, Global};

/// What is reported at a place of a file.
#[derive(Clone, Copy)]
pub struct Issue {
    pub told: Told,
    /// How often it is reported.
    pub count: u32,
    /// It fails the file.
    pub is_failure: bool,
}

/// The issues of a file: its fault or, where it has none, its kinds of warning in turn.
pub fn issues(alloc: Global, finding: &Finding, options: &Options) -> Result<Vec<Issue>, AllocError>
    ensures { IfOk result (λ issues. issues.items ≡ issues_of finding.now options.now.strictness) }
{
    let mut issues = Vec::new(alloc);
    push_issues(finding.fault(), finding.warnings(), options, &mut issues)?;
    Ok(issues)
}

fn push_issues(
    fault: Option<Told>,
    warnings: Option<Warnings>,
    options: &Options,
    issues: &mut Vec<Issue>,
) -> Result<(), AllocError>
    ensures { OnOk result (issues.new.items ≡ issues.old.items ++ issues_from options.now.strictness fault warnings) }
{
    match (fault, warnings) {
        (Some(told), _) => push_failure(told, issues),
        (None, Some(warnings)) => push_warnings(&warnings, options, issues),
        (None, None) => {
            let told = Told {
                code: Code::NotValid,
                place: 0,
            };
            push_failure(told, issues)
        }
    }
}

/// What fails the file.
fn push_failure(told: Told, issues: &mut Vec<Issue>) -> Result<(), AllocError>
    ensures { OnOk result (issues.new.items ≡ issues.old.items ++ failing told) }
{
    issues.push(Issue {
        told,
        count: 1,
        is_failure: true,
    })?;
    Ok(())
}

fn push_warnings(
    warnings: &Warnings,
    options: &Options,
    issues: &mut Vec<Issue>,
) -> Result<(), AllocError>
    ensures { OnOk result (issues.new.items ≡ issues.old.items ++ issues_of_warnings options.now.strictness warnings.now) }
{
    for kind in &KINDS {
        push_kind(*kind, warnings, options, issues)?;
    }
    Ok(())
}

/// That of a kind of warning, where there is one.
fn push_kind(
    kind: Kind,
    warnings: &Warnings,
    options: &Options,
    issues: &mut Vec<Issue>,
) -> Result<(), AllocError>
    ensures { OnOk result (issues.new.items ≡ issues.old.items ++ issues_of_kind options.now.strictness warnings.now kind) }
{
    match warning(kind, warnings) {
        Some((told, count)) => {
            let is_failure = options.strictness.fails(kind);
            issues.push(Issue {
                told,
                count,
                is_failure,
            })?;
            Ok(())
        }
        None => Ok(()),
    }
}

/// Puts what is said of an issue, as it is read: no character is escaped.
#[tactic(auto, unfolding(crate::specs::Forms::Issues::issue_text))]
pub fn put_issue_text(
    alloc: Global,
    report: &Report<'_>,
    issue: &Issue,
    line: &mut Vec<u8>,
) -> Result<(), AllocError>
    ensures { OnOk result (Adds line.old line.new (issue_text report.now issue.now)) }
{
    put(line, mark(issue.told.code))?;
    issue.told.code.put_text(line)?;
    put_details_if(alloc, report, issue, line)
}

/// What comes before the text.
fn mark(code: Code) -> &'static [u8]
    ensures { result.now ≡ text_mark code }
{
    match code {
        Code::Cause(_) => b"not JSON: ",
        _ => b"",
    }
}

fn put_details_if(
    alloc: Global,
    report: &Report<'_>,
    issue: &Issue,
    line: &mut Vec<u8>,
) -> Result<(), AllocError>
    ensures { OnOk result (Adds line.old line.new (if_placed issue.now.told.code (issue_details report.now issue.now))) }
{
    match issue.told.code {
        Code::NotValid => Ok(()),
        _ => put_details(alloc, report, issue, line),
    }
}

/// How often it is reported, where, what was found there, and what may be of help.
#[tactic(auto, unfolding(crate::specs::Forms::Issues::issue_details))]
fn put_details(
    alloc: Global,
    report: &Report<'_>,
    issue: &Issue,
    line: &mut Vec<u8>,
) -> Result<(), AllocError>
    ensures { OnOk result (Adds line.old line.new (issue_details report.now issue.now)) }
{
    put_and_record(report.finding.record(), line)?;
    put_and_times(issue.count, line)?;
    put(line, b", at byte ")?;
    put_number(line, issue.told.place)?;
    put_and_path(report.path(&issue.told), line)?;
    put_and_found(report.found, line)?;
    let hint = hint_on(issue.told.code, report.hint);
    put_and_hint(alloc, report.name, hint, line)
}

fn put_and_found(found: Option<Found>, line: &mut Vec<u8>) -> Result<(), AllocError>
    ensures { OnOk result (Adds line.old line.new (and_found found)) }
{
    match found {
        Some(found) => put_some_found(&found, line),
        None => Ok(()),
    }
}

#[tactic(auto, unfolding(crate::specs::Forms::Issues::some_found))]
fn put_some_found(found: &Found, line: &mut Vec<u8>) -> Result<(), AllocError>
    ensures { OnOk result (Adds line.old line.new (some_found found.now)) }
{
    put(line, b", found: ")?;
    put_name(found.bytes(), line)
}

/// Puts what stands between two results.
pub fn put_break_unless(is_first: bool, line: &mut Vec<u8>) -> Result<(), AllocError>
    ensures { OnOk result (Adds line.old line.new (break_unless is_first)) }
{
    if is_first { Ok(()) } else { put(line, b",\n") }
}
