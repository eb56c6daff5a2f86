//! Issues as GitLab's Code Quality reads them, in one array.
ghost use Rattle.std.specs.Prelude.{◌≡◌, IfOk, OnOk, string_bytes};
ghost use Rattle.geolint_report.specs.Line.{Adds};
ghost use Rattle.report_forms.specs.Forms.Gitlab.{gitlab_entry, gitlab_more, severity_in};
ghost use Rattle.report_forms.specs.Forms.Gitlab.{fingerprint_of, gitlab_issue, gitlab_object, gitlab_unread, identity_of, line_of, severity_of};

use crate::every::{Entry, note_fails, put_and_more, put_entry_text, spot_at};
use crate::formats::issues::{Issue, put_issue_text};
use crate::options::Options;
use crate::texts::{put_name, put_string};
use geolint_report::line::{put, put_number};
use geolint_report::report::Report;
use geolint_report::sites::Spot;
use sha2::{Digest, Sha256};
use std::alloc::{AllocError, Global};

/// Puts an issue of a file.
pub fn put_issue(
    alloc: Global,
    report: &Report<'_>,
    issue: &Issue,
    line: &mut Vec<u8>,
) -> Result<(), AllocError>
    ensures { OnOk result (Adds line.old line.new (gitlab_issue report.now issue.now)) }
{
    let mut text = Vec::new(alloc);
    put_issue_text(alloc, report, issue, &mut text)?;
    put_object(
        alloc,
        severity(issue.is_failure),
        issue.told.code.name().as_bytes(),
        text.as_slice(),
        issue.told.place,
        report.name,
        report.spot(issue.told.place),
        line,
    )
}

/// Puts the issue of a file that could not be opened or read.
pub fn put_unread(
    alloc: Global,
    name: &[u8],
    reason: &str,
    line: &mut Vec<u8>,
) -> Result<(), AllocError>
    ensures { OnOk result (Adds line.old line.new (gitlab_unread name.now reason.now)) }
{
    let mut text = Vec::new(alloc);
    put_name(reason.as_bytes(), &mut text)?;
    put_object(
        alloc,
        b"major",
        b"not-read",
        text.as_slice(),
        0,
        name,
        None,
        line,
    )
}

/// The severity of what fails a file, or does not.
fn severity(fails: bool) -> &'static [u8]
    ensures { result.now ≡ severity_of fails }
{
    match fails {
        true => b"major",
        false => b"minor",
    }
}

/// Puts an issue, whose text and whose name of the file are not escaped.
fn put_object(
    alloc: Global,
    severity: &[u8],
    check: &[u8],
    text: &[u8],
    place: u64,
    name: &[u8],
    spot: Option<Spot>,
    line: &mut Vec<u8>,
) -> Result<(), AllocError>
    ensures { OnOk result (Adds line.old line.new (gitlab_object severity.now check.now text.now place name.now spot)) }
{
    let fingerprint = fingerprint(alloc, check, place, name)?;
    let mut shown = Vec::new(alloc);
    put_name(name, &mut shown)?;
    put(line, b"{\"description\":")?;
    put_string(text, line)?;
    put(line, b",\"check_name\":\"")?;
    put(line, check)?;
    put(line, b"\",\"fingerprint\":\"")?;
    put(line, fingerprint.as_bytes())?;
    put(line, b"\",\"severity\":\"")?;
    put(line, severity)?;
    put(line, b"\",\"location\":{\"path\":")?;
    put_string(shown.as_slice(), line)?;
    put(line, b",\"lines\":{\"begin\":")?;
    put_number(line, line_of(spot))?;
    put(line, b"}}}")
}

/// What stays the same while a file has this at this place.
fn fingerprint(alloc: Global, check: &[u8], place: u64, name: &[u8]) -> Result<String, AllocError>
    ensures { IfOk result (λ digits. string_bytes digits ≡ fingerprint_of check.now place name.now) }
{
    let mut bytes = Vec::new(alloc);
    put_identity(check, place, name, &mut bytes)?;
    hex::encode(alloc, Sha256::digest(bytes.as_slice()))
}

#[tactic(auto, unfolding(crate::specs::Forms::Gitlab::identity_of))]
fn put_identity(check: &[u8], place: u64, name: &[u8], line: &mut Vec<u8>) -> Result<(), AllocError>
    ensures { OnOk result (Adds line.old line.new (identity_of check.now place name.now)) }
{
    put(line, check)?;
    put(line, b" ")?;
    put_number(line, place)?;
    put(line, b" ")?;
    put(line, name)
}

/// The line of a place, and the first one where none is known.
fn line_of(spot: Option<Spot>) -> u64
    ensures { result ≡ line_of spot }
{
    match spot {
        Some(spot) => spot.line,
        None => 1,
    }
}

/// Puts the issue of a feature or a record.
pub fn put_entry(
    alloc: Global,
    entry: &Entry<'_>,
    options: &Options,
    line: &mut Vec<u8>,
) -> Result<(), AllocError>
    ensures { OnOk result (Adds line.old line.new (gitlab_entry (severity_in options.now.strictness entry.now) entry.now)) }
{
    let mut text = Vec::new(alloc);
    put_entry_text(entry, &mut text)?;
    put_object(
        alloc,
        severity(note_fails(entry.note.told.code, options)),
        entry.note.told.code.name().as_bytes(),
        text.as_slice(),
        entry.note.told.place,
        entry.name,
        spot_at(entry.mark),
        line,
    )
}

/// Puts the issue on what is not reported.
pub fn put_more(
    alloc: Global,
    name: &[u8],
    count: u64,
    line: &mut Vec<u8>,
) -> Result<(), AllocError>
    ensures { OnOk result (Adds line.old line.new (gitlab_more name.now count)) }
{
    let mut text = Vec::new(alloc);
    put_and_more(count, &mut text)?;
    put_object(
        alloc,
        b"info",
        b"more",
        text.as_slice(),
        0,
        name,
        None,
        line,
    )
}
