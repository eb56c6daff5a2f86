//! Workflow commands of GitHub, which shows them at the line.
ghost use Rattle.std.specs.Prelude.{OnOk};
ghost use Rattle.std.specs.List.{flat_map};
ghost use Rattle.geolint_report.specs.Line.{Adds};
ghost use Rattle.report_forms.specs.Forms.Github.{escaped_in_message, escaped_in_property, github_file, github_spot, github_title, github_command};
ghost use Rattle.report_forms.specs.Forms.Github.{github_issue, github_told, github_unread, github_entry, github_more};
ghost use Rattle.report_forms.specs.Forms.Features.{level_in};

use crate::every::{Entry, note_fails, put_and_more, put_entry_text, spot_at};
use crate::formats::issues::{Issue, issues, put_issue_text};
use crate::options::Options;
use crate::texts::{level, put_line_and_column, put_name};
use geolint_report::line::{put, put_all};
use geolint_report::report::Report;
use geolint_report::sites::Spot;
use geolint_report::texts::Code;
use std::alloc::{AllocError, Global};

/// Puts the commands of a file: none for one that is valid without a warning.
pub fn put_report(
    alloc: Global,
    report: &Report<'_>,
    options: &Options,
    line: &mut Vec<u8>,
) -> Result<(), AllocError>
    ensures { OnOk result (Adds line.old line.new (github_told report.now options.now.strictness)) }
{
    let issues = issues(alloc, &report.finding, options)?;
    for issue in issues.as_slice() {
        put_issue(alloc, report, issue, line)?;
    }
    Ok(())
}

fn put_issue(
    alloc: Global,
    report: &Report<'_>,
    issue: &Issue,
    line: &mut Vec<u8>,
) -> Result<(), AllocError>
    ensures { OnOk result (Adds line.old line.new (github_issue report.now issue.now)) }
{
    let mut text = Vec::new(alloc);
    put_issue_text(alloc, report, issue, &mut text)?;
    put_command(
        alloc,
        level(issue.is_failure),
        report.name,
        report.spot(issue.told.place),
        issue.told.code,
        text.as_slice(),
        line,
    )
}

/// Puts a command, whose text and whose name of the file are not escaped.
#[tactic(auto, unfolding(crate::specs::Forms::Github::github_command))]
fn put_command(
    alloc: Global,
    level: &[u8],
    name: &[u8],
    spot: Option<Spot>,
    code: Code,
    text: &[u8],
    line: &mut Vec<u8>,
) -> Result<(), AllocError>
    ensures { OnOk result (Adds line.old line.new (github_command level.now name.now spot code text.now)) }
{
    put_file(alloc, level, name, line)?;
    put_spot(spot, line)?;
    put_title(code, line)?;
    put(line, b"::")?;
    put_in_message(text, line)?;
    put(line, b"\n")
}

fn put_title(code: Code, line: &mut Vec<u8>) -> Result<(), AllocError>
    ensures { OnOk result (Adds line.old line.new (github_title code)) }
{
    match code {
        Code::NotValid => Ok(()),
        code => put_all(line, &[b",title=", code.name().as_bytes()]),
    }
}

/// The level and the file, as its name is shown.
#[tactic(auto, unfolding(crate::specs::Forms::Github::github_file))]
fn put_file(alloc: Global, level: &[u8], name: &[u8], line: &mut Vec<u8>) -> Result<(), AllocError>
    ensures { OnOk result (Adds line.old line.new (github_file level.now name.now)) }
{
    put_all(line, &[b"::", level, b" file="])?;
    let mut shown = Vec::new(alloc);
    put_name(name, &mut shown)?;
    put_in_property(shown.as_slice(), line)
}

fn put_spot(spot: Option<Spot>, line: &mut Vec<u8>) -> Result<(), AllocError>
    ensures { OnOk result (Adds line.old line.new (github_spot spot)) }
{
    match spot {
        Some(spot) => put_line_and_column(b",line=", b",col=", spot, line),
        None => Ok(()),
    }
}

/// Puts the command of a file that could not be opened or read.
#[tactic(auto, unfolding(crate::specs::Forms::Github::github_unread))]
pub fn put_unread(
    alloc: Global,
    name: &[u8],
    reason: &str,
    line: &mut Vec<u8>,
) -> Result<(), AllocError>
    ensures { OnOk result (Adds line.old line.new (github_unread name.now reason.now)) }
{
    put_file(alloc, b"error", name, line)?;
    put(line, b"::")?;
    put_in_message(reason.as_bytes(), line)?;
    put(line, b"\n")
}

fn put_in_property(text: &[u8], line: &mut Vec<u8>) -> Result<(), AllocError>
    ensures { OnOk result (Adds line.old line.new (flat_map escaped_in_property text.now)) }
{
    for byte in text {
        put_byte_in_property(*byte, line)?;
    }
    Ok(())
}

fn put_byte_in_property(byte: u8, line: &mut Vec<u8>) -> Result<(), AllocError>
    ensures { OnOk result (Adds line.old line.new (escaped_in_property byte)) }
{
    match byte {
        b':' => line.extend_from_slice(b"%3A"),
        b',' => line.extend_from_slice(b"%2C"),
        other => put_byte_in_message(other, line),
    }
}

fn put_in_message(text: &[u8], line: &mut Vec<u8>) -> Result<(), AllocError>
    ensures { OnOk result (Adds line.old line.new (flat_map escaped_in_message text.now)) }
{
    for byte in text {
        put_byte_in_message(*byte, line)?;
    }
    Ok(())
}

fn put_byte_in_message(byte: u8, line: &mut Vec<u8>) -> Result<(), AllocError>
    ensures { OnOk result (Adds line.old line.new (escaped_in_message byte)) }
{
    match byte {
        b'%' => line.extend_from_slice(b"%25"),
        b'\r' => line.extend_from_slice(b"%0D"),
        b'\n' => line.extend_from_slice(b"%0A"),
        other => line.extend_from_slice(&[other]),
    }
}

/// Puts the command of a feature or a record.
pub fn put_entry(
    alloc: Global,
    entry: &Entry<'_>,
    options: &Options,
    line: &mut Vec<u8>,
) -> Result<(), AllocError>
    ensures { OnOk result (Adds line.old line.new (github_entry (level_in options.now.strictness entry.now) entry.now)) }
{
    let mut text = Vec::new(alloc);
    put_entry_text(entry, &mut text)?;
    put_command(
        alloc,
        level(note_fails(entry.note.told.code, options)),
        entry.name,
        spot_at(entry.mark),
        entry.note.told.code,
        text.as_slice(),
        line,
    )
}

/// Puts the command on what is not reported.
#[tactic(auto, unfolding(crate::specs::Forms::Github::github_more))]
pub fn put_more(
    alloc: Global,
    name: &[u8],
    count: u64,
    line: &mut Vec<u8>,
) -> Result<(), AllocError>
    ensures { OnOk result (Adds line.old line.new (github_more name.now count)) }
{
    put_file(alloc, b"notice", name, line)?;
    put(line, b"::")?;
    put_and_more(count, line)?;
    put(line, b"\n")
}
