//! The forms of the report: what each has before the files, of each file, of its features or records, and after the last one. Each
//! adds this to the bytes of a line.
ghost use Rattle.std.specs.Prelude.{◌≡◌, OnOk};
ghost use Rattle.geolint_report.specs.Line.{Adds};
ghost use Rattle.report_forms.specs.Forms.{begin_of, format_named, is_for_people, logged_issue};

pub mod github;
pub mod gitlab;
mod hints;
pub mod issues;
pub mod json;
pub mod lines;
mod pointer;
pub mod sarif;
pub mod text;

use crate::every::Entry;
use crate::options::Options;
use crate::summary::Summary;
use geolint_report::every::tally::Tally;
use geolint_report::line::put;
use geolint_report::report::Report;
use issues::{Issue, issues, put_break_unless};
use lines::Style;
use std::alloc::{AllocError, Global};

/// The form of the report.
#[derive(Clone, Copy, Debug, PartialEq, Eq)]
pub enum Format {
    Text,
    Lines,
    Json,
    Github,
    Gitlab,
    Sarif,
}

/// The names of the forms.
pub const NAMES: [&str; 6] = ["text", "lines", "json", "github", "gitlab", "sarif"];

/// The form of this name: lines, where it is none.
pub fn format_named(name: &str) -> Format
    ensures { result ≡ format_named name.now }
{
    match name {
        "text" => Format::Text,
        "json" => Format::Json,
        "github" => Format::Github,
        "gitlab" => Format::Gitlab,
        "sarif" => Format::Sarif,
        _ => Format::Lines,
    }
}

/// Whether people read the report, whom its summary then follows.
pub fn is_for_people(format: Format) -> bool
    ensures { result ≡ is_for_people format }
{
    matches!(format, Format::Text | Format::Lines)
}

/// Puts what comes before the first file.
pub fn put_begin(format: Format, line: &mut Vec<u8>) -> Result<(), AllocError>
    ensures { OnOk result (Adds line.old line.new (begin_of format)) }
{
    match format {
        Format::Gitlab => put(line, b"["),
        Format::Sarif => sarif::put_begin(line),
        _ => Ok(()),
    }
}

/// What has been written of a report.
#[derive(Drop)]
pub struct Log {
    /// No result has been written.
    pub is_first: bool,
    /// What a log has at its end of the files that could not be read.
    pub unread: Vec<u8>,
}

impl Log {
    ghost use Rattle.std.specs.Prelude.{◌≡◌, [], List, OnOk, Option, true};
    ghost use Rattle.geolint_report.specs.declared.every.tally.Tally.{Tally};
    ghost use Rattle.geolint_report.specs.declared.judge.Finding.{Finding};
    ghost use Rattle.geolint_report.specs.Line.{Adds};
    ghost use Rattle.geolint_report.specs.Tallies.{IsTotal};
    ghost use Rattle.report_forms.specs.FileCounts.{Counts};
    ghost use Rattle.report_forms.specs.Forms.{KeepsUnread, TellsEntry, TellsMore, TellsReport, TellsUnread, end_of, logged};
    ghost use Rattle.report_forms.specs.Forms.Issues.{next_results};

    pub fn new(alloc: Global) -> Log
        ensures { (result.is_first ≡ true) × (result.unread.items ≡ []) }
    {
        Log {
            is_first: true,
            unread: Vec::new(alloc),
        }
    }

    /// Puts the report of a file that was checked.
    pub fn put_report(
        &self,
        alloc: Global,
        report: &Report<'_>,
        options: &Options,
        style: Style,
        line: &mut Vec<u8>,
    ) -> Result<(), AllocError>
        ensures { OnOk result
            (TellsReport options.now.format style self.now.is_first report.now options.now.strictness line.old line.new) }
    {
        match options.format {
            Format::Text => text::put_report(report, line),
            Format::Lines => lines::put_report(alloc, report, style, line),
            Format::Json => json::put_report(alloc, report, line),
            Format::Github => github::put_report(alloc, report, options, line),
            Format::Gitlab => self.put_issues(alloc, Format::Gitlab, report, options, line),
            Format::Sarif => self.put_issues(alloc, Format::Sarif, report, options, line),
        }
    }

    /// Puts the issues of a file, in a form that gathers those of all files: none for one that is valid without a warning.
    fn put_issues(
        &self,
        alloc: Global,
        format: Format,
        report: &Report<'_>,
        options: &Options,
        line: &mut Vec<u8>,
    ) -> Result<(), AllocError>
        ensures { OnOk result (Adds line.old line.new (next_results self.now.is_first (logged format report.now options.now.strictness))) }
    {
        let issues = issues(alloc, &report.finding, options)?;
        let mut is_first = self.is_first;
        for issue in issues.as_slice() {
            put_break_unless(is_first, line)?;
            put_issue(alloc, format, report, issue, line)?;
            is_first = false;
        }
        Ok(())
    }

    /// Keeps for the end of a log that a file could not be opened or read.
    pub fn keep_unread(
        &mut self,
        alloc: Global,
        format: Format,
        name: &[u8],
        reason: &str,
    ) -> Result<(), AllocError>
        ensures first { self.new.is_first ≡ self.old.is_first }
        ensures kept { OnOk result (KeepsUnread format name.now reason.now self.old.unread.items self.new.unread.items) }
    {
        match format {
            Format::Sarif => sarif::put_unread(alloc, name, reason, &mut self.unread),
            _ => Ok(()),
        }
    }

    /// Puts the report of a file that could not be opened or read.
    pub fn put_unread(
        &self,
        alloc: Global,
        format: Format,
        name: &[u8],
        reason: &str,
        line: &mut Vec<u8>,
    ) -> Result<(), AllocError>
        ensures { OnOk result (TellsUnread format self.now.is_first name.now reason.now line.old line.new) }
    {
        match format {
            Format::Json => json::put_unread(alloc, name, reason, line),
            Format::Github => github::put_unread(alloc, name, reason, line),
            Format::Gitlab => {
                put_break_unless(self.is_first, line)?;
                gitlab::put_unread(alloc, name, reason, line)
            }
            _ => Ok(()),
        }
    }

    /// Puts the line on a feature or a record.
    pub fn put_entry(
        &self,
        alloc: Global,
        entry: &Entry<'_>,
        options: &Options,
        style: Style,
        line: &mut Vec<u8>,
    ) -> Result<(), AllocError>
        ensures { OnOk result
            (TellsEntry options.now.format style self.now.is_first entry.now options.now.strictness line.old line.new) }
    {
        match options.format {
            Format::Text => text::put_entry(entry, line),
            Format::Lines => lines::put_entry(entry, style, line),
            Format::Json => json::put_entry(alloc, entry, line),
            Format::Github => github::put_entry(alloc, entry, options, line),
            Format::Gitlab => {
                put_break_unless(self.is_first, line)?;
                gitlab::put_entry(alloc, entry, options, line)
            }
            Format::Sarif => {
                put_break_unless(self.is_first, line)?;
                sarif::put_entry(alloc, entry, options, line)
            }
        }
    }

    /// Puts the line on `count` features or records that are not reported.
    pub fn put_more(
        &self,
        alloc: Global,
        format: Format,
        name: &[u8],
        count: u64,
        style: Style,
        line: &mut Vec<u8>,
    ) -> Result<(), AllocError>
        ensures { OnOk result (TellsMore format style self.now.is_first name.now count line.old line.new) }
    {
        match format {
            Format::Text => text::put_more(count, line),
            Format::Lines => lines::put_more(name, count, style, line),
            Format::Json => json::put_more(alloc, name, count, line),
            Format::Github => github::put_more(alloc, name, count, line),
            Format::Gitlab => {
                put_break_unless(self.is_first, line)?;
                gitlab::put_more(alloc, name, count, line)
            }
            Format::Sarif => {
                put_break_unless(self.is_first, line)?;
                sarif::put_more(name, count, line)
            }
        }
    }

    /// Puts what follows the last file.
    pub fn put_end(
        &self,
        format: Format,
        style: Style,
        summary: &Summary,
        tally: &Tally,
        line: &mut Vec<u8>,
    ) -> Result<(), AllocError>
        ensures { (files : List (Option Finding)) (tallies : List Tally) → Counts summary.now files → IsTotal tally.now tallies
            → OnOk result (Adds line.old line.new (end_of format style files tallies self.now.unread.items)) }
    {
        match format {
            Format::Gitlab => put(line, b"]\n"),
            Format::Sarif => sarif::put_end(self.unread.as_slice(), line),
            Format::Lines => lines::put_calls(style, summary, tally, line),
            _ => Ok(()),
        }
    }
}

/// Puts an issue of a file, in a form that gathers those of all files.
fn put_issue(
    alloc: Global,
    format: Format,
    report: &Report<'_>,
    issue: &Issue,
    line: &mut Vec<u8>,
) -> Result<(), AllocError>
    ensures { OnOk result (Adds line.old line.new (logged_issue format report.now issue.now)) }
{
    match format {
        Format::Gitlab => gitlab::put_issue(alloc, report, issue, line),
        _ => sarif::put_issue(alloc, report, issue, line),
    }
}
