//! How many files are what.
ghost use Rattle.std.specs.Prelude.{OnOk};
ghost use Rattle.geolint_report.specs.Line.{Adds as Appends};
ghost use Rattle.report_forms.specs.Summary.{and_not_valid};

use crate::code_lines::{put_calls, put_codes};
use geolint_report::every::tally::Tally;
use geolint_report::judge::Finding;
use geolint_report::line::{put, put_all, put_number};
use geolint_report::texts::{CODES, Code, has};
use gj_coords::{KINDS, Warnings};
use itoa::Buffer;
use std::alloc::AllocError;

/// The counts of a run.
#[derive(Drop)]
pub struct Summary {
    valid: u64,
    warned: u64,
    broken: u64,
    refused: u64,
    not_valid: u64,
    unread: u64,
    /// By the numbers of rules, of kinds of warning and of causes.
    counts: [u64; CODES],
}

impl Summary {
    ghost use Rattle.std.specs.Prelude.{◌≡◌, ◌↔◌, ◌++◌, ◌∷◌, [], IsTrue, List, Option, Some, None, true, false, not};
    ghost use Rattle.gj_coords.specs.Internal.KeptWarnings.{none_in};
    ghost use Rattle.geolint_report.specs.declared.every.tally.Tally.{Tally};
    ghost use Rattle.geolint_report.specs.declared.judge.Finding.{Finding};
    ghost use Rattle.geolint_report.specs.Slots.{same};
    ghost use Rattle.geolint_report.specs.Tallies.{IsTotal};
    ghost use Rattle.geolint_report.specs.Texts.{is_cause};
    ghost use Rattle.report_forms.specs.Counts.{warns};
    ghost use Rattle.report_forms.specs.FileCounts.{Counts};
    ghost use Rattle.report_forms.specs.Internal.AddedFiles.{Adds};
    ghost use Rattle.report_forms.specs.Summary.{calls_of, files_line, summary_of};

    pub fn new() -> Summary
        ensures { Counts result [] }
    {
        Summary {
            valid: 0,
            warned: 0,
            broken: 0,
            refused: 0,
            not_valid: 0,
            unread: 0,
            counts: [0; CODES],
        }
    }

    /// Whether there was no file.
    pub fn is_empty(&self) -> bool
        ensures { (files : List (Option Finding)) → Counts self.now files → IsTrue result ↔ (files ≡ []) }
    {
        self.valid == 0
            && self.warned == 0
            && self.broken == 0
            && self.refused == 0
            && self.not_valid == 0
            && self.unread == 0
    }

    /// One file more of which this is found.
    pub fn add_file(&mut self, finding: &Finding)
        ensures { (files : List (Option Finding)) → Counts self.old files → Counts self.new (files ++ Some finding.now ∷ []) }
    {
        match finding.fault() {
            Some(told) => self.add_fault(told.code),
            None => match finding.warnings() {
                None => self.not_valid = self.not_valid.saturating_add(1),
                Some(warnings) => self.add_valid(&warnings),
            },
        }
    }

    fn add_fault(&mut self, code: Code)
        ensures { Adds self.old self.new false false (not (is_cause code)) (is_cause code) false (λ other. same other code) }
    {
        match code {
            Code::Cause(_) => self.refused = self.refused.saturating_add(1),
            _ => self.broken = self.broken.saturating_add(1),
        }
        self.count(code);
    }

    fn add_valid(&mut self, warnings: &Warnings)
        ensures { Adds self.old self.new (none_in warnings.now) (not (none_in warnings.now)) false false false (λ code. warns code warnings.now) }
    {
        if warnings.is_empty() {
            self.valid = self.valid.saturating_add(1);
        } else {
            self.warned = self.warned.saturating_add(1);
        }
        for kind in &KINDS {
            if has(warnings, *kind) {
                self.count(Code::Kind(*kind));
            }
        }
    }

    /// One file more that was not read.
    pub fn add_unread(&mut self)
        ensures { (files : List (Option Finding)) → Counts self.old files → Counts self.new (files ++ None ∷ []) }
    {
        self.unread = self.unread.saturating_add(1);
    }

    /// One file more of which this is reported.
    fn count(&mut self, code: Code)
        ensures { Adds self.old self.new false false false false false (λ other. same other code) }
    {
        let slot = code.slot();
        if slot < CODES {
            self.counts[slot] = self.counts[slot].saturating_add(1);
        }
    }

    /// Puts the counts, and of how many files each rule is reported.
    pub fn put(&self, line: &mut Vec<u8>) -> Result<(), AllocError>
        ensures { (files : List (Option Finding)) → Counts self.now files → OnOk result (Appends line.old line.new (summary_of files)) }
    {
        self.put_files(line)?;
        put_codes(&self.counts, line)
    }

    /// Puts the call that explains each code that is reported of a file, or counted of its features and records.
    pub fn put_calls(&self, tally: &Tally, line: &mut Vec<u8>) -> Result<(), AllocError>
        ensures { (files : List (Option Finding)) (tallies : List Tally) → Counts self.now files → IsTotal tally.now tallies
            → OnOk result (Appends line.old line.new (calls_of files tallies)) }
    {
        put_calls(&self.counts, &tally.counts, line)
    }

    fn put_files(&self, line: &mut Vec<u8>) -> Result<(), AllocError>
        ensures { (files : List (Option Finding)) → Counts self.now files → OnOk result (Appends line.old line.new (files_line files)) }
    {
        put_number(line, self.valid)?;
        put(line, b" valid, ")?;
        put_number(line, self.warned)?;
        put(line, b" valid with warnings, ")?;
        put_number(line, self.broken)?;
        put(line, b" broken, ")?;
        put_number(line, self.refused)?;
        put(line, b" not JSON, ")?;
        put_number(line, self.unread)?;
        put(line, b" not read")?;
        put_and_not_valid(self.not_valid, line)?;
        put(line, b"\n")
    }
}

fn put_and_not_valid(count: u64, line: &mut Vec<u8>) -> Result<(), AllocError>
    ensures { OnOk result (Appends line.old line.new (and_not_valid count)) }
{
    if count > 0 {
        let mut digits = Buffer::new();
        put_all(
            line,
            &[b", ", digits.format(count).as_bytes(), b" not valid"],
        )
    } else {
        Ok(())
    }
}
