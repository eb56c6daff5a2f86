//! Reports one file.
ghost use Rattle.std.specs.Prelude.{◌≡◌};
ghost use Rattle.geolint_files.specs.Told.{shows};

use crate::files::reason;
use crate::outcome::Outcome;
use crate::run::{Failure, Run};
use geolint_report::every::spots::Spots;
use geolint_report::found::{Found, found_at};
use geolint_report::hints::find_hint;
use geolint_report::judge::{Finding, Reading};
use geolint_report::report::Report;
use geolint_report::rereading::find_sites;
use geolint_report::sites::Sites;
use geolint_report::source::Rewind;
use gj_hints::Hint;
use report_forms::formats::Format;
use report_forms::texts::put_unread_line;
use std::io::{self, Write};

impl<'a, W: Write + Drop> Run<'a, W> {
    ghost use Rattle.std.specs.Prelude.{◌≡◌, ℕ, List, None, OnOk, IsSomeAnd};
    ghost use Rattle.std.specs.Io.KnownBytes.{Keeps};
    ghost use Rattle.geolint_report.specs.declared.report.Report.{Report};
    ghost use Rattle.geolint_report.specs.Sought.{AreSought};
    ghost use Rattle.report_forms.specs.Passing.{passes};
    ghost use Rattle.geolint_files.specs.Internal.RunState.{TellsFile, SameTold};
    ghost use Rattle.geolint_files.specs.Run.{judged, not_read};
    ghost use Rattle.geolint_files.specs.Told.{HasHeldIf, HasSites, shows};
    ghost use Rattle.geolint_report.specs.Held.{AreHeldBy};

    /// Reports a file that was checked, with the lines of its places where it has some.
    pub fn tell_found<S: Rewind>(
        &mut self,
        name: &[u8],
        finding: Finding,
        source: &mut S,
        reading: Reading,
    ) -> Result<(), Failure>
        ensures text { S.text source.new ≡ S.text source.old }
        ensures told { OnOk result ((report : Report) × (report.name.now ≡ name.now) × (report.finding ≡ finding)
            × HasSites reading self.old.options.limits (S.text source.old) (S.failed_reads source.old) (S.failed_reads source.new) report
            × TellsFile W.contents (judged report) self.old self.new) }
    {
        if finding.has_places() {
            self.tell_sought(name, finding, source, reading)
        } else {
            self.tell(name, finding, None)
        }
    }

    /// Reads a source again, and reports it with its lines: with none where that failed.
    ///
    /// The sites have room of their own, so a file without any pays nothing for it.
    #[inline(never)]
    fn tell_sought<S: Rewind>(
        &mut self,
        name: &[u8],
        finding: Finding,
        source: &mut S,
        reading: Reading,
    ) -> Result<(), Failure>
        ensures text { S.text source.new ≡ S.text source.old }
        ensures told { OnOk result ((report : Report) × (report.name.now ≡ name.now) × (report.finding ≡ finding)
            × IsSomeAnd report.sites
            (λ sites. AreSought finding reading self.old.options.limits (S.text source.old) (S.failed_reads source.old) (S.failed_reads source.new) sites.now)
            × TellsFile W.contents (judged report) self.old self.new) }
    {
        let sites = find_sites(
            &finding,
            source,
            reading,
            self.options.limits,
            &mut self.progress,
        );
        let found = found_at(&finding, &sites, reading, source);
        let hint = find_hint(&finding, self.linter, source);
        self.tell_with_hint(name, finding, Some(&sites), found, hint)
    }

    /// Reports what was read once, with the lines of its places where they are shown.
    pub fn tell_once(
        &mut self,
        name: &[u8],
        finding: Finding,
        spots: &Spots,
        reading: Reading,
        is_shown: bool,
    ) -> Result<(), Failure>
        ensures { OnOk result ((report : Report) × (report.name.now ≡ name.now) × (report.finding ≡ finding)
            × HasHeldIf (shows is_shown self.old.options.format finding) (AreHeldBy spots.now finding reading self.old.options.limits) report
            × TellsFile W.contents (judged report) self.old self.new) }
    {
        if shows(is_shown, self.options.format, &finding) {
            self.tell_held(name, finding, spots, reading)
        } else {
            self.tell(name, finding, None)
        }
    }

    /// Reports what was read once, with the lines of its places that are still held.
    #[inline(never)]
    fn tell_held(
        &mut self,
        name: &[u8],
        finding: Finding,
        spots: &Spots,
        reading: Reading,
    ) -> Result<(), Failure>
        ensures { OnOk result ((report : Report) × (report.name.now ≡ name.now) × (report.finding ≡ finding)
            × IsSomeAnd report.sites (λ sites. AreHeldBy spots.now finding reading self.old.options.limits sites.now)
            × TellsFile W.contents (judged report) self.old self.new) }
    {
        let sites = spots.sites(&finding, reading, self.options.limits);
        let found = found_at(&finding, &sites, reading, spots);
        let hint = find_hint(&finding, self.linter, spots);
        self.tell_with_hint(name, finding, Some(&sites), found, hint)
    }

    /// Reports a file that was checked.
    pub fn tell(
        &mut self,
        name: &[u8],
        finding: Finding,
        sites: Option<&Sites>,
    ) -> Result<(), Failure>
        ensures { OnOk result (TellsFile W.contents (judged (record {
          name = name.entry;
          finding = finding;
          sites = sites.entry;
          passes = passes self.old.options.strictness finding;
          found = None;
          hint = None;
        })) self.old self.new) }
    {
        self.tell_with_hint(name, finding, sites, None, None)
    }

    /// Reports a file that was checked, and what it looks like.
    fn tell_with_hint(
        &mut self,
        name: &[u8],
        finding: Finding,
        sites: Option<&Sites>,
        found: Option<Found>,
        hint: Option<Hint>,
    ) -> Result<(), Failure>
        ensures { OnOk result (TellsFile W.contents (judged (record {
          name = name.entry;
          finding = finding;
          sites = sites.entry;
          passes = passes self.old.options.strictness finding;
          found = found;
          hint = hint;
        })) self.old self.new) }
    {
        self.progress.clear();
        let passes = self.options.passes(&finding);
        self.outcome.add(Outcome::of(passes));
        self.summary.add_file(&finding);
        let report = Report {
            name,
            finding,
            sites,
            passes,
            found,
            hint,
        };
        self.log.put_report(
            self.rt.alloc(),
            &report,
            &self.options,
            self.style,
            &mut self.line,
        )?;
        self.write()?;
        self.show()
    }

    /// Reports a file that could not be opened or read. Each is reported on standard error.
    pub fn tell_unread(&mut self, name: &[u8], error: &io::Error) -> Result<(), Failure>
        ensures { OnOk result ((reason : List ℕ) × TellsFile W.contents (not_read name.now reason) self.old self.new) }
    {
        self.progress.clear();
        self.outcome.add(Outcome::Unread);
        self.summary.add_unread();
        let alloc = self.rt.alloc();
        let reason = reason(alloc, error)?;
        self.out.flush()?;
        let mut line = Vec::new(alloc);
        put_unread_line(name, reason.as_bytes(), &mut line)?;
        // Where standard error cannot be written either, the status says it.
        let _ = self.rt.stderr().write_all(line.as_slice());
        let (format, reason) = (self.options.format, reason.as_str());
        self.log.keep_unread(alloc, format, name, reason)?;
        self.log
            .put_unread(alloc, format, name, reason, &mut self.line)?;
        self.write()?;
        self.show()
    }

    /// On a terminal each file is shown when it is checked.
    pub fn show(&mut self) -> Result<(), Failure>
        ensures same { SameTold self.old self.new }
        ensures log { self.new.log ≡ self.old.log }
        ensures line { self.new.line ≡ self.old.line }
        ensures out { Keeps (W.contents self.old.out) (W.contents self.new.out) }
    {
        if self.is_terminal {
            self.out.flush()?;
        }
        Ok(())
    }
}

/// Whether the lines of what is found in a source that is read once are reported.
fn shows(is_shown: bool, format: Format, finding: &Finding) -> bool
    ensures { result ≡ shows is_shown format finding.now }
{
    match format {
        Format::Text => false,
        _ => is_shown && finding.has_places(),
    }
}
