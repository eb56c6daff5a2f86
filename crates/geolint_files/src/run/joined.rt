//! Reports a file whose verdict is known.
ghost use Rattle.std.specs.Prelude.{IfOk};
ghost use Rattle.geolint_files.specs.JoinedRun.{IsJoinedRun, readings_of};

use super::features::asked_in;
use super::{Ended, Failure, Run};
use crate::words::Order;
use geolint_report::every::listing::{Asked, Notes};
use geolint_report::every::spots::Unplaced;
use geolint_report::judge::Finding;
use geolint_report::source::Rewind;
use gj_rules::Linter;
use std::io::{self, ErrorKind, Write};

/// Reports a file of which it is known what was found, and the notes on its records where these are asked for. The report goes to the
/// writer. The lines and columns of its places are found in the source, where there is one. Where nothing is known, it is read.
pub fn tell_joined<W: Write + Drop, S: Rewind>(
    rt: &HostRuntime,
    order: &Order,
    name: &[u8],
    finding: Option<Finding>,
    notes: Option<Notes>,
    source: &mut Option<S>,
    out: W,
) -> Result<Ended<W>, Failure>
    ensures { IfOk result (λ ended. IsJoinedRun order.now.options finding notes name.now
        (readings_of S.text S.failed_reads source.old source.new) (W.contents out) (W.contents ended.out) ended.outcome) }
{
    let mut linter = Linter::new(order.options.limits);
    let mut run = Run::new(rt, order, &mut linter, out)?;
    run.begin()?;
    run.tell_file(name, finding, notes, source)?;
    run.end()?;
    Ok(Ended {
        outcome: run.outcome,
        out: run.out,
    })
}

impl<'a, W: Write + Drop> Run<'a, W> {
    ghost use Rattle.std.specs.Prelude.{◌≡◌, List, OnOk, Some};
    ghost use Rattle.geolint_report.specs.declared.report.Report.{Report};
    ghost use Rattle.geolint_files.specs.Internal.RunState.{TellsFile};
    ghost use Rattle.geolint_files.specs.JoinedRun.{IsFileOf, IsJoinedFile, IsListedFile, IsReadFile, IsWholeFile, readings_of};
    ghost use Rattle.geolint_files.specs.Listed.{asked_in};
    ghost use Rattle.geolint_files.specs.Run.{ToldFile, FeatureLine, judged, listed};

    /// Reports a file of which it may be known what was found, and the notes on its records where these are asked for.
    fn tell_file<S: Rewind>(
        &mut self,
        name: &[u8],
        finding: Option<Finding>,
        notes: Option<Notes>,
        source: &mut Option<S>,
    ) -> Result<(), Failure>
        ensures { OnOk result ((file : ToldFile)
            × IsJoinedFile self.old.options finding notes name.now (readings_of S.text S.failed_reads source.old source.new) file
            × TellsFile W.contents file self.old self.new) }
    {
        match finding {
            Some(finding) => self.tell_known(name, finding, notes, source),
            None => self.judge_anew(name, source),
        }
    }

    /// Reads a file from its first byte on, and reports it as a run does that reads it once more for the lines.
    fn judge_anew<S: Rewind>(&mut self, name: &[u8], source: &mut Option<S>) -> Result<(), Failure>
        ensures { OnOk result ((file : ToldFile)
            × IsReadFile self.old.options name.now (readings_of S.text S.failed_reads source.old source.new) file
            × TellsFile W.contents file self.old self.new) }
    {
        match source {
            Some(source) => match source.rewind() {
                Ok(()) => self.judge_file(name, source),
                Err(error) => self.tell_unread(name, &error),
            },
            None => self.tell_unread(name, &io::Error::from(ErrorKind::NotFound)),
        }
    }

    /// Reports a file of which it is known what was found, and the notes on its records where these are asked for.
    fn tell_known<S: Rewind>(
        &mut self,
        name: &[u8],
        finding: Finding,
        notes: Option<Notes>,
        source: &mut Option<S>,
    ) -> Result<(), Failure>
        ensures { OnOk result ((file : ToldFile)
            × IsFileOf self.old.options notes (asked_in self.old.options) name.now finding
            (readings_of S.text S.failed_reads source.old source.new) file
            × TellsFile W.contents file self.old self.new) }
    {
        match notes {
            None => self.tell_whole(name, finding, source),
            Some(notes) => match asked_in(&self.options) {
                None => self.tell_whole(name, finding, source),
                Some(asked) => self.list_known(name, finding, asked, &notes, source),
            },
        }
    }

    /// Reports it as a whole, with the lines of its places where its source is there.
    fn tell_whole<S: Rewind>(
        &mut self,
        name: &[u8],
        finding: Finding,
        source: &mut Option<S>,
    ) -> Result<(), Failure>
        ensures { OnOk result ((report : Report)
            × IsWholeFile self.old.options name.now finding (readings_of S.text S.failed_reads source.old source.new) report
            × TellsFile W.contents (judged report) self.old self.new) }
    {
        match source {
            Some(source) => {
                let reading = self.reading(name);
                self.tell_refused(name, finding, source, reading)
            }
            None => self.tell(name, finding, None),
        }
    }

    /// Reports it, and then the notes on its records, with the lines of their places where its source is there.
    fn list_known<S: Rewind>(
        &mut self,
        name: &[u8],
        finding: Finding,
        asked: Asked,
        notes: &Notes,
        source: &mut Option<S>,
    ) -> Result<(), Failure>
        requires { asked_in self.old.options ≡ Some asked }
        ensures { OnOk result ((report : Report) × (lines : List FeatureLine)
            × IsListedFile self.old.options name.now finding asked notes.now (readings_of S.text S.failed_reads source.old source.new) report lines
            × TellsFile W.contents (listed report lines notes.now.tally) self.old self.new) }
    {
        match source {
            Some(source) => {
                let reading = self.reading(name);
                self.list_placed(name, finding, source, reading, asked, notes)
            }
            None => self.list_followed(name, finding, notes, &Unplaced),
        }
    }
}
