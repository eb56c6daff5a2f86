ghost use Rattle.std.specs.Prelude.{◌≡◌, ◌+◌, ◌≤◌, true, false, MatchResult, IfOk, OnOk, IfErr};
ghost use Rattle.std.specs.Io.KnownBytes.{Appends};
ghost use Rattle.gj_rules.specs.Verdict.{Judgement, broken, IsJudgement, Says};
ghost use Rattle.geolint_report.specs.Fed.{ShowNoRefusal, ShowNoFault};
ghost use Rattle.geolint.specs.Judged.{JudgesBy, StopsBy};
ghost use Rattle.geolint.specs.Quick.{QuickRuns};
ghost use Rattle.geolint.specs.Report.{report as report_of};
ghost use Rattle.geolint_report.specs.ReadingLoop.{one_more};
ghost use Rattle.geolint.specs.Run.{CountsReadFault, CountsWriteFault, CountsOffset, Runs, RunsBy, SeeksFor, SparesAtReadFault, ReadFaultOf};
ghost use Rattle.geolint.specs.Run.{WriteFaultOf, outcome_of};

use crate::fault::RunFault;
use crate::lint::lint_reader;
use crate::locate::locate_reader;
use crate::options::{Options, Outcome};
use crate::quick::run_quickly;
use crate::report::write_report;
use crate::sink::Sink;
use crate::source::Source;
use gj_coords::Fault;
use gj_json::{Limits, Path};
use gj_rules::Verdict;

/// Validates what the reader gives, writes the report of the verdict, and returns whether the input passes.
///
/// Under `quick` the run says only whether the input is valid. Of one that is not, it reads no more than it takes to
/// know that, and writes the line `not valid` in place of the report.
///
/// After an error of the reader nothing was written. After one of the writer a prefix of the report was.
pub fn run<S: Source, W: Sink>(
    reader: &mut S,
    writer: &mut W,
    options: Options,
) -> Result<Outcome, RunFault>
    ensures few { S.reads reader.new ≤ S.reads reader.old + (options.limits.bytes + 1) }
    ensures reads { CountsReadFault (S.failed_reads reader.old) (S.failed_reads reader.new) result }
    ensures given { CountsOffset (S.bytes_given reader.old) (S.bytes_given reader.new) result }
    ensures writes { CountsWriteFault (W.failed_writes writer.old) (W.failed_writes writer.new) result }
    ensures runs { options.quick ≡ false → Runs options (S.remaining reader.old) (S.remaining reader.new)
        (W.taken writer.old) (W.taken writer.new) result }
    ensures quick { options.quick ≡ true → QuickRuns options (S.remaining reader.old) (S.remaining reader.new)
        (W.taken writer.old) (W.taken writer.new) result }
    ensures stops { options.quick ≡ true → StopsBy ShowNoFault options.limits (S.remaining reader.old) (S.remaining reader.new)
        (S.reads reader.old) (S.reads reader.new) }
    ensures refused { options.quick ≡ false → StopsBy ShowNoRefusal options.limits (S.remaining reader.old) (S.remaining reader.new)
        (S.reads reader.old) (S.reads reader.new) }
{
    if options.quick {
        return run_quickly(reader, writer, options);
    }
    let verdict = judge(reader, options.limits)?;
    report(verdict, None, writer, options.strict)
}

/// Validates what the first reader gives, and writes the report of the verdict. Where a rule is broken, it seeks the
/// path of the value that breaks it in the second reader, which is to give the same bytes. Where it does not find the
/// path there, or a read fails, the report has no path. It does not read the second reader where no rule is broken or
/// the first reader fails, and never under `quick`, which is as for `run`.
///
/// After an error of the first reader nothing was written. After one of the writer a prefix of the report was.
pub fn run_with_path<S: Source, T: Source, W: Sink>(
    first: &mut S,
    second: &mut T,
    writer: &mut W,
    options: Options,
) -> Result<Outcome, RunFault>
    ensures few { S.reads first.new ≤ S.reads first.old + (options.limits.bytes + 1) }
    ensures few_more { T.reads second.new ≤ T.reads second.old + (options.limits.bytes + 1) }
    ensures spared { SparesAtReadFault (T.reads second.old) (T.reads second.new) result }
    ensures reads { CountsReadFault (S.failed_reads first.old) (S.failed_reads first.new) result }
    ensures given { CountsOffset (S.bytes_given first.old) (S.bytes_given first.new) result }
    ensures writes { CountsWriteFault (W.failed_writes writer.old) (W.failed_writes writer.new) result }
    ensures runs { options.quick ≡ false → RunsBy (λ judgement. SeeksFor judgement options.limits (T.remaining second.old) (T.remaining second.new)
        (T.failed_reads second.old) (T.failed_reads second.new) (T.reads second.old) (T.reads second.new))
        options (S.remaining first.old) (S.remaining first.new) (W.taken writer.old) (W.taken writer.new) result }
    ensures quick { options.quick ≡ true → QuickRuns options (S.remaining first.old) (S.remaining first.new)
        (W.taken writer.old) (W.taken writer.new) result }
    ensures stops { options.quick ≡ true → StopsBy ShowNoFault options.limits (S.remaining first.old) (S.remaining first.new)
        (S.reads first.old) (S.reads first.new) }
    ensures refused { options.quick ≡ false → StopsBy ShowNoRefusal options.limits (S.remaining first.old) (S.remaining first.new)
        (S.reads first.old) (S.reads first.new) }
    ensures unread { options.quick ≡ true → second.new ≡ second.old }
{
    if options.quick {
        return run_quickly(first, writer, options);
    }
    let verdict = judge(first, options.limits)?;
    let path = sought_path(verdict, second, options.limits);
    report(verdict, path, writer, options.strict)
}

/// The verdict of what a reader gives.
fn judge<S: Source>(reader: &mut S, limits: Limits) -> Result<Verdict, RunFault>
    ensures few { S.reads reader.new ≤ S.reads reader.old + (limits.bytes + 1) }
    ensures refused { StopsBy ShowNoRefusal limits (S.remaining reader.old) (S.remaining reader.new) (S.reads reader.old) (S.reads reader.new) }
    ensures reads { MatchResult result (λ verdict. S.failed_reads reader.new ≡ S.failed_reads reader.old)
        (λ fault. S.failed_reads reader.new ≡ one_more (S.failed_reads reader.old)) }
    ensures verdict { IfOk result (λ verdict. (judgement : Judgement) × Says verdict judgement
        × JudgesBy IsJudgement limits (S.remaining reader.old) (S.remaining reader.new) judgement) }
    ensures fault { IfErr result (λ fault. ReadFaultOf (S.remaining reader.old) (S.remaining reader.new)
        (S.bytes_given reader.old) (S.bytes_given reader.new) fault) }
{
    match lint_reader(reader, limits) {
        Ok(verdict) => Ok(verdict),
        Err(fault) => Err(RunFault::Read(fault)),
    }
}

/// Writes the report, and returns whether the input passes.
fn report<W: Sink>(
    verdict: Verdict,
    path: Option<Path>,
    writer: &mut W,
    strict: bool,
) -> Result<Outcome, RunFault>
    ensures writes { MatchResult result (λ outcome. W.failed_writes writer.new ≡ W.failed_writes writer.old)
        (λ fault. W.failed_writes writer.new ≡ one_more (W.failed_writes writer.old)) }
    ensures outcome { (judgement : Judgement) → Says verdict judgement → IfOk result (λ outcome. outcome ≡ outcome_of strict judgement) }
    ensures whole { (judgement : Judgement) → Says verdict judgement →
        OnOk result (Appends (W.taken writer.old) (W.taken writer.new) (report_of judgement path)) }
    ensures fault { (judgement : Judgement) → Says verdict judgement → IfErr result (λ fault.
        WriteFaultOf (W.taken writer.old) (W.taken writer.new) (report_of judgement path) fault) }
{
    match write_report(verdict, path, writer) {
        Ok(()) => Ok(outcome_of(verdict, strict)),
        Err(fault) => Err(RunFault::Write(fault)),
    }
}

/// The path to the value that breaks a rule, where one is broken and the reader leads there.
fn sought_path<T: Source>(verdict: Verdict, reader: &mut T, limits: Limits) -> Option<Path>
    ensures few { T.reads reader.new ≤ T.reads reader.old + (limits.bytes + 1) }
    ensures sought { (judgement : Judgement) → Says verdict judgement → SeeksFor judgement limits (T.remaining reader.old) (T.remaining reader.new)
        (T.failed_reads reader.old) (T.failed_reads reader.new) (T.reads reader.old) (T.reads reader.new) result }
{
    match verdict {
        Verdict::Broken(fault) => path_to(fault, reader, limits),
        _ => None,
    }
}

fn path_to<T: Source>(fault: Fault, reader: &mut T, limits: Limits) -> Option<Path>
    ensures few { T.reads reader.new ≤ T.reads reader.old + (limits.bytes + 1) }
    ensures sought { SeeksFor (broken fault) limits (T.remaining reader.old) (T.remaining reader.new)
        (T.failed_reads reader.old) (T.failed_reads reader.new) (T.reads reader.old) (T.reads reader.new) result }
{
    match locate_reader(reader, limits, fault.place) {
        Ok(path) => path,
        Err(_) => None,
    }
}

/// Whether an input with this verdict passes: where the run is strict, only without a warning.
pub fn outcome_of(verdict: Verdict, strict: bool) -> Outcome
    ensures { (judgement : Judgement) → Says verdict judgement → result ≡ outcome_of strict judgement }
{
    match verdict {
        Verdict::Valid(warnings) if !strict || warnings.is_empty() => Outcome::Pass,
        _ => Outcome::Fail,
    }
}
