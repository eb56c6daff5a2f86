//! A run that says only whether an input is valid: it reads no further than it must to say no.
ghost use Rattle.std.specs.Prelude.{◌≡◌, ℕ, List, ◌+◌, ◌<◌, ◌≤◌, length, Option, MatchResult, IfOk, OnOk, IfErr};
ghost use Rattle.std.specs.Io.KnownBytes.{Consumes, Appends};
ghost use Rattle.gj_coords.specs.Warnings.{Warning};
ghost use Rattle.geolint_report.specs.Judged.{CountsFailure, valid_in};
ghost use Rattle.geolint_report.specs.ReadingLoop.{one_more};
ghost use Rattle.geolint_report.specs.Fed.{ShowNoFault};
ghost use Rattle.geolint.specs.Judged.{StopsBy};
ghost use Rattle.geolint.specs.Quick.{SaysValid, JudgesQuickly, QuickRuns, quick_report, quick_outcome};
ghost use Rattle.geolint.specs.Run.{CountsReadFault, CountsWriteFault, CountsOffset, WriteFaultOf};
ghost use Rattle.geolint.specs.Written.{IsFrontOut};

use crate::fault::{ReadFault, RunFault, WriteFault};
use crate::options::{Options, Outcome};
use crate::report::{write_not_valid, write_report};
use crate::run::outcome_of;
use crate::sink::Sink;
use crate::source::{Source, read};
use geolint_report::feeds::QuickTexts;
use geolint_report::reading_loop::Stage;
use gj_coords::Warnings;
use gj_json::Limits;
use gj_rules::{Linter, Verdict, one_verdict};

/// Reads an input until it ends or cannot be valid any more, and returns its warnings where it is valid.
///
/// No read follows the piece that says no. Reads and errors are as `lint_reader` has them.
// What is large lies in its frame alone, and not in those of the functions that call it.
#[inline(never)]
pub fn lint_quickly<S: Source>(
    reader: &mut S,
    limits: Limits,
) -> Result<Option<Warnings>, ReadFault>
    ensures few { S.reads reader.new ≤ S.reads reader.old + (limits.bytes + 1) }
    ensures stops { StopsBy ShowNoFault limits (S.remaining reader.old) (S.remaining reader.new) (S.reads reader.old) (S.reads reader.new) }
    ensures failed { CountsFailure (S.failed_reads reader.old) (S.failed_reads reader.new) result }
    ensures given { IfErr result (λ fault. S.bytes_given reader.new < u64.MAX
        → S.bytes_given reader.new ≡ S.bytes_given reader.old + fault.offset) }
    ensures offset { IfErr result (λ fault.
        (read : List ℕ) × Consumes (S.remaining reader.old) (S.remaining reader.new) read × (length read ≡ fault.offset)) }
    ensures valid { IfOk result (λ valid. (warnings : Option (List Warning)) × SaysValid valid warnings
        × JudgesQuickly limits (S.remaining reader.old) (S.remaining reader.new) warnings) }
{
    one_verdict();
    let mut linter = Linter::new(limits);
    match read::<S, Linter, QuickTexts>(reader, &mut linter, limits) {
        Ok(Stage::Open) => Ok(valid_in(linter.finish_and_begin(limits))),
        Ok(Stage::Decided) => Ok(None),
        Err(fault) => Err(fault),
    }
}

/// The warnings of a valid text.
fn valid_in(verdict: Verdict) -> Option<Warnings>
    ensures { result ≡ valid_in verdict }
{
    match verdict {
        Verdict::Valid(warnings) => Some(warnings),
        _ => None,
    }
}

/// Validates what the reader gives. It writes the report where the input is valid, and otherwise the line `not valid`.
///
/// Errors are as `run` has them.
pub fn run_quickly<S: Source, W: Sink>(
    reader: &mut S,
    writer: &mut W,
    options: Options,
) -> Result<Outcome, RunFault>
    ensures few { S.reads reader.new ≤ S.reads reader.old + (options.limits.bytes + 1) }
    ensures stops { StopsBy ShowNoFault options.limits (S.remaining reader.old) (S.remaining reader.new) (S.reads reader.old) (S.reads reader.new) }
    ensures reads { CountsReadFault (S.failed_reads reader.old) (S.failed_reads reader.new) result }
    ensures given { CountsOffset (S.bytes_given reader.old) (S.bytes_given reader.new) result }
    ensures writes { CountsWriteFault (W.failed_writes writer.old) (W.failed_writes writer.new) result }
    ensures runs { QuickRuns options (S.remaining reader.old) (S.remaining reader.new)
        (W.taken writer.old) (W.taken writer.new) result }
{
    match lint_quickly(reader, options.limits) {
        Err(fault) => Err(RunFault::Read(fault)),
        Ok(valid) => report_quickly(valid, writer, options.strict),
    }
}

/// Writes the report, and returns whether the input passes.
fn report_quickly<W: Sink>(
    valid: Option<Warnings>,
    writer: &mut W,
    strict: bool,
) -> Result<Outcome, RunFault>
    ensures writes { MatchResult result (λ outcome. W.failed_writes writer.new ≡ W.failed_writes writer.old)
        (λ fault. W.failed_writes writer.new ≡ one_more (W.failed_writes writer.old)) }
    ensures outcome { (warnings : Option (List Warning)) → SaysValid valid warnings → IfOk result (λ outcome. outcome ≡ quick_outcome strict warnings) }
    ensures whole { (warnings : Option (List Warning)) → SaysValid valid warnings →
        OnOk result (Appends (W.taken writer.old) (W.taken writer.new) (quick_report warnings)) }
    ensures fault { (warnings : Option (List Warning)) → SaysValid valid warnings → IfErr result (λ fault.
        WriteFaultOf (W.taken writer.old) (W.taken writer.new) (quick_report warnings) fault) }
{
    match write_quickly(valid, writer) {
        Ok(()) => Ok(quick_outcome(valid, strict)),
        Err(fault) => Err(RunFault::Write(fault)),
    }
}

fn write_quickly<W: Sink>(valid: Option<Warnings>, writer: &mut W) -> Result<(), WriteFault>
    ensures whole { (warnings : Option (List Warning)) → SaysValid valid warnings →
        OnOk result (Appends (W.taken writer.old) (W.taken writer.new) (quick_report warnings)) }
    ensures front { (warnings : Option (List Warning)) → SaysValid valid warnings → IfErr result (λ fault.
        IsFrontOut (W.taken writer.old) (W.taken writer.new) (quick_report warnings) fault.written) }
    ensures failed { CountsFailure (W.failed_writes writer.old) (W.failed_writes writer.new) result }
{
    match valid {
        Some(warnings) => write_report(Verdict::Valid(warnings), None, writer),
        None => write_not_valid(writer),
    }
}

fn quick_outcome(valid: Option<Warnings>, strict: bool) -> Outcome
    ensures { (warnings : Option (List Warning)) → SaysValid valid warnings → result ≡ quick_outcome strict warnings }
{
    match valid {
        Some(warnings) => outcome_of(Verdict::Valid(warnings), strict),
        None => Outcome::Fail,
    }
}
