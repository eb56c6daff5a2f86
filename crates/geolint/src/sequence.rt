//! A run over a text sequence (RFC 8142).
ghost use Rattle.std.specs.Prelude.{◌≡◌, ℕ, List, ◌+◌, ◌<◌, ◌≤◌, length, MatchResult, IfOk, OnOk, IfErr};
ghost use Rattle.std.specs.Io.KnownBytes.{Consumes, Appends};
ghost use Rattle.gj_rules.specs.Sequence.{SequenceJudgement, SequenceSays, IsUndecided};
ghost use Rattle.geolint_report.specs.Judged.{CountsFailure};
ghost use Rattle.geolint_report.specs.ReadingLoop.{one_more};
ghost use Rattle.geolint.specs.Judged.{StopsBy};
ghost use Rattle.geolint.specs.Run.{CountsReadFault, CountsWriteFault, CountsOffset, WriteFaultOf};
ghost use Rattle.geolint.specs.Sequence.{JudgesSequence, SequenceRuns, sequence_report, sequence_outcome};

use crate::fault::{ReadFault, RunFault};
use crate::options::{Options, Outcome};
use crate::report::write_seq_report;
use crate::run::outcome_of;
use crate::sink::Sink;
use crate::source::{Source, read};
use geolint_report::feeds::Sequences;
use gj_json::Limits;
use gj_rules::{SeqVerdict, Sequence, Verdict, one_sequence_verdict};

/// Reads a sequence until it ends or a byte decides that a record is not valid, and returns its verdict.
///
/// No read follows the one with that byte. Reads and errors are as `lint_reader` has them.
// What is large lies in its frame alone, and not in those of the functions that call it.
#[inline(never)]
pub fn lint_sequence<S: Source>(reader: &mut S, limits: Limits) -> Result<SeqVerdict, ReadFault>
    ensures few { S.reads reader.new ≤ S.reads reader.old + (limits.bytes + 1) }
    ensures stops { StopsBy IsUndecided limits (S.remaining reader.old) (S.remaining reader.new) (S.reads reader.old) (S.reads reader.new) }
    ensures failed { CountsFailure (S.failed_reads reader.old) (S.failed_reads reader.new) result }
    ensures given { IfErr result (λ fault. S.bytes_given reader.new < u64.MAX
        → S.bytes_given reader.new ≡ S.bytes_given reader.old + fault.offset) }
    ensures offset { IfErr result (λ fault.
        (read : List ℕ) × Consumes (S.remaining reader.old) (S.remaining reader.new) read × (length read ≡ fault.offset)) }
    ensures verdict { IfOk result (λ verdict. (judgement : SequenceJudgement) × SequenceSays verdict judgement
        × JudgesSequence limits (S.remaining reader.old) (S.remaining reader.new) judgement) }
{
    one_sequence_verdict();
    let mut sequence = Sequence::new(limits);
    match read::<S, Sequence, Sequences>(reader, &mut sequence, limits) {
        Ok(_) => Ok(sequence.finish()),
        Err(fault) => Err(fault),
    }
}

/// Validates the sequence that the reader gives, writes its report, and returns whether it passes. It ignores `quick`.
///
/// Errors are as `run` has them.
pub fn run_sequence<S: Source, W: Sink>(
    reader: &mut S,
    writer: &mut W,
    options: Options,
) -> Result<Outcome, RunFault>
    ensures few { S.reads reader.new ≤ S.reads reader.old + (options.limits.bytes + 1) }
    ensures stops { StopsBy IsUndecided options.limits (S.remaining reader.old) (S.remaining reader.new) (S.reads reader.old) (S.reads reader.new) }
    ensures reads { CountsReadFault (S.failed_reads reader.old) (S.failed_reads reader.new) result }
    ensures given { CountsOffset (S.bytes_given reader.old) (S.bytes_given reader.new) result }
    ensures writes { CountsWriteFault (W.failed_writes writer.old) (W.failed_writes writer.new) result }
    ensures runs { SequenceRuns options (S.remaining reader.old) (S.remaining reader.new)
        (W.taken writer.old) (W.taken writer.new) result }
{
    match lint_sequence(reader, options.limits) {
        Err(fault) => Err(RunFault::Read(fault)),
        Ok(verdict) => report_sequence(verdict, writer, options.strict),
    }
}

/// Writes the report, and returns whether the sequence passes.
fn report_sequence<W: Sink>(
    verdict: SeqVerdict,
    writer: &mut W,
    strict: bool,
) -> Result<Outcome, RunFault>
    ensures writes { MatchResult result (λ outcome. W.failed_writes writer.new ≡ W.failed_writes writer.old)
        (λ fault. W.failed_writes writer.new ≡ one_more (W.failed_writes writer.old)) }
    ensures outcome { (judgement : SequenceJudgement) → SequenceSays verdict judgement → IfOk result (λ outcome. outcome ≡ sequence_outcome strict judgement) }
    ensures whole { (judgement : SequenceJudgement) → SequenceSays verdict judgement →
        OnOk result (Appends (W.taken writer.old) (W.taken writer.new) (sequence_report judgement)) }
    ensures fault { (judgement : SequenceJudgement) → SequenceSays verdict judgement → IfErr result (λ fault.
        WriteFaultOf (W.taken writer.old) (W.taken writer.new) (sequence_report judgement) fault) }
{
    match write_seq_report(verdict, writer) {
        Ok(()) => Ok(sequence_outcome(verdict, strict)),
        Err(fault) => Err(RunFault::Write(fault)),
    }
}

/// Whether a sequence with this verdict passes.
fn sequence_outcome(verdict: SeqVerdict, strict: bool) -> Outcome
    ensures { (judgement : SequenceJudgement) → SequenceSays verdict judgement → result ≡ sequence_outcome strict judgement }
{
    match verdict {
        SeqVerdict::Valid { warnings, .. } => outcome_of(Verdict::Valid(warnings), strict),
        SeqVerdict::Record { .. } => Outcome::Fail,
    }
}
