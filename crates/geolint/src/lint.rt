ghost use Rattle.std.specs.Prelude.{◌≡◌, ℕ, List, ◌+◌, ◌<◌, ◌≤◌, length, IfOk, IfErr};
ghost use Rattle.std.specs.Io.KnownBytes.{Consumes};
ghost use Rattle.gj_rules.specs.Verdict.{Judgement, IsJudgement, Says};
ghost use Rattle.geolint_report.specs.Fed.{ShowNoRefusal};
ghost use Rattle.geolint_report.specs.Judged.{CountsFailure};
ghost use Rattle.geolint.specs.Judged.{JudgesBy, StopsBy};

use crate::fault::ReadFault;
use crate::source::{Source, read};
use geolint_report::feeds::Texts;
use gj_json::Limits;
use gj_rules::{Linter, Verdict, one_verdict};

/// Reads an input until it ends or is refused, and returns its verdict.
///
/// No read follows the one whose bytes are refused. There is at most one read more than the input may have bytes. Where
/// a read failed, the error has the number of bytes that had come before.
// What is large lies in its frame alone, and not in those of the functions that call it.
#[inline(never)]
pub fn lint_reader<S: Source>(reader: &mut S, limits: Limits) -> Result<Verdict, ReadFault>
    ensures few { S.reads reader.new ≤ S.reads reader.old + (limits.bytes + 1) }
    ensures stops { StopsBy ShowNoRefusal limits (S.remaining reader.old) (S.remaining reader.new) (S.reads reader.old) (S.reads reader.new) }
    ensures failed { CountsFailure (S.failed_reads reader.old) (S.failed_reads reader.new) result }
    ensures given { IfErr result (λ fault. S.bytes_given reader.new < u64.MAX
        → S.bytes_given reader.new ≡ S.bytes_given reader.old + fault.offset) }
    ensures offset { IfErr result (λ fault.
        (read : List ℕ) × Consumes (S.remaining reader.old) (S.remaining reader.new) read × (length read ≡ fault.offset)) }
    ensures verdict { IfOk result (λ verdict. (judgement : Judgement) × Says verdict judgement
        × JudgesBy IsJudgement limits (S.remaining reader.old) (S.remaining reader.new) judgement) }
{
    one_verdict();
    let mut linter = Linter::new(limits);
    match read::<S, Linter, Texts>(reader, &mut linter, limits) {
        // A linter is large: it stays where it lies.
        Ok(_) => Ok(linter.finish_and_begin(limits)),
        Err(fault) => Err(fault),
    }
}
