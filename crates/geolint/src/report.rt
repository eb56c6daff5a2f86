//! The report of a verdict.
ghost use Rattle.std.specs.Prelude.{◌≡◌, ◌+◌, ◌≤◌, length, OnOk, IfErr, codes};
ghost use Rattle.std.specs.Io.KnownBytes.{Appends};
ghost use Rattle.gj_rules.specs.Sequence.{SequenceJudgement, SequenceSays};
ghost use Rattle.gj_rules.specs.Verdict.{Judgement, Says};
ghost use Rattle.geolint_report.specs.Judged.{CountsFailure};
ghost use Rattle.geolint.specs.Report.{refusal_line, broken_line, report, version_line};
ghost use Rattle.geolint.specs.Room.{written_in, Adds};
ghost use Rattle.geolint.specs.Sequence.{sequence_report};
ghost use Rattle.geolint.specs.VerdictReport.{verdict_report, sequence_verdict_report};
ghost use Rattle.geolint.specs.Written.{IsFrontOut};
ghost use Rattle.geolint.specs.declared.room.TheConstants.{CAPACITY, MOST_LINE};

mod path;
mod sequence;
mod warnings;

use crate::fault::{USAGE, WriteFault};
use crate::report::path::push_path;
use crate::report::sequence::push_sequence_report;
use crate::report::warnings::push_valid;
use crate::room::Room;
use crate::sink::Sink;
use gj_coords::Fault;
use gj_json::{JsonFault, Path};
use gj_rules::{SeqVerdict, Verdict};
use itoa::Buffer;

/// Writes the bytes, in one piece where the writer takes it whole.
pub fn write_bytes<W: Sink>(bytes: &[u8], writer: &mut W) -> Result<(), WriteFault>
    ensures whole { OnOk result (Appends (W.taken writer.old) (W.taken writer.new) bytes.now) }
    ensures front { IfErr result (λ fault.
        IsFrontOut (W.taken writer.old) (W.taken writer.new) bytes.now fault.written) }
    ensures failed { CountsFailure (W.failed_writes writer.old) (W.failed_writes writer.new) result }
{
    let mut at = 0;
    while at < bytes.len() {
        match writer.write_piece(&bytes[at..]) {
            Ok(count) if count > 0 => at += count,
            _ => return Err(WriteFault { written: at as u64 }),
        }
    }
    Ok(())
}

fn push_refusal(fault: JsonFault, room: &mut Room)
    requires { length (written_in room.old) + MOST_LINE ≤ CAPACITY }
    ensures { Adds room.old room.new (refusal_line fault) }
{
    let mut digits = Buffer::new();
    let place = digits.format(fault.place).as_bytes();
    room.push_all(&[
        b"not JSON at ",
        place,
        b": ",
        fault.cause.text().as_bytes(),
        b"\n",
    ]);
}

/// The line of a broken rule.
fn push_fault(fault: Fault, room: &mut Room)
    requires { length (written_in room.old) + MOST_LINE ≤ CAPACITY }
    ensures line { Adds room.old room.new (broken_line fault) }
    ensures short { length (written_in room.new) ≤ length (written_in room.old) + MOST_LINE }
{
    let mut number_digits = Buffer::new();
    let number = number_digits.format(fault.rule.number()).as_bytes();
    let mut place_digits = Buffer::new();
    let place = place_digits.format(fault.place).as_bytes();
    let text = fault.rule.text().as_bytes();
    room.push_all(&[b"broken G", number, b" at ", place, b": ", text, b"\n"]);
}

/// The report of a verdict.
fn push_report(verdict: Verdict, path: Option<Path>, room: &mut Room)
    requires { length (written_in room.old) ≤ MOST_LINE }
    ensures { Adds room.old room.new (verdict_report verdict path) }
{
    match verdict {
        Verdict::Valid(warnings) => push_valid(&warnings, room),
        Verdict::Broken(fault) => {
            push_fault(fault, room);
            push_path(path, room);
        }
        Verdict::NotJson(fault) => push_refusal(fault, room),
    }
}

/// Writes the report of a verdict: its line, for a valid text one line more for each kind of warning that it has, and for
/// a broken rule one with the path of the value that breaks it, where it is given.
///
/// On `Ok` the writer has taken all of it, after what it had taken before. On an error it has taken the first `written`
/// bytes of it, and not all.
#[tactic(auto, using(crate::proofs::VerdictReports::verdict_said))]
pub fn write_report<W: Sink>(
    verdict: Verdict,
    path: Option<Path>,
    writer: &mut W,
) -> Result<(), WriteFault>
    ensures whole { OnOk result (Appends (W.taken writer.old) (W.taken writer.new) (verdict_report verdict path)) }
    ensures front { IfErr result (λ fault.
        IsFrontOut (W.taken writer.old) (W.taken writer.new) (verdict_report verdict path) fault.written) }
    ensures said { (judgement : Judgement) → Says verdict judgement → verdict_report verdict path ≡ report judgement path }
    ensures failed { CountsFailure (W.failed_writes writer.old) (W.failed_writes writer.new) result }
{
    let mut room = Room::new();
    push_report(verdict, path, &mut room);
    write_bytes(room.bytes(), writer)
}

/// Writes the report of a sequence: `valid`, the count of its records and the warning lines of all of them; or the number
/// of the first record that is not valid, and the report of its verdict without a path.
///
/// What went out is as `write_report` has it.
#[tactic(auto, using(crate::proofs::VerdictReports::sequence_said))]
pub fn write_seq_report<W: Sink>(verdict: SeqVerdict, writer: &mut W) -> Result<(), WriteFault>
    ensures whole { OnOk result (Appends (W.taken writer.old) (W.taken writer.new) (sequence_verdict_report verdict)) }
    ensures front { IfErr result (λ fault.
        IsFrontOut (W.taken writer.old) (W.taken writer.new) (sequence_verdict_report verdict) fault.written) }
    ensures said { (judgement : SequenceJudgement) → SequenceSays verdict judgement → sequence_verdict_report verdict ≡ sequence_report judgement }
    ensures failed { CountsFailure (W.failed_writes writer.old) (W.failed_writes writer.new) result }
{
    let mut room = Room::new();
    push_sequence_report(verdict, &mut room);
    write_bytes(room.bytes(), writer)
}

/// Writes the line of an input that is not valid, where nothing more is reported, as `write_report` does a report.
pub fn write_not_valid<W: Sink>(writer: &mut W) -> Result<(), WriteFault>
    ensures whole { OnOk result (Appends (W.taken writer.old) (W.taken writer.new) (codes "not valid\n")) }
    ensures front { IfErr result (λ fault.
        IsFrontOut (W.taken writer.old) (W.taken writer.new) (codes "not valid\n") fault.written) }
    ensures failed { CountsFailure (W.failed_writes writer.old) (W.failed_writes writer.new) result }
{
    write_bytes(b"not valid\n", writer)
}

/// Writes the line that says the version, as `write_report` does a report.
pub fn write_version<W: Sink>(writer: &mut W) -> Result<(), WriteFault>
    ensures whole { OnOk result (Appends (W.taken writer.old) (W.taken writer.new) version_line) }
    ensures front { IfErr result (λ fault.
        IsFrontOut (W.taken writer.old) (W.taken writer.new) version_line fault.written) }
    ensures failed { CountsFailure (W.failed_writes writer.old) (W.failed_writes writer.new) result }
{
    write_bytes(b"geolint 0.1.0\n", writer)
}

/// Writes how the program is called.
pub fn write_help<W: Sink>(writer: &mut W) -> Result<(), WriteFault> {
    let mut room = Room::new();
    room.push_all(&[USAGE.as_bytes(), b"\n"]);
    write_bytes(room.bytes(), writer)
}
