//! The first reading: what a file is.
ghost use Rattle.std.specs.Prelude.{◌≡◌, ℕ, [], List, IfOk};
ghost use Rattle.gj_rules.specs.Linter.{StandsFor, limits_of};
ghost use Rattle.gj_rules.specs.Verdict.{IsVerdict};
ghost use Rattle.geolint_report.specs.Judged.{CountsFailure, JudgesRead, JudgesQuickly, JudgesSequence, JudgesLines, Finds, valid_in};
ghost use Rattle.geolint_report.specs.ReadingLoop.{Ends};
ghost use Rattle.geolint_report.specs.Spots.{FollowedFrom};

use crate::every::spots::Follower;
use crate::feeds::{Lines, QuickTexts, Sequences, Texts, Unheard};
use crate::progress::Meter;
use crate::reading_loop::{Feeds, Halt, Stage, read_all};
use crate::source::{FromSource, Source};
use gj_coords::Warnings;
use gj_json::Limits;
use gj_rules::record_laws::one_finding;
use gj_rules::{
    Framing, Linter, Progress, Records, SeqVerdict, Sequence, Verdict, one_sequence_verdict,
    one_verdict,
};
use std::io;

/// The most bytes of a read.
pub const PIECE: usize = 16384;

/// What a file is found to be.
#[derive(Clone, Copy)]
pub enum Finding {
    Text(Verdict),
    /// Of a text sequence, and of newline-delimited texts.
    Sequence(SeqVerdict),
    /// Not valid, where nothing more was asked.
    NotValid,
}

/// How a file is read.
#[derive(Clone, Copy)]
pub enum Reading {
    /// As one text, to its end or to the byte that refuses it.
    Text,
    /// As one text, until it cannot be valid any more.
    Quick,
    /// As a text sequence.
    Sequence,
    /// As newline-delimited texts.
    Lines,
}

impl Reading {
    ghost use Rattle.std.specs.Prelude.{◌≡◌};
    ghost use Rattle.geolint_report.specs.Judged.{framing_in};

    /// How the texts of what is read are separated, where it has records.
    pub fn framing(self) -> Option<Framing>
        ensures { result ≡ framing_in self }
    {
        match self {
            Reading::Sequence => Some(Framing::Sequence),
            Reading::Lines => Some(Framing::Lines),
            Reading::Text | Reading::Quick => None,
        }
    }
}

/// What the bytes of a reader are.
///
/// It is the linter's verdict of all of them, or that of a sequence or of lines; where only yes or no is asked, the warnings of
/// a valid text, or that it is not valid. An error is answered where a read failed. The bytes are counted as they come, and the
/// follower gets them. The linter is begun anew, whatever it was fed before.
pub fn judge<S: Source, W: Follower>(
    reader: &mut S,
    limits: Limits,
    reading: Reading,
    linter: &mut Linter,
    meter: &mut Meter,
    follower: &mut W,
) -> io::Result<Finding>
    ensures found { IfOk result (Finds reading limits (S.remaining reader.old) (S.remaining reader.new)) }
    ensures text { S.text reader.new ≡ S.text reader.old }
    ensures failed { CountsFailure (S.failed_reads reader.old) (S.failed_reads reader.new) result }
    ensures followed { W.follows follower.old [] → IfOk result (λ found.
        FollowedFrom (S.remaining reader.old) (S.remaining reader.new) (W.follows follower.new)) }
{
    match reading {
        Reading::Text => match judge_text(reader, limits, linter, meter, follower) {
            Ok(verdict) => Ok(Finding::Text(verdict)),
            Err(error) => Err(error),
        },
        Reading::Quick => match judge_quickly(reader, limits, linter, meter, follower) {
            Ok(Some(warnings)) => Ok(Finding::Text(Verdict::Valid(warnings))),
            Ok(None) => Ok(Finding::NotValid),
            Err(error) => Err(error),
        },
        Reading::Sequence => match judge_sequence(reader, limits, meter, follower) {
            Ok(verdict) => Ok(Finding::Sequence(verdict)),
            Err(error) => Err(error),
        },
        Reading::Lines => match judge_lines(reader, limits, meter, follower) {
            Ok(verdict) => Ok(Finding::Sequence(verdict)),
            Err(error) => Err(error),
        },
    }
}

/// Reads as [`read_all`] does, in pieces of `PIECE` bytes.
pub fn read<S: Source, L, F: Feeds<L>, W: Follower>(
    reader: &mut S,
    fed: &mut L,
    limits: Limits,
    meter: &mut Meter,
    follower: &mut W,
) -> io::Result<Stage>
    ensures ends { IfOk result (λ stage. F.stands fed.old [] → F.limits fed.old ≡ limits → Ends (F.stands fed.new) (F.decided fed.new)
        (S.remaining reader.old) (S.remaining reader.new) stage) }
    ensures limits { F.limits fed.new ≡ F.limits fed.old }
    ensures text { S.text reader.new ≡ S.text reader.old }
    ensures failed { CountsFailure (S.failed_reads reader.old) (S.failed_reads reader.new) result }
    ensures followed { W.follows follower.old [] → IfOk result (λ found.
        FollowedFrom (S.remaining reader.old) (S.remaining reader.new) (W.follows follower.new)) }
{
    let mut piece = [0; PIECE];
    match read_all::<S, FromSource, L, F, Meter, W>(
        reader, fed, limits, &mut piece, meter, follower,
    ) {
        Ok(stage) => Ok(stage),
        Err(Halt { error, .. }) => Err(error),
    }
}

/// The verdict of what a linter was fed. One that has refused a byte stays as it is: a hint depends on where it stopped.
fn verdict_of(linter: &mut Linter, limits: Limits) -> Verdict
    ensures { (bytes : List ℕ) → StandsFor linter.old bytes → IsVerdict (limits_of linter.old) bytes result }
{
    match linter.feed(&[]) {
        Progress::Refused(fault) => Verdict::NotJson(fault),
        Progress::Open => linter.finish_and_begin(limits),
    }
}

/// The verdict of one text. No read follows a refusal.
fn judge_text<S: Source, W: Follower>(
    reader: &mut S,
    limits: Limits,
    linter: &mut Linter,
    meter: &mut Meter,
    follower: &mut W,
) -> io::Result<Verdict>
    ensures verdict { IfOk result (λ verdict. JudgesRead limits (S.remaining reader.old) (S.remaining reader.new) verdict) }
    ensures text { S.text reader.new ≡ S.text reader.old }
    ensures failed { CountsFailure (S.failed_reads reader.old) (S.failed_reads reader.new) result }
    ensures followed { W.follows follower.old [] → IfOk result (λ found.
        FollowedFrom (S.remaining reader.old) (S.remaining reader.new) (W.follows follower.new)) }
{
    one_verdict();
    let _left = linter.finish_and_begin(limits);
    match read::<S, Linter, Texts, W>(reader, linter, limits, meter, follower) {
        Ok(_) => Ok(verdict_of(linter, limits)),
        Err(error) => Err(error),
    }
}

/// The warnings of a valid text. No read follows the piece that says no.
fn judge_quickly<S: Source, W: Follower>(
    reader: &mut S,
    limits: Limits,
    linter: &mut Linter,
    meter: &mut Meter,
    follower: &mut W,
) -> io::Result<Option<Warnings>>
    ensures valid { IfOk result (λ valid. JudgesQuickly limits (S.remaining reader.old) (S.remaining reader.new) valid) }
    ensures text { S.text reader.new ≡ S.text reader.old }
    ensures failed { CountsFailure (S.failed_reads reader.old) (S.failed_reads reader.new) result }
    ensures followed { W.follows follower.old [] → IfOk result (λ found.
        FollowedFrom (S.remaining reader.old) (S.remaining reader.new) (W.follows follower.new)) }
{
    one_verdict();
    let _left = linter.finish_and_begin(limits);
    match read::<S, Linter, QuickTexts, W>(reader, linter, limits, meter, follower) {
        Ok(Stage::Open) => Ok(valid_in(linter.finish_and_begin(limits))),
        Ok(Stage::Decided) => Ok(None),
        Err(error) => Err(error),
    }
}

/// The warnings of a valid text.
fn valid_in(verdict: Verdict) -> Option<Warnings>
    ensures { result ≡ valid_in verdict }
{
    match verdict {
        Verdict::Valid(warnings) => Some(warnings),
        _ => None,
    }
}

/// The verdict of a text sequence. No read follows the byte that decides it.
fn judge_sequence<S: Source, W: Follower>(
    reader: &mut S,
    limits: Limits,
    meter: &mut Meter,
    follower: &mut W,
) -> io::Result<SeqVerdict>
    ensures verdict { IfOk result (λ verdict. JudgesSequence limits (S.remaining reader.old) (S.remaining reader.new) verdict) }
    ensures text { S.text reader.new ≡ S.text reader.old }
    ensures failed { CountsFailure (S.failed_reads reader.old) (S.failed_reads reader.new) result }
    ensures followed { W.follows follower.old [] → IfOk result (λ found.
        FollowedFrom (S.remaining reader.old) (S.remaining reader.new) (W.follows follower.new)) }
{
    one_sequence_verdict();
    let mut sequence = Sequence::new(limits);
    match read::<S, Sequence, Sequences, W>(reader, &mut sequence, limits, meter, follower) {
        Ok(_) => Ok(sequence.finish()),
        Err(error) => Err(error),
    }
}

/// The verdict of newline-delimited texts. No read follows the line that decides it.
fn judge_lines<S: Source, W: Follower>(
    reader: &mut S,
    limits: Limits,
    meter: &mut Meter,
    follower: &mut W,
) -> io::Result<SeqVerdict>
    ensures verdict { IfOk result (λ verdict. JudgesLines limits (S.remaining reader.old) (S.remaining reader.new) verdict) }
    ensures text { S.text reader.new ≡ S.text reader.old }
    ensures failed { CountsFailure (S.failed_reads reader.old) (S.failed_reads reader.new) result }
    ensures followed { W.follows follower.old [] → IfOk result (λ found.
        FollowedFrom (S.remaining reader.old) (S.remaining reader.new) (W.follows follower.new)) }
{
    one_finding();
    let mut lines = Records::new(Framing::Lines, limits);
    match read::<S, Records, Lines, W>(reader, &mut lines, limits, meter, follower) {
        Ok(_) => Ok(lines.finish(&mut Unheard)),
        Err(error) => Err(error),
    }
}
