//! What the bytes of a source are fed to: a linter, a sequence or lines.
ghost use Rattle.gj_rules.specs.Linter.{StandsFor, limits_of};
ghost use Rattle.gj_rules.specs.RecordsStand.{limits_of as limits_of_records};
ghost use Rattle.gj_rules.specs.Sequence.{IsUndecided};
ghost use Rattle.gj_rules.specs.SequenceStands.{StandsFor as SequenceStandsFor, limits_of as limits_of_sequence};
ghost use Rattle.gj_rules.specs.Verdict.{NeverValid};
ghost use Rattle.geolint_report.specs.Fed.{ShowNoRefusal, IsRefused, ShowNoFault, IsDecidedSequence, AreLines, FitWithin, AreDecidedLines};

use crate::reading_loop::{Feeds, Stage};
use gj_rules::{Linter, Progress, Record, RecordSink, Records, SeqProgress, Sequence};

/// A text, until a byte of it is refused.
pub struct Texts;

impl Feeds<Linter> for Texts {
    ghost stands = { StandsFor };

    ghost limits = { limits_of };

    ghost undecided = { ShowNoRefusal };

    ghost decided = { λ linter bytes. IsRefused (limits_of linter) bytes };

    fn feed(fed: &mut Linter, piece: &[u8]) -> Stage {
        match fed.feed(piece) {
            Progress::Open => Stage::Open,
            Progress::Refused(_) => Stage::Decided,
        }
    }
}

/// A text, until it cannot be valid any more.
pub struct QuickTexts;

impl Feeds<Linter> for QuickTexts {
    ghost stands = { StandsFor };

    ghost limits = { limits_of };

    ghost undecided = { ShowNoFault };

    ghost decided = { λ linter bytes. NeverValid (limits_of linter) bytes };

    fn feed(fed: &mut Linter, piece: &[u8]) -> Stage {
        // A linter that has refused a byte is doomed.
        let _ = fed.feed(piece);
        if fed.doomed() {
            Stage::Decided
        } else {
            Stage::Open
        }
    }
}

/// A text sequence, until a byte decides that one of its records is not valid.
pub struct Sequences;

impl Feeds<Sequence> for Sequences {
    ghost stands = { SequenceStandsFor };

    ghost limits = { limits_of_sequence };

    ghost undecided = { IsUndecided };

    ghost decided = { λ sequence bytes. IsDecidedSequence (limits_of_sequence sequence) bytes };

    fn feed(fed: &mut Sequence, piece: &[u8]) -> Stage {
        match fed.feed(piece) {
            SeqProgress::Open => Stage::Open,
            SeqProgress::Decided => Stage::Decided,
        }
    }
}

/// What each line is goes to no one: the verdict of all is asked.
#[derive(Drop)]
pub struct Unheard;

impl RecordSink for Unheard {
    ghost told = { λ self records. Unit {0} };

    fn tell_record(&mut self, _found: &Record) {}
}

/// Newline-delimited texts, until one of them decides what all are.
pub struct Lines;

impl Feeds<Records> for Lines {
    ghost stands = { AreLines };

    ghost limits = { limits_of_records };

    ghost undecided = { FitWithin };

    ghost decided = { λ lines bytes. AreDecidedLines (limits_of_records lines) bytes };

    fn feed(fed: &mut Records, piece: &[u8]) -> Stage {
        fed.feed(piece, &mut Unheard);
        if fed.is_decided() {
            Stage::Decided
        } else {
            Stage::Open
        }
    }
}
