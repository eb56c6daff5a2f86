//! What is found of one part of an input of records.

ghost use Rattle.std.specs.Prelude.{◌≡◌, ◌⊎◌, ◌<◌, ◌≤◌, ◌+◌, IfErr, IfOk, IfSome, MatchResult, length};
ghost use Rattle.gj_join.specs.Joined.{IsVerdictOf};
ghost use Rattle.gj_join.specs.Parts.{limits_after};
ghost use Rattle.file_parts.specs.Checked.{IsPartOf, AreNotesOfPart, AreNotesIf, AreNoNotes, AreNotesBefore, EndsBefore, IsFailure, reading_of};
ghost use Rattle.geolint_report.specs.Judged.{Finds};
ghost use Rattle.file_parts.specs.Cuts.{bytes_between};
ghost use Rattle.file_parts.specs.Internal.EarlyEnds.{CountsFailureOrEnds};
ghost use Rattle.file_parts.specs.Ranges.{ArePart, IsEnd};

use crate::cuts::{byte_at, find_cut};
use crate::joining::nothing;
use crate::ranges::Share;
use crate::window::Window;
use geolint_report::every::listing::{Asked, Notes, notes_for};
use geolint_report::every::reading::judge_every;
use geolint_report::every::spots::Unplaced;
use geolint_report::every::tally::Tally;
use geolint_report::judge::{Finding, Reading, judge};
use geolint_report::progress::Meter;
use geolint_report::source::{Rewind, Source};
use gj_json::Limits;
use gj_rules::{Framing, Linter, SeqVerdict};
use std::alloc::Global;
use std::io::{self, ErrorKind};

/// The bytes of a part, and their verdict by themselves: its places count from the first of them, and its records from 1.
#[derive(Clone, Copy)]
pub struct CheckedPart {
    /// The byte offset of the first of them in the file.
    pub begin: u64,
    /// The byte offset after the last of them.
    pub end: u64,
    /// What they are by themselves: an offset in it counts from `begin`.
    pub verdict: SeqVerdict,
}

/// What is found of a part, and the notes on its records, where these are asked for: their numbers and places count as those of
/// the verdict do.
#[derive(Drop)]
pub struct ListedPart {
    /// The bytes and their verdict.
    pub part: CheckedPart,
    /// None where no notes are asked for.
    pub notes: Option<Notes>,
}

/// Where a part begins and ends.
#[derive(Clone, Copy)]
struct Bounds {
    begin: u64,
    end: u64,
    ghost ordered: { begin ≤ end },
}

/// Checks the bytes of a part of a source of `size` bytes, and no others. The limit on the bytes is that of the whole. The source is
/// returned, which has counted the reads that failed.
///
/// An error is returned where a read failed, where the source has changed, where it gave no byte before the end of the part, or where
/// there is no memory for the notes.
pub fn check_part<S: Rewind>(
    alloc: Global,
    source: S,
    size: u64,
    share: Share,
    framing: Framing,
    limits: Limits,
    asked: Option<Asked>,
    meter: &mut Meter,
) -> (io::Result<ListedPart>, S)
    ensures bytes { IfOk result.0 (λ found. IfSome (S.text source) (λ text. length text ≡ size
        → ArePart framing limits text share.number share.parts found.part.begin found.part.end)) }
    ensures part { IfOk result.0 (λ found. IfSome (S.text source) (λ text. length text ≡ size → IsPartOf framing limits text found.part)) }
    ensures notes { IfOk result.0 (λ found. IfSome (S.text source) (λ text. AreNotesOfPart framing limits asked text found.part found.notes)) }
    ensures failed { IfErr result.0 (λ error. IsFailure asked (S.failed_reads source) (S.failed_reads result.1) error
        ⊎ EndsBefore (S.text source) size error) }
{
    let mut source = source;
    let bounds = match find_bounds(&mut source, size, share, framing, limits) {
        Ok(bounds) => bounds,
        Err(error) => return (Err(error), source),
    };
    let (found, source) = check_bytes(alloc, source, bounds, framing, limits, asked, meter);
    match found {
        Ok((verdict, notes)) => {
            let part = CheckedPart {
                begin: bounds.begin,
                end: bounds.end,
                verdict,
            };
            (Ok(ListedPart { part, notes }), source)
        }
        Err(error) => (Err(error), source),
    }
}

/// Where the part begins and ends: with no cut in its range it has no byte.
fn find_bounds<S: Rewind>(
    source: &mut S,
    size: u64,
    share: Share,
    framing: Framing,
    limits: Limits,
) -> io::Result<Bounds>
    ensures bytes { IfOk result (λ bounds. IfSome (S.text source.old) (λ text. length text ≡ size
        → ArePart framing limits text share.number share.parts bounds.begin bounds.end)) }
    ensures within { IfOk result (λ bounds. (bounds.end ≤ size) × (bounds.begin < bounds.end → bounds.begin < limits.bytes)) }
    ensures text { S.text source.new ≡ S.text source.old }
    ensures failed { CountsFailureOrEnds (S.text source.old) size (S.failed_reads source.old) (S.failed_reads source.new) result }
{
    let from = share.from(size);
    let until = share.until(size);
    if from == 0 {
        let end = find_end(source, until, size, framing, limits)?;
        return Ok(Bounds { begin: 0, end });
    }
    match find_cut(source, from, until, framing, limits)? {
        Some(begin) => {
            let end = find_end(source, until, size, framing, limits)?;
            Ok(Bounds { begin, end })
        }
        None => Ok(Bounds {
            begin: until,
            end: until,
        }),
    }
}

/// The first cut from the end of a range on, or the end of the text.
fn find_end<S: Rewind>(
    source: &mut S,
    until: u64,
    size: u64,
    framing: Framing,
    limits: Limits,
) -> io::Result<u64>
    requires within { until ≤ size }
    requires some { 0 < size → 0 < until }
    ensures end { IfOk result (λ end. IfSome (S.text source.old) (λ text. length text ≡ size → IsEnd framing limits text until end)) }
    ensures after { IfOk result (λ end. (until ≤ end) × (end ≤ size)) }
    ensures text { S.text source.new ≡ S.text source.old }
    ensures failed { CountsFailureOrEnds (S.text source.old) size (S.failed_reads source.old) (S.failed_reads source.new) result }
{
    if until == 0 {
        return Ok(size);
    }
    match find_cut(source, until, size, framing, limits)? {
        Some(cut) => Ok(cut),
        None => Ok(size),
    }
}

/// The verdict of the bytes of a part by themselves, under what the limit leaves to them, and the notes on their records.
fn check_bytes<S: Rewind>(
    alloc: Global,
    source: S,
    bounds: Bounds,
    framing: Framing,
    limits: Limits,
    asked: Option<Asked>,
    meter: &mut Meter,
) -> (io::Result<(SeqVerdict, Option<Notes>)>, S)
    requires { bounds.begin < bounds.end → bounds.begin < limits.bytes }
    ensures verdict { IfOk result.0 (λ found. IfSome (S.text source) (λ text. bounds.begin < bounds.end
        → IsVerdictOf framing (limits_after limits bounds.begin) (bytes_between bounds.begin bounds.end text) found.0)) }
    ensures notes { IfOk result.0 (λ found. IfSome (S.text source) (λ text. bounds.begin < bounds.end
        → AreNotesIf framing (limits_after limits bounds.begin) asked (bytes_between bounds.begin bounds.end text) found.1)) }
    ensures none { IfOk result.0 (λ found. bounds.begin ≡ bounds.end → AreNoNotes asked found.1) }
    ensures failed { IfErr result.0 (λ error. IsFailure asked (S.failed_reads source) (S.failed_reads result.1) error
        ⊎ EndsBefore (S.text source) bounds.end error) }
{
    if bounds.begin == bounds.end {
        return (Ok((nothing(), no_notes(alloc, asked))), source);
    }
    let left = limits_left(limits, bounds.begin);
    let mut window = Window::new(source, bounds.begin, bounds.end);
    let found = check_window(
        alloc,
        &mut window,
        bounds.end - 1,
        left,
        framing,
        asked,
        meter,
    );
    (found, window.source)
}

/// Those of the bytes in a window, of which the last one is at the place `last` of the source.
fn check_window<S: Rewind>(
    alloc: Global,
    window: &mut Window<S>,
    last: u64,
    limits: Limits,
    framing: Framing,
    asked: Option<Asked>,
    meter: &mut Meter,
) -> io::Result<(SeqVerdict, Option<Notes>)>
    ensures verdict { IfOk result (λ found. IfSome (⟦<Window<S> as Source>⟧.remaining window.old) (λ text. IsVerdictOf framing limits text found.0)) }
    ensures notes { IfOk result (λ found. AreNotesBefore framing limits asked (⟦<Window<S> as Source>⟧.remaining window.old) found.1) }
    ensures failed { IfErr result (λ error. IsFailure asked (S.failed_reads window.old.source) (S.failed_reads window.new.source) error
        ⊎ EndsBefore (S.text window.old.source) (last + 1) error) }
{
    let found = find(alloc, window, limits, framing, asked, meter)?;
    window.source.expect_unchanged()?;
    byte_at(&mut window.source, last)?;
    match found.0 {
        Finding::Sequence(verdict) => Ok((verdict, found.1)),
        // Nothing else is found of records.
        _ => Err(io::Error::from(ErrorKind::InvalidData)),
    }
}

/// Of no record.
fn no_notes(alloc: Global, asked: Option<Asked>) -> Option<Notes>
    ensures { AreNoNotes asked result }
{
    match asked {
        Some(_) => Some(Notes {
            notes: Vec::new(alloc),
            count: 0,
            tally: Tally::none(),
        }),
        None => None,
    }
}

/// What an input is, and the notes on its records, where these are asked for.
fn find<S: Source>(
    alloc: Global,
    reader: &mut S,
    limits: Limits,
    framing: Framing,
    asked: Option<Asked>,
    meter: &mut Meter,
) -> io::Result<(Finding, Option<Notes>)>
    ensures found { IfOk result (λ found. Finds (reading_of framing) limits (S.remaining reader.old) (S.remaining reader.new) found.0) }
    ensures notes { IfOk result (λ found. AreNotesBefore framing limits asked (S.remaining reader.old) found.1) }
    ensures text { S.text reader.new ≡ S.text reader.old }
    ensures failed { MatchResult result (λ _. S.failed_reads reader.new ≡ S.failed_reads reader.old)
        (IsFailure asked (S.failed_reads reader.old) (S.failed_reads reader.new)) }
{
    let reading = reading_of(framing);
    match asked {
        None => {
            let mut linter = Linter::new(limits);
            let finding = judge(reader, limits, reading, &mut linter, meter, &mut Unplaced)?;
            Ok((finding, None))
        }
        Some(asked) => {
            let found = judge_every(alloc, reader, limits, reading, asked, meter)?;
            match notes_for(found.0, found.1, asked)? {
                Some(notes) => Ok((found.0, Some(notes))),
                // Records always have notes.
                None => Err(io::Error::from(ErrorKind::InvalidData)),
            }
        }
    }
}

/// How such an input is read.
fn reading_of(framing: Framing) -> Reading
    ensures { result ≡ reading_of framing }
{
    match framing {
        Framing::Sequence => Reading::Sequence,
        Framing::Lines => Reading::Lines,
    }
}

/// What the limit leaves to the bytes from `begin` on.
fn limits_left(limits: Limits, begin: u64) -> Limits
    requires { begin < limits.bytes }
    ensures { result ≡ limits_after limits begin }
{
    Limits::new(limits.depth(), limits.bytes() - begin).unwrap_or(limits)
}
