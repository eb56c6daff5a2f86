//! The verdict of a file from the lines of all its parts.

ghost use Rattle.std.specs.Prelude.{◌≡◌, ◌≢◌, ◌+◌, ◌*◌, ◌^◌, ◌<◌, ℕ, List, Err, IfErr, IfOk, IsOk, OnOk, get_or, length, map};
ghost use Rattle.std.specs.List.{All};
ghost use Rattle.gj_json.specs.Limits.{Allowed};
ghost use Rattle.gj_join.specs.Joined.{IsVerdictOf};
ghost use Rattle.gj_rules.specs.declared.records.framing.Framing.{Framing};
ghost use Rattle.file_parts.specs.Checked.{HasAtMost};
ghost use Rattle.part_lines.specs.declared.line.PartLine.{PartLine};
ghost use Rattle.part_lines.specs.Internal.Places.{ArePlaced};
ghost use Rattle.part_lines.specs.Lines.{AreAllLines, AreAllNumbers, ArePartsTo, IsLack, IsLike, IsLineOf, part_number};

use crate::line::PartLine;
use file_parts::{CheckedPart, Misfit, join_parts};
use gj_rules::SeqVerdict;
use std::alloc::{AllocError, Global};

/// Why the lines are not those of all parts of one file.
#[derive(Clone, Copy, PartialEq)]
pub enum Refusal {
    /// There is no line.
    None,
    /// The line at this index is of another file than the first.
    OtherFile(usize),
    /// It is of the same file, which has changed.
    Changed(usize),
    /// It is of a part that was checked with other options.
    OtherOptions(usize),
    /// It is one of another number of parts.
    OtherCount(usize),
    /// It does not list what is asked for.
    OtherEvery(usize),
    /// It lists fewer findings than are asked for.
    FewerFindings(usize),
    /// There are two lines of the part of this number.
    Twice(u64),
    /// There is none of this part.
    Missing(u64),
    /// The bytes of the parts are not those of one file, each once.
    NotInOrder,
    /// A number goes past 64 bits.
    TooMany,
    Memory,
}

impl From<AllocError> for Refusal {
    ghost use Rattle.std.specs.Prelude.{◌≡◌};
    ghost use Rattle.part_lines.specs.declared.joining.Refusal.TheVariants.{Memory};

    ghost from_gives = { λ _ error. error ≡ Memory };

    fn from(_error: AllocError) -> Refusal {
        Refusal::Memory
    }
}

/// The verdict of the file, given the lines of all its parts in any order.
pub fn join_lines(alloc: Global, lines: &[PartLine]) -> Result<SeqVerdict, Refusal>
    ensures whole { IfOk result (λ whole. (framing : Framing) (limits : Allowed) (text : List ℕ) → All (IsLineOf framing limits text) lines.now
        → IsVerdictOf framing limits text whole) }
    ensures alike { IfOk result (λ whole. (none : PartLine) → All (IsLike (get_or lines.now 0 none)) lines.now) }
    ensures complete { (framing : Framing) (limits : Allowed) (text : List ℕ) → AreAllLines framing limits text lines.now → IfErr result IsLack }
    ensures few { (most : ℕ) → length lines.now * most < 2 ^ 64 → All (λ line. HasAtMost most line.checked) lines.now → result ≡ Err Refusal.TooMany → ⊥ }
{
    let parts = match parts_of(alloc, lines) {
        Ok(parts) => parts,
        Err(refusal) => return Err(refusal),
    };
    let Some(first) = lines.first() else {
        return Err(Refusal::None);
    };
    match join_parts(parts.as_slice(), first.file.size) {
        Ok(verdict) => Ok(verdict),
        Err(Misfit::NotInOrder) => Err(Refusal::NotInOrder),
        Err(Misfit::TooMany) => Err(Refusal::TooMany),
    }
}

/// What was found of each part of a file, in their order, given the lines of all parts in any order.
pub fn parts_of(alloc: Global, lines: &[PartLine]) -> Result<Vec<CheckedPart>, Refusal>
    ensures parts { IfOk result (λ parts. ArePartsTo lines.now (length lines.now) parts.items) }
    ensures alike { IfOk result (λ parts. (none : PartLine) → All (IsLike (get_or lines.now 0 none)) lines.now) }
    ensures complete { (framing : Framing) (limits : Allowed) (text : List ℕ) → AreAllLines framing limits text lines.now → IfErr result IsLack }
    ensures few { result ≢ Err Refusal.TooMany }
{
    let Some(first) = lines.first() else {
        return Err(Refusal::None);
    };
    check_lines(first, lines)?;
    let order = order_of(alloc, lines)?;
    let parts = parts_in(alloc, lines, order.as_slice())?;
    let missing = parts.len() as u64 + 1;
    if missing <= first.share.parts {
        return Err(Refusal::Missing(missing));
    }
    Ok(parts)
}

/// Whether the lines are of the same file as the first one, and were made in the same way.
fn check_lines(first: &PartLine, lines: &[PartLine]) -> Result<(), Refusal>
    ensures alike { OnOk result (All (IsLike first.now) lines.now) }
    ensures complete { All (IsLike first.now) lines.now → IsOk result }
    ensures few { result ≢ Err Refusal.TooMany }
{
    for index in 0..lines.len() {
        check_line(first, &lines[index], index)?;
    }
    Ok(())
}

/// Whether a line is.
fn check_line(first: &PartLine, line: &PartLine, index: usize) -> Result<(), Refusal>
    ensures alike { OnOk result (IsLike first.now line.now) }
    ensures complete { IsLike first.now line.now → IsOk result }
    ensures few { result ≢ Err Refusal.TooMany }
{
    if line.file.path != first.file.path {
        Err(Refusal::OtherFile(index))
    } else if line.file != first.file {
        Err(Refusal::Changed(index))
    } else if line.settings != first.settings {
        Err(Refusal::OtherOptions(index))
    } else if line.share.parts != first.share.parts {
        Err(Refusal::OtherCount(index))
    } else {
        Ok(())
    }
}

/// The index of the line of each part, in the order of the parts. It is the number of lines where there is none.
pub fn order_of(alloc: Global, lines: &[PartLine]) -> Result<Vec<usize>, Refusal>
    ensures placed { IfOk result (λ order. ArePlaced (map part_number lines.now) (length lines.now) order.items) }
    ensures complete { AreAllNumbers (map part_number lines.now) → IfErr result IsLack }
    ensures few { result ≢ Err Refusal.TooMany }
{
    let mut order = Vec::new(alloc);
    order.resize(lines.len(), lines.len())?;
    for index in 0..lines.len() {
        place_line(&mut order, lines[index].share.number, index)?;
    }
    Ok(order)
}

/// Puts the index of a line at the number of its part, where there is room for it.
fn place_line(order: &mut Vec<usize>, number: u64, index: usize) -> Result<(), Refusal>
    requires some { 0 < number }
    ensures placed { OnOk result ((numbers : List ℕ) → index < length numbers → get_or numbers index 0 ≡ number
        → ArePlaced numbers index order.old.items → ArePlaced numbers (index + 1) order.new.items) }
    ensures complete { (numbers : List ℕ) → index < length numbers → get_or numbers index 0 ≡ number
        → ArePlaced numbers index order.old.items → AreAllNumbers numbers → IsOk result }
    ensures few { result ≢ Err Refusal.TooMany }
{
    let count = order.len();
    if number > count as u64 {
        return Ok(());
    }
    let before = (number - 1) as usize;
    if order[before] < count {
        return Err(Refusal::Twice(number));
    }
    order[before] = index;
    Ok(())
}

/// The parts of lines in this order, where there are all.
fn parts_in(alloc: Global, lines: &[PartLine], order: &[usize]) -> Result<Vec<CheckedPart>, Refusal>
    requires placed { ArePlaced (map part_number lines.now) (length lines.now) order.now }
    ensures parts { IfOk result (λ parts. ArePartsTo lines.now (length lines.now) parts.items) }
    ensures complete { AreAllNumbers (map part_number lines.now) → IfErr result IsLack }
    ensures few { result ≢ Err Refusal.TooMany }
{
    let mut parts = Vec::new(alloc);
    for index in order {
        let Some(line) = lines.get(*index) else {
            return Err(Refusal::Missing(parts.len() as u64 + 1));
        };
        match parts.push(line.checked) {
            Ok(()) => {}
            Err(failed) => return Err(AllocError::from(failed).into()),
        }
    }
    Ok(parts)
}
