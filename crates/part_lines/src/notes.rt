//! The notes on the records of a file from the lines of all its parts.

ghost use Rattle.std.specs.Prelude.{◌≡◌, ◌≤◌, ◌<◌, ◌+◌, ◌-◌, ◌^◌, ◌++◌, ℕ, List, Some, IfOk, IfSome, OnOk, map, take, vec_len};
ghost use Rattle.std.specs.List.{All};
ghost use Rattle.gj_json.specs.Limits.{Allowed};
ghost use Rattle.gj_rules.specs.declared.records.framing.Framing.{Framing};
ghost use Rattle.geolint_report.specs.Every.{AreNotesOfRecords};
ghost use Rattle.file_parts.specs.JoinedNotes.{moved_item, moved_note};
ghost use Rattle.part_lines.specs.Lines.{IsListedLineOf};
ghost use Rattle.part_lines.specs.Internal.NotesSoFar.{ListsWhatIsAsked, numbered_among, records_noted};

use crate::joining::{Refusal, order_of};
use crate::line::{Listed, PartLine};
use file_parts::CheckedPart;
use geolint_report::every::listing::{Asked, Item, Note, Notes};
use geolint_report::every::tally::Tally;
use geolint_report::report::Told;
use std::alloc::{AllocError, Global};

/// The notes that are asked for on the records of the file, given the lines of all its parts in any order.
///
/// Each part has to have listed as many, of the same kind, from its first on.
pub fn join_notes(alloc: Global, lines: &[PartLine], asked: Asked) -> Result<Notes, Refusal>
    ensures room { IfOk result (λ notes. vec_len notes.notes ≤ asked.room) }
    ensures whole { IfOk result (λ notes. (framing : Framing) (limits : Allowed) (text : List ℕ) → asked.skipped ≡ 0
        → All (IsListedLineOf framing limits text) lines.now
        → AreNotesOfRecords framing asked notes.notes.items notes.count notes.tally limits text) }
{
    let Some(first) = lines.first() else {
        return Err(Refusal::None);
    };
    let order = order_of(alloc, lines)?;
    let mut all = SoFar::none(alloc);
    for place in &order {
        if let Some(line) = lines.get(*place) {
            let listed = listed_in(line, *place, asked)?;
            all.add(&line.checked, listed, asked)?;
        }
    }
    if all.end == first.file.size {
        Ok(all.notes)
    } else {
        Err(Refusal::NotInOrder)
    }
}

/// What a line lists, where it is what is asked for.
fn listed_in(line: &PartLine, index: usize, asked: Asked) -> Result<&Listed, Refusal>
    ensures { IfOk result (λ listed. (line.now.listed ≡ Some listed.now) × ListsWhatIsAsked listed.now.asked asked) }
{
    let Some(listed) = &line.listed else {
        return Err(Refusal::OtherEvery(index));
    };
    if listed.asked.with_warnings != asked.with_warnings {
        Err(Refusal::OtherEvery(index))
    } else if listed.asked.skipped != 0 {
        Err(Refusal::OtherEvery(index))
    } else if listed.asked.room < asked.room {
        Err(Refusal::FewerFindings(index))
    } else {
        Ok(listed)
    }
}

/// The notes on the records of the first parts, how many records these have, and where their bytes end.
#[derive(Drop)]
struct SoFar {
    notes: Notes,
    records: u64,
    end: u64,
}

impl SoFar {
    ghost use Rattle.std.specs.Prelude.{◌≡◌, ◌≤◌, ℕ, List, OnOk, Some, vec_len};
    ghost use Rattle.gj_json.specs.Limits.{Allowed};
    ghost use Rattle.gj_rules.specs.declared.records.framing.Framing.{Framing};
    ghost use Rattle.geolint_report.specs.declared.every.listing.Asked.{Asked};
    ghost use Rattle.file_parts.specs.Checked.{IsPartOf, AreNotesOfPart};
    ghost use Rattle.part_lines.specs.Internal.NotesSoFar.{AreNotesTo, ListsWhatIsAsked};

    /// Of no part.
    fn none(alloc: Global) -> SoFar
        ensures notes { (framing : Framing) (limits : Allowed) (asked : Asked) (text : List ℕ) → AreNotesTo framing limits asked text result }
        ensures room { (room : ℕ) → vec_len result.notes.notes ≤ room }
    {
        SoFar {
            notes: Notes {
                notes: Vec::new(alloc),
                count: 0,
                tally: Tally::none(),
            },
            records: 0,
            end: 0,
        }
    }

    /// Adds those of the next part, where it has bytes.
    fn add(&mut self, part: &CheckedPart, listed: &Listed, asked: Asked) -> Result<(), Refusal>
        ensures notes { OnOk result ((framing : Framing) (limits : Allowed) (text : List ℕ) → asked.skipped ≡ 0 → ListsWhatIsAsked listed.now.asked asked
            → IsPartOf framing limits text part.now → AreNotesOfPart framing limits (Some listed.now.asked) text part.now (Some listed.now.notes)
            → AreNotesTo framing limits asked text self.old → AreNotesTo framing limits asked text self.new) }
        ensures room { vec_len self.old.notes.notes ≤ asked.room → vec_len self.new.notes.notes ≤ asked.room }
    {
        if part.begin >= part.end {
            return Ok(());
        }
        if part.begin != self.end {
            return Err(Refusal::NotInOrder);
        }
        let more = &listed.notes;
        add_notes(
            &mut self.notes.notes,
            more.notes.as_slice(),
            self.records,
            self.end,
            asked.room,
        )?;
        self.notes.count = self.notes.count.saturating_add(more.count);
        self.notes.tally.add(&more.tally);
        self.records = records_after(self.records, more.tally.items, more.notes.as_slice())?;
        self.end = part.end;
        Ok(())
    }
}

/// How many records there are with those of one part more, given what is counted and noted of them.
fn records_after(records: u64, items: u64, notes: &[Note]) -> Result<u64, Refusal>
    ensures { IfOk result (λ all. (all ≡ records + records_noted items notes.now) × (items < 2 ^ 64 - 1)) }
{
    if items == u64::MAX {
        return Err(Refusal::TooMany);
    }
    match records.checked_add(records_noted(items, notes)) {
        Some(all) => Ok(all),
        None => Err(Refusal::TooMany),
    }
}

/// How many records a part has. Bytes before the first record of a sequence are reported as one of number 0, and are none.
fn records_noted(items: u64, notes: &[Note]) -> u64
    ensures { result ≡ records_noted items notes.now }
{
    match notes.first() {
        Some(note) => numbered(items, note.item.number()),
        None => items,
    }
}

/// How many they are, given the number of the first that is noted.
fn numbered(items: u64, number: u64) -> u64
    ensures { result ≡ numbered_among items number }
{
    if number == 0 {
        items.saturating_sub(1)
    } else {
        items
    }
}

/// Adds the notes of a part that begins at the byte offset `begin`, after `records` records, as far as there is room.
fn add_notes(
    all: &mut Vec<Note>,
    more: &[Note],
    records: u64,
    begin: u64,
    room: u64,
) -> Result<(), Refusal>
    ensures notes { OnOk result (vec_len all.old ≤ room
        → all.new.items ≡ take room (all.old.items ++ map (moved_note records begin) more.now)) }
    ensures room { vec_len all.old ≤ room → vec_len all.new ≤ room }
{
    let fitting = first_of(more, room.saturating_sub(all.len() as u64));
    for note in fitting {
        let Some(note) = moved(note, begin, records) else {
            return Err(Refusal::TooMany);
        };
        match all.push(note) {
            Ok(()) => {}
            Err(failed) => return Err(AllocError::from(failed).into()),
        }
    }
    Ok(())
}

/// So many of the notes at most.
fn first_of(notes: &[Note], most: u64) -> &[Note]
    ensures { result.now ≡ take most notes.now }
{
    if most < notes.len() as u64 {
        &notes[..most as usize]
    } else {
        notes
    }
}

/// A note of a part that begins at the byte offset `begin`, after `records` records. `None` where a number goes past 64 bits.
fn moved(note: &Note, begin: u64, records: u64) -> Option<Note>
    ensures { IfSome result (λ new. new ≡ moved_note records begin note.now) }
{
    Some(Note {
        item: moved_item(note.item, records)?,
        told: Told {
            code: note.told.code,
            place: note.told.place.checked_add(begin)?,
        },
    })
}

/// A record after `records` others.
fn moved_item(item: Item, records: u64) -> Option<Item>
    ensures { IfSome result (λ new. new ≡ moved_item records item) }
{
    match item {
        Item::Feature { .. } => Some(item),
        Item::Record(number) => Some(Item::Record(number.checked_add(records)?)),
    }
}
