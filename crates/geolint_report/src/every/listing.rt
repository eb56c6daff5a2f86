//! The features or records of a file in which something is found, as the linter reports them: as many are kept as are asked for, and all are counted.
ghost use Rattle.std.specs.Prelude.{◌≡◌, ℕ, List, Option, IfOk, IfSome, is_some, not};
ghost use Rattle.gj_json.specs.Limits.{Allowed};
ghost use Rattle.gj_rules.specs.declared.records.framing.Framing.{Framing};
ghost use Rattle.geolint_report.specs.Every.{ListsFor, AreNotesBy, is_no_text, item_of};

use crate::every::tally::Tally;
use crate::judge::Finding;
use crate::report::{Told, warning};
use crate::texts::Code;
use gj_coords::{Fault, KINDS, Kind, Warnings};
use gj_json::JsonFault;
use gj_rules::{CleanFeature, Feature, FeatureSink, Record, RecordSink, Verdict};
use std::alloc::{AllocError, Global};

/// A part of a file that is validated separately.
#[derive(Clone, Copy, PartialEq)]
pub enum Item {
    /// A feature of a text.
    Feature {
        /// How many features come before it.
        index: u64,
        /// Where the value of its first member `id` begins.
        id: Option<u64>,
    },
    /// A record of a text sequence, or a line of newline-delimited texts, by its number. It counts from 1; 0 stands for the bytes
    /// before the first record of a sequence.
    Record(u64),
}

impl Item {
    ghost use Rattle.std.specs.Prelude.{◌≡◌};
    ghost use Rattle.geolint_report.specs.Items.{item_word, item_number};

    /// The word for it.
    pub fn word(self) -> &'static [u8]
        ensures { result.now ≡ item_word self }
    {
        match self {
            Item::Feature { .. } => b"feature",
            Item::Record(_) => b"record",
        }
    }

    /// The index of a feature, which counts from 0, or the number of a record, which counts from 1.
    pub fn number(self) -> u64
        ensures { result ≡ item_number self }
    {
        match self {
            Item::Feature { index, .. } => index,
            Item::Record(number) => number,
        }
    }
}

/// What is reported of a feature or a record: its fault, or a kind of warning of one without a fault.
#[derive(Clone, Copy)]
pub struct Note {
    pub item: Item,
    pub told: Told,
}

/// What is asked of the features or the records of a file.
#[derive(Clone, Copy, PartialEq)]
pub struct Asked {
    /// The warnings of those without a fault are reported too.
    pub with_warnings: bool,
    /// How many notes are passed over before the first one that is kept.
    pub skipped: u64,
    /// How many notes are kept at most.
    pub room: u64,
}

impl Asked {
    ghost use Rattle.std.specs.Prelude.{◌<◌, ◌≤◌, ◌^◌, ◌↔◌, IsTrue};

    /// Whether a note is kept that comes after `count` others, of which `kept` are kept.
    fn keeps(self, count: u64, kept: u64) -> bool
        ensures keeps { IsTrue result ↔ ((self.skipped ≤ count) × (kept < self.room)) }
        // as each u64 is
        ensures small { self.skipped < 2 ^ 64 }
    {
        count >= self.skipped && kept < self.room
    }
}

/// What is reported of the features or the records so far.
#[derive(Drop)]
pub struct Listing {
    asked: Asked,
    notes: Vec<Note>,
    /// How many notes there were, with those that are not kept.
    count: u64,
    /// Of all features or records, and of all notes.
    tally: Tally,
    /// The memory did not suffice for one.
    has_failed: bool,
}

/// The notes of a file that were asked for, how many it has, and what is counted of its features or records.
#[derive(Drop)]
pub struct Notes {
    pub notes: Vec<Note>,
    pub count: u64,
    pub tally: Tally,
}

/// The notes of a file that were asked for: none of what is no JSON text.
pub fn notes_for(
    finding: Finding,
    listing: Listing,
    asked: Asked,
) -> Result<Option<Notes>, AllocError>
    ensures some { IfOk result (λ found. is_some found ≡ not (is_no_text finding)) }
    ensures notes { IfOk result
        (λ found. IfSome found (λ notes. (framing : Option Framing) (limits : Allowed) (had : Option (List ℕ)) → ListsFor framing finding limits had listing
        → AreNotesBy framing asked notes.notes.items notes.count notes.tally limits had)) }
{
    match finding {
        Finding::Text(Verdict::NotJson(_)) => Ok(None),
        _ => match listing.into_notes(asked) {
            Ok(notes) => Ok(Some(notes)),
            Err(error) => Err(error),
        },
    }
}

impl Listing {
    ghost use Rattle.std.specs.Prelude.{◌≡◌, ◌<◌, ◌≤◌, ◌+◌, ◌++◌, ◌∷◌, [], List, IfOk, IfSome, is_some, length, take, drop, true, false};
    ghost use Rattle.std.specs.Io.Iter.{u64_saturate};
    ghost use Rattle.gj_rules.specs.declared.feature.Feature.{Feature};
    ghost use Rattle.gj_rules.specs.declared.records.record.Record.{Record};
    ghost use Rattle.geolint_report.specs.declared.every.listing.Note.{Note};
    ghost use Rattle.geolint_report.specs.Every.{Keeps, KeepsNotes, KeepsRecords, AreFirst, note_of, fault_note, refusal_note, warning_notes, kind_notes, record_notes};

    /// A list of nothing, which will keep what is asked.
    pub fn new(alloc: Global, asked: Asked) -> Listing
        ensures asked { result.asked ≡ asked }
        ensures keeps { Keeps result [] }
        ensures items { result.tally.items ≡ 0 }
    {
        Listing {
            asked,
            notes: Vec::new(alloc),
            count: 0,
            tally: Tally::none(),
            has_failed: false,
        }
    }

    /// The notes that are kept so far.
    pub fn notes(&self) -> &[Note]
        ensures { result.now ≡ self.now.notes.items }
    {
        self.notes.as_slice()
    }

    /// A listing that goes on from this one with what is asked then, and holds nothing yet: none where a note was passed over that is
    /// asked for then.
    pub(crate) fn going_on(&self, alloc: Global, asked: Asked) -> Option<Listing>
        ensures asked { IfSome result (λ next. next.asked ≡ asked) }
        ensures features { IfSome result (λ next. (features : List Feature) → KeepsNotes self.now features → KeepsNotes next features) }
        ensures records { IfSome result (λ next. (records : List Record) → KeepsRecords self.now records → KeepsRecords next records) }
        ensures some { asked.with_warnings ≡ self.now.asked.with_warnings → self.now.count ≤ asked.skipped → self.now.count < u64.MAX
            → is_some result ≡ true }
    {
        let has_all = self.count <= asked.skipped && self.count < u64::MAX;
        if !has_all || asked.with_warnings != self.asked.with_warnings {
            return None;
        }
        Some(Listing {
            asked,
            notes: Vec::new(alloc),
            count: self.count,
            tally: self.tally,
            has_failed: false,
        })
    }

    /// Whether its notes are those that were asked for, and all of these could be kept.
    pub(crate) fn is_as_asked(&self, asked: Asked) -> bool
        ensures { result ≡ true → (self.now.asked ≡ asked) × (self.now.has_failed ≡ false) }
    {
        !self.has_failed && self.asked == asked
    }

    /// The notes, where they are those that were asked for and all of these could be kept.
    pub fn into_notes(self, asked: Asked) -> Result<Notes, AllocError>
        ensures asked { IfOk result (λ notes. self.asked ≡ asked) }
        ensures notes { IfOk result (λ notes. (all : List Note) → Keeps self all → AreFirst self.asked notes.notes.items notes.count all) }
        ensures tally { IfOk result (λ notes. notes.tally ≡ self.tally) }
    {
        if !self.is_as_asked(asked) {
            return Err(AllocError);
        }
        Ok(Notes {
            notes: self.notes,
            count: self.count,
            tally: self.tally,
        })
    }

    /// Counts a feature or a record, of which something is noted or nothing.
    fn add_item(&mut self)
        ensures keeps { (all : List Note) → Keeps self.old all → Keeps self.new all }
        ensures asked { self.new.asked ≡ self.old.asked }
        ensures items { self.new.tally.items ≡ u64_saturate (self.old.tally.items + 1) }
    {
        self.tally.add_item();
    }

    fn add(&mut self, note: Note)
        ensures keeps { (all : List Note) → Keeps self.old all → Keeps self.new (all ++ note ∷ []) }
        ensures asked { self.new.asked ≡ self.old.asked }
        ensures items { self.new.tally.items ≡ self.old.tally.items }
    {
        self.keep_within(note);
        self.count = self.count.saturating_add(1);
        self.tally.add_note(note);
    }

    /// Keeps a note, where it is not passed over and there is room.
    fn keep_within(&mut self, note: Note)
        ensures kept { (all : List Note) → self.old.count ≡ u64_saturate (length all)
            → (self.old.has_failed ≡ false → self.old.notes.items ≡ take self.old.asked.room (drop self.old.asked.skipped all))
            → self.new.has_failed ≡ false → self.new.notes.items ≡ take self.old.asked.room (drop self.old.asked.skipped (all ++ note ∷ [])) }
        ensures asked { self.new.asked ≡ self.old.asked }
        ensures tally { self.new.tally ≡ self.old.tally }
        ensures count { self.new.count ≡ self.old.count }
    {
        if self.asked.keeps(self.count, self.notes.len() as u64) {
            self.keep(note);
        }
    }

    fn keep(&mut self, note: Note)
        ensures kept { self.new.has_failed ≡ false → (self.old.has_failed ≡ false) × (self.new.notes.items ≡ self.old.notes.items ++ note ∷ []) }
        ensures asked { self.new.asked ≡ self.old.asked }
        ensures tally { self.new.tally ≡ self.old.tally }
        ensures count { self.new.count ≡ self.old.count }
    {
        if self.notes.push(note).is_err() {
            self.has_failed = true;
        }
    }

    fn add_told(&mut self, item: Item, told: Told)
        ensures keeps { (all : List Note) → Keeps self.old all → Keeps self.new (all ++ note_of item told ∷ []) }
        ensures asked { self.new.asked ≡ self.old.asked }
        ensures items { self.new.tally.items ≡ self.old.tally.items }
    {
        self.add(Note { item, told });
    }

    fn add_fault(&mut self, item: Item, fault: Fault)
        ensures keeps { (all : List Note) → Keeps self.old all → Keeps self.new (all ++ fault_note item fault ∷ []) }
        ensures asked { self.new.asked ≡ self.old.asked }
        ensures items { self.new.tally.items ≡ self.old.tally.items }
    {
        self.add_told(
            item,
            Told {
                code: Code::Rule(fault.rule),
                place: fault.place,
            },
        );
    }

    fn add_refusal(&mut self, item: Item, fault: JsonFault)
        ensures keeps { (all : List Note) → Keeps self.old all → Keeps self.new (all ++ refusal_note item fault ∷ []) }
        ensures asked { self.new.asked ≡ self.old.asked }
        ensures items { self.new.tally.items ≡ self.old.tally.items }
    {
        self.add_told(
            item,
            Told {
                code: Code::Cause(fault.cause),
                place: fault.place,
            },
        );
    }

    fn add_warnings(&mut self, item: Item, warnings: &Warnings)
        ensures keeps { (all : List Note) → Keeps self.old all → Keeps self.new (all ++ warning_notes self.old.asked.with_warnings item warnings.now) }
        ensures asked { self.new.asked ≡ self.old.asked }
        ensures items { self.new.tally.items ≡ self.old.tally.items }
    {
        if self.asked.with_warnings {
            self.add_kinds(item, warnings);
        }
    }

    fn add_kinds(&mut self, item: Item, warnings: &Warnings)
        ensures keeps { (all : List Note) → Keeps self.old all → Keeps self.new (all ++ warning_notes true item warnings.now) }
        ensures asked { self.new.asked ≡ self.old.asked }
        ensures items { self.new.tally.items ≡ self.old.tally.items }
    {
        for kind in &KINDS {
            self.add_kind(item, warnings, *kind);
        }
    }

    fn add_kind(&mut self, item: Item, warnings: &Warnings, kind: Kind)
        ensures keeps { (all : List Note) → Keeps self.old all → Keeps self.new (all ++ kind_notes item warnings.now kind) }
        ensures asked { self.new.asked ≡ self.old.asked }
        ensures items { self.new.tally.items ≡ self.old.tally.items }
    {
        if let Some((told, _)) = warning(kind, warnings) {
            self.add_told(item, told);
        }
    }

    /// Adds what is noted of a record.
    fn add_record(&mut self, found: &Record)
        ensures keeps { (all : List Note) → Keeps self.old all → Keeps self.new (all ++ record_notes self.old.asked.with_warnings found.now) }
        ensures asked { self.new.asked ≡ self.old.asked }
        ensures items { self.new.tally.items ≡ self.old.tally.items }
    {
        let item = Item::Record(found.number);
        match found.verdict {
            Verdict::Valid(warnings) => self.add_warnings(item, &warnings),
            Verdict::Broken(fault) => self.add_fault(item, fault),
            Verdict::NotJson(fault) => self.add_refusal(item, fault),
        }
    }
}

fn item_of(feature: &Feature) -> Item
    ensures { result ≡ item_of feature.now }
{
    Item::Feature {
        index: feature.index,
        id: feature.id,
    }
}

impl FeatureSink for Listing {
    ghost use Rattle.geolint_report.specs.Every.{KeepsNotes};

    ghost told = { λ listing features. KeepsNotes listing features };

    fn tell_feature(&mut self, feature: &Feature) {
        self.add_item();
        let item = item_of(feature);
        match feature.fault {
            Some(fault) => self.add_fault(item, fault),
            None => self.add_warnings(item, &feature.warnings),
        }
    }

    // Nothing is noted of it, as of most.
    #[inline(always)]
    fn tell_clean(&mut self, _clean: &CleanFeature) {
        self.add_item();
    }
}

impl RecordSink for Listing {
    ghost use Rattle.geolint_report.specs.Every.{KeepsRecords};

    ghost told = { λ listing records. KeepsRecords listing records };

    fn tell_record(&mut self, found: &Record) {
        self.add_item();
        self.add_record(found);
    }
}
