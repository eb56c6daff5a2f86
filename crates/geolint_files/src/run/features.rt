//! Reports each feature or record of a file, after the file's own report.
ghost use Rattle.std.specs.Prelude.{◌≡◌, ◌<◌, ◌-◌, ◌^◌, ℕ, List, length, IfSome, Option, None, true, false};
ghost use Rattle.gj_rules.specs.declared.records.framing.Framing.{Framing};
ghost use Rattle.geolint_report.specs.Texts.{is_cause};
ghost use Rattle.geolint_files.specs.Listed.{room_of, most_of, asked_with, asked_after, asked_in};
ghost use Rattle.geolint_report.specs.Cursors.{StandBy};
ghost use Rattle.geolint_report.specs.Marks.{IsMarkBy};

use crate::run::{Failure, Run};
use geolint_report::every::cursor::{Cursors, Mark};
use geolint_report::every::further::Further;
use geolint_report::every::id::Id;
use geolint_report::every::listing::{Asked, Item, Note, Notes, notes_for};
use geolint_report::every::reading::{judge_every, judge_followed};
use geolint_report::every::spots::{Follower, Spots};
use geolint_report::hints::feed_before_fault;
use geolint_report::judge::{Finding, Reading};
use geolint_report::source::{Rewind, Source};
use geolint_report::texts::Code;
use gj_json::Limits;
use report_forms::every::Entry;
use report_forms::options::{Every, Options};
use std::io::Write;

/// The most notes that are held at once.
const MOST_HELD: u64 = 65_536;

/// What is asked if at most `most` notes are reported; 0 asks for all.
fn asked_with(with_warnings: bool, most: u64) -> Asked
    ensures { result ≡ asked_with with_warnings most }
{
    Asked {
        with_warnings,
        skipped: 0,
        room: room_of(most),
    }
}

/// How many notes are held at once, if at most `most` are reported.
fn room_of(most: u64) -> u64
    ensures { result ≡ room_of most }
{
    most_of(most).min(MOST_HELD)
}

/// How many notes are reported at most: 0 asks for all.
fn most_of(most: u64) -> u64
    ensures { result ≡ most_of most }
{
    if most == 0 { u64::MAX } else { most }
}

/// What is asked of the features or the records of a file.
pub fn asked_in(options: &Options) -> Option<Asked>
    ensures { result ≡ asked_in options.now }
{
    match options.every {
        Every::Nothing => None,
        Every::Faults => Some(asked_with(false, options.most)),
        Every::Warnings => Some(asked_with(true, options.most)),
    }
}

/// What is asked of a further reading after `told` notes are reported, of `most` at most.
fn asked_after(asked: Asked, most: u64, told: u64) -> Asked
    ensures { result ≡ asked_after asked most told }
{
    Asked {
        with_warnings: asked.with_warnings,
        skipped: told,
        room: asked.room.min(most.saturating_sub(told)),
    }
}

impl<'a, W: Write + Drop> Run<'a, W> {
    ghost use Rattle.std.specs.Prelude.{◌≡◌, ◌-◌, ◌∷◌, [], ℕ, List, Option, Some, None, length, IfOk, OnOk};
    ghost use Rattle.gj_rules.specs.declared.records.framing.Framing.{Framing};
    ghost use Rattle.report_forms.specs.declared.every.Entry.{Entry};
    ghost use Rattle.geolint_report.specs.declared.every.listing.Note.{Note};
    ghost use Rattle.geolint_report.specs.declared.judge.Finding.{Finding};
    ghost use Rattle.report_forms.specs.declared.options.Every.{Every};
    ghost use Rattle.geolint_report.specs.declared.report.Report.{Report};
    ghost use Rattle.report_forms.specs.Passing.{passes};
    ghost use Rattle.geolint_report.specs.Judged.{framing_in};
    ghost use Rattle.geolint_files.specs.Told.{HasHeldIf, HasSites, reading_of, shows};
    ghost use Rattle.geolint_report.specs.Held.{AreHeldBy};
    ghost use Rattle.geolint_report.specs.Spots.{SaysSpot};
    ghost use Rattle.gj_json.specs.Limits.{Allowed};
    ghost use Rattle.geolint_report.specs.Cursors.{StandBy};
    ghost use Rattle.geolint_report.specs.Further.{AreNextBy};
    ghost use Rattle.geolint_report.specs.Internal.FurtherReading.{StandsBy};
    ghost use Rattle.geolint_files.specs.Listed.{asked_for, AreLinesOf, AreEntriesOf, others_of, IsMarkedBy, IsPlaced, IsListedOnce, IsListedTwice};
    ghost use Rattle.geolint_files.specs.Listed.{ArePlacedLines};
    ghost use Rattle.geolint_files.specs.Internal.RunState.{TellsFile, TellsLines, ToldFurther};
    ghost use Rattle.geolint_files.specs.Run.{ToldFile, FeatureLine, feature_line, others_line, judged, listed};

    /// What is asked of the features or the records of a file of this name.
    pub fn asked_for(&self, name: &[u8]) -> Option<Asked>
        ensures { result ≡ asked_for self.now.options name.now }
    {
        match self.reading(name) {
            Reading::Quick => None,
            _ => asked_in(&self.options),
        }
    }

    /// Reports what a source has that can be read once only. Its last bytes are kept, so the lines and columns of places among them
    /// are known when it and its features are reported. Of a feature no path is known.
    pub fn list_once<S: Source>(
        &mut self,
        name: &[u8],
        source: &mut S,
        asked: Asked,
        is_shown: bool,
    ) -> Result<(), Failure>
        requires { asked_for self.now.options name.now ≡ Some asked }
        ensures { OnOk result ((file : ToldFile)
            × IsListedOnce (shows is_shown self.old.options.format) (reading_of self.old.options name.now) asked self.old.options.limits name.now (S.remaining source.old) (S.failed_reads source.old)
            (S.failed_reads source.new) file
            × TellsFile W.contents file self.old self.new) }
    {
        let reading = self.reading(name);
        self.progress.add_file(None);
        let mut spots = Spots::new(self.rt.alloc());
        match judge_followed(
            self.rt.alloc(),
            source,
            self.options.limits,
            reading,
            asked,
            &mut self.progress,
            &mut spots,
        ) {
            Ok(found) => match notes_for(found.0, found.1, asked)? {
                Some(notes) => self.list_held(name, found.0, &notes, &spots, reading, is_shown),
                None => {
                    feed_before_fault(&found.0, self.options.limits, self.linter, &spots);
                    self.tell_once(name, found.0, &spots, reading, is_shown)
                }
            },
            Err(error) => self.tell_unread(name, &error),
        }
    }

    /// Reports a file that was checked, and then notes, with the lines of the places that are still held.
    fn list_held(
        &mut self,
        name: &[u8],
        finding: Finding,
        notes: &Notes,
        spots: &Spots,
        reading: Reading,
        is_shown: bool,
    ) -> Result<(), Failure>
        ensures { (self.old.options.every ≡ Every.Nothing → ⊥)
            → OnOk result ((report : Report) × (report.name.now ≡ name.now) × (report.finding ≡ finding)
            × HasHeldIf (shows is_shown self.old.options.format finding) (AreHeldBy spots.now finding reading self.old.options.limits) report
            × ((lines : List FeatureLine) × AreLinesOf (IsMarkedBy (SaysSpot spots.now)) name.now notes.now.notes.items notes.now.count lines
            × TellsFile W.contents (listed report lines notes.now.tally) self.old self.new)) }
    {
        self.tell_once(name, finding, spots, reading, is_shown)?;
        self.tally.add(&notes.tally);
        self.tell_followed(name, notes, spots)
    }

    /// Reports a file that was checked, and then notes, with what the follower says of their places.
    pub fn list_followed<F: Follower>(
        &mut self,
        name: &[u8],
        finding: Finding,
        notes: &Notes,
        follower: &F,
    ) -> Result<(), Failure>
        ensures { (self.old.options.every ≡ Every.Nothing → ⊥)
            → OnOk result ((lines : List FeatureLine) × AreLinesOf (IsMarkedBy (F.says follower.now)) name.now notes.now.notes.items notes.now.count lines
            × TellsFile W.contents (listed (record {
              name = name.entry;
              finding = finding;
              sites = None;
              passes = passes self.old.options.strictness finding;
              found = None;
              hint = None;
            }) lines notes.now.tally) self.old self.new) }
    {
        self.tell(name, finding, None)?;
        self.tally.add(&notes.tally);
        self.tell_followed(name, notes, follower)
    }

    /// Reports notes, with what the follower says of their places.
    fn tell_followed<F: Follower>(
        &mut self,
        name: &[u8],
        notes: &Notes,
        follower: &F,
    ) -> Result<(), Failure>
        ensures { OnOk result
            ((lines : List FeatureLine) × AreLinesOf (IsMarkedBy (F.says follower.now)) name.now notes.now.notes.items notes.now.count lines
            × TellsLines W.contents lines self.old self.new) }
    {
        for index in 0..notes.notes.len() {
            let note = &notes.notes[index];
            let mark = follower.mark_at(index, note);
            self.tell_note(name, *note, mark, b"")?;
        }
        self.tell_others(name, others(notes.count, notes.notes.len() as u64))
    }

    /// Reports what a source has, and reads it again for the lines and the paths of its features or records, and the `id`s of its features.
    pub fn list_twice<S: Rewind>(
        &mut self,
        name: &[u8],
        source: &mut S,
        asked: Asked,
    ) -> Result<(), Failure>
        requires { asked_for self.now.options name.now ≡ Some asked }
        ensures { OnOk result ((file : ToldFile)
            × IsListedTwice (reading_of self.old.options name.now) asked self.old.options.most self.old.options.limits name.now
            (S.remaining source.old) (S.text source.old) (S.failed_reads source.old) (S.failed_reads source.new) file
            × TellsFile W.contents file self.old self.new) }
    {
        let reading = self.reading(name);
        self.progress.add_file(source.size());
        match judge_every(
            self.rt.alloc(),
            source,
            self.options.limits,
            reading,
            asked,
            &mut self.progress,
        ) {
            Ok(found) => match notes_for(found.0, found.1, asked)? {
                Some(notes) => self.list_placed(name, found.0, source, reading, asked, &notes),
                None => self.tell_refused(name, found.0, source, reading),
            },
            Err(error) => self.tell_unread(name, &error),
        }
    }

    /// Reports what another linter has found. Where it is a text that is refused, the linter of the run is fed what comes before, since
    /// the hint depends on it.
    pub fn tell_refused<S: Rewind>(
        &mut self,
        name: &[u8],
        finding: Finding,
        source: &mut S,
        reading: Reading,
    ) -> Result<(), Failure>
        ensures text { S.text source.new ≡ S.text source.old }
        ensures told { OnOk result ((report : Report) × (report.name.now ≡ name.now) × (report.finding ≡ finding)
            × HasSites reading self.old.options.limits (S.text source.old) (S.failed_reads source.old) (S.failed_reads source.new) report
            × TellsFile W.contents (judged report) self.old self.new) }
    {
        feed_before_fault(&finding, self.options.limits, self.linter, source);
        self.tell_found(name, finding, source, reading)
    }

    /// Reports a file that was checked, and then notes, for whose places the source is read again.
    pub fn list_placed<S: Rewind>(
        &mut self,
        name: &[u8],
        finding: Finding,
        source: &mut S,
        reading: Reading,
        asked: Asked,
        notes: &Notes,
    ) -> Result<(), Failure>
        ensures { (self.old.options.every ≡ Every.Nothing → ⊥) → OnOk result ((report : Report) × (report.name.now ≡ name.now) × (report.finding ≡ finding)
            × ((middle : ℕ) × HasSites reading self.old.options.limits (S.text source.old) (S.failed_reads source.old) middle report)
            × ((lines : List FeatureLine)
            × ArePlacedLines reading asked self.old.options.most self.old.options.limits name.now (S.text source.old)
            notes.now.notes.items notes.now.count lines
            × TellsFile W.contents (listed report lines notes.now.tally) self.old self.new)) }
    {
        let (limits, most) = (self.options.limits, self.options.most);
        self.tell_found(name, finding, source, reading)?;
        self.tally.add(&notes.tally);
        self.tell_placed(name, source, limits, reading, asked, most, notes)
    }

    /// Reports notes, each with its line, its path and its `id`: without them where a read fails. Where more are asked for than are
    /// held, those after them follow.
    #[inline(never)]
    fn tell_placed<S: Rewind>(
        &mut self,
        name: &[u8],
        source: &mut S,
        limits: Limits,
        reading: Reading,
        asked: Asked,
        most: u64,
        notes: &Notes,
    ) -> Result<(), Failure>
        ensures { OnOk result
            ((lines : List FeatureLine) × ArePlacedLines reading asked most limits name.now (S.text source.old) notes.now.notes.items notes.now.count lines
            × TellsLines W.contents lines self.old self.new) }
    {
        let mut cursors = Cursors::new(limits, reading.framing());
        self.tell_notes(name, notes.notes.as_slice(), &mut cursors, source)?;
        let held = notes.notes.len() as u64;
        let told = self.tell_further(
            name,
            source,
            limits,
            reading,
            asked,
            most_of(most),
            held,
            &mut cursors,
        )?;
        self.tell_others(name, others(notes.count, told))
    }

    /// Reports the notes after the first `held`, up to `most` in all: one further reading finds them, and they are reported as they
    /// come. It answers how many notes are reported then.
    fn tell_further<S: Rewind>(
        &mut self,
        name: &[u8],
        source: &mut S,
        limits: Limits,
        reading: Reading,
        asked: Asked,
        most: u64,
        held: u64,
        cursors: &mut Cursors,
    ) -> Result<u64, Failure>
        ensures { StandBy (framing_in reading) (S.text source.old) cursors.old
            → IfOk result (λ told. ToldFurther W.contents reading asked most limits name.now (S.text source.old) held told self.old self.new) }
    {
        if most <= asked.room {
            return Ok(held);
        }
        let alloc = self.rt.alloc();
        let framing = reading.framing();
        let mut further = Further::new(alloc, limits, framing, asked_after(asked, most, held));
        self.progress.read_again();
        let mut told = held;
        for _ in 0..u64::MAX {
            if further.has_ended() || told >= most {
                break;
            }
            let next = asked_after(asked, most, told);
            further.ask(alloc, limits, framing, next);
            let last = self.tell_next(name, source, &mut further, next, cursors)?;
            told = told.saturating_add(last);
        }
        Ok(told)
    }

    /// Reads a piece more of a source, and reports the notes that are asked for: how many they are.
    fn tell_next<S: Rewind>(
        &mut self,
        name: &[u8],
        source: &mut S,
        further: &mut Further,
        asked: Asked,
        cursors: &mut Cursors,
    ) -> Result<u64, Failure>
        ensures stand { (framing : Option Framing) → StandBy framing (S.text source.old) cursors.old → StandBy framing (S.text source.old) cursors.new }
        ensures further { (framing : Option Framing) (limits : Allowed) → StandsBy framing limits (S.text source.old) further.old
            → StandsBy framing limits (S.text source.old) further.new }
        ensures text { S.text source.new ≡ S.text source.old }
        ensures told { (framing : Option Framing) (limits : Allowed) → StandBy framing (S.text source.old) cursors.old
            → StandsBy framing limits (S.text source.old) further.old → IfOk result (λ count. (notes : List Note)
            × AreNextBy framing asked limits (S.text source.old) notes × (count ≡ length notes)
            × ((lines : List FeatureLine) × AreEntriesOf (IsPlaced framing (S.text source.old)) name.now notes lines
            × TellsLines W.contents lines self.old self.new)) }
    {
        further.read_on(source, &mut self.progress);
        let notes = further.notes(asked)?;
        self.tell_notes(name, notes, cursors, source)?;
        Ok(notes.len() as u64)
    }

    /// Reports notes, each with its line, its path and its `id`.
    fn tell_notes<S: Rewind>(
        &mut self,
        name: &[u8],
        notes: &[Note],
        cursors: &mut Cursors,
        source: &mut S,
    ) -> Result<(), Failure>
        ensures stand { (framing : Option Framing) → StandBy framing (S.text source.old) cursors.old → StandBy framing (S.text source.old) cursors.new }
        ensures text { S.text source.new ≡ S.text source.old }
        ensures told { (framing : Option Framing) → StandBy framing (S.text source.old) cursors.old → OnOk result
            ((lines : List FeatureLine) × AreEntriesOf (IsPlaced framing (S.text source.old)) name.now notes.now lines
            × TellsLines W.contents lines self.old self.new) }
    {
        for note in notes {
            self.tell_at(name, note, cursors, source)?;
        }
        Ok(())
    }

    /// Reports a note with the line, the column and the path of its place, and the `id` of its feature, as a reading of the
    /// source finds them.
    fn tell_at<S: Rewind>(
        &mut self,
        name: &[u8],
        note: &Note,
        cursors: &mut Cursors,
        source: &mut S,
    ) -> Result<(), Failure>
        ensures stand { (framing : Option Framing) → StandBy framing (S.text source.old) cursors.old → StandBy framing (S.text source.old) cursors.new }
        ensures text { S.text source.new ≡ S.text source.old }
        ensures told { (framing : Option Framing) → StandBy framing (S.text source.old) cursors.old
            → OnOk result ((entry : Entry) × (entry.name.now ≡ name.now) × (entry.note ≡ note.now) × IsPlaced framing (S.text source.old) entry
            × TellsLines W.contents (feature_line entry ∷ []) self.old self.new) }
    {
        let mark = find(cursors, source, note);
        let id = id_of(note, source);
        self.tell_note(name, *note, mark, id.bytes())
    }

    /// Reports a note, with what was found of its place.
    fn tell_note(
        &mut self,
        name: &[u8],
        note: Note,
        mark: Option<Mark>,
        id: &[u8],
    ) -> Result<(), Failure>
        ensures { OnOk result
            (TellsLines W.contents (feature_line (record { name = name.entry; note = note; mark = mark; id = id.entry }) ∷ []) self.old self.new) }
    {
        let entry = Entry {
            name,
            note,
            mark,
            id,
        };
        self.log.put_entry(
            self.rt.alloc(),
            &entry,
            &self.options,
            self.style,
            &mut self.line,
        )?;
        self.write()?;
        Ok(())
    }

    /// Reports how many notes are not reported, where there are some.
    fn tell_others(&mut self, name: &[u8], count: u64) -> Result<(), Failure>
        ensures { OnOk result (TellsLines W.contents (others_of name.now count) self.old self.new) }
    {
        if count == 0 {
            self.show()
        } else {
            self.tell_more(name, count)
        }
    }

    /// Reports that `count` more notes are not reported.
    fn tell_more(&mut self, name: &[u8], count: u64) -> Result<(), Failure>
        ensures { OnOk result (TellsLines W.contents (others_line name.now count ∷ []) self.old self.new) }
    {
        self.log.put_more(
            self.rt.alloc(),
            self.options.format,
            name,
            count,
            self.style,
            &mut self.line,
        )?;
        self.write()?;
        self.show()
    }
}

/// How many of `count` notes are not reported, after `told` of them are.
fn others(count: u64, told: u64) -> u64
    ensures left { result ≡ count - told }
    // as each u64 is
    ensures small { count < 2 ^ 64 }
{
    count.saturating_sub(told)
}

/// Where a place is: nothing where a read fails.
fn find<S: Rewind>(cursors: &mut Cursors, source: &mut S, note: &Note) -> Option<Mark>
    ensures stand { (framing : Option Framing) → StandBy framing (S.text source.old) cursors.old → StandBy framing (S.text source.old) cursors.new }
    ensures mark { (framing : Option Framing) → StandBy framing (S.text source.old) cursors.old
        → IfSome result (λ mark. IsMarkBy framing (S.text source.old) note.now.told.place mark) }
    ensures text { S.text source.new ≡ S.text source.old }
{
    match cursors.go_to(source, note) {
        Ok(Some(mark)) => Some(told_mark(mark, note.told.code)),
        _ => None,
    }
}

/// Where a place is. Of one at which a record is refused no path is reported, since no text has that byte.
fn told_mark(mark: Mark, code: Code) -> Mark
    ensures mark { (framing : Option Framing) (text : Option (List ℕ)) (place : ℕ) → IsMarkBy framing text place mark → IsMarkBy framing text place result }
    ensures none { is_cause code ≡ true → result.path ≡ None }
    ensures same { is_cause code ≡ false → result ≡ mark }
{
    match code {
        Code::Cause(_) => mark.without_path(),
        _ => mark,
    }
}

/// The `id` of a feature: none of a record, or where a read fails.
fn id_of<S: Rewind>(note: &Note, source: &mut S) -> Id
    ensures text { S.text source.new ≡ S.text source.old }
{
    match note.item {
        Item::Feature {
            id: Some(place),
            ..
        } => match Id::at(source, place) {
            Ok(id) => id,
            Err(_) => Id::none(),
        },
        _ => Id::none(),
    }
}
