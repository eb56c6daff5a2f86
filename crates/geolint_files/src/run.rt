//! Checks what the words name, file by file, and reports each.
ghost use Rattle.std.specs.Prelude.{◌≡◌, ◌&&◌, ◌↔◌, [], List, map, IfOk, IsTrue, OnOk, false};
ghost use Rattle.std.specs.List.{list_any};
ghost use Rattle.geolint_report.specs.Line.{Adds};
ghost use Rattle.geolint_report.specs.Tallies.{IsTotal};
ghost use Rattle.report_forms.specs.FileCounts.{Counts};
ghost use Rattle.report_forms.specs.Forms.Features.{is_nothing};
ghost use Rattle.report_forms.specs.declared.formats.lines.Style.{Style};
ghost use Rattle.geolint_files.specs.Run.{ToldFile, finding_in, tallies_in, whole_summary};
ghost use Rattle.geolint_files.specs.Named.{IsRun};
ghost use Rattle.geolint_files.specs.Walk.{first_named, is_input, is_input_path, takes_input_twice};

mod features;
mod joined;
mod reports;

use crate::files::{Spelled, is_lost_link, is_memory, look_up, shown_folder, spell};
use crate::outcome::Outcome;
use crate::walk::{Others, Pending, Walk, framing_by, is_taken};
use crate::words::Order;
pub use features::asked_in;
use geolint_report::every::spots::{Spots, Unplaced};
use geolint_report::every::tally::Tally;
use geolint_report::judge::{Reading, judge};
use geolint_report::name_lists::{Listed, NameEnd, Names};
use geolint_report::progress::Meter;
use geolint_report::source::{FileSource, FromRead, Rewind, Source};
use gj_rules::{Framing, Linter};
pub use joined::tell_joined;
use report_forms::formats::lines::Style;
use report_forms::formats::{Log, is_for_people, put_begin};
use report_forms::items::put_items;
use report_forms::options::{Every, Options};
use report_forms::summary::Summary;
use std::alloc::AllocError;
use std::fs::Metadata;
use std::io::{self, ErrorKind, IsTerminal, Read, Write};
use std::os::unix::fs::MetadataExt;
use std::{env, mem};

/// What ends a run before its report is whole.
#[derive(Drop)]
pub enum Failure {
    Write(io::Error),
    /// No file was checked, and these were passed over.
    NoFile(Others),
    /// Standard input is named as a file and as the list.
    BothFromInput,
    Memory,
}

impl From<AllocError> for Failure {
    fn from(_error: AllocError) -> Failure {
        Failure::Memory
    }
}

impl From<io::Error> for Failure {
    fn from(error: io::Error) -> Failure {
        if is_memory(&error) {
            Failure::Memory
        } else {
            Failure::Write(error)
        }
    }
}

/// What a list says of standard input.
const NO_INPUT: &str = "a list cannot name standard input; ./- is a file of that name";

/// What is said of a device, a FIFO or a socket in a folder or a list.
const NO_FILE: &str = "no regular file; it is read where it is given by name";

/// What is said of a name with NUL, where names end with LF.
const NO_NUL: &str = "a name in a list has no NUL; --null takes names that end with it";

/// Checks what is named, and reports each file. The report of all goes to the writer, and the answer has the worst of their
/// outcomes. Where there was no file, and that is not allowed, it is a failure.
pub fn judge_all<W: Write + Drop>(
    rt: &HostRuntime,
    order: &Order,
    out: W,
) -> Result<Ended<W>, Failure>
    ensures { IfOk result (λ ended. IsRun order.now (W.contents out) (W.contents ended.out) ended.outcome) }
{
    if names_input(order) {
        return Err(Failure::BothFromInput);
    }
    let mut linter = Linter::new(order.options.limits);
    let mut run = Run::new(rt, order, &mut linter, out)?;
    run.begin()?;
    run.judge_order(order)?;
    if lacks_files(&run.summary, order.allows_empty) {
        return Err(run.end_with_none(order)?);
    }
    run.end()?;
    Ok(Ended {
        outcome: run.outcome,
        out: run.out,
    })
}

/// Whether there was no file, and that is not allowed.
fn lacks_files(summary: &Summary, allows_empty: bool) -> bool
    ensures { (files : List ToldFile) → Counts summary.now (map finding_in files) → IsTrue result ↔ ((files ≡ []) × (allows_empty ≡ false)) }
{
    summary.is_empty() && !allows_empty
}

/// Whether standard input is named as a file and as the list.
fn names_input(order: &Order) -> bool
    ensures { result ≡ takes_input_twice order.now.paths.items order.now.list }
{
    match &order.list {
        Some(list) => is_input(list.as_slice()) && names_input_in(order.paths.as_slice()),
        None => false,
    }
}

/// Whether one of the names is that of standard input.
fn names_input_in(paths: &[Vec<u8>]) -> bool
    ensures { result ≡ list_any is_input_path paths.now }
{
    paths.iter().any(|path| is_input(path.as_slice()))
}

/// Whether a name is that of standard input.
fn is_input(name: &[u8]) -> bool
    ensures { result ≡ is_input name.now }
{
    name == b"-".as_slice()
}

/// What is named first: standard input, where nothing is.
fn first_named(order: &Order) -> &[u8]
    ensures { result.now ≡ first_named order.now.paths.items order.now.list }
{
    match (order.paths.as_slice().first(), &order.list) {
        (Some(path), _) => path.as_slice(),
        (None, Some(list)) => list.as_slice(),
        (None, None) => b"-",
    }
}

/// A run whose report is whole.
#[derive(Drop)]
pub struct Ended<W> {
    /// The worst of all files.
    pub outcome: Outcome,
    /// What the report was written to.
    pub out: W,
}

/// What is under way of a run, whose report goes to a writer.
#[derive(Drop)]
struct Run<'a, W> {
    rt: HostRuntime,
    options: Options,
    /// The files that are passed over.
    others: Others,
    /// One for all files, each of which begins it anew.
    linter: &'a mut Linter,
    style: Style,
    out: W,
    is_terminal: bool,
    /// What is reported of a file, before it is written.
    line: Vec<u8>,
    log: Log,
    progress: Meter,
    summary: Summary,
    /// Of the features and records of all files.
    tally: Tally,
    outcome: Outcome,
}

/// Whether the report is shown in colour. No clause knows what the environment says.
fn style_of(rt: &HostRuntime, is_terminal: bool) -> Style
    ensures { is_terminal ≡ false → result ≡ Style.Plain }
{
    let is_refused = match env::var(rt, "NO_COLOR") {
        Ok(text) => !text.is_empty(),
        Err(_) => false,
    };
    if is_terminal && !is_refused {
        Style::Colour
    } else {
        Style::Plain
    }
}

impl<'a, W: Write + Drop> Run<'a, W> {
    ghost use Rattle.std.specs.Prelude.{◌≡◌, ◌&&◌, ◌∷◌, [], ℕ, Bool, List, Vec, Option, None, IfOk, OnOk, map, true};
    ghost use Rattle.std.specs.Io.KnownBytes.{Appends};
    ghost use Rattle.geolint_report.specs.Tallies.{IsTotal};
    ghost use Rattle.report_forms.specs.declared.formats.lines.Style.{Style};
    ghost use Rattle.report_forms.specs.declared.options.Options.{Options};
    ghost use Rattle.report_forms.specs.FileCounts.{Counts};
    ghost use Rattle.report_forms.specs.Forms.Features.{is_nothing};
    ghost use Rattle.geolint_files.specs.declared.run.Failure.{Failure};
    ghost use Rattle.geolint_files.specs.Internal.RunState.{HasTold, IsFresh, TellsFile, TellsFiles, SameTold, Unchanged};
    ghost use Rattle.geolint_files.specs.Run.{ToldFile, finding_in, tallies_in, IsWholeReport, summary_in};
    ghost use Rattle.geolint_files.specs.Told.{reading_of, framing_by, shows, IsToldOnce, IsToldTwice};
    ghost use Rattle.geolint_files.specs.Listed.{IsOnce, IsTwice};
    ghost use Rattle.geolint_files.specs.Named.{AreOf, AreOfList, AreOfOrder, GoesOn, name_in, next_in};
    ghost use Rattle.std.specs.declared.alloc.Global.{Global};

    /// A run that has reported nothing yet. An error is answered where there is no memory.
    fn new(
        rt: &HostRuntime,
        order: &Order,
        linter: &'a mut Linter,
        out: W,
    ) -> Result<Run<'a, W>, Failure>
        ensures options { IfOk result (λ run. run.options ≡ order.now.options) }
        ensures fresh { IfOk result (IsFresh W.contents (W.contents out)) }
    {
        let is_terminal = rt.stdout().is_terminal();
        Ok(Run {
            rt: rt.clone()?,
            options: order.options,
            others: Others::new(rt.alloc()),
            linter,
            style: style_of(rt, is_terminal),
            out,
            is_terminal,
            line: Vec::new(rt.alloc()),
            log: Log::new(rt.alloc()),
            progress: Meter::new(rt.clone()?),
            summary: Summary::new(),
            tally: Tally::none(),
            outcome: Outcome::Pass,
        })
    }

    /// Writes what comes before the first file.
    fn begin(&mut self) -> Result<(), Failure>
        ensures { OnOk result
            ((held : Option (List ℕ)) → IsFresh W.contents held self.old → HasTold W.contents held self.old.options self.old.style [] self.new) }
    {
        put_begin(self.options.format, &mut self.line)?;
        self.write()?;
        self.log.is_first = true;
        Ok(())
    }

    /// Reports to the progress line how many bytes there are, where that is known without a walk: each path is a file.
    fn expect(&mut self, order: &Order)
        ensures { Unchanged self.old self.new }
    {
        if self.progress.is_shown() && order.list.is_none() {
            if let Some(bytes) = bytes_of(&self.rt, order.paths.as_slice()) {
                self.progress.expect(bytes);
            }
        }
    }

    /// Checks what the words name, and what a list does.
    fn judge_order(&mut self, order: &Order) -> Result<(), Failure>
        ensures { OnOk result ((files : List ToldFile) × AreOfOrder order.now files × TellsFiles W.contents files self.old self.new) }
    {
        self.expect(order);
        let endings = order.endings.as_slice();
        for path in &order.paths {
            self.judge_path(path.as_slice(), endings, true)?;
        }
        match &order.list {
            Some(list) => self.judge_list(list.as_slice(), order.name_end, endings),
            None => Ok(()),
        }
    }

    /// Writes what follows the last file.
    fn end(&mut self) -> Result<(), Failure>
        ensures outcome { self.new.outcome ≡ self.old.outcome }
        ensures told { OnOk result
            ((held : Option (List ℕ)) (options : Options) (style : Style) (files : List ToldFile) → HasTold W.contents held options style files self.old
            → (bytes : List ℕ) × IsWholeReport options style files bytes × Appends held (W.contents self.new.out) bytes) }
    {
        self.progress.clear();
        self.log.put_end(
            self.options.format,
            self.style,
            &self.summary,
            &self.tally,
            &mut self.line,
        )?;
        self.write()?;
        self.tell_summary()?;
        self.out.flush()?;
        Ok(())
    }

    /// Reports the summary, where it is asked for.
    fn tell_summary(&mut self) -> Result<(), Failure>
        ensures outcome { self.new.outcome ≡ self.old.outcome }
        ensures told { OnOk result
            ((files : List ToldFile) → Counts self.old.summary (map finding_in files) → IsTotal self.old.tally (tallies_in files) → self.old.line.items ≡ []
            → Appends (W.contents self.old.out) (W.contents self.new.out) (summary_in self.old.options files)) }
    {
        if self.options.summary {
            put_summary(
                &self.summary,
                &self.tally,
                self.options.every,
                &mut self.line,
            )?;
            if is_for_people(self.options.format) {
                self.write()?;
            } else {
                self.rt.stderr().write_all(self.line.as_slice())?;
            }
        }
        Ok(())
    }

    /// Writes what is reported, and begins a new line.
    fn write(&mut self) -> Result<(), Failure>
        ensures same { SameTold self.old self.new }
        ensures first { OnOk result (self.new.log.is_first ≡ (self.old.log.is_first && is_nothing self.old.line.items)) }
        ensures unread { self.new.log.unread ≡ self.old.log.unread }
        ensures out { OnOk result (Appends (W.contents self.old.out) (W.contents self.new.out) self.old.line.items) }
        ensures line { OnOk result (self.new.line.items ≡ []) }
    {
        self.out.write_all(self.line.as_slice())?;
        self.log.is_first = is_still_first(self.log.is_first, self.line.as_slice());
        self.line.clear();
        Ok(())
    }

    /// Ends the report of a run in which no file was checked: in a log it is no success.
    fn end_with_none(&mut self, order: &Order) -> Result<Failure, Failure>
        ensures { IfOk result (λ failure. failure ≡ Failure.NoFile self.old.others) }
    {
        let alloc = self.rt.alloc();
        let others = mem::replace(&mut self.others, Others::new(alloc));
        self.log.keep_unread(
            alloc,
            self.options.format,
            first_named(order),
            "no file was checked",
        )?;
        self.end()?;
        Ok(Failure::NoFile(others))
    }

    /// Checks each path of a list. One that cannot be opened, or read to its end, is reported as a file is.
    fn judge_list(
        &mut self,
        list: &[u8],
        name_end: NameEnd,
        endings: &[Vec<u8>],
    ) -> Result<(), Failure>
        ensures { OnOk result ((files : List ToldFile) × AreOfList endings.now list.now name_end None files
            × TellsFiles W.contents files self.old self.new) }
    {
        if list == b"-".as_slice() {
            let input = self.rt.stdin();
            return self.judge_names(input, list, name_end, endings);
        }
        let opened = match spell(self.rt.alloc(), list) {
            Ok(spelled) => spelled.open(&self.rt),
            Err(error) => Err(error),
        };
        match opened {
            Ok(file) => self.judge_names(file, list, name_end, endings),
            Err(error) => self.tell_unread(list, &error),
        }
    }

    /// Checks the files that a list names, one after the other. A list that cannot be read to its end is reported as a file is.
    fn judge_names<R: Read + Drop>(
        &mut self,
        reader: R,
        list: &[u8],
        name_end: NameEnd,
        endings: &[Vec<u8>],
    ) -> Result<(), Failure>
        ensures { OnOk result ((files : List ToldFile) × AreOfList endings.now list.now name_end (R.remaining reader) files
            × TellsFiles W.contents files self.old self.new) }
    {
        let mut names = Names::new(reader, name_end);
        let mut name = Vec::new(self.rt.alloc());
        for _ in 0..u64::MAX {
            match names.next_into(&mut name) {
                Ok(listed) => match listed {
                    Listed::End => return Ok(()),
                    _ => self.judge_listed(name.as_slice(), listed, endings)?,
                },
                Err(error) => return self.tell_unread(list, &error),
            }
        }
        // No list has so many names.
        Err(Failure::Memory)
    }

    /// Checks what a list names, which are files and folders alone.
    fn judge_listed(
        &mut self,
        name: &[u8],
        listed: Listed,
        endings: &[Vec<u8>],
    ) -> Result<(), Failure>
        ensures { OnOk result ((files : List ToldFile) × AreOf endings.now ((name.now, true) ∷ []) files
            × TellsFiles W.contents files self.old self.new) }
    {
        if listed == Listed::NameWithNul {
            self.tell_unread(name, &io::Error::new(ErrorKind::InvalidInput, NO_NUL))
        } else if name == b"-".as_slice() {
            self.tell_unread(name, &io::Error::new(ErrorKind::InvalidInput, NO_INPUT))
        } else {
            self.judge_path(name, endings, false)
        }
    }

    /// Checks a file, or the files of a folder. A stream is one where `takes_streams`.
    fn judge_path(
        &mut self,
        path: &[u8],
        endings: &[Vec<u8>],
        takes_streams: bool,
    ) -> Result<(), Failure>
        ensures { OnOk result ((files : List ToldFile) × AreOf endings.now ((path.now, true) ∷ []) files
            × TellsFiles W.contents files self.old self.new) }
    {
        if path == b"-".as_slice() {
            let input = self.rt.stdin();
            return self.judge_stream(path, &mut FromRead::new(input), true);
        }
        let mut walk = Walk::of(&self.rt, path, shown_folder(&self.rt, path, takes_streams))?;
        for _ in 0..u64::MAX {
            match walk.next_pending() {
                Some(pending) => self.look_at(&pending, endings, takes_streams, &mut walk)?,
                None => return Ok(()),
            }
        }
        // No walk is so long.
        Err(Failure::Memory)
    }

    /// Checks what a name leads to, or puts a folder's entries on the walk. What cannot be looked at is reported: it could be a
    /// folder with files. For a link that leads nowhere, only the name counts.
    fn look_at(
        &mut self,
        pending: &Pending,
        endings: &[Vec<u8>],
        takes_streams: bool,
        walk: &mut Walk,
    ) -> Result<(), Failure>
        ensures { OnOk result ((files : List ToldFile)
            × GoesOn endings.now ((pending.now.name.items, pending.now.is_given) ∷ next_in walk.old) (next_in walk.new) files
            × TellsFiles W.contents files self.old self.new) }
    {
        let name = pending.name.as_slice();
        let is_wanted = pending.is_given || is_taken(name, endings);
        let takes_streams = pending.is_given && takes_streams;
        match look_up(&self.rt, name) {
            Ok((spelled, metadata)) => {
                if metadata.is_dir() {
                    self.enter(name, &spelled, &metadata, walk)
                } else if is_wanted {
                    let is_shown = takes_streams || spelled.stands_in(&self.rt, walk.folder());
                    self.judge_named(name, &spelled, &metadata, takes_streams, is_shown)
                } else {
                    self.pass_over(name, &metadata)
                }
            }
            Err(error) => {
                if !is_wanted && is_lost_link(&self.rt, name, &error) {
                    Ok(())
                } else {
                    self.tell_unread(name, &error)
                }
            }
        }
    }

    /// Puts a folder's entries on the walk, where it is entered for the first time.
    fn enter(
        &mut self,
        name: &[u8],
        spelled: &Spelled,
        metadata: &Metadata,
        walk: &mut Walk,
    ) -> Result<(), Failure>
        ensures { OnOk result ((files : List ToldFile)
            × ((endings : List (Vec ℕ Global)) (is_given : Bool) → GoesOn endings ((name.now, is_given) ∷ next_in walk.old) (next_in walk.new) files)
            × TellsFiles W.contents files self.old self.new) }
    {
        if !walk.enters(metadata.dev(), metadata.ino())? {
            return Ok(());
        }
        match spelled.entries(&self.rt) {
            Ok(entries) => {
                walk.push_entries(&self.rt, name, entries.as_slice())?;
                Ok(())
            }
            Err(error) => self.tell_unread(name, &error),
        }
    }

    /// Checks what a name leads to, which is no folder. What cannot be opened is reported, and so is a device or a FIFO but where
    /// a stream is taken: it could have no end, or no bytes for ever. Its kind is looked at again once it is open. A file that is not
    /// shown is read as a stream is: no text of it is reported.
    fn judge_named(
        &mut self,
        name: &[u8],
        spelled: &Spelled,
        metadata: &Metadata,
        takes_streams: bool,
        is_shown: bool,
    ) -> Result<(), Failure>
        ensures { OnOk result ((file : ToldFile) × (name_in file ≡ name.now) × TellsFile W.contents file self.old self.new) }
    {
        let opened = match takes_streams || metadata.is_file() {
            true => spelled.open_and_look(&self.rt),
            false => Err(no_file()),
        };
        match opened {
            Ok((file, now)) => {
                if now.is_file() && is_shown {
                    self.judge_file(name, &mut FileSource::new(file))
                } else if now.is_file() || takes_streams {
                    self.judge_stream(name, &mut FromRead::new(file), is_shown)
                } else {
                    self.tell_unread(name, &no_file())
                }
            }
            Err(error) => self.tell_unread(name, &error),
        }
    }

    /// Counts a file that is not taken.
    fn pass_over(&mut self, name: &[u8], metadata: &Metadata) -> Result<(), Failure>
        ensures { OnOk result (TellsFiles W.contents [] self.old self.new) }
    {
        if metadata.is_file() {
            self.others.add(name)?;
        }
        Ok(())
    }

    /// How a file of this name is read.
    fn reading(&self, name: &[u8]) -> Reading
        ensures { result ≡ reading_of self.now.options name.now }
    {
        match self.framing(name) {
            Some(Framing::Sequence) => Reading::Sequence,
            Some(Framing::Lines) => Reading::Lines,
            None if self.options.quick => Reading::Quick,
            None => Reading::Text,
        }
    }

    /// How the texts of a file of this name are separated: as the words say, or as the name does.
    fn framing(&self, name: &[u8]) -> Option<Framing>
        ensures { result ≡ framing_by self.now.options.framing name.now }
    {
        framing_by(self.options.framing, name)
    }

    /// Checks what can be read once only, and its features where these are asked for. Its text may be shown.
    fn judge_stream<S: Source>(
        &mut self,
        name: &[u8],
        source: &mut S,
        is_shown: bool,
    ) -> Result<(), Failure>
        ensures { OnOk result ((file : ToldFile)
            × IsOnce self.old.options is_shown name.now (S.remaining source.old) (S.failed_reads source.old) (S.failed_reads source.new) file
            × (name_in file ≡ name.now) × TellsFile W.contents file self.old self.new) }
    {
        match self.asked_for(name) {
            Some(asked) => self.list_once(name, source, asked, is_shown),
            None => self.judge_once(name, source, is_shown),
        }
    }

    /// Checks what can be read again, which it is for the lines of what is reported, and its features where these are asked for.
    fn judge_file<S: Rewind>(&mut self, name: &[u8], source: &mut S) -> Result<(), Failure>
        ensures { OnOk result ((file : ToldFile)
            × IsTwice self.old.options name.now (S.remaining source.old) (S.text source.old) (S.failed_reads source.old) (S.failed_reads source.new) file
            × (name_in file ≡ name.now) × TellsFile W.contents file self.old self.new) }
    {
        match self.asked_for(name) {
            Some(asked) => self.list_twice(name, source, asked),
            None => self.judge_twice(name, source),
        }
    }

    /// Reports what a source has. Its last bytes are kept, so the lines of places among them are known.
    ///
    /// They have room of their own, so a file that is read again pays nothing for it.
    #[inline(never)]
    fn judge_once<S: Source>(
        &mut self,
        name: &[u8],
        source: &mut S,
        is_shown: bool,
    ) -> Result<(), Failure>
        ensures { OnOk result ((file : ToldFile)
            × IsToldOnce (shows is_shown self.old.options.format) (reading_of self.old.options name.now) self.old.options.limits name.now (S.remaining source.old) (S.failed_reads source.old)
            (S.failed_reads source.new) file
            × TellsFile W.contents file self.old self.new) }
    {
        let reading = self.reading(name);
        self.progress.add_file(None);
        let mut spots = Spots::new(self.rt.alloc());
        match judge(
            source,
            self.options.limits,
            reading,
            self.linter,
            &mut self.progress,
            &mut spots,
        ) {
            Ok(finding) => self.tell_once(name, finding, &spots, reading, is_shown),
            Err(error) => self.tell_unread(name, &error),
        }
    }

    /// Reports what a source has, and reads it again for the lines of that.
    fn judge_twice<S: Rewind>(&mut self, name: &[u8], source: &mut S) -> Result<(), Failure>
        ensures { OnOk result ((file : ToldFile)
            × IsToldTwice (reading_of self.old.options name.now) self.old.options.limits name.now (S.remaining source.old) (S.text source.old)
            (S.failed_reads source.old) (S.failed_reads source.new) file
            × TellsFile W.contents file self.old self.new) }
    {
        let reading = self.reading(name);
        self.progress.add_file(source.size());
        match judge(
            source,
            self.options.limits,
            reading,
            self.linter,
            &mut self.progress,
            &mut Unplaced,
        ) {
            Ok(finding) => self.tell_found(name, finding, source, reading),
            Err(error) => self.tell_unread(name, &error),
        }
    }
}

/// Whether nothing of a file is written yet, once this is.
fn is_still_first(is_first: bool, line: &[u8]) -> bool
    ensures { result ≡ (is_first && is_nothing line.now) }
{
    is_first && line.is_empty()
}

/// Puts the summary of files, and of their features and records where these are reported.
fn put_summary(
    summary: &Summary,
    tally: &Tally,
    every: Every,
    line: &mut Vec<u8>,
) -> Result<(), AllocError>
    ensures { (files : List ToldFile) → Counts summary.now (map finding_in files) → IsTotal tally.now (tallies_in files)
        → OnOk result (Adds line.old line.new (whole_summary every files)) }
{
    summary.put(line)?;
    match every {
        Every::Nothing => Ok(()),
        _ => put_items(tally, line),
    }
}

fn no_file() -> io::Error {
    io::Error::new(ErrorKind::InvalidInput, NO_FILE)
}

/// How many bytes the paths have, where each is a file. The system says it, so no clause does.
fn bytes_of(rt: &HostRuntime, paths: &[Vec<u8>]) -> Option<u64> {
    let mut bytes = 0u64;
    for path in paths {
        bytes = bytes.saturating_add(file_size(rt, path.as_slice())?);
    }
    Some(bytes)
}

/// The size of a file, as the system says: none for what is no regular one.
fn file_size(rt: &HostRuntime, name: &[u8]) -> Option<u64> {
    match spell(rt.alloc(), name).and_then(|spelled| spelled.metadata(rt)) {
        Ok(metadata) if metadata.is_file() => Some(metadata.len()),
        _ => None,
    }
}
