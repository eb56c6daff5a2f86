//! Checks a file in parts, and joins their lines.
//!
//! No contract can say what an open file gives. Those here say which part a line is of and with which options, what it says of a
//! source of bytes, and that what is reported is what the lines say together of the file, if they are true.

ghost use Rattle.std.specs.Prelude.{◌≡◌, ◌-◌, ◌≤◌, ℕ, List, Option, None, Some, IfOk, IfSome, OnOk, get_or, if◌then◌else◌, length, string_bytes, vec_len};
ghost use Rattle.std.specs.Io.KnownBytes.{Appends};
ghost use Rattle.std.specs.List.{All};
ghost use Rattle.gj_json.specs.Limits.{Allowed};
ghost use Rattle.gj_join.specs.Joined.{IsVerdictOf};
ghost use Rattle.gj_rules.specs.declared.records.framing.Framing.{Framing};
ghost use Rattle.part_lines.specs.Lines.{IsLike, IsLineOf, IsListedLineOf};
ghost use Rattle.part_lines.specs.LineText.{line_text};
ghost use Rattle.part_lines.specs.declared.line.PartLine.{PartLine};
ghost use Rattle.file_parts.specs.Checked.{AreNotesIf};
ghost use Rattle.geolint_files.specs.Listed.{asked_in};
ghost use Rattle.geolint_files.specs.AskedLine.{IsAskedLine, IsReadLine, IsReadLineBy, listed_of};
ghost use Rattle.geolint_files.specs.JoinReport.{AreRecordsJoined, IsJoinedText, IsJoinReport, joined_options, lists_none};
ghost use Rattle.geolint_files.specs.JoinedRun.{IsJoinedRun, Readings, readings_of};

use crate::files::{look_up, reason};
use crate::run::{Ended, Failure, asked_in, tell_joined};
use crate::walk::framing_by;
use crate::words::Order;
use file_parts::collections::{Joined, check_features, join_features};
use file_parts::{Share, check_part};
use geolint_report::every::listing::{Asked, Notes};
use geolint_report::judge::Finding;
use geolint_report::progress::Meter;
use geolint_report::reading_loop::Counts;
use geolint_report::source::{FileSource, Rewind};
use gj_json::Limits;
use gj_rules::{Framing, SeqVerdict, Verdict};
use part_lines::{
    FileState, Listed, NoLine, PartLine, Refusal, Settings, join_lines, join_notes, parts_of,
    put_line, read_line,
};
use report_forms::options::Options;
use report_forms::texts::put_name;
use std::alloc::{AllocError, Global};
use std::fs::{File, Metadata};
use std::io::{self, ErrorKind, Read, Write};
use std::os::unix::fs::MetadataExt;

/// The most bytes that a line has. One with the 65,536 findings that are held has less.
const MOST_IN_LINE: usize = 8 << 20;

/// The most bytes that all lines have together.
const MOST_READ: u64 = 256 << 20;

const LONG_LINE: &str = "this line has more than 8 MiB, and no line of a part has";

const TOO_MUCH: &str =
    "the lines have more than 256 MiB together: give each --part a smaller --most";

const NO_FILE: &str =
    "the lines are of one text, of which --join reads what no part has checked: name the file, as it was, with --file <FILE>";

const MEGABYTE: u64 = 1_000_000;

const UNDIVIDED: &str =
    ": no two features were found between which it can be divided: --join read all of it\n";

const OTHER_FILE: &str =
    "the lines are of another file than --file names: give the path as each --part had it";

// ---- one part

/// Checks a part of the file that is named, and writes its line.
pub fn check_share<W: Write>(
    rt: &HostRuntime,
    order: &Order,
    share: Share,
    out: &mut W,
) -> io::Result<()>
    ensures { OnOk result ((line : PartLine) × IsAskedLine order.now.options share line.file line
        × Appends (W.contents out.old) (W.contents out.new) (line_text line)) }
{
    let name: &[u8] = match order.paths.as_slice().first() {
        Some(path) => path.as_slice(),
        None => b"-",
    };
    let (file, state) = open_regular(rt, name)?;
    let mut meter = Meter::new(rt.clone()?);
    let options = &order.options;
    let source = FileSource::new(file);
    let line = share_line(
        rt.alloc(),
        options,
        share,
        framing_by(options.framing, name),
        state,
        source,
        &mut meter,
    );
    meter.clear();
    match line {
        Ok(line) => put_share(rt.alloc(), &line, out),
        Err(error) => Err(error),
    }
}

/// Writes the line of a part.
fn put_share<W: Write>(alloc: Global, line: &PartLine, out: &mut W) -> io::Result<()>
    ensures { OnOk result (Appends (W.contents out.old) (W.contents out.new) (line_text line.now)) }
{
    let bytes = text_of(alloc, line)?;
    out.write_all(bytes.as_slice())?;
    out.flush()?;
    Ok(())
}

/// Opens a regular file, and says what the system shows of it. It is looked at before, since a pipe would keep the call waiting,
/// and again when it is open.
fn open_regular(rt: &HostRuntime, name: &[u8]) -> io::Result<(File, FileState)> {
    let (spelled, before) = look_up(rt, name)?;
    if !before.is_file() {
        return Err(io::Error::from(ErrorKind::NotSeekable));
    }
    let file = spelled.open(rt)?;
    let metadata = file.metadata()?;
    if !metadata.is_file() {
        return Err(io::Error::from(ErrorKind::NotSeekable));
    }
    let state = state_of(rt.alloc(), spelled.as_str(), &metadata)?;
    Ok((file, state))
}

/// The line of a part of a source, which has as many bytes as the file: of its records, or where it has none of the features of one
/// text.
fn share_line<S: Rewind + Drop>(
    alloc: Global,
    options: &Options,
    share: Share,
    framing: Option<Framing>,
    file: FileState,
    source: S,
    meter: &mut Meter,
) -> io::Result<PartLine>
    ensures asked { IfOk result (IsAskedLine options.now share file) }
    ensures read { IfOk result (λ line. IfSome (S.text source) (λ text. length text ≡ file.size → IsReadLineBy framing options.now share text line)) }
{
    match framing {
        Some(framing) => line_of(alloc, options, share, framing, file, source, meter),
        None => line_of_features(options, share, file, source, meter),
    }
}

/// The line of features.
fn line_of_features<S: Rewind + Drop>(
    chosen: &Options,
    share: Share,
    file: FileState,
    source: S,
    meter: &mut Meter,
) -> io::Result<PartLine>
    ensures asked { IfOk result (IsAskedLine chosen.now share file) }
    ensures read { IfOk result (λ line. IfSome (S.text source) (λ text. IsReadLineBy None chosen.now share text line)) }
{
    let mut source = source;
    let checked = check_features(&mut source, file.size, share, chosen.limits, meter)?;
    Ok(PartLine {
        file,
        settings: settings_of(chosen, None),
        share,
        checked,
        listed: None,
    })
}

/// The line of records.
fn line_of<S: Rewind + Drop>(
    alloc: Global,
    options: &Options,
    share: Share,
    framing: Framing,
    file: FileState,
    source: S,
    meter: &mut Meter,
) -> io::Result<PartLine>
    ensures asked { IfOk result (IsAskedLine options.now share file) }
    ensures read { IfOk result (λ line. IfSome (S.text source) (λ text. length text ≡ file.size → IsReadLine framing options.now share text line)) }
{
    let asked = asked_in(options);
    let (found, _source) = check_part(
        alloc,
        source,
        file.size,
        share,
        framing,
        options.limits,
        asked,
        meter,
    );
    let found = found?;
    Ok(PartLine {
        file,
        settings: settings_of(options, Some(framing)),
        share,
        checked: found.part,
        listed: listed_of(asked, found.notes),
    })
}

/// What decides whether the file passes.
fn settings_of(options: &Options, framing: Option<Framing>) -> Settings
    ensures { result ≡ record { framing = framing; limits = options.now.limits; strictness = options.now.strictness } }
{
    Settings {
        framing,
        limits: options.limits,
        strictness: options.strictness,
    }
}

/// The notes of a part, with what was asked for.
fn listed_of(asked: Option<Asked>, notes: Option<Notes>) -> Option<Listed>
    ensures { result ≡ listed_of asked notes }
{
    match (asked, notes) {
        (Some(asked), Some(notes)) => Some(Listed { asked, notes }),
        _ => None,
    }
}

fn text_of(alloc: Global, line: &PartLine) -> io::Result<Vec<u8>>
    ensures { IfOk result (λ bytes. bytes.items ≡ line_text line.now) }
{
    let mut bytes = Vec::new(alloc);
    put_line(alloc, line, &mut bytes)?;
    Ok(bytes)
}

fn state_of(alloc: Global, path: &str, metadata: &Metadata) -> io::Result<FileState> {
    let seconds = metadata.mtime();
    let nanoseconds = metadata.mtime_nsec();
    Ok(FileState {
        path: String::from_str(alloc, path)?,
        size: metadata.len(),
        modified: format!(in alloc; "{seconds}.{nanoseconds:09}")?,
    })
}

// ---- all parts

/// Where a line is.
#[derive(Clone, Copy)]
pub struct Origin {
    /// The index of its file among those that are named.
    path: usize,
    /// Its number there.
    line: u64,
}

/// The lines of parts, in the order in which they were given.
#[derive(Drop)]
struct Given {
    lines: Vec<PartLine>,
    origins: Vec<Origin>,
}

impl Given {
    fn add(&mut self, line: PartLine, origin: Origin) -> Result<(), AllocError> {
        match self.lines.push(line) {
            Ok(()) => {}
            Err(failed) => return Err(AllocError::from(failed)),
        }
        match self.origins.push(origin) {
            Ok(()) => Ok(()),
            Err(failed) => Err(AllocError::from(failed)),
        }
    }
}

/// Why nothing is joined.
#[derive(Drop)]
pub enum NotJoined {
    /// A file of lines cannot be read.
    Unread(usize, io::Error),
    /// All lines together are too long.
    TooMuch,
    /// A line is too long.
    LongLine(Origin),
    /// A line is not that of a part.
    NoLine(Origin, NoLine),
    /// The lines are not of the file that is named.
    OtherFile,
    /// They are of one text, and its file is not named, is not there or has changed.
    NoFile,
    /// The text cannot be read.
    Text(io::Error),
    Refused(Option<Origin>, Refusal),
    Memory,
    /// The report is not written.
    Report(Failure),
}

impl From<AllocError> for NotJoined {
    fn from(_error: AllocError) -> NotJoined {
        NotJoined::Memory
    }
}

/// Joins the lines of the files that are named, and reports the file of which they are. The report goes to the writer.
pub fn join_all<W: Write + Drop>(
    rt: &HostRuntime,
    order: &Order,
    out: W,
) -> Result<Ended<W>, NotJoined>
    ensures { IfOk result (λ ended. (lines : List PartLine) × (source : Option Readings)
        × IsJoinReport order.now.options lines source (W.contents out) (W.contents ended.out) ended.outcome) }
{
    let given = given_lines(rt, order)?;
    let mut source = source_of(rt, order, &given)?;
    report_given(rt, order, &given, &mut source, out)
}

/// Joins these lines, and reports the file. Its places have lines and columns where its source is there, without which one text is not
/// joined.
fn report_given<W: Write + Drop, S: Rewind>(
    rt: &HostRuntime,
    order: &Order,
    given: &Given,
    source: &mut Option<S>,
    out: W,
) -> Result<Ended<W>, NotJoined>
    ensures { IfOk result (λ ended. IsJoinReport order.now.options given.now.lines.items
        (readings_of S.text S.failed_reads source.old source.new) (W.contents out) (W.contents ended.out) ended.outcome) }
{
    let Some(line) = given.lines.as_slice().first() else {
        return Err(NotJoined::Refused(None, Refusal::None));
    };
    match line.settings.framing {
        Some(_) => {
            let found = join_given(rt.alloc(), &order.options, given)?;
            let finding = Some(Finding::Sequence(found.0));
            report(rt, order, line, finding, found.1, source, out)
        }
        None => {
            let mut read = BytesRead::new(rt)?;
            let joined = join_text(rt, given, line.settings.limits, source, &mut read)?;
            let finding = told_by_parts(&order.options, joined.verdict);
            let ended = report(rt, order, line, finding, None, source, out)?;
            say_read(rt, line, &joined, read.bytes);
            Ok(ended)
        }
    }
}

/// How many bytes were read, as a meter shows them.
#[derive(Drop)]
struct BytesRead {
    meter: Meter,
    bytes: u64,
}

impl BytesRead {
    fn new(rt: &HostRuntime) -> Result<BytesRead, AllocError> {
        Ok(BytesRead {
            meter: Meter::new(rt.clone()?),
            bytes: 0,
        })
    }
}

impl Counts for BytesRead {
    fn add_bytes(&mut self, count: usize) {
        self.bytes = self.bytes.saturating_add(count as u64);
        self.meter.add_bytes(count);
    }
}

/// What is found of the one text of which these are parts. Its source is read where none of them passes over it.
fn join_text<S: Rewind>(
    rt: &HostRuntime,
    given: &Given,
    limits: Limits,
    source: &mut Option<S>,
    read: &mut BytesRead,
) -> Result<Joined, NotJoined>
    ensures verdict { IfOk result (λ joined. (now : Option S)
        → IsJoinedText limits given.now.lines.items (readings_of S.text S.failed_reads source.old now) joined.verdict) }
    ensures alike { IfOk result (λ joined. (none : PartLine) → All (IsLike (get_or given.now.lines.items 0 none)) given.now.lines.items) }
    ensures source { IfOk result (λ _. (now : Option S)
        → readings_of S.text S.failed_reads source.new now ≡ readings_of S.text S.failed_reads source.old now) }
{
    let Some(source) = source else {
        return Err(NotJoined::NoFile);
    };
    let parts = match parts_of(rt.alloc(), given.lines.as_slice()) {
        Ok(parts) => parts,
        Err(refusal) => return Err(NotJoined::Refused(origin_of(given, refusal), refusal)),
    };
    let joined = join_features(source, limits, parts.as_slice(), read);
    read.meter.clear();
    match joined {
        Ok(joined) => Ok(joined),
        Err(error) => Err(NotJoined::Text(error)),
    }
}

/// What is found of one text, where its report says all that is asked for. `None` where its features are listed or counted: it is read
/// as in one run then.
fn told_by_parts(options: &Options, verdict: Verdict) -> Option<Finding>
    ensures { result ≡ (if lists_none (asked_in options.now) options.now.summary verdict then Some (Finding.Text verdict) else None) }
{
    if lists_none(asked_in(options), options.summary, verdict) {
        Some(Finding::Text(verdict))
    } else {
        None
    }
}

/// Whether no feature of a text is listed, and none is counted.
fn lists_none(asked: Option<Asked>, summary: bool, verdict: Verdict) -> bool
    ensures { result ≡ lists_none asked summary verdict }
{
    match (asked, verdict) {
        (None, _) | (Some(_), Verdict::NotJson(_)) => true,
        (Some(asked), Verdict::Valid(warnings)) => !summary
            && (!asked.with_warnings || warnings.is_empty()),
        (Some(_), Verdict::Broken(_)) => false,
    }
}

/// Says how much of one text `--join` had to read, where that is more than a sixteenth of it, and a megabyte at the least. Of a text that
/// is no JSON it says nothing.
fn say_read(rt: &HostRuntime, line: &PartLine, joined: &Joined, read: u64) {
    if read < MEGABYTE || read <= line.file.size / 16 {
        return;
    }
    if let Verdict::NotJson(_) = joined.verdict {
        return;
    }
    let mut said = Vec::new(rt.alloc());
    if put_read(rt.alloc(), line, joined.passed, read, &mut said).is_ok() {
        // The status says nothing of this.
        let _ = rt.stderr().write_all(said.as_slice());
    }
}

/// The sentence on that, with its LF.
fn put_read(
    alloc: Global,
    line: &PartLine,
    passed: u64,
    read: u64,
    out: &mut Vec<u8>,
) -> io::Result<()> {
    out.extend_from_slice(b"geolint-files: ")?;
    put_name(line.file.path.as_bytes(), out)?;
    let parts = line.share.parts;
    let others = parts.saturating_sub(passed);
    let megabytes = read / MEGABYTE;
    let text = if passed == 0 {
        String::from_str(alloc, UNDIVIDED)?
    } else if others == 0 {
        format!(in alloc; ": {megabytes} MB were read by --join\n")?
    } else {
        format!(in alloc;
            ": {others} of {parts} parts did not begin between two features; {megabytes} MB were read by --join\n"
        )?
    };
    Ok(out.extend_from_slice(text.as_bytes())?)
}

/// The verdict of the file, and the notes on its records where these are asked for.
fn join_given(
    alloc: Global,
    options: &Options,
    given: &Given,
) -> Result<(SeqVerdict, Option<Notes>), NotJoined>
    ensures joined { IfOk result (λ found. AreRecordsJoined options.now given.now.lines.items found.0 found.1) }
    ensures alike { IfOk result (λ found. (none : PartLine) → All (IsLike (get_or given.now.lines.items 0 none)) given.now.lines.items) }
{
    match join_listed(alloc, options, given.lines.as_slice()) {
        Ok(found) => Ok(found),
        Err(refusal) => Err(NotJoined::Refused(origin_of(given, refusal), refusal)),
    }
}

/// Joins the lines, and where that is asked for what they list.
fn join_listed(
    alloc: Global,
    options: &Options,
    lines: &[PartLine],
) -> Result<(SeqVerdict, Option<Notes>), Refusal>
    ensures whole { IfOk result (λ found. (framing : Framing) (limits : Allowed) (text : List ℕ)
        → All (IsLineOf framing limits text) lines.now → IsVerdictOf framing limits text found.0) }
    ensures notes { IfOk result (λ found. (framing : Framing) (limits : Allowed) (text : List ℕ)
        → All (IsListedLineOf framing limits text) lines.now → AreNotesIf framing limits (asked_in options.now) text found.1) }
    ensures alike { IfOk result (λ found. (none : PartLine) → All (IsLike (get_or lines.now 0 none)) lines.now) }
{
    let verdict = join_lines(alloc, lines)?;
    match asked_in(options) {
        Some(asked) => Ok((verdict, Some(join_notes(alloc, lines, asked)?))),
        None => Ok((verdict, None)),
    }
}

fn origin_of(given: &Given, refusal: Refusal) -> Option<Origin> {
    match refusal {
        Refusal::OtherFile(index)
        | Refusal::Changed(index)
        | Refusal::OtherOptions(index)
        | Refusal::OtherCount(index)
        | Refusal::OtherEvery(index)
        | Refusal::FewerFindings(index) => given.origins.as_slice().get(index).copied(),
        _ => None,
    }
}

fn given_lines(rt: &HostRuntime, order: &Order) -> Result<Given, NotJoined> {
    let mut given = Given {
        lines: Vec::new(rt.alloc()),
        origins: Vec::new(rt.alloc()),
    };
    let mut used = 0u64;
    for (path, name) in order.paths.as_slice().iter().enumerate() {
        let bytes = match read_named(rt, name.as_slice(), used) {
            Ok(Some(bytes)) => bytes,
            Ok(None) => return Err(NotJoined::TooMuch),
            Err(error) => return Err(NotJoined::Unread(path, error)),
        };
        used = used.saturating_add(bytes.len() as u64);
        add_lines(rt.alloc(), path, bytes.as_slice(), &mut given)?;
    }
    Ok(given)
}

fn read_named(rt: &HostRuntime, name: &[u8], used: u64) -> io::Result<Option<Vec<u8>>> {
    if name == b"-".as_slice() {
        return read_whole(rt.alloc(), rt.stdin(), used);
    }
    let (spelled, _) = look_up(rt, name)?;
    read_whole(rt.alloc(), spelled.open(rt)?, used)
}

/// All bytes of a reader. None where there are too many, after so many others.
fn read_whole<R: Read + Drop>(alloc: Global, reader: R, used: u64) -> io::Result<Option<Vec<u8>>>
    ensures { IfOk result (λ found. IfSome found (λ bytes. vec_len bytes ≤ MOST_READ - used)) }
{
    let room = MOST_READ.saturating_sub(used);
    let mut bytes = Vec::new(alloc);
    reader.take(room + 1).read_to_end(&mut bytes)?;
    if bytes.len() as u64 > room {
        Ok(None)
    } else {
        Ok(Some(bytes))
    }
}

/// Adds the lines of a file. Empty ones are passed over.
fn add_lines(alloc: Global, path: usize, bytes: &[u8], given: &mut Given) -> Result<(), NotJoined> {
    let mut number = 0u64;
    for text in bytes.split(|byte| *byte == b'\n') {
        number = number.saturating_add(1);
        let text = text.trim_ascii();
        if text.is_empty() {
            continue;
        }
        let origin = Origin { path, line: number };
        if text.len() > MOST_IN_LINE {
            return Err(NotJoined::LongLine(origin));
        }
        match read_line(alloc, text) {
            Ok(line) => given.add(line, origin)?,
            Err(why) => return Err(NotJoined::NoLine(origin, why)),
        }
    }
    Ok(())
}

/// Reports the file of the lines, which is read as in one run where nothing is found of it yet.
fn report<W: Write + Drop, S: Rewind>(
    rt: &HostRuntime,
    order: &Order,
    line: &PartLine,
    finding: Option<Finding>,
    notes: Option<Notes>,
    source: &mut Option<S>,
    out: W,
) -> Result<Ended<W>, NotJoined>
    ensures { IfOk result (λ ended. IsJoinedRun (joined_options order.now.options line.now.settings) finding notes (string_bytes line.now.file.path)
        (readings_of S.text S.failed_reads source.old source.new) (W.contents out) (W.contents ended.out) ended.outcome) }
{
    let alloc = rt.alloc();
    let asked = &order.options;
    let joined = Order {
        options: Options {
            limits: line.settings.limits,
            strictness: line.settings.strictness,
            quick: false,
            framing: line.settings.framing,
            format: asked.format,
            summary: asked.summary,
            every: asked.every,
            most: asked.most,
        },
        explained: None,
        paths: Vec::new(alloc),
        list: None,
        name_end: order.name_end,
        endings: Vec::new(alloc),
        allows_empty: false,
        parts: None,
        cut: None,
        joined: None,
    };
    let name = line.file.path.as_bytes();
    match tell_joined(rt, &joined, name, finding, notes, source, out) {
        Ok(ended) => Ok(ended),
        Err(failure) => Err(NotJoined::Report(failure)),
    }
}

/// The file that is named beside the lines, where it is there and is as it was. No other is opened, whatever the lines name.
fn source_of(
    rt: &HostRuntime,
    order: &Order,
    given: &Given,
) -> Result<Option<FileSource>, NotJoined> {
    let (Some(name), Some(line)) = (&order.joined, given.lines.as_slice().first()) else {
        return Ok(None);
    };
    if name.as_slice() != line.file.path.as_bytes() {
        return Err(NotJoined::OtherFile);
    }
    match open_regular(rt, name.as_slice()) {
        Ok((file, state)) if state == line.file => Ok(Some(FileSource::new(file))),
        _ => Ok(None),
    }
}

// ---- what is said of a failure

/// The sentence on a part that was not checked, with its LF.
pub fn put_unchecked(
    rt: &HostRuntime,
    order: &Order,
    error: &io::Error,
    out: &mut Vec<u8>,
) -> io::Result<()> {
    put_named(order, 0, out)?;
    let text = unchecked_text(rt.alloc(), error)?;
    out.extend_from_slice(text.as_bytes())?;
    Ok(out.push(b'\n')?)
}

/// Why a file was not checked.
fn unchecked_text(alloc: Global, error: &io::Error) -> io::Result<String> {
    match error.kind() {
        ErrorKind::NotSeekable => Ok(String::from_str(alloc, "not a regular file")?),
        ErrorKind::InvalidData => Ok(String::from_str(alloc, "it has changed")?),
        ErrorKind::UnexpectedEof => {
            Ok(String::from_str(alloc, "its bytes could not all be read")?)
        }
        _ => Ok(reason(alloc, error)?),
    }
}

/// Puts the name of the program, and of one of the files that are named.
fn put_named(order: &Order, path: usize, out: &mut Vec<u8>) -> io::Result<()> {
    out.extend_from_slice(b"geolint-files: ")?;
    if let Some(name) = order.paths.as_slice().get(path) {
        put_name(name.as_slice(), out)?;
        out.extend_from_slice(b": ")?;
    }
    Ok(())
}

/// The sentence on lines that are not joined, with its LF.
pub fn put_not_joined(
    rt: &HostRuntime,
    order: &Order,
    why: &NotJoined,
    out: &mut Vec<u8>,
) -> io::Result<()> {
    let alloc = rt.alloc();
    let text = match why {
        NotJoined::Unread(path, error) => {
            put_named(order, *path, out)?;
            reason(alloc, error)?
        }
        NotJoined::TooMuch => {
            out.extend_from_slice(b"geolint-files: ")?;
            String::from_str(alloc, TOO_MUCH)?
        }
        NotJoined::LongLine(origin) => {
            put_origin(rt, order, *origin, out)?;
            String::from_str(alloc, LONG_LINE)?
        }
        NotJoined::OtherFile => {
            out.extend_from_slice(b"geolint-files: ")?;
            String::from_str(alloc, OTHER_FILE)?
        }
        NotJoined::NoFile => {
            out.extend_from_slice(b"geolint-files: ")?;
            String::from_str(alloc, NO_FILE)?
        }
        NotJoined::Text(error) => {
            out.extend_from_slice(b"geolint-files: ")?;
            unchecked_text(alloc, error)?
        }
        NotJoined::NoLine(origin, why) => {
            put_origin(rt, order, *origin, out)?;
            String::from_str(alloc, no_line_text(*why))?
        }
        NotJoined::Refused(origin, refusal) => {
            match origin {
                Some(origin) => put_origin(rt, order, *origin, out)?,
                None => out.extend_from_slice(b"geolint-files: ")?,
            }
            refusal_text(alloc, *refusal)?
        }
        NotJoined::Memory | NotJoined::Report(_) => {
            out.extend_from_slice(b"geolint-files: ")?;
            String::from_str(alloc, "out of memory")?
        }
    };
    out.extend_from_slice(text.as_bytes())?;
    Ok(out.push(b'\n')?)
}

fn put_origin(
    rt: &HostRuntime,
    order: &Order,
    origin: Origin,
    out: &mut Vec<u8>,
) -> io::Result<()> {
    put_named(order, origin.path, out)?;
    let line = origin.line;
    let text = format!(in rt.alloc(); "line {line}: ")?;
    Ok(out.extend_from_slice(text.as_bytes())?)
}

fn no_line_text(why: NoLine) -> &'static str {
    match why {
        NoLine::NoPart => "this is not the line of a part",
        NoLine::OtherVersion => "this line is of another version of geolint-files",
        NoLine::Altered =>
            "this line is not as it was written: its checksum is another. Check the part again",
        NoLine::Memory => "out of memory",
    }
}

fn refusal_text(alloc: Global, refusal: Refusal) -> io::Result<String> {
    let text = match refusal {
        Refusal::None => "there is no line of a part",
        Refusal::OtherFile(_) => "this part is of another file than the first",
        Refusal::Changed(_) =>
            "the size of the file or its time of change is not that of the first line",
        Refusal::OtherOptions(_) => "this part was checked with other options than the first",
        Refusal::OtherEvery(_) =>
            "this part does not list what is asked for: --every stands with each --part too, in the same way",
        Refusal::FewerFindings(_) =>
            "this part lists fewer findings than --most asks for: --most stands with each --part too",
        Refusal::OtherCount(_) => "the number of parts is not that of the first line",
        Refusal::Twice(number) => {
            return Ok(format!(in alloc; "part {number} is given twice")?);
        }
        Refusal::Missing(number) => return Ok(format!(in alloc; "part {number} is missing")?),
        Refusal::NotInOrder => "the parts do not have the bytes of the file, each once",
        Refusal::TooMany => "a number is too great",
        Refusal::Memory => "out of memory",
    };
    Ok(String::from_str(alloc, text)?)
}
