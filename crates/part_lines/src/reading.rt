//! Reads the line of a part.

ghost use Rattle.std.specs.Str.{IsUtf8};
ghost use Rattle.std.specs.Prelude.{◌≡◌, ◌≢◌, ◌<◌, ◌^◌, ◌++◌, ℕ, Bool, Option, IfSome, IsSome, IfOk, Some, None, Err, true, option_map, map, codes, replicate};
ghost use Rattle.std.specs.List.{All};
ghost use Rattle.gj_coords.specs.Warnings.{warning_at};
ghost use Rattle.gj_coords.specs.WarningsStand.{StandsFor};
ghost use Rattle.gj_coords.specs.declared.kind.Kind.{Kind};
ghost use Rattle.gj_coords.specs.declared.fault.Rule.{Rule};
ghost use Rattle.gj_coords.specs.declared.warnings.Warnings.{Warnings};
ghost use Rattle.gj_json.specs.Limits.{IsAllowed, most};
ghost use Rattle.gj_json.specs.declared.fault.Cause.{Cause};
ghost use Rattle.gj_rules.specs.declared.records.framing.Framing.{Framing};
ghost use Rattle.gj_rules.specs.declared.sequence.verdict.SeqVerdict.{SeqVerdict};
ghost use Rattle.gj_rules.specs.declared.verdict.Verdict.{Verdict};
ghost use Rattle.geolint_report.specs.Texts.{code_name, is_listed};
ghost use Rattle.geolint_report.specs.declared.texts.Code.{Code};
ghost use Rattle.serde_json.specs.Data.{Data};
ghost use Rattle.serde_json.specs.Find.{get, as_str};
ghost use Rattle.serde_json.specs.Read.{read};
ghost use Rattle.serde_json.specs.View.{view, items_view};
ghost use Rattle.part_lines.specs.LineObject.{number_in, text_in, truth_in, array_in, IsFileIn, IsSettingsIn, IsKindName, AreKindsIn};
ghost use Rattle.part_lines.specs.LineObject.{IsShareIn, IsCheckedIn, IsLineIn};
ghost use Rattle.part_lines.specs.LineObject.{IsPlaceIn, IsRecordIn, IsWarningIn, AreWarningsOf, AreWarningsIn, IsVerdictIn};
ghost use Rattle.part_lines.specs.LineObject.{IsNoteIn, AreNotes, AreNotesIn, IsListedIn, IsListedIf};
ghost use Rattle.part_lines.specs.Agreed.{Agree};
ghost use Rattle.part_lines.specs.LineText.{line_text};
ghost use Rattle.part_lines.specs.Sealed.{body_in, object_in, sealed};
ghost use Rattle.part_lines.specs.Lines.{every_word, framing_word};
ghost use Rattle.part_lines.specs.Writable.{IsWritable};
ghost use Rattle.part_lines.specs.declared.line.FileState.{FileState};
ghost use Rattle.part_lines.specs.declared.line.PartLine.{PartLine};
ghost use Rattle.part_lines.specs.declared.line.Settings.{Settings};
ghost use Rattle.file_parts.specs.declared.checked.CheckedPart.{CheckedPart};
ghost use Rattle.file_parts.specs.declared.ranges.Share.{Share};

use crate::laws::{members_say_one_line, written_lines_are_read};
use crate::line::{FileState, Listed, PartLine, Settings, base_of};
use crate::sealing::unsealed;
use file_parts::{CheckedPart, Share};
use geolint_report::every::listing::{Asked, Item, Note, Notes};
use geolint_report::every::tally::Tally;
use geolint_report::report::Told;
use geolint_report::texts::{CODES, Code, code_named};
use gj_coords::{Fault, Kind, Rule, Warnings};
use gj_join::warnings_at;
use gj_json::{Cause, JsonFault, Limits};
use gj_rules::{Framing, SeqVerdict, Verdict};
use report_forms::options::{Kinds, Strictness};
use serde_json::Value;
use std::alloc::{AllocError, Global};
use std::str;

/// The form that is written and read.
const VERSION: u64 = 2;

/// Why a line is not read.
#[derive(Clone, Copy)]
pub enum NoLine {
    /// It is not the line of a part.
    NoPart,
    /// It is one of another version.
    OtherVersion,
    /// Its checksum is not that of its bytes.
    Altered,
    Memory,
}

impl From<AllocError> for NoLine {
    ghost use Rattle.std.specs.Prelude.{◌≡◌};
    ghost use Rattle.part_lines.specs.declared.reading.NoLine.TheVariants.{Memory};

    ghost from_gives = { λ _ error. error ≡ Memory };

    fn from(_error: AllocError) -> NoLine {
        NoLine::Memory
    }
}

/// Reads the line of a part, without its LF.
pub fn read_line(alloc: Global, text: &[u8]) -> Result<PartLine, NoLine>
    ensures sealed { IfOk result (λ line. text.now ≡ sealed (body_in text.now)) }
    ensures line { IfOk result (λ line. (it : Data) × (read (object_in text.now) ≡ Some it) × IsLineIn it line) }
    ensures altered { result ≡ Err NoLine.Altered → text.now ≢ sealed (body_in text.now) }
    ensures refused { result ≡ Err NoLine.NoPart → text.now ≡ sealed (body_in text.now) → IsUtf8 (object_in text.now) → (it : Data)
        → read (object_in text.now) ≡ Some it → (line : PartLine) → line.listed ≡ None → ¬ (IsLineIn it line) }
    ensures version { result ≡ Err NoLine.OtherVersion → text.now ≡ sealed (body_in text.now) → (it : Data) → read (object_in text.now) ≡ Some it
        → number_in (codes "geolint_part") it ≢ Some 2 }
    ensures written { IfOk result (λ line. (written : PartLine) → IsWritable written → line_text written ≡ text.now ++ codes "\n" → Agree written line) }
{
    written_lines_are_read();
    members_say_one_line();
    match unsealed(alloc, text)? {
        Some(object) => read_object(alloc, object.as_slice()),
        None => Err(why_unsealed(alloc, text)),
    }
}

/// Why a text has no right checksum: it is no line, one of another version, or one that was altered.
fn why_unsealed(alloc: Global, text: &[u8]) -> NoLine {
    match parse(alloc, text) {
        Ok(value) => match number_of(&value, "geolint_part") {
            Some(VERSION) => NoLine::Altered,
            Some(_) => NoLine::OtherVersion,
            None => NoLine::NoPart,
        },
        Err(why) => why,
    }
}

/// Reads the object of a line.
fn read_object(alloc: Global, text: &[u8]) -> Result<PartLine, NoLine>
    ensures line { IfOk result (λ line. (it : Data) × (read text.now ≡ Some it) × IsLineIn it line) }
    ensures altered { result ≢ Err NoLine.Altered }
    ensures refused { result ≡ Err NoLine.NoPart → IsUtf8 text.now → (it : Data) → read text.now ≡ Some it → (line : PartLine) → line.listed ≡ None
        → ¬ (IsLineIn it line) }
    ensures version { result ≡ Err NoLine.OtherVersion → (it : Data) → read text.now ≡ Some it → number_in (codes "geolint_part") it ≢ Some 2 }
{
    let value = parse(alloc, text)?;
    read_value(alloc, &value)
}

fn parse(alloc: Global, bytes: &[u8]) -> Result<Value, NoLine>
    ensures value { IfOk result (λ value. read bytes.now ≡ Some (view value)) }
    ensures refused { result ≡ Err NoLine.NoPart → IsUtf8 bytes.now → read bytes.now ≡ None }
    ensures version { result ≢ Err NoLine.OtherVersion }
    ensures altered { result ≢ Err NoLine.Altered }
{
    let Ok(text) = str::from_utf8(bytes) else {
        return Err(NoLine::NoPart);
    };
    match Value::from_str(alloc, text) {
        Ok(value) => Ok(value),
        Err(error) if error.is_memory() => Err(NoLine::Memory),
        Err(_) => Err(NoLine::NoPart),
    }
}

fn read_value(alloc: Global, value: &Value) -> Result<PartLine, NoLine>
    ensures line { IfOk result (IsLineIn (view value.now)) }
    ensures refused { result ≡ Err NoLine.NoPart → (line : PartLine) → line.listed ≡ None → ¬ (IsLineIn (view value.now) line) }
    ensures version { result ≡ Err NoLine.OtherVersion → number_in (codes "geolint_part") (view value.now) ≢ Some 2 }
    ensures altered { result ≢ Err NoLine.Altered }
{
    match number_of(value, "geolint_part") {
        Some(VERSION) => {}
        Some(_) => return Err(NoLine::OtherVersion),
        None => return Err(NoLine::NoPart),
    }
    let Some(file) = read_file(alloc, value)? else {
        return Err(NoLine::NoPart);
    };
    let Some(settings) = read_settings(value) else {
        return Err(NoLine::NoPart);
    };
    let Some(share) = read_share(value) else {
        return Err(NoLine::NoPart);
    };
    let Some(checked) = read_checked(value, settings.framing) else {
        return Err(NoLine::NoPart);
    };
    let base = base_of(settings.framing, checked.begin);
    let listed = read_listed_if(alloc, value, base)?;
    Ok(PartLine {
        file,
        settings,
        share,
        checked,
        listed,
    })
}

/// The member of this name, where it is a whole number.
fn number_of(value: &Value, name: &str) -> Option<u64>
    ensures { result ≡ number_in name.now (view value.now) }
{
    value.get(name).and_then(Value::as_u64)
}

/// Where it is a string.
fn text_of<'a>(value: &'a Value, name: &str) -> Option<&'a str>
    ensures { option_map (λ text. text.now) result ≡ text_in name.now (view value.now) }
{
    value.get(name).and_then(Value::as_str)
}

/// Where it is an array.
fn array_of<'a>(value: &'a Value, name: &str) -> Option<&'a Vec<Value>>
    ensures { option_map (λ items. items_view items.now.items) result ≡ array_in name.now (view value.now) }
{
    value.get(name).and_then(Value::as_array)
}

/// Where it is `true` or `false`.
fn truth_of(value: &Value, name: &str) -> Option<bool>
    ensures { result ≡ truth_in name.now (view value.now) }
{
    value.get(name).and_then(Value::as_bool)
}

fn read_file(alloc: Global, value: &Value) -> Result<Option<FileState>, AllocError>
    ensures found { IfOk result (λ found. IfSome found (IsFileIn (view value.now))) }
    ensures none { IfOk result (λ found. found ≡ None → (file : FileState) → ¬ (IsFileIn (view value.now) file)) }
{
    let (Some(path), Some(modified), Some(size)) = (
        text_of(value, "path"),
        text_of(value, "modified"),
        number_of(value, "size"),
    ) else {
        return Ok(None);
    };
    Ok(Some(FileState {
        path: String::from_str(alloc, path)?,
        size,
        modified: String::from_str(alloc, modified)?,
    }))
}

/// The framing of this word.
fn framing_named(name: &str) -> Option<Option<Framing>>
    ensures word { IfSome result (λ framing. framing_word framing ≡ name.now) }
    ensures all { (framing : Option Framing) → name.now ≡ framing_word framing → result ≡ Some framing }
{
    match name {
        "seq" => Some(Some(Framing::Sequence)),
        "ndjson" => Some(Some(Framing::Lines)),
        "features" => Some(None),
        _ => None,
    }
}

fn read_settings(value: &Value) -> Option<Settings>
    ensures some { IfSome result (IsSettingsIn (view value.now)) }
    ensures none { result ≡ None → (settings : Settings) → ¬ (IsSettingsIn (view value.now) settings) }
{
    let framing = framing_named(text_of(value, "framing")?)?;
    let limits = read_limits(value)?;
    let strict = truth_of(value, "strict")?;
    let allowed = read_kinds(value, "allow")?;
    let denied = read_kinds(value, "deny")?;
    Some(Settings {
        framing,
        limits,
        strictness: Strictness {
            strict,
            allowed,
            denied,
        },
    })
}

fn read_limits(value: &Value) -> Option<Limits>
    ensures bytes { IfSome result (λ limits. number_in (codes "max_bytes") (view value.now) ≡ Some limits.bytes) }
    ensures depth { IfSome result (λ limits. limits.depth ≡ most.depth) }
    ensures allowed { IfSome result (λ limits. IsAllowed limits.depth limits.bytes) }
    ensures none { result ≡ None → (bytes : ℕ) → IsAllowed most.depth bytes → number_in (codes "max_bytes") (view value.now) ≢ Some bytes }
{
    Limits::new(Limits::usual().depth(), number_of(value, "max_bytes")?)
}

/// No clause says which: [`Kinds::insert`] has none.
fn read_kinds(value: &Value, name: &str) -> Option<Kinds>
    ensures some { IfSome result (λ kinds. AreKindsIn name.now (view value.now)) }
    ensures none { result ≡ None → ¬ (AreKindsIn name.now (view value.now)) }
{
    let found = array_of(value, name)?;
    read_each_kind(found.as_slice())
}

fn read_each_kind(found: &[Value]) -> Option<Kinds>
    ensures some { IfSome result (λ kinds. All IsKindName (map view found.now)) }
    ensures none { result ≡ None → ¬ (All IsKindName (map view found.now)) }
{
    let mut kinds = Kinds::none();
    for one in found {
        let kind = read_kind(one)?;
        kinds.insert(kind);
    }
    Some(kinds)
}

fn read_kind(value: &Value) -> Option<Kind>
    ensures some { IfSome result (λ kind. as_str (view value.now) ≡ Some (code_name (Code.Kind kind))) }
    ensures none { result ≡ None → ¬ (IsKindName (view value.now)) }
{
    kind_named(value.as_str()?)
}

fn read_share(value: &Value) -> Option<Share>
    ensures some { IfSome result (IsShareIn (view value.now)) }
    ensures none { result ≡ None → (share : Share) → ¬ (IsShareIn (view value.now) share) }
{
    Share::new(number_of(value, "part")?, number_of(value, "parts")?)
}

fn read_checked(value: &Value, framing: Option<Framing>) -> Option<CheckedPart>
    ensures some { IfSome result (IsCheckedIn (view value.now) framing) }
    ensures none { result ≡ None → (part : CheckedPart) → ¬ (IsCheckedIn (view value.now) framing part) }
{
    let begin = number_of(value, "begin")?;
    let end = number_of(value, "end")?;
    let verdict = read_verdict(value, base_of(framing, begin))?;
    Some(CheckedPart {
        begin,
        end,
        verdict,
    })
}

fn read_verdict(value: &Value, begin: u64) -> Option<SeqVerdict>
    ensures some { IfSome result (IsVerdictIn (view value.now) begin) }
    ensures none { result ≡ None → (verdict : SeqVerdict) → ¬ (IsVerdictIn (view value.now) begin verdict) }
{
    match number_of(value, "records") {
        Some(records) => {
            let warnings = read_warnings(value, begin)?;
            Some(SeqVerdict::Valid { records, warnings })
        }
        None => {
            let number = number_of(value, "record")?;
            let verdict = read_record(value, begin)?;
            Some(SeqVerdict::Record { number, verdict })
        }
    }
}

/// The fault of a record.
fn read_record(value: &Value, begin: u64) -> Option<Verdict>
    ensures some { IfSome result (IsRecordIn (view value.now) begin) }
    ensures none { result ≡ None → (verdict : Verdict) → ¬ (IsRecordIn (view value.now) begin verdict) }
{
    let place = read_place(value, begin)?;
    let name = text_of(value, "fault")?;
    if let Some(rule) = rule_named(name) {
        return Some(Verdict::Broken(Fault { place, rule }));
    }
    let cause = cause_named(name)?;
    Some(Verdict::NotJson(JsonFault { place, cause }))
}

/// A place of a part, which the line counts from the start of the file.
fn read_place(value: &Value, begin: u64) -> Option<u64>
    ensures some { IfSome result (IsPlaceIn (view value.now) begin) }
    ensures none { result ≡ None → (place : ℕ) → ¬ (IsPlaceIn (view value.now) begin place) }
{
    number_of(value, "at")?.checked_sub(begin)
}

fn read_warnings(value: &Value, begin: u64) -> Option<Warnings>
    ensures some { IfSome result (AreWarningsIn (view value.now) begin) }
    ensures none { result ≡ None → (all : Warnings) → ¬ (AreWarningsIn (view value.now) begin all) }
{
    let found = array_of(value, "warnings")?;
    read_each_warning(found.as_slice(), begin)
}

fn read_each_warning(found: &[Value], begin: u64) -> Option<Warnings>
    ensures some { IfSome result (AreWarningsOf begin (map view found.now)) }
    ensures none { result ≡ None → (all : Warnings) → ¬ (AreWarningsOf begin (map view found.now) all) }
{
    let mut all = Warnings::none();
    for one in found {
        let more = read_warning(one, begin)?;
        all = all.join(more);
    }
    Some(all)
}

fn read_warning(value: &Value, begin: u64) -> Option<Warnings>
    ensures some { IfSome result (λ all. (kind : Kind) × (count : ℕ) × (place : ℕ) × IsWarningIn (view value.now) begin kind count place
        × StandsFor all (replicate count (warning_at place kind))) }
    ensures none { result ≡ None → (kind : Kind) (count place : ℕ) → ¬ (IsWarningIn (view value.now) begin kind count place) }
{
    let kind = kind_named(text_of(value, "kind")?)?;
    let count = read_count(value)?;
    let place = read_place(value, begin)?;
    Some(warnings_at(kind, place, count))
}

fn read_count(value: &Value) -> Option<u32>
    ensures some { IfSome result (λ count. number_in (codes "count") (view value.now) ≡ Some count) }
    ensures fits { IfSome result (λ count. count < 2 ^ 32) }
    ensures none { result ≡ None → (count : ℕ) → count < 2 ^ 32 → number_in (codes "count") (view value.now) ≢ Some count }
{
    u32::try_from(number_of(value, "count")?).ok()
}

/// The code of this name, as G15.
fn code_of(name: &str) -> Option<Code>
    ensures word { IfSome result (λ code. code_name code ≡ name.now) }
    ensures all { (code : Code) → is_listed code ≡ true → name.now ≡ code_name code → result ≡ Some code }
{
    match code_named(name) {
        Some(code) if code.name() == name => Some(code),
        _ => None,
    }
}

fn rule_named(name: &str) -> Option<Rule>
    ensures word { IfSome result (λ rule. code_name (Code.Rule rule) ≡ name.now) }
    ensures all { (rule : Rule) → name.now ≡ code_name (Code.Rule rule) → IsSome result }
{
    match code_of(name)? {
        Code::Rule(rule) => Some(rule),
        _ => None,
    }
}

fn kind_named(name: &str) -> Option<Kind>
    ensures word { IfSome result (λ kind. code_name (Code.Kind kind) ≡ name.now) }
    ensures all { (kind : Kind) → name.now ≡ code_name (Code.Kind kind) → IsSome result }
{
    match code_of(name)? {
        Code::Kind(kind) => Some(kind),
        _ => None,
    }
}

fn cause_named(name: &str) -> Option<Cause>
    ensures word { IfSome result (λ cause. code_name (Code.Cause cause) ≡ name.now) }
    ensures all { (cause : Cause) → name.now ≡ code_name (Code.Cause cause) → IsSome result }
{
    match code_of(name)? {
        Code::Cause(cause) => Some(cause),
        _ => None,
    }
}

/// The notes on the records of a part.
fn read_listed_if(alloc: Global, value: &Value, begin: u64) -> Result<Option<Listed>, NoLine>
    ensures listed { IfOk result (IsListedIf (view value.now) begin) }
    ensures refused { result ≡ Err NoLine.NoPart → get (codes "every") (view value.now) ≢ None }
    ensures version { result ≢ Err NoLine.OtherVersion }
    ensures altered { result ≢ Err NoLine.Altered }
{
    if value.get("every").is_none() {
        return Ok(None);
    }
    match read_listed(alloc, value, begin)? {
        Some(listed) => Ok(Some(listed)),
        None => Err(NoLine::NoPart),
    }
}

fn read_listed(alloc: Global, value: &Value, begin: u64) -> Result<Option<Listed>, AllocError>
    ensures { IfOk result (λ found. IfSome found (IsListedIn (view value.now) begin)) }
{
    let (Some(asked), Some(tally), Some(count)) = (
        read_asked(value),
        read_tally(value),
        number_of(value, "findings"),
    ) else {
        return Ok(None);
    };
    match read_notes(alloc, value, begin)? {
        Some(notes) => Ok(Some(Listed {
            asked,
            notes: Notes {
                notes,
                count,
                tally,
            },
        })),
        None => Ok(None),
    }
}

fn read_notes(alloc: Global, value: &Value, begin: u64) -> Result<Option<Vec<Note>>, AllocError>
    ensures { IfOk result (λ found. IfSome found (λ notes. AreNotesIn (view value.now) begin notes.items)) }
{
    match array_of(value, "listed") {
        Some(found) => read_each_note(alloc, found.as_slice(), begin),
        None => Ok(None),
    }
}

fn read_each_note(
    alloc: Global,
    found: &[Value],
    begin: u64,
) -> Result<Option<Vec<Note>>, AllocError>
    ensures { IfOk result (λ all. IfSome all (λ notes. AreNotes begin (map view found.now) notes.items)) }
{
    let mut notes = Vec::new(alloc);
    for one in found {
        let Some(note) = read_note(one, begin) else {
            return Ok(None);
        };
        match notes.push(note) {
            Ok(()) => {}
            Err(failed) => return Err(AllocError::from(failed)),
        }
    }
    Ok(Some(notes))
}

/// Whether warnings are listed, by this word.
fn every_named(name: &str) -> Option<bool>
    ensures word { IfSome result (λ with_warnings. every_word with_warnings ≡ name.now) }
    ensures all { (with_warnings : Bool) → name.now ≡ every_word with_warnings → result ≡ Some with_warnings }
{
    match name {
        "faults" => Some(false),
        "warnings" => Some(true),
        _ => None,
    }
}

fn read_asked(value: &Value) -> Option<Asked>
    ensures every { IfSome result (λ asked. text_in (codes "every") (view value.now) ≡ Some (every_word asked.with_warnings)) }
    ensures room { IfSome result (λ asked. number_in (codes "most") (view value.now) ≡ Some asked.room) }
    ensures skipped { IfSome result (λ asked. asked.skipped ≡ 0) }
{
    let with_warnings = every_named(text_of(value, "every")?)?;
    let room = number_of(value, "most")?;
    Some(Asked {
        with_warnings,
        skipped: 0,
        room,
    })
}

fn read_tally(value: &Value) -> Option<Tally>
    ensures items { IfSome result (λ tally. number_in (codes "items") (view value.now) ≡ Some tally.items) }
    ensures broken { IfSome result (λ tally. number_in (codes "items_broken") (view value.now) ≡ Some tally.broken) }
{
    let items = number_of(value, "items")?;
    let broken = number_of(value, "items_broken")?;
    let counts = read_counts(value)?;
    Some(Tally {
        items,
        broken,
        counts,
    })
}

fn read_counts(value: &Value) -> Option<[u64; CODES]> {
    let mut counts = [0; CODES];
    for found in array_of(value, "counts")? {
        let slot = code_of(text_of(found, "code")?)?.slot();
        *counts.get_mut(slot)? = number_of(found, "count")?;
    }
    Some(counts)
}

fn read_note(value: &Value, begin: u64) -> Option<Note>
    ensures { IfSome result (λ note. (number : ℕ) × IsNoteIn (view value.now) begin note number) }
{
    let number = number_of(value, "record")?;
    let code = code_of(text_of(value, "code")?)?;
    let place = read_place(value, begin)?;
    Some(Note {
        item: Item::Record(number),
        told: Told { code, place },
    })
}
