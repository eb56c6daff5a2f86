//! Writes the line of a part.

ghost use Rattle.std.specs.Prelude.{◌≡◌, ◌∷◌, ◌++◌, IfOk, OnOk, string_bytes, get_or, codes, drop};
ghost use Rattle.std.specs.Fmt.{decimal};
ghost use Rattle.geolint_report.specs.Items.{item_number};
ghost use Rattle.geolint_report.specs.Slots.{slot_of};
ghost use Rattle.geolint_report.specs.Texts.{code_name};
ghost use Rattle.geolint_report.specs.Line.{Adds};
ghost use Rattle.json.specs.Print.{quoted};
ghost use Rattle.serde_json.specs.Written.{compact_text};
ghost use Rattle.part_lines.specs.LineText.{line_text, body_text, num, array_of, object_of, items_text, more_text, file_members, settings_members};
ghost use Rattle.part_lines.specs.LineText.{chosen_kinds, chosen_kind, place_in_file, verdict_members, valid_members, record_members, fault_members};
ghost use Rattle.part_lines.specs.LineText.{warning_items, kind_items, warning_members, listed_members, listed_members_if, tally_members, count_items};
ghost use Rattle.part_lines.specs.LineText.{code_items, count_members, note_items, one_note, note_members};
ghost use Rattle.part_lines.specs.Lines.{every_word, framing_word};

use crate::line::{FileState, Listed, PartLine, Settings, base_of};
use crate::sealing::put_seal;
use geolint_report::every::listing::{Item, Note};
use geolint_report::every::tally::Tally;
use geolint_report::line::{put, put_number, put_truth};
use geolint_report::texts::{ALL, Code};
use gj_coords::{KINDS, Kind, Warnings};
use gj_json::Limits;
use gj_rules::{Framing, SeqVerdict, Verdict};
use report_forms::options::Kinds;
use serde_json::Value;
use std::alloc::{AllocError, Global};

/// Appends the line of a part, with its LF. Its places count from the start of the file.
pub fn put_line(alloc: Global, line: &PartLine, out: &mut Vec<u8>) -> Result<(), AllocError>
    ensures { OnOk result (Adds out.old out.new (line_text line.now)) }
{
    let mut body = Vec::new(alloc);
    put_body(alloc, line, &mut body)?;
    put_seal(alloc, &mut body)?;
    put(&mut body, b"\n")?;
    put(out, body.as_slice())
}

/// Appends it up to its checksum.
fn put_body(alloc: Global, line: &PartLine, out: &mut Vec<u8>) -> Result<(), AllocError>
    ensures { OnOk result (Adds out.old out.new (body_text line.now)) }
{
    put(out, b"{\"geolint_part\":2,\"part\":")?;
    put_number(out, line.share.number)?;
    put(out, b",\"parts\":")?;
    put_number(out, line.share.parts)?;
    put_file(alloc, &line.file, out)?;
    put_settings(alloc, &line.settings, out)?;
    put(out, b",\"begin\":")?;
    put_number(out, line.checked.begin)?;
    put(out, b",\"end\":")?;
    put_number(out, line.checked.end)?;
    let base = base_of(line.settings.framing, line.checked.begin);
    put_verdict(alloc, &line.checked.verdict, base, out)?;
    put_listed_if(alloc, &line.listed, base, out)
}

fn put_file(alloc: Global, file: &FileState, out: &mut Vec<u8>) -> Result<(), AllocError>
    ensures { OnOk result (Adds out.old out.new (more_text (file_members file.now))) }
{
    put(out, b",\"path\":")?;
    put_string(alloc, &file.path, out)?;
    put(out, b",\"size\":")?;
    put_number(out, file.size)?;
    put(out, b",\"modified\":")?;
    put_string(alloc, &file.modified, out)
}

/// Appends a text as a JSON string.
fn put_string(alloc: Global, text: &String, out: &mut Vec<u8>) -> Result<(), AllocError>
    ensures { OnOk result (Adds out.old out.new (quoted (string_bytes text.now))) }
{
    let written = json_string(alloc, text.as_str())?;
    put(out, written.as_bytes())
}

fn json_string(alloc: Global, text: &str) -> Result<String, AllocError>
    ensures { IfOk result (λ written. string_bytes written ≡ quoted text.now) }
{
    Value::String(String::from_str(alloc, text)?).to_string(alloc)
}

fn put_settings(alloc: Global, settings: &Settings, out: &mut Vec<u8>) -> Result<(), AllocError>
    ensures { OnOk result (Adds out.old out.new (more_text (settings_members settings.now))) }
{
    put(out, b",\"framing\":")?;
    put_framing(settings.framing, out)?;
    put(out, b",\"max_bytes\":")?;
    put_limit(&settings.limits, out)?;
    put(out, b",\"strict\":")?;
    put_truth(out, settings.strictness.strict)?;
    put(out, b",\"allow\":")?;
    put_kinds(alloc, &settings.strictness.allowed, out)?;
    put(out, b",\"deny\":")?;
    put_kinds(alloc, &settings.strictness.denied, out)
}

fn put_limit(limits: &Limits, out: &mut Vec<u8>) -> Result<(), AllocError>
    ensures { OnOk result (Adds out.old out.new (decimal limits.now.bytes)) }
{
    put_number(out, limits.bytes())
}

fn put_framing(framing: Option<Framing>, out: &mut Vec<u8>) -> Result<(), AllocError>
    ensures { OnOk result (Adds out.old out.new (quoted (framing_word framing))) }
{
    put(out, framing_name(framing))
}

/// The word of a framing, as a JSON string.
#[tactic(auto, unfolding(json::specs::Print::escape_byte))]
fn framing_name(framing: Option<Framing>) -> &'static [u8]
    ensures { result.now ≡ quoted (framing_word framing) }
{
    match framing {
        Some(Framing::Sequence) => b"\"seq\"",
        Some(Framing::Lines) => b"\"ndjson\"",
        None => b"\"features\"",
    }
}

/// Appends kinds of warning.
fn put_kinds(alloc: Global, chosen: &Kinds, out: &mut Vec<u8>) -> Result<(), AllocError>
    ensures { OnOk result (Adds out.old out.new (compact_text (array_of (chosen_kinds chosen.now)))) }
{
    let mut items = Vec::new(alloc);
    for kind in &KINDS {
        put_chosen_kind(chosen, *kind, &mut items)?;
    }
    put_array(items.as_slice(), out)
}

/// Appends a kind after a comma, where it is among them.
fn put_chosen_kind(chosen: &Kinds, kind: Kind, items: &mut Vec<u8>) -> Result<(), AllocError>
    ensures { OnOk result (Adds items.old items.new (items_text (chosen_kind chosen.now kind))) }
{
    if chosen.contains(kind) {
        put(items, b",")?;
        put_code(Code::Kind(kind), items)
    } else {
        Ok(())
    }
}

/// Appends an array, given its items with a comma before each.
fn put_array(items: &[u8], out: &mut Vec<u8>) -> Result<(), AllocError>
    ensures { OnOk result (Adds out.old out.new (codes "[" ++ (drop 1 items.now ++ codes "]"))) }
{
    put(out, b"[")?;
    if !items.is_empty() {
        put(out, &items[1..])?;
    }
    put(out, b"]")
}

/// Appends the name of a code as a JSON string.
fn put_code(code: Code, out: &mut Vec<u8>) -> Result<(), AllocError>
    ensures { OnOk result (Adds out.old out.new (quoted (code_name code))) }
{
    put(out, b"\"")?;
    code.put_name(out)?;
    put(out, b"\"")
}

fn put_verdict(
    alloc: Global,
    verdict: &SeqVerdict,
    begin: u64,
    out: &mut Vec<u8>,
) -> Result<(), AllocError>
    ensures { OnOk result (Adds out.old out.new (more_text (verdict_members begin verdict.now))) }
{
    match verdict {
        SeqVerdict::Valid { records, warnings } => put_valid(alloc, *records, warnings, begin, out),
        SeqVerdict::Record { number, verdict } => put_broken(*number, verdict, begin, out),
    }
}

fn put_valid(
    alloc: Global,
    records: u64,
    warnings: &Warnings,
    begin: u64,
    out: &mut Vec<u8>,
) -> Result<(), AllocError>
    ensures { OnOk result (Adds out.old out.new (more_text (valid_members begin records warnings.now))) }
{
    put(out, b",\"records\":")?;
    put_number(out, records)?;
    put(out, b",\"warnings\":")?;
    put_warnings(alloc, warnings, begin, out)
}

fn put_broken(
    number: u64,
    verdict: &Verdict,
    begin: u64,
    out: &mut Vec<u8>,
) -> Result<(), AllocError>
    ensures { OnOk result (Adds out.old out.new (more_text ((codes "record", num number) ∷ record_members begin verdict.now))) }
{
    put(out, b",\"record\":")?;
    put_number(out, number)?;
    put_record(verdict, begin, out)
}

/// Appends the fault of a record.
fn put_record(verdict: &Verdict, begin: u64, out: &mut Vec<u8>) -> Result<(), AllocError>
    ensures { OnOk result (Adds out.old out.new (more_text (record_members begin verdict.now))) }
{
    match verdict {
        Verdict::Broken(fault) => put_fault(Code::Rule(fault.rule), fault.place, begin, out),
        Verdict::NotJson(fault) => put_fault(Code::Cause(fault.cause), fault.place, begin, out),
        // No record that is not valid is valid.
        Verdict::Valid(_) => Ok(()),
    }
}

fn put_fault(code: Code, place: u64, begin: u64, out: &mut Vec<u8>) -> Result<(), AllocError>
    ensures { OnOk result (Adds out.old out.new (more_text (fault_members begin code place))) }
{
    put(out, b",\"fault\":")?;
    put_code(code, out)?;
    put(out, b",\"at\":")?;
    put_place(place, begin, out)
}

/// Appends a place of the part, counted from the start of the file.
fn put_place(place: u64, begin: u64, out: &mut Vec<u8>) -> Result<(), AllocError>
    ensures { OnOk result (Adds out.old out.new (compact_text (place_in_file begin place))) }
{
    put_number(out, place.saturating_add(begin))
}

/// Appends the kinds of warning that there are, each with its number and its least place.
fn put_warnings(
    alloc: Global,
    warnings: &Warnings,
    begin: u64,
    out: &mut Vec<u8>,
) -> Result<(), AllocError>
    ensures { OnOk result (Adds out.old out.new (compact_text (array_of (warning_items begin warnings.now)))) }
{
    let mut items = Vec::new(alloc);
    for kind in &KINDS {
        put_kind(warnings, *kind, begin, &mut items)?;
    }
    put_array(items.as_slice(), out)
}

/// Appends a kind after a comma, where there is a warning of it.
fn put_kind(
    warnings: &Warnings,
    kind: Kind,
    begin: u64,
    items: &mut Vec<u8>,
) -> Result<(), AllocError>
    ensures { OnOk result (Adds items.old items.new (items_text (kind_items begin warnings.now kind))) }
{
    match warnings.first(kind) {
        Some(place) => {
            put(items, b",")?;
            put_warning(kind, warnings.count(kind), place, begin, items)
        }
        None => Ok(()),
    }
}

fn put_warning(
    kind: Kind,
    count: u32,
    place: u64,
    begin: u64,
    out: &mut Vec<u8>,
) -> Result<(), AllocError>
    ensures { OnOk result (Adds out.old out.new (compact_text (object_of (warning_members begin kind count place)))) }
{
    put(out, b"{\"kind\":")?;
    put_code(Code::Kind(kind), out)?;
    put(out, b",\"count\":")?;
    put_number(out, count as u64)?;
    put(out, b",\"at\":")?;
    put_place(place, begin, out)?;
    put(out, b"}")
}

fn put_listed_if(
    alloc: Global,
    listed: &Option<Listed>,
    begin: u64,
    out: &mut Vec<u8>,
) -> Result<(), AllocError>
    ensures { OnOk result (Adds out.old out.new (more_text (listed_members_if begin listed.now))) }
{
    match listed {
        Some(listed) => put_listed(alloc, listed, begin, out),
        None => Ok(()),
    }
}

/// Appends the notes on records, and what is counted of all of them. Numbers count from the first record of the part.
fn put_listed(
    alloc: Global,
    listed: &Listed,
    begin: u64,
    out: &mut Vec<u8>,
) -> Result<(), AllocError>
    ensures { OnOk result (Adds out.old out.new (more_text (listed_members begin listed.now))) }
{
    put(out, b",\"every\":")?;
    put_every(listed.asked.with_warnings, out)?;
    put(out, b",\"most\":")?;
    put_number(out, listed.asked.room)?;
    put_tally(alloc, &listed.notes.tally, out)?;
    put(out, b",\"findings\":")?;
    put_number(out, listed.notes.count)?;
    put(out, b",\"listed\":")?;
    put_notes(alloc, listed.notes.notes.as_slice(), begin, out)
}

fn put_every(with_warnings: bool, out: &mut Vec<u8>) -> Result<(), AllocError>
    ensures { OnOk result (Adds out.old out.new (quoted (every_word with_warnings))) }
{
    put(out, every_name(with_warnings))
}

/// What `--every` was given, as a JSON string.
#[tactic(auto, unfolding(json::specs::Print::escape_byte))]
fn every_name(with_warnings: bool) -> &'static [u8]
    ensures { result.now ≡ quoted (every_word with_warnings) }
{
    if with_warnings {
        b"\"warnings\""
    } else {
        b"\"faults\""
    }
}

fn put_tally(alloc: Global, tally: &Tally, out: &mut Vec<u8>) -> Result<(), AllocError>
    ensures { OnOk result (Adds out.old out.new (more_text (tally_members tally.now))) }
{
    put(out, b",\"items\":")?;
    put_number(out, tally.items)?;
    put(out, b",\"items_broken\":")?;
    put_number(out, tally.broken)?;
    put(out, b",\"counts\":")?;
    put_counts(alloc, tally, out)
}

/// Appends of how many records each code is reported.
fn put_counts(alloc: Global, tally: &Tally, out: &mut Vec<u8>) -> Result<(), AllocError>
    ensures { OnOk result (Adds out.old out.new (compact_text (array_of (count_items tally.now)))) }
{
    let mut items = Vec::new(alloc);
    for code in &ALL {
        put_count(tally, *code, &mut items)?;
    }
    put_array(items.as_slice(), out)
}

/// Appends after a comma of how many records a code is reported, where there are some.
fn put_count(tally: &Tally, code: Code, items: &mut Vec<u8>) -> Result<(), AllocError>
    ensures { OnOk result (Adds items.old items.new (items_text (code_items tally.now code))) }
{
    let count = count_of(tally, code);
    if count > 0 {
        put(items, b",")?;
        put_code_count(code, count, items)
    } else {
        Ok(())
    }
}

fn count_of(tally: &Tally, code: Code) -> u64
    ensures { result ≡ get_or tally.now.counts (slot_of code) 0 }
{
    tally.counts.get(code.slot()).copied().unwrap_or(0)
}

fn put_code_count(code: Code, count: u64, out: &mut Vec<u8>) -> Result<(), AllocError>
    ensures { OnOk result (Adds out.old out.new (compact_text (object_of (count_members code count)))) }
{
    put(out, b"{\"code\":")?;
    put_code(code, out)?;
    put(out, b",\"count\":")?;
    put_number(out, count)?;
    put(out, b"}")
}

fn put_notes(alloc: Global, notes: &[Note], begin: u64, out: &mut Vec<u8>) -> Result<(), AllocError>
    ensures { OnOk result (Adds out.old out.new (compact_text (array_of (note_items begin notes.now)))) }
{
    let mut items = Vec::new(alloc);
    for note in notes {
        put_next_note(note, begin, &mut items)?;
    }
    put_array(items.as_slice(), out)
}

/// Appends a note after a comma.
fn put_next_note(note: &Note, begin: u64, items: &mut Vec<u8>) -> Result<(), AllocError>
    ensures { OnOk result (Adds items.old items.new (items_text (one_note begin note.now))) }
{
    put(items, b",")?;
    put_note(note, begin, items)
}

fn put_note(note: &Note, begin: u64, out: &mut Vec<u8>) -> Result<(), AllocError>
    ensures { OnOk result (Adds out.old out.new (compact_text (object_of (note_members begin note.now)))) }
{
    put(out, b"{\"record\":")?;
    put_item(note.item, out)?;
    put(out, b",\"code\":")?;
    put_code(note.told.code, out)?;
    put(out, b",\"at\":")?;
    put_place(note.told.place, begin, out)?;
    put(out, b"}")
}

fn put_item(item: Item, out: &mut Vec<u8>) -> Result<(), AllocError>
    ensures { OnOk result (Adds out.old out.new (decimal (item_number item))) }
{
    put_number(out, item.number())
}
