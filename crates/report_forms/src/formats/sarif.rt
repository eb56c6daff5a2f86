//! A log in SARIF 2.1.0, written file by file.
ghost use Rattle.std.specs.Prelude.{◌≡◌, ℕ, List, OnOk};
ghost use Rattle.std.specs.List.{flat_map};
ghost use Rattle.gj_json.specs.Path.{steps_of};
ghost use Rattle.gj_places.specs.Strings.{SpellsString};
ghost use Rattle.geolint_report.specs.Finding.{record_of};
ghost use Rattle.geolint_report.specs.Report.{spot_of};
ghost use Rattle.geolint_report.specs.Line.{Adds};
ghost use Rattle.report_forms.specs.Forms.Features.{is_nothing, level_in};
ghost use Rattle.report_forms.specs.Forms.Messages.{and_record, if_placed};
ghost use Rattle.report_forms.specs.Forms.Sarif.{is_plain_in_uri, percent_of, in_uri, scheme_of, uri_of, sarif_message, location, region_start};
ghost use Rattle.report_forms.specs.Forms.Sarif.{region_start_of, region, logical_location, logical_location_of, sarif_result, sarif_begin, sarif_end, next_unread};
ghost use Rattle.report_forms.specs.Forms.Sarif.{sarif_entry, sarif_text, sarif_place, sarif_properties, sarif_more};
ghost use Rattle.report_forms.specs.Forms.Sarif.{sarif_unread, name_and_text, explained, section_of, manual_member, markdown_of, code_level, sarif_rule, sarif_rules, rule_and_break};

use crate::every::{Entry, note_fails, path_at, put_and_more, put_item, spot_at};
use crate::formats::hints::{hint_on, put_and_hint};
use crate::formats::issues::{Issue, put_break_unless};
use crate::formats::json::put_members;
use crate::manual::section;
use crate::options::Options;
use crate::texts::{digit_in, level, put_and_record, put_and_times, put_path, put_string};
use geolint_report::line::{put, put_all, put_number, put_truth};
use geolint_report::report::Report;
use geolint_report::sites::Spot;
use geolint_report::texts::{ALL, Code};
use gj_json::Path;
use gj_places::json_string;
use std::alloc::{AllocError, Global};

/// Puts what comes before the first result: the program and its rules.
pub fn put_begin(line: &mut Vec<u8>) -> Result<(), AllocError>
    ensures { OnOk result (Adds line.old line.new sarif_begin) }
{
    put(
        line,
        b"{\"$schema\":\"https://json.schemastore.org/sarif-2.1.0.json\",\"version\":\"2.1.0\",\"runs\":[{\"columnKind\":\"unicodeCodePoints\",\
          \"tool\":{\"driver\":{\"name\":\"geolint-files\",\"version\":\"0.1.0\",\"rules\":[\n",
    )?;
    put_rules(line)?;
    put_rule(Code::NotValid, line)?;
    put(line, b"]}},\"results\":[\n")
}

/// Puts what comes after the last result, with the notifications of files that could not be read.
pub fn put_end(unread: &[u8], line: &mut Vec<u8>) -> Result<(), AllocError>
    ensures { OnOk result (Adds line.old line.new (sarif_end unread.now)) }
{
    put(line, b"],\"invocations\":[{\"executionSuccessful\":")?;
    put_truth(line, has_read_all(unread))?;
    put(line, b",\"toolExecutionNotifications\":[")?;
    put(line, unread)?;
    put(line, b"]}]}]}\n")
}

/// Whether each file could be opened and read.
fn has_read_all(unread: &[u8]) -> bool
    ensures { result ≡ is_nothing unread.now }
{
    unread.is_empty()
}

/// Puts the notification of a file that could not be opened or read after those before it.
pub fn put_unread(
    alloc: Global,
    name: &[u8],
    reason: &str,
    unread: &mut Vec<u8>,
) -> Result<(), AllocError>
    ensures { OnOk result
        ((why : List ℕ) × SpellsString reason.now why × Adds unread.old unread.new (next_unread unread.old.items name.now why)) }
{
    let why = json_string(alloc, reason.as_bytes())?;
    put_break_unless(unread.is_empty(), unread)?;
    put_notification(name, why.as_bytes(), unread)
}

/// The reason is spelled as a JSON string.
#[tactic(auto, unfolding(crate::specs::Forms::Sarif::sarif_unread))]
fn put_notification(name: &[u8], reason: &[u8], line: &mut Vec<u8>) -> Result<(), AllocError>
    ensures { OnOk result (Adds line.old line.new (sarif_unread name.now reason.now)) }
{
    put(line, b"{\"level\":\"error\",\"message\":{\"text\":")?;
    put(line, reason)?;
    put(line, b"}")?;
    put_location(name, line)?;
    put(line, b"}}]}")
}

/// Puts the result of an issue of a file.
pub fn put_issue(
    alloc: Global,
    report: &Report<'_>,
    issue: &Issue,
    line: &mut Vec<u8>,
) -> Result<(), AllocError>
    ensures { OnOk result (Adds line.old line.new (sarif_result report.now issue.now)) }
{
    let mut message = Vec::new(alloc);
    put_message(alloc, report, issue, &mut message)?;
    put(line, b"{\"ruleId\":\"")?;
    issue.told.code.put_name(line)?;
    put(line, b"\",\"level\":\"")?;
    put(line, level(issue.is_failure))?;
    put(line, b"\",\"message\":{\"text\":")?;
    put_string(message.as_slice(), line)?;
    put(line, b"}")?;
    put_location(report.name, line)?;
    put_region_if(report, issue, line)?;
    put(line, b"}")?;
    put_logical_location_of(report.path(&issue.told), line)?;
    put(line, b"}]}")
}

#[tactic(auto, unfolding(crate::specs::Forms::Sarif::sarif_message))]
fn put_message(
    alloc: Global,
    report: &Report<'_>,
    issue: &Issue,
    line: &mut Vec<u8>,
) -> Result<(), AllocError>
    ensures { OnOk result (Adds line.old line.new (sarif_message report.now issue.now)) }
{
    issue.told.code.put_text(line)?;
    put_record(report, line)?;
    put_and_times(issue.count, line)?;
    let hint = hint_on(issue.told.code, report.hint);
    put_and_hint(alloc, report.name, hint, line)
}

fn put_record(report: &Report<'_>, line: &mut Vec<u8>) -> Result<(), AllocError>
    ensures { OnOk result (Adds line.old line.new (and_record (record_of report.now.finding))) }
{
    put_and_record(report.finding.record(), line)
}

/// Which file it is.
fn put_location(name: &[u8], line: &mut Vec<u8>) -> Result<(), AllocError>
    ensures { OnOk result (Adds line.old line.new (location name.now)) }
{
    put(
        line,
        b",\"locations\":[{\"physicalLocation\":{\"artifactLocation\":{\"uri\":",
    )?;
    put_uri(name, line)?;
    put(line, b"}")
}

/// The place in the file, where one is reported.
fn put_region_if(report: &Report<'_>, issue: &Issue, line: &mut Vec<u8>) -> Result<(), AllocError>
    ensures { OnOk result (Adds line.old line.new (if_placed issue.now.told.code (region (spot_of report.now issue.now.told.place) issue.now.told.place))) }
{
    match issue.told.code {
        Code::NotValid => Ok(()),
        _ => put_region(report.spot(issue.told.place), issue.told.place, line),
    }
}

fn put_region(spot: Option<Spot>, place: u64, line: &mut Vec<u8>) -> Result<(), AllocError>
    ensures { OnOk result (Adds line.old line.new (region spot place)) }
{
    put(line, b",\"region\":{")?;
    put_region_start_of(spot, line)?;
    put(line, b"\"byteOffset\":")?;
    put_number(line, place)?;
    put(line, b",\"byteLength\":0}")
}

fn put_region_start_of(spot: Option<Spot>, line: &mut Vec<u8>) -> Result<(), AllocError>
    ensures { OnOk result (Adds line.old line.new (region_start_of spot)) }
{
    match spot {
        Some(spot) => put_region_start(spot, line),
        None => Ok(()),
    }
}

#[tactic(auto, unfolding(crate::specs::Forms::Sarif::region_start))]
fn put_region_start(spot: Spot, line: &mut Vec<u8>) -> Result<(), AllocError>
    ensures { OnOk result (Adds line.old line.new (region_start spot)) }
{
    put(line, b"\"startLine\":")?;
    put_number(line, spot.line)?;
    put(line, b",\"startColumn\":")?;
    put_number(line, spot.column)?;
    put(line, b",")
}

fn put_logical_location_of(path: Option<Path>, line: &mut Vec<u8>) -> Result<(), AllocError>
    ensures { OnOk result (Adds line.old line.new (logical_location_of path)) }
{
    match path {
        Some(path) => put_logical_location(&path, line),
        None => Ok(()),
    }
}

#[tactic(auto, unfolding(crate::specs::Forms::Sarif::logical_location))]
fn put_logical_location(path: &Path, line: &mut Vec<u8>) -> Result<(), AllocError>
    ensures { OnOk result (Adds line.old line.new (logical_location (steps_of path.now))) }
{
    put(line, b",\"logicalLocations\":[{\"fullyQualifiedName\":\"")?;
    put_path(path, line)?;
    put(line, b"\"}]")
}

fn put_rules(line: &mut Vec<u8>) -> Result<(), AllocError>
    ensures { OnOk result (Adds line.old line.new sarif_rules) }
{
    for code in &ALL {
        put_rule_and_break(*code, line)?;
    }
    Ok(())
}

fn put_rule_and_break(code: Code, line: &mut Vec<u8>) -> Result<(), AllocError>
    ensures { OnOk result (Adds line.old line.new (rule_and_break code)) }
{
    put_rule(code, line)?;
    put(line, b",\n")
}

/// A rule, with its section of docs/rules.md.
fn put_rule(code: Code, line: &mut Vec<u8>) -> Result<(), AllocError>
    ensures { OnOk result (Adds line.old line.new (sarif_rule code)) }
{
    put(line, b"{\"id\":\"")?;
    code.put_name(line)?;
    put(line, b"\",\"shortDescription\":{\"text\":\"")?;
    code.put_text(line)?;
    put(line, b"\"},\"help\":{\"text\":\"docs/rules.md, ")?;
    put_section(code, line)?;
    put_markdown(code, line)?;
    put(line, b"},\"defaultConfiguration\":{\"level\":\"")?;
    put(line, code_level(code))?;
    put(line, b"\"}}")
}

/// The level of what is reported under a code.
fn code_level(code: Code) -> &'static [u8]
    ensures { result.now ≡ code_level code }
{
    match code {
        Code::Kind(_) => b"warning",
        _ => b"error",
    }
}

fn put_section(code: Code, line: &mut Vec<u8>) -> Result<(), AllocError>
    ensures { OnOk result (Adds line.old line.new (section_of code)) }
{
    match code {
        Code::NotValid => put(line, b"what geolint says\""),
        code => put_explained(code, line),
    }
}

/// The section itself, which GitHub shows beside a result.
fn put_markdown(code: Code, line: &mut Vec<u8>) -> Result<(), AllocError>
    ensures { OnOk result (Adds line.old line.new (markdown_of code)) }
{
    match code {
        Code::NotValid => Ok(()),
        code => put_manual(code, line),
    }
}

fn put_manual(code: Code, line: &mut Vec<u8>) -> Result<(), AllocError>
    ensures { OnOk result (Adds line.old line.new (manual_member code)) }
{
    put(line, b",\"markdown\":")?;
    put_string(section(code).as_bytes(), line)
}

/// The section, and the words that print it.
fn put_explained(code: Code, line: &mut Vec<u8>) -> Result<(), AllocError>
    ensures { OnOk result (Adds line.old line.new (explained code)) }
{
    put_name_and_text(code, line)?;
    put(line, b" (geolint-files --explain ")?;
    code.put_name(line)?;
    put(line, b")\"")
}

#[tactic(auto, unfolding(crate::specs::Forms::Sarif::name_and_text))]
fn put_name_and_text(code: Code, line: &mut Vec<u8>) -> Result<(), AllocError>
    ensures { OnOk result (Adds line.old line.new (name_and_text code)) }
{
    code.put_name(line)?;
    put(line, b": ")?;
    code.put_text(line)
}

/// A name as the text of a reference to it, between quotation marks: of an absolute one with the scheme `file`, and relative
/// otherwise. No byte of it is one that a JSON string escapes.
#[tactic(auto, unfolding(crate::specs::Forms::Sarif::uri_of))]
fn put_uri(name: &[u8], line: &mut Vec<u8>) -> Result<(), AllocError>
    ensures { OnOk result (Adds line.old line.new (uri_of name.now)) }
{
    put(line, scheme(name))?;
    put_all_in_uri(name, line)?;
    put(line, b"\"")
}

fn scheme(name: &[u8]) -> &'static [u8]
    ensures { result.now ≡ scheme_of name.now }
{
    match name {
        [b'/', ..] => b"\"file://",
        _ => b"\"",
    }
}

fn put_all_in_uri(name: &[u8], line: &mut Vec<u8>) -> Result<(), AllocError>
    ensures { OnOk result (Adds line.old line.new (flat_map in_uri name.now)) }
{
    for byte in name {
        put_in_uri(*byte, line)?;
    }
    Ok(())
}

fn put_in_uri(byte: u8, line: &mut Vec<u8>) -> Result<(), AllocError>
    ensures { OnOk result (Adds line.old line.new (in_uri byte)) }
{
    if is_plain_in_uri(byte) {
        put(line, &[byte])
    } else {
        put_percent(byte, line)
    }
}

/// Whether a byte stands in a reference for itself.
fn is_plain_in_uri(byte: u8) -> bool
    ensures { result ≡ is_plain_in_uri byte }
{
    byte.is_ascii_alphanumeric() || b"/-._~".contains(&byte)
}

const UPPER_DIGITS: &[u8; 16] = b"0123456789ABCDEF";

#[tactic(auto, unfolding(crate::specs::Forms::Sarif::percent_of))]
fn put_percent(byte: u8, line: &mut Vec<u8>) -> Result<(), AllocError>
    ensures { OnOk result (Adds line.old line.new (percent_of byte)) }
{
    let high = digit_in(UPPER_DIGITS, byte / 16);
    let low = digit_in(UPPER_DIGITS, byte % 16);
    put_all(line, &[b"%", &[high, low]])
}

/// Puts the result of a feature or a record.
pub fn put_entry(
    alloc: Global,
    entry: &Entry<'_>,
    options: &Options,
    line: &mut Vec<u8>,
) -> Result<(), AllocError>
    ensures { OnOk result
        ((id : List ℕ) × SpellsString entry.now.id.now id
        × Adds line.old line.new (sarif_entry (level_in options.now.strictness entry.now) id entry.now)) }
{
    let id = json_string(alloc, entry.id)?;
    put_entry_result(
        level(note_fails(entry.note.told.code, options)),
        id.as_bytes(),
        entry,
        line,
    )
}

/// The result; the `id` is spelled as a JSON string.
fn put_entry_result(
    level: &[u8],
    id: &[u8],
    entry: &Entry<'_>,
    line: &mut Vec<u8>,
) -> Result<(), AllocError>
    ensures { OnOk result (Adds line.old line.new (sarif_entry level.now id.now entry.now)) }
{
    put(line, b"{\"ruleId\":\"")?;
    entry.note.told.code.put_name(line)?;
    put(line, b"\",\"level\":\"")?;
    put(line, level)?;
    put(line, b"\",\"message\":{\"text\":\"")?;
    put_entry_message(entry, line)?;
    put_place(entry, line)?;
    put_properties(id, entry, line)
}

#[tactic(auto, unfolding(crate::specs::Forms::Sarif::sarif_text))]
fn put_entry_message(entry: &Entry<'_>, line: &mut Vec<u8>) -> Result<(), AllocError>
    ensures { OnOk result (Adds line.old line.new (sarif_text entry.now)) }
{
    entry.note.told.code.put_text(line)?;
    put(line, b", ")?;
    put_item(entry.note.item, line)?;
    put(line, b"\"}")
}

#[tactic(auto, unfolding(crate::specs::Forms::Sarif::sarif_place))]
fn put_place(entry: &Entry<'_>, line: &mut Vec<u8>) -> Result<(), AllocError>
    ensures { OnOk result (Adds line.old line.new (sarif_place entry.now)) }
{
    put_location(entry.name, line)?;
    put_region(spot_at(entry.mark), entry.note.told.place, line)?;
    put(line, b"}")?;
    put_logical_location_of(path_at(entry.mark), line)?;
    put(line, b"}]")
}

#[tactic(auto, unfolding(crate::specs::Forms::Sarif::sarif_properties))]
fn put_properties(id: &[u8], entry: &Entry<'_>, line: &mut Vec<u8>) -> Result<(), AllocError>
    ensures { OnOk result (Adds line.old line.new (sarif_properties id.now entry.now)) }
{
    put(line, b",\"properties\":{")?;
    put_members(entry.note.item, entry.id, id, line)?;
    put(line, b"}}")
}

/// Puts the result on what is not reported.
pub fn put_more(name: &[u8], count: u64, line: &mut Vec<u8>) -> Result<(), AllocError>
    ensures { OnOk result (Adds line.old line.new (sarif_more name.now count)) }
{
    put(line, b"{\"level\":\"note\",\"message\":{\"text\":\"")?;
    put_and_more(count, line)?;
    put(line, b"\"}")?;
    put_location(name, line)?;
    put(line, b"}}]}")
}
