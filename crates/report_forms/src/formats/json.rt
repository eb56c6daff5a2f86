//! One JSON object for each file, on a separate line.
ghost use Rattle.std.specs.Prelude.{◌≡◌, ◌&&◌, ◌++◌, ℕ, List, OnOk, IfOk, codes};
ghost use Rattle.geolint_report.specs.Found.{found_bytes};
ghost use Rattle.gj_json.specs.Path.{steps_of};
ghost use Rattle.gj_places.specs.Strings.{SpellsString};
ghost use Rattle.geolint_report.specs.Finding.{fault_of, warnings_of};
ghost use Rattle.geolint_report.specs.Line.{Adds};
ghost use Rattle.report_forms.specs.Forms.Json.{json_spot, json_path, json_path_string, json_told, json_head, json_nothing, json_placed, json_fault};
ghost use Rattle.report_forms.specs.Forms.Json.{IsJsonFound, json_hint, json_hint_text, json_object, json_kind, json_warnings, json_warnings_of, json_line};
ghost use Rattle.report_forms.specs.Forms.Hints.{hint_text};
ghost use Rattle.report_forms.specs.Forms.Json.{json_unread, json_entry, json_more, item_members, feature_members, record_member, id_or_null};
ghost use Rattle.report_forms.specs.Internal.WrittenCommas.{is_none_yet, next_items, comma_unless};

use crate::every::{Entry, path_at, spot_at};
use crate::formats::hints::put_hint_text;
use crate::formats::pointer::put_pointer_or_null;
use crate::texts::{put_line_and_column, put_path, put_string};
use geolint_report::every::listing::Item;
use geolint_report::found::Found;
use geolint_report::judge::Finding;
use geolint_report::line::{put, put_all, put_number, put_optional, put_truth};
use geolint_report::report::{Report, Told, warning};
use geolint_report::sites::Spot;
use gj_coords::{KINDS, Kind, Warnings};
use gj_hints::Hint;
use gj_json::Path;
use gj_places::json_string;
use std::alloc::{AllocError, Global};

/// Puts the line of a file.
pub fn put_report(alloc: Global, report: &Report<'_>, line: &mut Vec<u8>) -> Result<(), AllocError>
    ensures { OnOk result ((name found : List ℕ) × SpellsString report.now.name.now name × IsJsonFound report.now.found found
        × Adds line.old line.new (json_line name found report.now)) }
{
    let name = json_string(alloc, report.name)?;
    put_head(name.as_bytes(), &report.finding, report.passes, line)?;
    put_fault(report, line)?;
    put_found(alloc, report.found, line)?;
    put_hint(alloc, report.name, report.hint, line)?;
    put(line, b",\"warnings\":[")?;
    put_all_warnings(report, line)?;
    put(line, b"]}\n")
}

fn put_fault(report: &Report<'_>, line: &mut Vec<u8>) -> Result<(), AllocError>
    ensures { OnOk result (Adds line.old line.new (json_fault report.now (fault_of report.now.finding))) }
{
    match report.finding.fault() {
        Some(told) => put_placed(report, &told, line),
        None => put_nothing(line),
    }
}

/// What is at the place of the fault, where that is reported.
fn put_found(alloc: Global, found: Option<Found>, line: &mut Vec<u8>) -> Result<(), AllocError>
    ensures { OnOk result ((bytes : List ℕ) × IsJsonFound found bytes × Adds line.old line.new bytes) }
{
    match found {
        Some(found) => put_found_text(alloc, &found, line),
        None => put(line, b",\"found\":null"),
    }
}

fn put_found_text(alloc: Global, found: &Found, line: &mut Vec<u8>) -> Result<(), AllocError>
    ensures { OnOk result ((text : List ℕ) × SpellsString (found_bytes found.now) text × Adds line.old line.new (codes ",\"found\":" ++ text)) }
{
    let text = json_string(alloc, found.bytes())?;
    put_all(line, &[b",\"found\":", text.as_bytes()])
}

/// What the file looks like, where its bytes show it.
fn put_hint(
    alloc: Global,
    name: &[u8],
    hint: Option<Hint>,
    line: &mut Vec<u8>,
) -> Result<(), AllocError>
    ensures { OnOk result (Adds line.old line.new (json_hint name.now hint)) }
{
    match hint {
        Some(hint) => put_some_hint(alloc, name, hint, line),
        None => put(line, b",\"hint\":null"),
    }
}

#[tactic(auto, unfolding(crate::specs::Forms::Json::json_hint_text))]
fn put_some_hint(
    alloc: Global,
    name: &[u8],
    hint: Hint,
    line: &mut Vec<u8>,
) -> Result<(), AllocError>
    ensures { OnOk result (Adds line.old line.new (json_hint_text (hint_text name.now hint))) }
{
    let mut text = Vec::new(alloc);
    put_hint_text(alloc, name, hint, &mut text)?;
    put(line, b",\"hint\":")?;
    put_string(text.as_slice(), line)
}

/// The members where no rule is broken.
#[tactic(auto, unfolding(crate::specs::Forms::Json::json_nothing))]
fn put_nothing(line: &mut Vec<u8>) -> Result<(), AllocError>
    ensures { OnOk result (Adds line.old line.new json_nothing) }
{
    put(
        line,
        b",\"rule\":null,\"text\":null,\"offset\":null,\"line\":null,\"column\":null,\"json_path\":null,\"pointer\":null",
    )
}

/// The members for the file; its name is spelled as a JSON string.
fn put_head(
    name: &[u8],
    finding: &Finding,
    passes: bool,
    line: &mut Vec<u8>,
) -> Result<(), AllocError>
    ensures { OnOk result (Adds line.old line.new (json_head name.now finding.now passes)) }
{
    put(line, b"{\"path\":")?;
    put(line, name)?;
    put(line, b",\"verdict\":\"")?;
    put(line, finding.word())?;
    put(line, b"\",\"passes\":")?;
    put_truth(line, passes)?;
    put(line, b",\"record\":")?;
    put_optional(line, finding.record())?;
    put(line, b",\"records\":")?;
    put_optional(line, finding.records())
}

fn put_all_warnings(report: &Report<'_>, line: &mut Vec<u8>) -> Result<(), AllocError>
    ensures { OnOk result (Adds line.old line.new (json_warnings_of report.now (warnings_of report.now.finding))) }
{
    match report.finding.warnings() {
        Some(warnings) => put_warnings(report, &warnings, line),
        None => Ok(()),
    }
}

/// The kinds of warning, each as an object.
fn put_warnings(
    report: &Report<'_>,
    warnings: &Warnings,
    line: &mut Vec<u8>,
) -> Result<(), AllocError>
    ensures { OnOk result (Adds line.old line.new (json_warnings report.now warnings.now)) }
{
    let mut is_first = true;
    for kind in &KINDS {
        let still = put_kind(report, warnings, *kind, is_first, line)?;
        is_first = still;
    }
    Ok(())
}

/// The object of a kind, where there is a warning of it: whether none has been put yet.
fn put_kind(
    report: &Report<'_>,
    warnings: &Warnings,
    kind: Kind,
    is_first: bool,
    line: &mut Vec<u8>,
) -> Result<bool, AllocError>
    ensures bytes { OnOk result (Adds line.old line.new (next_items is_first (json_kind report.now warnings.now kind))) }
    ensures still { IfOk result (λ still. still ≡ (is_first && is_none_yet (json_kind report.now warnings.now kind))) }
{
    match warning(kind, warnings) {
        Some((told, count)) => {
            put_comma_unless(is_first, line)?;
            put_object(report, &told, count, line)?;
            Ok(false)
        }
        None => Ok(is_first),
    }
}

fn put_comma_unless(is_first: bool, line: &mut Vec<u8>) -> Result<(), AllocError>
    ensures { OnOk result (Adds line.old line.new (comma_unless is_first)) }
{
    if is_first { Ok(()) } else { put(line, b",") }
}

#[tactic(auto, unfolding(crate::specs::Forms::Json::json_object))]
fn put_object(
    report: &Report<'_>,
    told: &Told,
    count: u32,
    line: &mut Vec<u8>,
) -> Result<(), AllocError>
    ensures { OnOk result (Adds line.old line.new (json_object report.now told.now count)) }
{
    put(line, b"{\"count\":")?;
    put_number(line, count as u64)?;
    put_placed(report, told, line)?;
    put(line, b"}")
}

/// The members for what is reported, with the place as it was found.
fn put_placed(report: &Report<'_>, told: &Told, line: &mut Vec<u8>) -> Result<(), AllocError>
    ensures { OnOk result (Adds line.old line.new (json_placed report.now told.now)) }
{
    put_told(told, report.spot(told.place), report.path(told), line)
}

/// The members for what is reported at a place. Texts and paths have no character that a JSON string escapes.
fn put_told(
    told: &Told,
    spot: Option<Spot>,
    path: Option<Path>,
    line: &mut Vec<u8>,
) -> Result<(), AllocError>
    ensures { OnOk result (Adds line.old line.new (json_told told.now spot path)) }
{
    put(line, b",\"rule\":\"")?;
    told.code.put_name(line)?;
    put(line, b"\",\"text\":\"")?;
    told.code.put_text(line)?;
    put(line, b"\",\"offset\":")?;
    put_number(line, told.place)?;
    put_spot(spot, line)?;
    put_path_member(path, line)
}

fn put_spot(spot: Option<Spot>, line: &mut Vec<u8>) -> Result<(), AllocError>
    ensures { OnOk result (Adds line.old line.new (json_spot spot)) }
{
    match spot {
        Some(spot) => put_line_and_column(b",\"line\":", b",\"column\":", spot, line),
        None => put_all(line, &[b",\"line\":null,\"column\":null"]),
    }
}

fn put_path_member(path: Option<Path>, line: &mut Vec<u8>) -> Result<(), AllocError>
    ensures { OnOk result (Adds line.old line.new (json_path path)) }
{
    match path {
        Some(path) => put_path_string(&path, line),
        None => put(line, b",\"json_path\":null,\"pointer\":null"),
    }
}

fn put_path_string(path: &Path, line: &mut Vec<u8>) -> Result<(), AllocError>
    ensures { OnOk result (Adds line.old line.new (json_path_string (steps_of path.now))) }
{
    put(line, b",\"json_path\":\"")?;
    put_path(path, line)?;
    put(line, b"\",\"pointer\":")?;
    put_pointer_or_null(path, line)
}

/// Puts the line of a file that could not be opened or read.
pub fn put_unread(
    alloc: Global,
    name: &[u8],
    reason: &str,
    line: &mut Vec<u8>,
) -> Result<(), AllocError>
    ensures { OnOk result ((file why : List ℕ) × SpellsString name.now file × SpellsString reason.now why × Adds line.old line.new (json_unread file why)) }
{
    let file = json_string(alloc, name)?;
    let why = json_string(alloc, reason.as_bytes())?;
    put(line, b"{\"path\":")?;
    put(line, file.as_bytes())?;
    put(
        line,
        b",\"verdict\":\"not read\",\"passes\":false,\"record\":null,\"records\":null,\"rule\":null,\"text\":",
    )?;
    put(line, why.as_bytes())?;
    put(
        line,
        b",\"offset\":null,\"line\":null,\"column\":null,\"json_path\":null,\"pointer\":null,\"found\":null,\"hint\":null,\"warnings\":[]}\n",
    )
}

/// Puts the line of a feature or a record.
pub fn put_entry(alloc: Global, entry: &Entry<'_>, line: &mut Vec<u8>) -> Result<(), AllocError>
    ensures { OnOk result
        ((name id : List ℕ) × SpellsString entry.now.name.now name × SpellsString entry.now.id.now id × Adds line.old line.new (json_entry name id entry.now)) }
{
    let name = json_string(alloc, entry.name)?;
    let id = json_string(alloc, entry.id)?;
    put(line, b"{\"path\":")?;
    put(line, name.as_bytes())?;
    put(line, b",")?;
    put_members(entry.note.item, entry.id, id.as_bytes(), line)?;
    put_told(
        &entry.note.told,
        spot_at(entry.mark),
        path_at(entry.mark),
        line,
    )?;
    put(line, b"}\n")
}

/// Puts the members for a feature or a record; the `id` is spelled as a string.
pub fn put_members(
    item: Item,
    id: &[u8],
    spelled: &[u8],
    line: &mut Vec<u8>,
) -> Result<(), AllocError>
    ensures { OnOk result (Adds line.old line.new (item_members item id.now spelled.now)) }
{
    match item {
        Item::Feature { index, .. } => put_feature(index, id, spelled, line),
        Item::Record(number) => put_record(number, line),
    }
}

#[tactic(auto, unfolding(crate::specs::Forms::Json::feature_members))]
fn put_feature(index: u64, id: &[u8], spelled: &[u8], line: &mut Vec<u8>) -> Result<(), AllocError>
    ensures { OnOk result (Adds line.old line.new (feature_members index id.now spelled.now)) }
{
    put(line, b"\"feature\":")?;
    put_number(line, index)?;
    put(line, b",\"id\":")?;
    put_id(id, spelled, line)
}

#[tactic(auto, unfolding(crate::specs::Forms::Json::record_member))]
fn put_record(number: u64, line: &mut Vec<u8>) -> Result<(), AllocError>
    ensures { OnOk result (Adds line.old line.new (record_member number)) }
{
    put(line, b"\"record\":")?;
    put_number(line, number)
}

/// An `id` as a string, and `null` for none.
fn put_id(id: &[u8], spelled: &[u8], line: &mut Vec<u8>) -> Result<(), AllocError>
    ensures { OnOk result (Adds line.old line.new (id_or_null id.now spelled.now)) }
{
    if id.is_empty() {
        put(line, b"null")
    } else {
        put(line, spelled)
    }
}

/// Puts the line on what is not reported.
pub fn put_more(
    alloc: Global,
    name: &[u8],
    count: u64,
    line: &mut Vec<u8>,
) -> Result<(), AllocError>
    ensures { OnOk result ((spelled : List ℕ) × SpellsString name.now spelled × Adds line.old line.new (json_more spelled count)) }
{
    let name = json_string(alloc, name)?;
    put(line, b"{\"path\":")?;
    put(line, name.as_bytes())?;
    put(line, b",\"more\":")?;
    put_number(line, count)?;
    put(line, b"}\n")
}
