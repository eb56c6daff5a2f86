//! One line for each thing that is reported, as compilers write them, and its place.
ghost use Rattle.std.specs.Prelude.{◌≡◌, ◌||◌, ◌++◌, ℕ, List, None, OnOk, Option, IfOk, codes, replicate};
ghost use Rattle.std.specs.Fmt.{decimal};
ghost use Rattle.gj_places.specs.declared.excerpt.Excerpt.{Excerpt};
ghost use Rattle.geolint_report.specs.declared.every.tally.Tally.{Tally};
ghost use Rattle.geolint_report.specs.declared.judge.Finding.{Finding};
ghost use Rattle.geolint_report.specs.Finding.{word_of, fault_of, warnings_of};
ghost use Rattle.geolint_report.specs.Line.{Adds};
ghost use Rattle.geolint_report.specs.Report.{spot_of, excerpt_in};
ghost use Rattle.geolint_report.specs.Tallies.{IsTotal};
ghost use Rattle.report_forms.specs.FileCounts.{Counts};
ghost use Rattle.report_forms.specs.Forms.Features.{spot_at};
ghost use Rattle.report_forms.specs.Forms.Lines.{beginning, ending, and_spot, lines_where, lines_code, record_detail, times_detail, byte_detail, path_detail};
ghost use Rattle.report_forms.specs.Forms.Lines.{details, in_parentheses, lines_line, lines_kind, lines_warnings, lines_not_valid, lines_rest};
ghost use Rattle.report_forms.specs.Forms.Lines.{lines_excerpt, found_line, lines_found, hint_line, lines_hint, IsShown, IsExcerpt, AreLines};
ghost use Rattle.report_forms.specs.Forms.Lines.{lines_entry, lines_more, note_part, feature_details, byte_behind, lines_calls};
ghost use Rattle.report_forms.specs.Internal.WrittenDetails.{next_details, has_details, separator, end};

use crate::every::{
    Entry, put_and_byte, put_and_more, put_id_behind, put_item, put_path_at, put_word, spot_at,
};
use crate::formats::hints::put_hint_text;
use crate::summary::Summary;
use crate::texts::{put_line_and_column, put_name, put_path};
use geolint_report::every::cursor::Mark;
use geolint_report::every::tally::Tally;
use geolint_report::found::Found;
use geolint_report::line::{put, put_all};
use geolint_report::report::{Report, Told, warning};
use geolint_report::sites::Spot;
use geolint_report::texts::Code;
use gj_coords::{Kind, Warnings};
use gj_hints::Hint;
use gj_json::Path;
use gj_places::Excerpt;
use itoa::Buffer;
use std::alloc::{AllocError, Global};

/// The kinds of warning as people read them: where positions are out of range, as metres are, their long numbers come after that.
const SHOWN: [Kind; 9] = [
    Kind::W1,
    Kind::W2,
    Kind::W3,
    Kind::W5,
    Kind::W4,
    Kind::W6,
    Kind::W7,
    Kind::W8,
    Kind::W9,
];

/// How a terminal shows parts of a line, where it is one.
#[derive(Clone, Copy, PartialEq, Eq)]
pub enum Style {
    Plain,
    Colour,
}

/// The part of a line.
#[derive(Clone, Copy)]
pub enum Part {
    Name,
    Fault,
    Warning,
    Caret,
}

/// What begins a part in colour, and what ends it; nothing where the style is plain.
fn beginning(part: Part, style: Style) -> &'static [u8]
    ensures { result.now ≡ beginning part style }
{
    match (style, part) {
        (Style::Plain, _) => b"",
        (Style::Colour, Part::Name) => b"\x1b[1m",
        (Style::Colour, Part::Fault) => b"\x1b[1;31m",
        (Style::Colour, Part::Warning) => b"\x1b[1;33m",
        (Style::Colour, Part::Caret) => b"\x1b[1;32m",
    }
}

fn ending(style: Style) -> &'static [u8]
    ensures { result.now ≡ ending style }
{
    match style {
        Style::Plain => b"",
        Style::Colour => b"\x1b[0m",
    }
}

fn put_beginning(part: Part, style: Style, line: &mut Vec<u8>) -> Result<(), AllocError>
    ensures { OnOk result (Adds line.old line.new (beginning part style)) }
{
    put(line, beginning(part, style))
}

fn put_ending(style: Style, line: &mut Vec<u8>) -> Result<(), AllocError>
    ensures { OnOk result (Adds line.old line.new (ending style)) }
{
    put(line, ending(style))
}

/// Puts the lines of a file: none for one that is valid without a warning.
pub fn put_report(
    alloc: Global,
    report: &Report<'_>,
    style: Style,
    line: &mut Vec<u8>,
) -> Result<(), AllocError>
    ensures { OnOk result ((bytes : List ℕ) × AreLines style report.now (fault_of report.now.finding) bytes
        × Adds line.old line.new (bytes ++ (lines_found report.now.found ++ lines_hint report.now.name.now report.now.hint))) }
{
    put_finding(alloc, report, style, line)?;
    put_found(report.found, line)?;
    put_hint(alloc, report.name, report.hint, line)
}

/// The lines of what was found.
fn put_finding(
    alloc: Global,
    report: &Report<'_>,
    style: Style,
    line: &mut Vec<u8>,
) -> Result<(), AllocError>
    ensures { OnOk result ((bytes : List ℕ) × AreLines style report.now (fault_of report.now.finding) bytes × Adds line.old line.new bytes) }
{
    match report.finding.fault() {
        Some(told) => put_fault(alloc, report, &told, style, line),
        None => put_rest(report, style, line),
    }
}

/// What is at the place of the fault, where that is reported.
fn put_found(found: Option<Found>, line: &mut Vec<u8>) -> Result<(), AllocError>
    ensures { OnOk result (Adds line.old line.new (lines_found found)) }
{
    match found {
        Some(found) => put_found_line(&found, line),
        None => Ok(()),
    }
}

#[tactic(auto, unfolding(crate::specs::Forms::Lines::found_line))]
fn put_found_line(found: &Found, line: &mut Vec<u8>) -> Result<(), AllocError>
    ensures { OnOk result (Adds line.old line.new (found_line found.now)) }
{
    put(line, b"    found: ")?;
    put_name(found.bytes(), line)?;
    put(line, b"\n")
}

/// What the file looks like, where its bytes show it.
fn put_hint(
    alloc: Global,
    name: &[u8],
    hint: Option<Hint>,
    line: &mut Vec<u8>,
) -> Result<(), AllocError>
    ensures { OnOk result (Adds line.old line.new (lines_hint name.now hint)) }
{
    match hint {
        Some(hint) => put_hint_line(alloc, name, hint, line),
        None => Ok(()),
    }
}

#[tactic(auto, unfolding(crate::specs::Forms::Lines::hint_line))]
fn put_hint_line(
    alloc: Global,
    name: &[u8],
    hint: Hint,
    line: &mut Vec<u8>,
) -> Result<(), AllocError>
    ensures { OnOk result (Adds line.old line.new (hint_line name.now hint)) }
{
    put(line, b"    hint: ")?;
    put_hint_text(alloc, name, hint, line)?;
    put(line, b"\n")
}

fn put_fault(
    alloc: Global,
    report: &Report<'_>,
    told: &Told,
    style: Style,
    line: &mut Vec<u8>,
) -> Result<(), AllocError>
    ensures { OnOk result ((excerpt : List ℕ) × IsExcerpt style (spot_of report.now told.now.place) (excerpt_in report.now.sites) excerpt
        × Adds line.old line.new (lines_line style Part.Fault (word_of report.now.finding) report.now told.now 1 ++ excerpt)) }
{
    put_line(
        Part::Fault,
        report.finding.word(),
        report,
        told,
        1,
        style,
        line,
    )?;
    put_excerpt(alloc, report, told, style, line)
}

/// Where there is no fault to report.
fn put_rest(report: &Report<'_>, style: Style, line: &mut Vec<u8>) -> Result<(), AllocError>
    ensures { OnOk result (Adds line.old line.new (lines_rest style report.now (warnings_of report.now.finding))) }
{
    match report.finding.warnings() {
        Some(warnings) => put_warnings(report, &warnings, style, line),
        None => put_not_valid(report.name, style, line),
    }
}

#[tactic(auto, unfolding(crate::specs::Forms::Lines::lines_not_valid))]
fn put_not_valid(name: &[u8], style: Style, line: &mut Vec<u8>) -> Result<(), AllocError>
    ensures { OnOk result (Adds line.old line.new (lines_not_valid style name.now)) }
{
    put_where(name, None, style, line)?;
    put(line, b"not valid\n")
}

fn put_warnings(
    report: &Report<'_>,
    warnings: &Warnings,
    style: Style,
    line: &mut Vec<u8>,
) -> Result<(), AllocError>
    ensures { OnOk result (Adds line.old line.new (lines_warnings style report.now warnings.now)) }
{
    for kind in &SHOWN {
        put_kind(report, warnings, *kind, style, line)?;
    }
    Ok(())
}

/// The line of a kind of warning, where there is one.
fn put_kind(
    report: &Report<'_>,
    warnings: &Warnings,
    kind: Kind,
    style: Style,
    line: &mut Vec<u8>,
) -> Result<(), AllocError>
    ensures { OnOk result (Adds line.old line.new (lines_kind style report.now warnings.now kind)) }
{
    match warning(kind, warnings) {
        Some((told, count)) => put_line(
            Part::Warning,
            b"warning",
            report,
            &told,
            count,
            style,
            line,
        ),
        None => Ok(()),
    }
}

#[tactic(auto, unfolding(crate::specs::Forms::Lines::lines_line))]
fn put_line(
    part: Part,
    word: &[u8],
    report: &Report<'_>,
    told: &Told,
    count: u32,
    style: Style,
    line: &mut Vec<u8>,
) -> Result<(), AllocError>
    ensures { OnOk result (Adds line.old line.new (lines_line style part word.now report.now told.now count)) }
{
    put_where(report.name, report.spot(told.place), style, line)?;
    put_beginning(part, style, line)?;
    put(line, word)?;
    put_code(told.code, style, line)?;
    put_details(report, told, count, line)?;
    put(line, b"\n")
}

/// The file, and the line and the column in it.
#[tactic(auto, unfolding(crate::specs::Forms::Lines::lines_where))]
fn put_where(
    name: &[u8],
    spot: Option<Spot>,
    style: Style,
    line: &mut Vec<u8>,
) -> Result<(), AllocError>
    ensures { OnOk result (Adds line.old line.new (lines_where style name.now spot)) }
{
    put_beginning(Part::Name, style, line)?;
    put_name(name, line)?;
    put_spot(spot, line)?;
    put_ending(style, line)?;
    put(line, b": ")
}

fn put_spot(spot: Option<Spot>, line: &mut Vec<u8>) -> Result<(), AllocError>
    ensures { OnOk result (Adds line.old line.new (and_spot spot)) }
{
    match spot {
        Some(spot) => put_line_and_column(b":", b":", spot, line),
        None => Ok(()),
    }
}

#[tactic(auto, unfolding(crate::specs::Forms::Lines::lines_code))]
fn put_code(code: Code, style: Style, line: &mut Vec<u8>) -> Result<(), AllocError>
    ensures { OnOk result (Adds line.old line.new (lines_code style code)) }
{
    put(line, b" ")?;
    code.put_name(line)?;
    put_ending(style, line)?;
    put(line, b": ")?;
    code.put_text(line)
}

/// What is in parentheses at the end of the line: the record, the count, the offset where the line is not known, and
/// the path.
fn put_details(
    report: &Report<'_>,
    told: &Told,
    count: u32,
    line: &mut Vec<u8>,
) -> Result<(), AllocError>
    ensures { OnOk result (Adds line.old line.new (in_parentheses (details report.now told.now count))) }
{
    let with_record = put_record(false, report.finding.record(), line)?;
    let with_times = put_times(with_record, count, line)?;
    let with_byte = put_byte(with_times, told.place, report.spot(told.place), line)?;
    let with_path = put_path_of(with_byte, report.path(told), line)?;
    put_end(with_path, line)
}

/// Puts the record, where there is one: whether a parenthesis is open then, as each of these says.
fn put_record(is_open: bool, number: Option<u64>, line: &mut Vec<u8>) -> Result<bool, AllocError>
    ensures bytes { OnOk result (Adds line.old line.new (next_details is_open (record_detail number))) }
    ensures begun { IfOk result (λ begun. begun ≡ (is_open || has_details (record_detail number))) }
{
    match number {
        Some(number) => {
            put_separator(is_open, line)?;
            put_record_number(number, line)?;
            Ok(true)
        }
        None => Ok(is_open),
    }
}

fn put_record_number(number: u64, line: &mut Vec<u8>) -> Result<(), AllocError>
    ensures { OnOk result (Adds line.old line.new (codes "record " ++ decimal number)) }
{
    let mut digits = Buffer::new();
    put_all(line, &[b"record ", digits.format(number).as_bytes()])
}

fn put_times(is_open: bool, count: u32, line: &mut Vec<u8>) -> Result<bool, AllocError>
    ensures bytes { OnOk result (Adds line.old line.new (next_details is_open (times_detail count))) }
    ensures begun { IfOk result (λ begun. begun ≡ (is_open || has_details (times_detail count))) }
{
    if count > 1 {
        put_separator(is_open, line)?;
        put_count(count, line)?;
        Ok(true)
    } else {
        Ok(is_open)
    }
}

fn put_count(count: u32, line: &mut Vec<u8>) -> Result<(), AllocError>
    ensures { OnOk result (Adds line.old line.new (decimal count ++ codes " times")) }
{
    let mut digits = Buffer::new();
    put_all(line, &[digits.format(count).as_bytes(), b" times"])
}

fn put_byte(
    is_open: bool,
    place: u64,
    spot: Option<Spot>,
    line: &mut Vec<u8>,
) -> Result<bool, AllocError>
    ensures bytes { OnOk result (Adds line.old line.new (next_details is_open (byte_detail place spot))) }
    ensures begun { IfOk result (λ begun. begun ≡ (is_open || has_details (byte_detail place spot))) }
{
    match spot {
        Some(_) => Ok(is_open),
        None => {
            put_separator(is_open, line)?;
            put_offset(place, line)?;
            Ok(true)
        }
    }
}

fn put_offset(place: u64, line: &mut Vec<u8>) -> Result<(), AllocError>
    ensures { OnOk result (Adds line.old line.new (codes "at byte " ++ decimal place)) }
{
    let mut digits = Buffer::new();
    put_all(line, &[b"at byte ", digits.format(place).as_bytes()])
}

fn put_path_of(is_open: bool, path: Option<Path>, line: &mut Vec<u8>) -> Result<bool, AllocError>
    ensures bytes { OnOk result (Adds line.old line.new (next_details is_open (path_detail path))) }
    ensures begun { IfOk result (λ begun. begun ≡ (is_open || has_details (path_detail path))) }
{
    match path {
        Some(path) => {
            put_separator(is_open, line)?;
            put_path(&path, line)?;
            Ok(true)
        }
        None => Ok(is_open),
    }
}

fn put_separator(is_open: bool, line: &mut Vec<u8>) -> Result<(), AllocError>
    ensures { OnOk result (Adds line.old line.new (separator is_open)) }
{
    match is_open {
        false => put(line, b" ("),
        true => put(line, b", "),
    }
}

fn put_end(is_open: bool, line: &mut Vec<u8>) -> Result<(), AllocError>
    ensures { OnOk result (Adds line.old line.new (end is_open)) }
{
    if is_open { put(line, b")") } else { Ok(()) }
}

/// The line around the place, with a caret under the character at it. Both begin with a mark, so that no runner of jobs obeys them.
fn put_excerpt(
    alloc: Global,
    report: &Report<'_>,
    told: &Told,
    style: Style,
    line: &mut Vec<u8>,
) -> Result<(), AllocError>
    ensures { OnOk result
        ((excerpt : List ℕ) × IsExcerpt style (spot_of report.now told.now.place) (excerpt_in report.now.sites) excerpt × Adds line.old line.new excerpt) }
{
    match report.sites {
        Some(sites) if report.spot(told.place).is_some() => {
            put_line_around(alloc, sites.excerpt(), style, line)
        }
        _ => Ok(()),
    }
}

fn put_line_around(
    alloc: Global,
    excerpt: &Excerpt,
    style: Style,
    line: &mut Vec<u8>,
) -> Result<(), AllocError>
    ensures { OnOk result ((text : List ℕ) × (columns : ℕ) × IsShown excerpt.now text columns × Adds line.old line.new (lines_excerpt style text columns)) }
{
    let shown = excerpt.shown(alloc)?;
    put_shown(shown.text.as_bytes(), shown.before, style, line)
}

fn put_shown(
    text: &[u8],
    columns: usize,
    style: Style,
    line: &mut Vec<u8>,
) -> Result<(), AllocError>
    ensures { OnOk result (Adds line.old line.new (lines_excerpt style text.now columns)) }
{
    put(line, b"  | ")?;
    put(line, text)?;
    put(line, b"\n  | ")?;
    put_spaces(columns, line)?;
    put_beginning(Part::Caret, style, line)?;
    put(line, b"^")?;
    put_ending(style, line)?;
    put(line, b"\n")
}

fn put_spaces(columns: usize, line: &mut Vec<u8>) -> Result<(), AllocError>
    ensures { OnOk result (Adds line.old line.new (replicate columns 32)) }
{
    for _i in 0..columns {
        line.push(b' ')?;
    }
    Ok(())
}

/// Puts the line of a feature or a record.
#[tactic(auto, unfolding(crate::specs::Forms::Lines::lines_entry))]
pub fn put_entry(entry: &Entry<'_>, style: Style, line: &mut Vec<u8>) -> Result<(), AllocError>
    ensures { OnOk result (Adds line.old line.new (lines_entry style entry.now)) }
{
    put_where(entry.name, spot_at(entry.mark), style, line)?;
    put_beginning(note_part(entry.note.told.code), style, line)?;
    put_word(entry.note.told.code, line)?;
    put_code(entry.note.told.code, style, line)?;
    put_feature_details(entry, line)
}

fn note_part(code: Code) -> Part
    ensures { result ≡ note_part code }
{
    match code {
        Code::Kind(_) => Part::Warning,
        _ => Part::Fault,
    }
}

/// What is in parentheses at the end of the line: the feature, its `id`, the offset where the line is not known, and the path.
#[tactic(auto, unfolding(crate::specs::Forms::Lines::feature_details))]
fn put_feature_details(entry: &Entry<'_>, line: &mut Vec<u8>) -> Result<(), AllocError>
    ensures { OnOk result (Adds line.old line.new (feature_details entry.now)) }
{
    put(line, b" (")?;
    put_item(entry.note.item, line)?;
    put_id_behind(b", id ", entry.id, line)?;
    put_byte_behind(entry.note.told.place, entry.mark, line)?;
    put_path_at(entry.mark, line)?;
    put(line, b")\n")
}

fn put_byte_behind(place: u64, mark: Option<Mark>, line: &mut Vec<u8>) -> Result<(), AllocError>
    ensures { OnOk result (Adds line.old line.new (byte_behind place (spot_at mark))) }
{
    match mark {
        Some(_) => Ok(()),
        None => put_and_byte(place, line),
    }
}

/// Puts the line on what is not reported.
#[tactic(auto, unfolding(crate::specs::Forms::Lines::lines_more))]
pub fn put_more(name: &[u8], count: u64, style: Style, line: &mut Vec<u8>) -> Result<(), AllocError>
    ensures { OnOk result (Adds line.old line.new (lines_more style name.now count)) }
{
    put_where(name, None, style, line)?;
    put_and_more(count, line)?;
    put(line, b"\n")
}

/// Puts the calls that explain what is reported, on a terminal.
pub fn put_calls(
    style: Style,
    summary: &Summary,
    tally: &Tally,
    line: &mut Vec<u8>,
) -> Result<(), AllocError>
    ensures { (files : List (Option Finding)) (tallies : List Tally) → Counts summary.now files → IsTotal tally.now tallies
        → OnOk result (Adds line.old line.new (lines_calls style files tallies)) }
{
    match style {
        Style::Colour => summary.put_calls(tally, line),
        Style::Plain => Ok(()),
    }
}
