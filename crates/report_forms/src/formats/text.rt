//! The program's own report under each name.
ghost use Rattle.std.specs.Prelude.{OnOk, codes};
ghost use Rattle.gj_json.specs.Path.{steps_of};
ghost use Rattle.geolint_report.specs.Finding.{fault_of, warnings_of, record_of, records_of};
ghost use Rattle.geolint_report.specs.Line.{Adds};
ghost use Rattle.report_forms.specs.Forms.Text.{number_line, path_line, path_line_of, broken, broken_or_refused, text_fault, text_warning, text_kind};
ghost use Rattle.report_forms.specs.Forms.Features.{spot_at};
ghost use Rattle.report_forms.specs.Forms.Text.{text_warnings, text_valid, text_rest, text_found, text_told, text_entry, text_place, text_spot, text_more};

use crate::every::{Entry, put_and_more, put_id_behind, put_item, put_path_at, put_word, spot_at};
use crate::texts::{put_line_and_column, put_name, put_path};
use geolint_report::every::cursor::Mark;
use geolint_report::judge::Finding;
use geolint_report::line::{put, put_all, put_number};
use geolint_report::report::{Report, Told, warning};
use geolint_report::texts::Code;
use gj_coords::{KINDS, Kind, Warnings};
use gj_json::Path;
use itoa::Buffer;
use std::alloc::AllocError;

/// Puts the lines of a file.
#[tactic(auto, unfolding(crate::specs::Forms::Text::text_told))]
pub fn put_report(report: &Report<'_>, line: &mut Vec<u8>) -> Result<(), AllocError>
    ensures { OnOk result (Adds line.old line.new (text_told report.now)) }
{
    put(line, b"==> ")?;
    put_name(report.name, line)?;
    put(line, b" <==\n")?;
    put_record(&report.finding, line)?;
    put_found(report, line)
}

fn put_record(finding: &Finding, line: &mut Vec<u8>) -> Result<(), AllocError>
    ensures { OnOk result (Adds line.old line.new (number_line (codes "record ") (record_of finding.now))) }
{
    put_number_line(b"record ", finding.record(), line)
}

fn put_records(finding: &Finding, line: &mut Vec<u8>) -> Result<(), AllocError>
    ensures { OnOk result (Adds line.old line.new (number_line (codes "records ") (records_of finding.now))) }
{
    put_number_line(b"records ", finding.records(), line)
}

/// A line with a number, where there is one.
fn put_number_line(text: &[u8], number: Option<u64>, line: &mut Vec<u8>) -> Result<(), AllocError>
    ensures { OnOk result (Adds line.old line.new (number_line text.now number)) }
{
    match number {
        Some(number) => {
            let mut digits = Buffer::new();
            put_all(line, &[text, digits.format(number).as_bytes(), b"\n"])
        }
        None => Ok(()),
    }
}

fn put_found(report: &Report<'_>, line: &mut Vec<u8>) -> Result<(), AllocError>
    ensures { OnOk result (Adds line.old line.new (text_found report.now (fault_of report.now.finding))) }
{
    match report.finding.fault() {
        Some(told) => put_fault(report, &told, line),
        None => put_rest(&report.finding, line),
    }
}

#[tactic(auto, unfolding(crate::specs::Forms::Text::text_fault))]
fn put_fault(report: &Report<'_>, told: &Told, line: &mut Vec<u8>) -> Result<(), AllocError>
    ensures { OnOk result (Adds line.old line.new (text_fault report.now told.now)) }
{
    put_broken_or_refused(told.code, line)?;
    put(line, b" at ")?;
    put_number(line, told.place)?;
    put(line, b": ")?;
    told.code.put_text(line)?;
    put(line, b"\n")?;
    put_path_line_of(report.path(told), line)
}

fn put_broken_or_refused(code: Code, line: &mut Vec<u8>) -> Result<(), AllocError>
    ensures { OnOk result (Adds line.old line.new (broken_or_refused code)) }
{
    match code {
        Code::Cause(_) => put(line, b"not JSON"),
        code => put_broken(code, line),
    }
}

#[tactic(auto, unfolding(crate::specs::Forms::Text::broken))]
fn put_broken(code: Code, line: &mut Vec<u8>) -> Result<(), AllocError>
    ensures { OnOk result (Adds line.old line.new (broken code)) }
{
    put(line, b"broken ")?;
    code.put_name(line)
}

fn put_path_line_of(path: Option<Path>, line: &mut Vec<u8>) -> Result<(), AllocError>
    ensures { OnOk result (Adds line.old line.new (path_line_of path)) }
{
    match path {
        Some(path) => put_path_line(&path, line),
        None => Ok(()),
    }
}

#[tactic(auto, unfolding(crate::specs::Forms::Text::path_line))]
fn put_path_line(path: &Path, line: &mut Vec<u8>) -> Result<(), AllocError>
    ensures { OnOk result (Adds line.old line.new (path_line (steps_of path.now))) }
{
    put(line, b"path ")?;
    put_path(path, line)?;
    put(line, b"\n")
}

/// Where there is no fault to report.
fn put_rest(finding: &Finding, line: &mut Vec<u8>) -> Result<(), AllocError>
    ensures { OnOk result (Adds line.old line.new (text_rest finding.now (warnings_of finding.now))) }
{
    match finding.warnings() {
        Some(warnings) => put_valid(finding, &warnings, line),
        None => put(line, b"not valid\n"),
    }
}

#[tactic(auto, unfolding(crate::specs::Forms::Text::text_valid))]
fn put_valid(finding: &Finding, warnings: &Warnings, line: &mut Vec<u8>) -> Result<(), AllocError>
    ensures { OnOk result (Adds line.old line.new (text_valid finding.now warnings.now)) }
{
    put(line, b"valid\n")?;
    put_records(finding, line)?;
    put_warnings(warnings, line)
}

fn put_warnings(warnings: &Warnings, line: &mut Vec<u8>) -> Result<(), AllocError>
    ensures { OnOk result (Adds line.old line.new (text_warnings warnings.now)) }
{
    for kind in &KINDS {
        put_kind(warnings, *kind, line)?;
    }
    Ok(())
}

/// The line of a kind of warning, where there is one.
fn put_kind(warnings: &Warnings, kind: Kind, line: &mut Vec<u8>) -> Result<(), AllocError>
    ensures { OnOk result (Adds line.old line.new (text_kind warnings.now kind)) }
{
    match warning(kind, warnings) {
        Some((told, count)) => put_warning(&told, count, line),
        None => Ok(()),
    }
}

fn put_warning(told: &Told, count: u32, line: &mut Vec<u8>) -> Result<(), AllocError>
    ensures { OnOk result (Adds line.old line.new (text_warning told.now count)) }
{
    put(line, b"warning ")?;
    told.code.put_name(line)?;
    put(line, b" count ")?;
    put_number(line, count as u64)?;
    put(line, b" first ")?;
    put_number(line, told.place)?;
    put(line, b": ")?;
    told.code.put_text(line)?;
    put(line, b"\n")
}

/// Puts the line of a feature or a record.
pub fn put_entry(entry: &Entry<'_>, line: &mut Vec<u8>) -> Result<(), AllocError>
    ensures { OnOk result (Adds line.old line.new (text_entry entry.now)) }
{
    put_item(entry.note.item, line)?;
    put_id_behind(b" id ", entry.id, line)?;
    put(line, b" ")?;
    put_word(entry.note.told.code, line)?;
    put(line, b" ")?;
    entry.note.told.code.put_name(line)?;
    put_place(entry.note.told.place, entry.mark, line)?;
    entry.note.told.code.put_text(line)?;
    put(line, b"\n")
}

#[tactic(auto, unfolding(crate::specs::Forms::Text::text_place))]
fn put_place(place: u64, mark: Option<Mark>, line: &mut Vec<u8>) -> Result<(), AllocError>
    ensures { OnOk result (Adds line.old line.new (text_place place mark)) }
{
    put(line, b" at ")?;
    put_number(line, place)?;
    put_spot_at(mark, line)?;
    put_path_at(mark, line)?;
    put(line, b": ")
}

fn put_spot_at(mark: Option<Mark>, line: &mut Vec<u8>) -> Result<(), AllocError>
    ensures { OnOk result (Adds line.old line.new (text_spot (spot_at mark))) }
{
    match spot_at(mark) {
        Some(spot) => put_line_and_column(b", line ", b", column ", spot, line),
        None => Ok(()),
    }
}

/// Puts the line on what is not reported.
#[tactic(auto, unfolding(crate::specs::Forms::Text::text_more))]
pub fn put_more(count: u64, line: &mut Vec<u8>) -> Result<(), AllocError>
    ensures { OnOk result (Adds line.old line.new (text_more count)) }
{
    put_and_more(count, line)?;
    put(line, b"\n")
}
