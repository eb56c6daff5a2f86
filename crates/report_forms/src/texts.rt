//! What the forms have in common: paths, names and strings, and what a message may say besides its text.
ghost use Rattle.std.specs.Prelude.{◌≡◌, ◌<◌, ◌++◌, OnOk};
ghost use Rattle.std.specs.Fmt.{decimal};
ghost use Rattle.std.specs.List.{flat_map};
ghost use Rattle.gj_json.specs.Path.{steps_of};
ghost use Rattle.geolint_report.specs.Line.{Adds};
ghost use Rattle.report_forms.specs.Forms.Messages.{and_record, and_times, path_behind, and_path, level_of, step_text, steps_text, path_text};
ghost use Rattle.report_forms.specs.Names.{shown_name, shown_bytes, begins_command, in_json, shown_text, shown_char, by_number, digit_in, unread_line};

use geolint_report::line::{put, put_all, put_number};
use geolint_report::sites::Spot;
use gj_json::{Path, PathStep};
use gj_places::is_harmful;
use itoa::Buffer;
use serde_json::Value;
use std::alloc::AllocError;

/// Puts a path from the root, as `$.features[3].geometry`; `*` stands for a name that the standard does not know.
#[tactic(auto, unfolding(crate::specs::Forms::Messages::path_text))]
pub fn put_path(path: &Path, line: &mut Vec<u8>) -> Result<(), AllocError>
    ensures { OnOk result (Adds line.old line.new (path_text (steps_of path.now))) }
{
    put(line, b"$")?;
    put_steps(path, line)
}

fn put_steps(path: &Path, line: &mut Vec<u8>) -> Result<(), AllocError>
    ensures { OnOk result (Adds line.old line.new (steps_text (steps_of path.now))) }
{
    for i in 0..path.len() {
        if let Some(step) = path.step(i) {
            put_step(step, line)?;
        }
    }
    Ok(())
}

fn put_step(step: PathStep, line: &mut Vec<u8>) -> Result<(), AllocError>
    ensures { OnOk result (Adds line.old line.new (step_text step)) }
{
    match step {
        PathStep::Index(index) => {
            let mut digits = Buffer::new();
            put_all(line, &[b"[", digits.format(index).as_bytes(), b"]"])
        }
        PathStep::Member(name) => put_all(line, &[b".", name.text().as_bytes()]),
    }
}

/// Puts the record that a message speaks of, where there is one.
pub fn put_and_record(number: Option<u64>, line: &mut Vec<u8>) -> Result<(), AllocError>
    ensures { OnOk result (Adds line.old line.new (and_record number)) }
{
    match number {
        Some(number) => {
            let mut digits = Buffer::new();
            put_all(line, &[b", record ", digits.format(number).as_bytes()])
        }
        None => Ok(()),
    }
}

/// Puts how often a message holds, where that is more than once.
pub fn put_and_times(count: u32, line: &mut Vec<u8>) -> Result<(), AllocError>
    ensures { OnOk result (Adds line.old line.new (and_times count)) }
{
    if count > 1 {
        let mut digits = Buffer::new();
        put_all(line, &[b", ", digits.format(count).as_bytes(), b" times"])
    } else {
        Ok(())
    }
}

/// Puts the path that a message speaks of, where there is one.
pub fn put_and_path(path: Option<Path>, line: &mut Vec<u8>) -> Result<(), AllocError>
    ensures { OnOk result (Adds line.old line.new (and_path path)) }
{
    match path {
        Some(path) => put_path_behind(&path, line),
        None => Ok(()),
    }
}

#[tactic(auto, unfolding(crate::specs::Forms::Messages::path_behind))]
fn put_path_behind(path: &Path, line: &mut Vec<u8>) -> Result<(), AllocError>
    ensures { OnOk result (Adds line.old line.new (path_behind (steps_of path.now))) }
{
    put(line, b", ")?;
    put_path(path, line)
}

/// Puts the line of a place after its word, and its column after that.
pub fn put_line_and_column(
    line_word: &[u8],
    column_word: &[u8],
    spot: Spot,
    line: &mut Vec<u8>,
) -> Result<(), AllocError>
    ensures { OnOk result (Adds line.old line.new (line_word.now ++ (decimal spot.line ++ (column_word.now ++ decimal spot.column)))) }
{
    put(line, line_word)?;
    put_number(line, spot.line)?;
    put(line, column_word)?;
    put_number(line, spot.column)
}

/// The level of a warning.
pub fn level(fails: bool) -> &'static [u8]
    ensures { result.now ≡ level_of fails }
{
    match fails {
        true => b"error",
        false => b"warning",
    }
}

/// Puts a name, an `id` or what was found, as it is, but for characters that a terminal or a reader of lines would obey, for
/// bytes that are no Unicode text, and for a first byte with which a line could be a command to a runner of jobs: of these the
/// number, as `\x0a`.
#[tactic(auto, unfolding(crate::specs::Names::shown_name))]
pub fn put_name(name: &[u8], line: &mut Vec<u8>) -> Result<(), AllocError>
    ensures { OnOk result (Adds line.old line.new (shown_name name.now)) }
{
    if begins_command(name) {
        put_number_of(name[0], line)?;
        put_bytes(&name[1..], line)
    } else {
        put_bytes(name, line)
    }
}

fn begins_command(name: &[u8]) -> bool
    ensures { result ≡ begins_command name.now }
{
    matches!(name, [b' ' | b'#' | b':', ..])
}

fn put_bytes(name: &[u8], line: &mut Vec<u8>) -> Result<(), AllocError>
    ensures { OnOk result (Adds line.old line.new (shown_bytes name.now)) }
{
    for chunk in name.utf8_chunks() {
        put_text(chunk.valid(), line)?;
        put_numbers(chunk.invalid(), line)?;
    }
    Ok(())
}

/// Puts a text as a JSON string, as `serde_json` writes it: U+FFFD stands for each part that is no UTF-8.
#[tactic(auto, unfolding(crate::specs::Names::in_json))]
pub fn put_string(text: &[u8], line: &mut Vec<u8>) -> Result<(), AllocError>
    ensures { OnOk result (Adds line.old line.new (in_json text.now)) }
{
    let alloc = *line.allocator();
    let value = Value::String(String::from_utf8_lossy(alloc, text)?);
    put(line, value.to_string(alloc)?.as_bytes())
}

/// Puts the line on standard error about a file that could not be opened or read.
#[tactic(auto, unfolding(crate::specs::Names::unread_line))]
pub fn put_unread_line(name: &[u8], reason: &[u8], line: &mut Vec<u8>) -> Result<(), AllocError>
    ensures { OnOk result (Adds line.old line.new (unread_line name.now reason.now)) }
{
    put(line, b"geolint-files: ")?;
    put_name(name, line)?;
    put(line, b": ")?;
    put(line, reason)?;
    put(line, b"\n")
}

fn put_text(text: &str, line: &mut Vec<u8>) -> Result<(), AllocError>
    ensures { OnOk result (Adds line.old line.new (shown_text text.now)) }
{
    for c in text.chars() {
        put_char(c, line)?;
    }
    Ok(())
}

fn put_char(c: char, line: &mut Vec<u8>) -> Result<(), AllocError>
    ensures { OnOk result (Adds line.old line.new (shown_char c)) }
{
    let mut room = [0; 4];
    let bytes = c.encode_utf8(&mut room).as_bytes();
    if is_harmful(c) {
        put_numbers(bytes, line)
    } else {
        put(line, bytes)
    }
}

fn put_numbers(bytes: &[u8], line: &mut Vec<u8>) -> Result<(), AllocError>
    ensures { OnOk result (Adds line.old line.new (flat_map by_number bytes.now)) }
{
    for byte in bytes {
        put_number_of(*byte, line)?;
    }
    Ok(())
}

const LOWER_DIGITS: &[u8; 16] = b"0123456789abcdef";

/// Puts the number of a byte.
#[tactic(auto, unfolding(crate::specs::Names::by_number))]
fn put_number_of(byte: u8, line: &mut Vec<u8>) -> Result<(), AllocError>
    ensures { OnOk result (Adds line.old line.new (by_number byte)) }
{
    let high = digit_in(LOWER_DIGITS, byte / 16);
    let low = digit_in(LOWER_DIGITS, byte % 16);
    put_all(line, &[b"\\x", &[high, low]])
}

/// The digit of a number below 16.
pub fn digit_in(digits: &[u8; 16], number: u8) -> u8
    requires { number < 16 }
    ensures { result ≡ digit_in digits.now number }
{
    digits[number as usize]
}
