//! The lines of a summary about rules, kinds of warning and causes, and the calls that explain them: one for each that is counted.
ghost use Rattle.std.specs.Prelude.{◌≡◌, ◌<◌, ℕ, OnOk};
ghost use Rattle.geolint_report.specs.declared.texts.Code.{Code};
ghost use Rattle.geolint_report.specs.declared.texts.TheConstants.{CODES};
ghost use Rattle.geolint_report.specs.Line.{Adds};
ghost use Rattle.geolint_report.specs.Slots.{slot_of};
ghost use Rattle.report_forms.specs.CodeLines.{AreCounts, code_lines, code_line, count_line, count_line_if};
ghost use Rattle.report_forms.specs.CodeLines.{in_eight_places, spaces_before, call_line, call_line_if, call_lines, call_of};

use geolint_report::line::{put, put_all};
use geolint_report::texts::{ALL, CODES, Code};
use itoa::Buffer;
use std::alloc::AllocError;

/// Puts the line of each code whose count is not 0.
pub fn put_codes(counts: &[u64; CODES], line: &mut Vec<u8>) -> Result<(), AllocError>
    ensures { (count : Code → ℕ) → AreCounts counts.now count → OnOk result (Adds line.old line.new (code_lines count)) }
{
    for code in &ALL {
        put_code(*code, counts, line)?;
    }
    Ok(())
}

fn put_code(code: Code, counts: &[u64; CODES], line: &mut Vec<u8>) -> Result<(), AllocError>
    ensures { slot_of code < CODES → (count : Code → ℕ) → AreCounts counts.now count → OnOk result (Adds line.old line.new (code_line count code)) }
{
    put_count_if(code, count_of(code, counts), line)
}

/// The count of a code.
fn count_of(code: Code, counts: &[u64; CODES]) -> u64
    ensures { slot_of code < CODES → (count : Code → ℕ) → AreCounts counts.now count → result ≡ count code }
{
    let slot = code.slot();
    if slot < CODES { counts[slot] } else { 0 }
}

/// The line of a code, where it is reported at all.
fn put_count_if(code: Code, count: u64, line: &mut Vec<u8>) -> Result<(), AllocError>
    ensures { OnOk result (Adds line.old line.new (count_line_if code count)) }
{
    if count == 0 {
        Ok(())
    } else {
        put_count_line(code, count, line)
    }
}

#[tactic(auto, unfolding(crate::specs::CodeLines::count_line))]
fn put_count_line(code: Code, count: u64, line: &mut Vec<u8>) -> Result<(), AllocError>
    ensures { OnOk result (Adds line.old line.new (count_line code count)) }
{
    put_in_eight_places(count, line)?;
    put(line, b" ")?;
    code.put_name(line)?;
    put(line, b": ")?;
    code.put_text(line)?;
    put(line, b"\n")
}

#[tactic(auto, unfolding(crate::specs::CodeLines::in_eight_places))]
fn put_in_eight_places(number: u64, line: &mut Vec<u8>) -> Result<(), AllocError>
    ensures { OnOk result (Adds line.old line.new (in_eight_places number)) }
{
    let mut room = Buffer::new();
    let digits = room.format(number).as_bytes();
    put_all(line, &[spaces_before(digits.len()), digits])
}

/// The spaces before a number of `digits` digits, for eight places.
fn spaces_before(digits: usize) -> &'static [u8]
    ensures { result.now ≡ spaces_before digits }
{
    let spaces: &[u8] = b"        ";
    &spaces[..8usize.saturating_sub(digits)]
}

/// Puts the call that explains each code with a count that is not 0 in one of the two.
pub fn put_calls(
    files: &[u64; CODES],
    items: &[u64; CODES],
    line: &mut Vec<u8>,
) -> Result<(), AllocError>
    ensures { (of_files of_items : Code → ℕ) → AreCounts files.now of_files → AreCounts items.now of_items
        → OnOk result (Adds line.old line.new (call_lines of_files of_items)) }
{
    for code in &ALL {
        put_call(*code, files, items, line)?;
    }
    Ok(())
}

fn put_call(
    code: Code,
    files: &[u64; CODES],
    items: &[u64; CODES],
    line: &mut Vec<u8>,
) -> Result<(), AllocError>
    ensures { slot_of code < CODES → (of_files of_items : Code → ℕ) → AreCounts files.now of_files → AreCounts items.now of_items
        → OnOk result (Adds line.old line.new (call_of of_files of_items code)) }
{
    let (of_files, of_items) = (count_of(code, files), count_of(code, items));
    put_call_if(of_files > 0 || of_items > 0, code, line)
}

fn put_call_if(is_told: bool, code: Code, line: &mut Vec<u8>) -> Result<(), AllocError>
    ensures { OnOk result (Adds line.old line.new (call_line_if is_told code)) }
{
    if is_told {
        put_call_line(code, line)
    } else {
        Ok(())
    }
}

#[tactic(auto, unfolding(crate::specs::CodeLines::call_line))]
fn put_call_line(code: Code, line: &mut Vec<u8>) -> Result<(), AllocError>
    ensures { OnOk result (Adds line.old line.new (call_line code)) }
{
    put(line, b"geolint-files --explain ")?;
    code.put_name(line)?;
    put(line, b"\n")
}
