//! Splits the features or the records of a file into files, and says how many each has.
ghost use Rattle.std.specs.Prelude.{OnOk};
ghost use Rattle.geolint_report.specs.Line.{Adds};
ghost use Rattle.geolint_files.specs.SplitLine.{part_name, count_in, only_before, missing, written_line};

use crate::files::{is_memory, reason, spell};
use crate::walk::framing_by;
use crate::words::{Order, Parts};
use geolint_report::line::{put, put_number};
use gj_rules::Verdict;
use gj_split::Stop;
use gj_split::files::{Order as SplitOrder, Part, Undone, Whole, Written, split_file};
use report_forms::texts::put_name;
use std::alloc::AllocError;
use std::io::{self, ErrorKind, Write};

/// Whether the features or the records of the file were split. A line on standard error says what was written, or why it was not.
pub fn set_apart(rt: &HostRuntime, order: &Order, parts: &Parts) -> bool {
    let Some(path) = order.paths.as_slice().first() else {
        return false;
    };
    let done = match write_parts(rt, order, parts, path.as_slice()) {
        Ok(done) => done,
        Err(error) => Err(Undone::Open(error)),
    };
    let is_done = done.is_ok();
    let mut line = Vec::new(rt.alloc());
    let told = match &done {
        Ok(written) => put_written(written, path.as_slice(), parts, &mut line),
        Err(undone) => put_undone(rt, undone, path.as_slice(), parts, &mut line),
    };
    let bytes = match told {
        Ok(()) => line.as_slice(),
        Err(_) => b"geolint-files: out of memory\n",
    };
    // Where standard error cannot be written either, the status says it.
    let _ = rt.stderr().write_all(bytes);
    is_done
}

/// Writes the parts of the file at this path. An error is answered if a name is not Unicode text or there is no memory.
fn write_parts(
    rt: &HostRuntime,
    order: &Order,
    parts: &Parts,
    path: &[u8],
) -> io::Result<Result<Written, Undone>> {
    let name = spell(rt.alloc(), path)?;
    let prefix = spell(rt.alloc(), parts.prefix.as_slice())?;
    Ok(split_file(
        rt,
        &SplitOrder {
            name: name.as_str(),
            prefix: prefix.as_str(),
            overwrites: parts.overwrites,
            limits: order.options.limits,
            framing: framing_by(order.options.framing, path),
        },
    ))
}

/// Puts how many features or records each file has, and whether some are missing.
fn put_written(
    written: &Written,
    path: &[u8],
    parts: &Parts,
    line: &mut Vec<u8>,
) -> Result<(), AllocError>
    ensures { OnOk result (Adds line.old line.new (written_line written.now parts.now.prefix.items path.now)) }
{
    let counts = written.counts;
    put_count(b"geolint-files: ", counts.valid, parts, Part::Valid, line)?;
    put_count(b", ", counts.broken, parts, Part::Broken, line)?;
    put_missing(written.whole, path, line)
}

/// Puts how many a part has.
fn put_count(
    before: &[u8],
    count: u64,
    parts: &Parts,
    part: Part,
    line: &mut Vec<u8>,
) -> Result<(), AllocError>
    ensures { OnOk result (Adds line.old line.new (count_in before.now count parts.now.prefix.items part)) }
{
    put(line, before)?;
    put_number(line, count)?;
    put(line, b" in ")?;
    put_part(part, parts, line)
}

/// Puts that features or records are missing, where they are, and ends the line.
fn put_missing(whole: Whole, path: &[u8], line: &mut Vec<u8>) -> Result<(), AllocError>
    ensures { OnOk result (Adds line.old line.new (missing whole path.now)) }
{
    match whole {
        Whole::Text(Verdict::NotJson(_)) => {
            put_before(b"features", path, b" is not JSON\n", line)
        }
        Whole::Records(input) if input.is_cut => {
            put_before(b"records", path, b" is too long\n", line)
        }
        _ => put(line, b"\n"),
    }
}

/// Puts that these are only those before a place, and why.
fn put_before(what: &[u8], path: &[u8], why: &[u8], line: &mut Vec<u8>) -> Result<(), AllocError>
    ensures { OnOk result (Adds line.old line.new (only_before what.now path.now why.now)) }
{
    put(line, b"; these are the ")?;
    put(line, what)?;
    put(line, b" before the place where ")?;
    put_name(path, line)?;
    put(line, why)
}

/// Puts why the features or the records were not split, or not all.
fn put_undone(
    rt: &HostRuntime,
    undone: &Undone,
    path: &[u8],
    parts: &Parts,
    line: &mut Vec<u8>,
) -> Result<(), AllocError> {
    put(line, b"geolint-files: ")?;
    match undone {
        Undone::Make(part, error) => {
            put_part(*part, parts, line)?;
            put(line, b": ")?;
            put_reason(rt, error, line)?;
            if error.kind() == ErrorKind::AlreadyExists {
                put(line, b"; --force writes over it")?;
            }
        }
        Undone::Memory => put(line, b"out of memory")?,
        Undone::Open(error) => put_of_file(rt, path, error, line)?,
        Undone::NotRegular(part) => {
            match part {
                Some(part) => put_part(*part, parts, line)?,
                None => put_name(path, line)?,
            }
            put(line, b": --split needs a regular file")?;
        }
        Undone::IsSource(part) => {
            put_part(*part, parts, line)?;
            put(
                line,
                b": this is the file to be split; another prefix keeps it",
            )?;
        }
        Undone::Stopped(Stop::Read(error)) => put_of_file(rt, path, error, line)?,
        Undone::Stopped(Stop::Changed) => {
            put_name(path, line)?;
            put(line, b": the file changed while it was read")?;
        }
        Undone::Stopped(Stop::Write(error)) => {
            put(line, b"a file of --split cannot be written: ")?;
            put_reason(rt, error, line)?;
        }
    }
    put(line, b"\n")
}

/// Puts a name, and why its file was not read.
fn put_of_file(
    rt: &HostRuntime,
    path: &[u8],
    error: &io::Error,
    line: &mut Vec<u8>,
) -> Result<(), AllocError> {
    put_name(path, line)?;
    put(line, b": ")?;
    put_reason(rt, error, line)
}

/// Puts the name of a file that is written.
fn put_part(part: Part, parts: &Parts, line: &mut Vec<u8>) -> Result<(), AllocError>
    ensures { OnOk result (Adds line.old line.new (part_name parts.now.prefix.items part)) }
{
    put_name(parts.prefix.as_slice(), line)?;
    put(line, part.ending().as_bytes())
}

/// Puts the system's reason, or that memory was refused.
fn put_reason(rt: &HostRuntime, error: &io::Error, line: &mut Vec<u8>) -> Result<(), AllocError> {
    if is_memory(error) {
        return put(line, b"out of memory");
    }
    match reason(rt.alloc(), error) {
        Ok(text) => put(line, text.as_bytes()),
        Err(_) => put(line, b"out of memory"),
    }
}
