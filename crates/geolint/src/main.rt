//! `geolint` validates a GeoJSON text of any length in fixed memory: it reads the text in pieces and writes a report of
//! its verdict.
//!
//! `specs/Verdict.antt` of `gj_rules` defines a verdict, and `specs/Sequence.antt` there the verdict of a text
//! sequence. `specs/Report.antt` and `specs/Sequence.antt` here define the bytes of the report. Where the writer tells
//! its bytes, exactly the report goes out, or a prefix of it where a write fails.
#![tactic(auto)]

mod failed;
mod fault;
mod lint;
mod locate;
mod options;
mod quick;
mod report;
mod room;
mod run;
mod sequence;
mod sink;
mod source;
mod words;

use crate::fault::{ProgramFault, RunFault, USAGE, WriteFault};
use crate::options::Outcome;
use crate::report::{write_bytes, write_help, write_version};
use crate::run::{run, run_with_path};
use crate::sequence::run_sequence;
use crate::sink::{FromWrite, Sink};
use crate::source::FromRead;
use crate::words::{Order, WordsFault, read_words};
use geolint_report::own_build::own_build;
use std::env;
use std::fs::{self, File};
use std::io::{self, ErrorKind};
use std::process::ExitCode;

/// Reads the arguments, validates the file or standard input, and writes the report to standard output.
///
/// Status 0: the input passes, or help or the version was asked for. Status 1: it does not pass. Status 2: there is no
/// verdict, or not all of its report went out, and a line on standard error says why.
fn main(rt: HostRuntime) -> ExitCode {
    match answer(&rt) {
        Ok(Outcome::Pass) => ExitCode::from(0),
        Ok(Outcome::Fail) => ExitCode::from(1),
        Err(fault) => {
            // Where standard error cannot be written either, the status alone says it.
            let _ = eprintln!(rt; "{fault}");
            ExitCode::from(2)
        }
    }
}

fn answer(rt: &HostRuntime) -> Result<Outcome, ProgramFault> {
    match order(rt) {
        Ok(order) => obey(rt, &order),
        Err(WordsFault::Help) => {
            write_help(&mut FromWrite::new(rt.stdout())).map_err(ProgramFault::Write)?;
            Ok(Outcome::Pass)
        }
        Err(WordsFault::Version) => {
            say_version(rt, &mut FromWrite::new(rt.stdout())).map_err(ProgramFault::Write)?;
            Ok(Outcome::Pass)
        }
        Err(WordsFault::Usage) => Err(ProgramFault::Usage),
        Err(WordsFault::Memory) => Err(ProgramFault::Memory),
    }
}

/// Writes the version, and what the program was built from where its file says it.
fn say_version<W: Sink>(rt: &HostRuntime, writer: &mut W) -> Result<(), WriteFault> {
    write_version(writer)?;
    match own_build(rt) {
        Ok(lines) => write_bytes(lines.as_slice(), writer),
        Err(_) => Ok(()),
    }
}

/// The order that the arguments after the program's name give.
fn order(rt: &HostRuntime) -> Result<Order, WordsFault> {
    let words: Vec<String> = env::args(rt)
        .map_err(words_fault)?
        .skip(1)
        .collect(rt.alloc())?;
    read_words(rt.alloc(), words.as_slice())
}

/// Arguments that are not UTF-8 are refused as unknown arguments are.
fn words_fault(error: io::Error) -> WordsFault {
    match error.kind() {
        ErrorKind::OutOfMemory => WordsFault::Memory,
        _ => WordsFault::Usage,
    }
}

fn obey(rt: &HostRuntime, order: &Order) -> Result<Outcome, ProgramFault> {
    let mut writer = FromWrite::new(rt.stdout());
    if order.seq {
        return obey_sequence(rt, order, &mut writer);
    }
    let outcome = match &order.path {
        None => run(&mut FromRead::new(rt.stdin()), &mut writer, order.options)?,
        Some(path) => {
            let file = open(rt, path)?;
            let is_regular = is_regular(&file);
            let mut first = FromRead::new(file);
            if is_regular {
                let mut second = FromRead::new(open(rt, path)?);
                run_with_path(&mut first, &mut second, &mut writer, order.options)?
            } else {
                run(&mut first, &mut writer, order.options)?
            }
        }
    };
    Ok(outcome)
}

/// A sequence has no path, so its file is opened once.
fn obey_sequence<W: Sink>(
    rt: &HostRuntime,
    order: &Order,
    writer: &mut W,
) -> Result<Outcome, ProgramFault> {
    let outcome = match &order.path {
        None => run_sequence(&mut FromRead::new(rt.stdin()), writer, order.options)?,
        Some(path) => run_sequence(&mut FromRead::new(open(rt, path)?), writer, order.options)?,
    };
    Ok(outcome)
}

fn open(rt: &HostRuntime, path: &String) -> Result<File, ProgramFault> {
    fs::open(rt, path.as_str()).map_err(open_fault)
}

/// Whether a second opening gives the same bytes. A named pipe or a device gives others, or waits for a writer that
/// never comes.
fn is_regular(file: &File) -> bool {
    match file.metadata() {
        Ok(metadata) => metadata.is_file(),
        Err(_) => false,
    }
}

fn open_fault(error: io::Error) -> ProgramFault {
    match error.kind() {
        ErrorKind::OutOfMemory => ProgramFault::Memory,
        _ => ProgramFault::Open,
    }
}

impl From<RunFault> for ProgramFault {
    fn from(fault: RunFault) -> ProgramFault {
        match fault {
            RunFault::Read(fault) => ProgramFault::Read(fault),
            RunFault::Write(fault) => ProgramFault::Write(fault),
        }
    }
}
