//! `geolint-files` checks files and folders of GeoJSON, and says for each file that is not valid where and why: for people,
//! editors and continuous integration.
//!
//! The first reading of a file is checked by the linter of `gj_rules`. A second reading gives the line, the column, the path
//! and the part of the line around each place that is reported. Both take fixed memory, however long a file or a line of it is.
//!
//! No clause of this file says what goes to a terminal or ends the process: [`judge_all`] says what the report is, and
//! `run_order` which status follows.
#![tactic(auto)]

ghost use Rattle.std.specs.Prelude.{◌≡◌, ◌≢◌, ◌↔◌, ◌⊎◌, IfErr, IfOk, IsTrue, None, OnOk};
ghost use Rattle.std.specs.IoError.{error_kind};
ghost use Rattle.std.specs.declared.io.ErrorKind.TheVariants.{BrokenPipe};
ghost use Rattle.geolint_files.specs.declared.NoOrder.{NoOrder};
ghost use Rattle.geolint_files.specs.Named.{IsOutcome, IsStatus};

mod arguments;
mod command;
mod cut;
mod cut_words;
mod files;
mod outcome;
mod parts;
mod run;
mod walk;
mod words;

use crate::arguments::{given_words, shown_words};
use crate::cut::{NotJoined, check_share, join_all, put_not_joined, put_unchecked};
use crate::cut_words::Cut;
use crate::outcome::Outcome;
use crate::parts::set_apart;
use crate::run::{Failure, judge_all};
use crate::walk::Others;
use crate::words::{Order, order_in};
use clap::Error;
use clap::error::ErrorKind;
use file_parts::Share;
use geolint_report::own_build::{lacks_stack, own_build};
use geolint_report::texts::Code;
use report_forms::manual::section;
use report_forms::texts::put_name;
use std::io::{self, BufWriter, Write};
use std::process::ExitCode;

/// The status where nobody reads the report any more: the one that a shell gives for a program that SIGPIPE ends.
const NO_READER: u8 = 141;

/// What keeps a run from its order.
#[derive(Clone, Copy)]
enum NoOrder {
    /// Help, the version or the manual was asked for, and written.
    Answered,
    Usage,
    Failed,
    NoReader,
}

/// Reads the words, and checks what they name.
///
/// Status 0 says that each file passes, 1 that one does not, 2 that one could not be read, that none was checked, that the
/// words are wrong or that the report could not be written, and 141 that nobody reads it any more.
fn main(rt: HostRuntime) -> ExitCode {
    if lacks_stack(&rt) {
        let _ = eprintln!(rt;
            "geolint-files: the stack has less than 4 MiB: `ulimit -s 8192` gives it more"
        );
        return ExitCode::from(2);
    }
    match read_order(&rt) {
        Ok(order) => ExitCode::from(run_order(&rt, &order)),
        Err(NoOrder::Answered) => ExitCode::from(0),
        Err(NoOrder::Usage) => ExitCode::from(2),
        Err(NoOrder::NoReader) => ExitCode::from(NO_READER),
        Err(NoOrder::Failed) => {
            let _ = eprintln!(rt; "geolint-files: out of memory");
            ExitCode::from(2)
        }
    }
}

/// The status of a run. Where the features of a file are to be split, and were not, nothing is checked.
fn run_order(rt: &HostRuntime, order: &Order) -> u8
    ensures { order.now.parts ≡ None → order.now.cut ≡ None → IsStatus order.now result }
{
    if let Some(parts) = &order.parts
        && !set_apart(rt, order, parts)
    {
        return 2;
    }
    match order.cut {
        Some(Cut::Part(share)) => return run_share(rt, order, share),
        Some(Cut::Join) => return run_join(rt, order),
        None => {}
    }
    match judge_to_output(rt, order) {
        Ok(outcome) => outcome.status(),
        Err(failure) => end_by(rt, &failure),
    }
}

/// The status of a call that checks one part: 0 where its line is written, whatever was found.
fn run_share(rt: &HostRuntime, order: &Order, share: Share) -> u8 {
    match check_share(rt, order, share, &mut rt.stdout()) {
        Ok(()) => 0,
        Err(error) if has_no_reader(&error) => NO_READER,
        Err(error) => {
            let mut line = Vec::new(rt.alloc());
            let put = put_unchecked(rt, order, &error, &mut line);
            say(rt, line.as_slice(), put)
        }
    }
}

/// The status of a call that joins the lines of parts.
fn run_join(rt: &HostRuntime, order: &Order) -> u8 {
    let joined = match BufWriter::new(rt.alloc(), rt.stdout()) {
        Ok(out) => join_all(rt, order, out),
        Err(_) => Err(NotJoined::Memory),
    };
    match joined {
        Ok(ended) => ended.outcome.status(),
        Err(NotJoined::Report(failure)) => end_by(rt, &failure),
        Err(why) => {
            let mut line = Vec::new(rt.alloc());
            let put = put_not_joined(rt, order, &why, &mut line);
            say(rt, line.as_slice(), put)
        }
    }
}

/// Writes a sentence to standard error, and answers the status of a failure.
fn say(rt: &HostRuntime, line: &[u8], put: io::Result<()>) -> u8 {
    let bytes = match put {
        Ok(()) => line,
        Err(_) => b"geolint-files: out of memory\n",
    };
    // Where standard error cannot be written either, the status says it.
    let _ = rt.stderr().write_all(bytes);
    2
}

/// The report goes to standard output.
fn judge_to_output(rt: &HostRuntime, order: &Order) -> Result<Outcome, Failure>
    ensures { IfOk result (IsOutcome order.now) }
{
    let out = BufWriter::new(rt.alloc(), rt.stdout())?;
    Ok(judge_all(rt, order, out)?.outcome)
}

/// Says what ends the run, and answers the status. As is usual, nothing is said of a closed pipe.
fn end_by(rt: &HostRuntime, failure: &Failure) -> u8
    ensures { (result ≡ 2) ⊎ (result ≡ 141) }
{
    let _ = match failure {
        Failure::Write(error) if has_no_reader(error) => return NO_READER,
        Failure::Write(error) => eprintln!(rt;
            "geolint-files: the report cannot be written: {error}"
        ),
        Failure::NoFile(others) => say_no_file(rt, others),
        Failure::Memory => eprintln!(rt; "geolint-files: out of memory"),
        Failure::BothFromInput => eprintln!(rt;
            "geolint-files: standard input cannot be both a file and the list of files"
        ),
    };
    2
}

/// Whether a write failed because nobody reads the report any more.
fn has_no_reader(error: &io::Error) -> bool
    ensures { IsTrue result ↔ (error_kind error.now ≡ BrokenPipe) }
{
    error.kind() == io::ErrorKind::BrokenPipe
}

/// Says that no file was checked, and what was passed over.
fn say_no_file(rt: &HostRuntime, others: &Others) -> io::Result<()> {
    let mut ending = Vec::new(rt.alloc());
    put_name(others.ending.as_slice(), &mut ending)?;
    let ending = String::from_utf8_lossy(rt.alloc(), ending.as_slice())?;
    match others.count {
        0 => eprintln!(rt; "geolint-files: no file was checked"),
        1 => eprintln!(rt;
            "geolint-files: no file was checked; 1 file has another ending: {ending}"
        ),
        count => eprintln!(rt;
            "geolint-files: no file was checked; {count} files have other endings, such as {ending}"
        ),
    }
}

/// The order that the arguments give, or none where they are wrong or ask for a text that is written here.
fn read_order(rt: &HostRuntime) -> Result<Order, NoOrder> {
    let Ok(words) = given_words(rt) else {
        return Err(NoOrder::Failed);
    };
    match order_in(rt.alloc(), words.as_slice()) {
        Ok(order) => match order.explained {
            Some(code) => Err(explain(rt, code)),
            None => Ok(order),
        },
        Err(error) => Err(answer(rt, words.as_slice(), &error)),
    }
}

/// Writes what a rule, a warning or a cause means.
fn explain(rt: &HostRuntime, code: Code) -> NoOrder {
    answered(rt.stdout().write_all(section(code).as_bytes()))
}

/// Whether what was asked for was written.
fn answered(written: io::Result<()>) -> NoOrder
    ensures ok { OnOk written (result ≡ NoOrder.Answered) }
    ensures lost { IfErr written (λ error. error_kind error ≡ BrokenPipe → result ≡ NoOrder.NoReader) }
    ensures failed { IfErr written (λ error. error_kind error ≢ BrokenPipe → result ≡ NoOrder.Usage) }
{
    match written {
        Ok(()) => NoOrder::Answered,
        Err(error) if has_no_reader(&error) => NoOrder::NoReader,
        Err(_) => NoOrder::Usage,
    }
}

/// Writes what was asked for in place of a run, or what is wrong with the words.
fn answer(rt: &HostRuntime, words: &[String], error: &Error) -> NoOrder {
    match error.kind() {
        ErrorKind::OutOfMemory => NoOrder::Failed,
        ErrorKind::DisplayHelp => answered(error.print(rt)),
        ErrorKind::DisplayVersion => answered(say_version(rt, error)),
        _ => say_wrong(rt, words),
    }
}

/// Writes the version, and what the program was built from where its file says it.
fn say_version(rt: &HostRuntime, version: &Error) -> io::Result<()> {
    version.print(rt)?;
    match own_build(rt) {
        Ok(lines) => rt.stdout().write_all(lines.as_slice()),
        Err(_) => Ok(()),
    }
}

/// Says what is wrong with the words, by words of which nothing moves a terminal: they are wrong in the same way.
fn say_wrong(rt: &HostRuntime, words: &[String]) -> NoOrder {
    let Ok(shown) = shown_words(rt.alloc(), words) else {
        return NoOrder::Failed;
    };
    if let Err(error) = order_in(rt.alloc(), shown.as_slice()) {
        let _ = error.print(rt);
    }
    NoOrder::Usage
}
