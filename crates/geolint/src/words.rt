//! The words of the command.

use crate::options::Options;
use clap::error::ErrorKind;
use clap::{Arg, ArgAction, ArgMatches, Command, Error, value_parser};
use gj_json::Limits;
use std::alloc::{AllocError, Global};

/// The most bytes that an input may have.
const MOST_BYTES: i64 = 1 << 60;

/// The options without a value.
static FLAGS: [&str; 3] = ["strict", "quick", "seq"];

/// What the words ask for.
#[derive(Drop)]
pub struct Order {
    pub options: Options,
    /// The input is a text sequence.
    pub seq: bool,
    /// The file to read, or standard input where there is none.
    pub path: Option<String>,
}

/// Why words give no order.
#[derive(Clone, Copy, Debug, PartialEq, Eq)]
pub enum WordsFault {
    /// They are not words of the command.
    Usage,
    /// They ask for help.
    Help,
    /// They ask for the version.
    Version,
    /// Memory was refused.
    Memory,
}

impl From<Error> for WordsFault {
    fn from(error: Error) -> WordsFault {
        match error.kind() {
            ErrorKind::DisplayHelp => WordsFault::Help,
            ErrorKind::DisplayVersion => WordsFault::Version,
            ErrorKind::OutOfMemory => WordsFault::Memory,
            _ => WordsFault::Usage,
        }
    }
}

impl From<AllocError> for WordsFault {
    fn from(_error: AllocError) -> WordsFault {
        WordsFault::Memory
    }
}

/// Reads the arguments after the program's name. With none, standard input is read as by the argument `stdin`.
pub fn read_words(alloc: Global, words: &[String]) -> Result<Order, WordsFault> {
    if words.is_empty() {
        return Ok(Order {
            options: Options::usual(),
            seq: false,
            path: None,
        });
    }
    let matches = command(alloc)?.try_get_matches_from(words)?;
    order_of(alloc, &matches)
}

fn command<'a>(alloc: Global) -> Result<Command<'a>, AllocError> {
    // What clap would print of a version is not asked for: `write_version` says it.
    let command = Command::new(alloc, "geolint")
        .version("")
        .no_binary_name(true)
        .subcommand_required(true)
        .subcommand(file(alloc)?)?;
    command.subcommand(with_options(alloc, Command::new(alloc, "stdin"))?)
}

fn file<'a>(alloc: Global) -> Result<Command<'a>, AllocError> {
    let path = Arg::new(alloc, "path")
        .required(true)
        .action(ArgAction::Set);
    with_options(alloc, Command::new(alloc, "file"))?.arg(path)
}

/// The options of both commands. Each is given over before the next is made.
fn with_options<'a>(alloc: Global, command: Command<'a>) -> Result<Command<'a>, AllocError> {
    let mut command = command;
    for name in FLAGS.iter() {
        let flag = Arg::new(alloc, name).long(name).action(ArgAction::SetTrue);
        command = command.arg(flag)?;
    }
    let bytes = Arg::new(alloc, "max-bytes")
        .long("max-bytes")
        .action(ArgAction::Set)
        .value_parser(value_parser!(u64).range(1..=MOST_BYTES));
    command.arg(bytes)
}

fn order_of(alloc: Global, matches: &ArgMatches<'_>) -> Result<Order, WordsFault> {
    let Some((_, given)) = matches.subcommand() else {
        return Err(WordsFault::Usage);
    };
    Ok(Order {
        options: options_of(given)?,
        seq: given.get_flag("seq"),
        path: path_of(alloc, given)?,
    })
}

fn options_of(given: &ArgMatches<'_>) -> Result<Options, WordsFault> {
    let mut options = Options::usual();
    options.strict = given.get_flag("strict");
    options.quick = given.get_flag("quick");
    if let Some(bytes) = given.get_one::<u64>("max-bytes") {
        let depth = options.limits.depth();
        options.limits = Limits::new(depth, bytes).ok_or(WordsFault::Usage)?;
    }
    Ok(options)
}

fn path_of(alloc: Global, given: &ArgMatches<'_>) -> Result<Option<String>, WordsFault> {
    match given.get_str("path") {
        Some(path) => Ok(Some(String::from_str(alloc, path)?)),
        None => Ok(None),
    }
}
