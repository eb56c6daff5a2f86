//! The command for `clap`: the table of its options, in the order in which `--help` lists them.

use clap::builder::ValueParser;
use clap::{Arg, ArgAction, Command};
use report_forms::formats::NAMES;
use std::alloc::{AllocError, Global};

/// The most bytes that a file may have.
const MOST_BYTES: u64 = 1 << 60;

/// What `--version` says of a program from a checkout.
const VERSION: &str = "0.1.0";

/// What `--help` says after the options.
const AFTER_HELP: &str = "\
A PATH is a file, a folder, or - for standard input. With no PATH and no --files-from, standard input is checked.

In a folder and the folders below it, files are checked by their endings, in upper or lower case, in the order of their names:
  *.geojson                                   one text
  *.geojsons, *.geojsonseq                    a text sequence (RFC 8142)
  *.ndjson, *.ndgeojson, *.geojsonl, *.jsonl  newline-delimited texts, one on each line

Exit status:
  0    every file is valid; under --strict, with no warnings but those that --allow lets pass
  1    a file is not valid, or has a warning that --deny names, or under --strict one that is not allowed
  2    a file, a folder or a list could not be opened or read; no file was checked, and --allow-empty was not given; the
       arguments are wrong; or the report could not be written. This takes precedence over 1
  141  nothing reads the report any more, as in `geolint-files data | head -n 1`

Examples:
  geolint-files data
  geolint-files --strict --allow W4,W9 --summary data
  geolint-files --explain G15
  geolint-files --format json data | jq -r 'select(.passes | not) | .path'
  git ls-files -z '*.geojson' | geolint-files --null --files-from -";

/// An option. Where a list of names is empty, there is nothing of the kind.
struct CommandOption {
    /// What follows `--`.
    name: &'static str,
    /// What follows `-`.
    letter: Option<char>,
    /// What `--help` calls its value.
    value_name: &'static [&'static str],
    help: &'static str,
    action: ArgAction,
    /// The values that it takes.
    values: ValueParser<'static>,
    /// What stands between several of them.
    delimiter: Option<char>,
    /// Its value where it is not given.
    default: &'static [&'static str],
    /// Its value where it is given without one. With this, `=` stands before a value that is given.
    alone: Option<&'static str>,
    /// The options that cannot be given with it.
    conflicts: &'static [&'static str],
    /// The options that have to be given with it.
    needs: &'static [&'static str],
}

/// What is usual for an option without a value.
const FLAG: CommandOption = CommandOption {
    name: "",
    letter: None,
    value_name: &[],
    help: "",
    action: ArgAction::SetTrue,
    values: ValueParser::Bool,
    delimiter: None,
    default: &[],
    alone: None,
    conflicts: &[],
    needs: &[],
};

/// What is usual for an option with a value.
const VALUED: CommandOption = CommandOption {
    action: ArgAction::Set,
    values: ValueParser::String,
    ..FLAG
};

/// The options.
static OPTIONS: [CommandOption; 21] = [
    CommandOption {
        name: "strict",
        help: "A valid file with a warning does not pass",
        ..FLAG
    },
    CommandOption {
        name: "allow",
        value_name: &["KINDS"],
        help: "Under --strict, warnings of these kinds do not fail a file, such as W4,W9",
        action: ArgAction::Append,
        delimiter: Some(','),
        ..VALUED
    },
    CommandOption {
        name: "deny",
        value_name: &["KINDS"],
        help: "Warnings of these kinds fail a file, such as W5",
        action: ArgAction::Append,
        delimiter: Some(','),
        ..VALUED
    },
    CommandOption {
        name: "quick",
        help: "Say only whether each file is valid, and stop reading as soon as it cannot be valid",
        ..FLAG
    },
    CommandOption {
        name: "seq",
        help: "Check each file as a text sequence (RFC 8142), whatever its name is",
        ..FLAG
    },
    CommandOption {
        name: "ndjson",
        help: "Check each line of each file as a separate text, whatever the file's name is",
        conflicts: &["seq"],
        ..FLAG
    },
    CommandOption {
        name: "max-bytes",
        value_name: &["N"],
        help: "Refuse files of more than N bytes",
        values: ValueParser::Unsigned(1, MOST_BYTES),
        ..VALUED
    },
    CommandOption {
        name: "format",
        value_name: &["FORMAT"],
        help: "Write the report in this form",
        values: ValueParser::Names(&NAMES),
        default: &["lines"],
        ..VALUED
    },
    CommandOption {
        name: "summary",
        help: "Count the files and the rules at the end. With --every, also count the features or records",
        ..FLAG
    },
    CommandOption {
        name: "every",
        value_name: &["WHAT"],
        help: "List each feature or record with a fault. --every=warnings also lists the warnings of the others",
        values: ValueParser::Names(&["faults", "warnings"]),
        alone: Some("faults"),
        conflicts: &["quick"],
        ..VALUED
    },
    CommandOption {
        name: "most",
        value_name: &["N"],
        help: "Under --every, list at most N findings of a file, and count the others. 0 lifts this limit",
        values: ValueParser::Unsigned(0, u64::MAX),
        default: &["1000"],
        ..VALUED
    },
    CommandOption {
        name: "split",
        value_name: &["PREFIX"],
        help: "Also write the features or records without a fault to PREFIX.valid.geojsons, the others \
             to PREFIX.broken.geojsons, and their faults to PREFIX.broken.json",
        ..VALUED
    },
    CommandOption {
        name: "force",
        help: "Overwrite the files of --split if they exist",
        needs: &["split"],
        ..FLAG
    },
    CommandOption {
        name: "part",
        value_name: &["I/N"],
        help: "Check the I-th of N parts of a file, and write a line of JSON about it for --join",
        conflicts: &["split", "quick"],
        ..VALUED
    },
    CommandOption {
        name: "join",
        help: "Report on a file from the lines of all its parts, read from the PATHs or from standard input",
        conflicts: &[
            "part",
            "split",
            "quick",
            "strict",
            "allow",
            "deny",
            "max-bytes",
            "seq",
            "ndjson",
        ],
        ..FLAG
    },
    CommandOption {
        name: "file",
        value_name: &["PATH"],
        help: "With --join, find lines and columns in this file, and of one text what no part has checked, if it is as it was: the path that each --part had",
        needs: &["join"],
        ..VALUED
    },
    CommandOption {
        name: "files-from",
        value_name: &["FILE"],
        help: "Also check the paths in this file, or in standard input for -. Each path ends with LF",
        ..VALUED
    },
    CommandOption {
        name: "null",
        letter: Some('0'),
        help: "Each path of --files-from ends with NUL, as `git ls-files -z` and `find -print0` write them",
        needs: &["files-from"],
        ..FLAG
    },
    CommandOption {
        name: "ending",
        value_name: &["ENDING"],
        help: "In a folder, also check files with this ending, such as json. May be given several times",
        action: ArgAction::Append,
        ..VALUED
    },
    CommandOption {
        name: "allow-empty",
        help: "Do not fail if there is no file to check",
        ..FLAG
    },
    CommandOption {
        name: "explain",
        value_name: &["CODE"],
        help: "Say what a rule, a warning or a cause means, such as G15, W5 or J1, and check nothing",
        ..VALUED
    },
];

/// The command.
pub fn command<'a>(alloc: Global) -> Result<Command<'a>, AllocError> {
    let command = Command::new(alloc, "geolint-files")
        .version(VERSION)
        .about("Checks GeoJSON files, and says for each that is not valid where and why")
        .after_help(AFTER_HELP)
        .no_binary_name(true);
    with_options(alloc, command)?.arg(path(alloc))
}

/// What is checked.
fn path<'a>(alloc: Global) -> Arg<'a> {
    Arg::new(alloc, "path")
        .value_name("PATH")
        .help("A file, a folder, or - for standard input")
        .num_args(0..)
        .action(ArgAction::Append)
}

/// The command with its options.
fn with_options<'a>(alloc: Global, command: Command<'a>) -> Result<Command<'a>, AllocError> {
    let mut command = command;
    for option in OPTIONS.iter() {
        command = command.arg(option.arg(alloc)?)?;
    }
    Ok(command)
}

impl CommandOption {
    /// The option as `clap` has it.
    fn arg<'a>(&self, alloc: Global) -> Result<Arg<'a>, AllocError> {
        let mut arg = Arg::new(alloc, self.name)
            .long(self.name)
            .help(self.help)
            .action(self.action)
            .value_names(self.value_name)
            .value_parser(self.values)
            .default_values(self.default);
        if let Some(letter) = self.letter {
            arg = arg.short(letter);
        }
        if let Some(delimiter) = self.delimiter {
            arg = arg.value_delimiter(delimiter);
        }
        if let Some(value) = self.alone {
            arg = arg
                .num_args(0..=1)
                .require_equals(true)
                .default_missing_value(value);
        }
        arg.conflicts_with_all(self.conflicts)?
            .requires_all(self.needs)
    }
}
