//! The words of the command. `clap` reads them by the table in `command.rt`, which says itself what they mean: clauses on the
//! command would repeat it, so `.ci/files` tries each word.

ghost use Rattle.std.specs.Prelude.{◌≡◌, List, ℕ, Option, Some, None, IfErr, IfOk, IsSome, Ok, codes, find, true, false};
ghost use Rattle.clap.specs.Matches.{found_of, first_value, one_text};
ghost use Rattle.geolint_report.specs.Texts.{is_named};
ghost use Rattle.geolint_report.specs.declared.texts.TheConstants.{ALL};
ghost use Rattle.gj_json.specs.Limits.{most};
ghost use Rattle.gj_rules.specs.declared.records.framing.Framing.{Framing};
ghost use Rattle.geolint_report.specs.declared.name_lists.listed.NameEnd.{NameEnd};
ghost use Rattle.geolint_files.specs.Words.{every_by, format_by, kind_in};

use crate::arguments::to_bytes;
use crate::command::command;
use crate::cut_words::{Cut, cut_in, wrong_cut};
use clap::error::ErrorKind;
use clap::{ArgMatches, Command, Error};
use geolint_report::name_lists::NameEnd;
use geolint_report::texts::{Code, code_named};
use gj_coords::Kind;
use gj_json::Limits;
use gj_rules::Framing;
use report_forms::formats::{Format, format_named};
use report_forms::options::{Every, Kinds, Options, Strictness};
use std::alloc::{AllocError, Global};

/// The most findings that are listed of a file, where nothing is said.
const MOST_TOLD: u64 = 1000;

/// The options whose words may be wrong, as the line on such a word names them.
const FOR_KINDS: &str = "'--allow <KINDS>' or '--deny <KINDS>'";

const FOR_CODE: &str = "'--explain <CODE>': a code is one of a report, as G15, W5 or J1";

const FOR_ENDING: &str = "'--ending <ENDING>'";

const FOR_PART: &str = "'--part <I/N>': a part is named as 3/8";

/// What the words ask for.
#[derive(Drop)]
pub struct Order {
    /// How files are checked and reported.
    pub options: Options,
    /// What is to be explained, in place of a run.
    pub explained: Option<Code>,
    /// What is to be checked, as it was given.
    pub paths: Vec<Vec<u8>>,
    /// The file with more names.
    pub list: Option<Vec<u8>>,
    /// The byte that ends each name in it.
    pub name_end: NameEnd,
    /// The endings of names that are checked in a folder beside the usual ones, each with its dot.
    pub endings: Vec<Vec<u8>>,
    /// A call that checks no file is not a failure.
    pub allows_empty: bool,
    /// Where the features of the file are written.
    pub parts: Option<Parts>,
    /// What is asked for of the parts of a file.
    pub cut: Option<Cut>,
    /// The file whose parts are joined, where it may be opened.
    pub joined: Option<Vec<u8>>,
}

/// The files that the features of a file are split into.
#[derive(Drop)]
pub struct Parts {
    /// What their names begin with.
    pub prefix: Vec<u8>,
    /// Files with these names are overwritten.
    pub overwrites: bool,
}

/// Why words that `clap` takes give no order.
#[derive(Clone, Copy)]
enum Wrong<'a> {
    /// An option does not take this word.
    Word(&'a str, &'static str),
    /// Options that do not go together, or not with these paths.
    Line(&'static str),
    Memory,
}

impl<'a> From<AllocError> for Wrong<'a> {
    fn from(_error: AllocError) -> Wrong<'a> {
        Wrong::Memory
    }
}

/// The order that the words give. An error has the text for standard error, or that of `--help` and `--version`.
pub fn order_in(alloc: Global, words: &[String]) -> Result<Order, Error> {
    let mut command = command(alloc)?;
    let matches = command.try_get_matches_from_mut(words)?;
    match order_of(alloc, &matches) {
        Ok(order) => Ok(order),
        Err(wrong) => Err(refusal(alloc, &mut command, wrong)?),
    }
}

/// The error of words that `clap` takes.
fn refusal(
    alloc: Global,
    command: &mut Command<'_>,
    wrong: Wrong<'_>,
) -> Result<Error, AllocError> {
    let line = match wrong {
        Wrong::Word(word, option) => invalid(alloc, word, option)?,
        Wrong::Line(line) => String::from_str(alloc, line)?,
        Wrong::Memory => return Err(AllocError),
    };
    command.error(ErrorKind::InvalidValue, line.as_str())
}

/// What was asked for. What takes no memory is read first.
fn order_of<'a>(alloc: Global, given: &ArgMatches<'a>) -> Result<Order, Wrong<'a>> {
    let options = match options_of(given) {
        Ok(options) => options,
        Err(word) => return Err(Wrong::Word(word, FOR_KINDS)),
    };
    let explained = match explained_in(given) {
        Ok(explained) => explained,
        Err(word) => return Err(Wrong::Word(word, FOR_CODE)),
    };
    let cut = match cut_in(given) {
        Ok(cut) => cut,
        Err(word) => return Err(Wrong::Word(word, FOR_PART)),
    };
    let list = name_in(alloc, given, "files-from")?;
    let paths = named_in(alloc, given, list.is_some())?;
    Ok(Order {
        options,
        explained,
        paths,
        list,
        name_end: name_end_in(given),
        endings: endings_in(alloc, given)?,
        allows_empty: given.get_flag("allow-empty"),
        parts: parts_in(alloc, given)?,
        cut,
        joined: name_in(alloc, given, "file")?,
    })
}

/// The line on a word that an option does not take.
fn invalid(alloc: Global, word: &str, option: &str) -> Result<String, AllocError> {
    format!(in alloc; "invalid value '{word}' for {option}")
}

/// The file that an option names.
fn name_in(
    alloc: Global,
    given: &ArgMatches<'_>,
    option: &str,
) -> Result<Option<Vec<u8>>, AllocError> {
    match given.get_str(option) {
        Some(name) => Ok(Some(to_bytes(alloc, name)?)),
        None => Ok(None),
    }
}

/// The endings beside the usual ones.
fn endings_in<'a>(alloc: Global, given: &ArgMatches<'a>) -> Result<Vec<Vec<u8>>, Wrong<'a>> {
    let mut endings = Vec::new(alloc);
    for word in given.get_strs("ending").unwrap_or(&[]) {
        if !add_ending(alloc, word, &mut endings)? {
            return Err(Wrong::Word(word, FOR_ENDING));
        }
    }
    Ok(endings)
}

/// Adds the ending that a word names, and returns whether it names one.
fn add_ending(alloc: Global, word: &str, endings: &mut Vec<Vec<u8>>) -> Result<bool, AllocError> {
    match ending_in(alloc, word)? {
        Some(ending) => {
            endings.push(ending)?;
            Ok(true)
        }
        None => Ok(false),
    }
}

/// The paths that are given, if they can be split, or checked in parts, where that is asked for.
fn named_in<'a>(
    alloc: Global,
    given: &ArgMatches<'a>,
    has_list: bool,
) -> Result<Vec<Vec<u8>>, Wrong<'a>> {
    let paths = paths_in(alloc, given, has_list)?;
    if let Some(line) = wrong_split(given, paths.as_slice(), has_list) {
        return Err(Wrong::Line(line));
    }
    match wrong_cut(given, paths.as_slice(), has_list) {
        Some(line) => Err(Wrong::Line(line)),
        None => Ok(paths),
    }
}

/// The paths that are given: standard input where there is none, and no list.
fn paths_in(
    alloc: Global,
    given: &ArgMatches<'_>,
    has_list: bool,
) -> Result<Vec<Vec<u8>>, AllocError> {
    let mut paths = Vec::new(alloc);
    for path in given.get_strs("path").unwrap_or(&[]) {
        paths.push(to_bytes(alloc, path)?)?;
    }
    if paths.is_empty() && !has_list {
        paths.push(Vec::from_slice(alloc, b"-")?)?;
    }
    Ok(paths)
}

/// The byte that ends each name in a list.
fn name_end_in(given: &ArgMatches<'_>) -> NameEnd
    ensures nul { one_text (found_of given.now) (codes "null") ≡ Some (codes "true") → result ≡ NameEnd.Nul }
    ensures line_feed { one_text (found_of given.now) (codes "null") ≡ Some (codes "false") → result ≡ NameEnd.Lf }
{
    match given.get_flag("null") {
        true => NameEnd::Nul,
        false => NameEnd::Lf,
    }
}

/// The files that the features of a file are split into, where that is asked for.
fn parts_in(alloc: Global, given: &ArgMatches<'_>) -> Result<Option<Parts>, AllocError>
    ensures { first_value (found_of given.now) (codes "split") ≡ None → IfOk result (λ parts. parts ≡ None) }
{
    match given.get_str("split") {
        Some(prefix) => Ok(Some(Parts {
            prefix: to_bytes(alloc, prefix)?,
            overwrites: given.get_flag("force"),
        })),
        None => Ok(None),
    }
}

/// What is to be explained, or a word that is no code.
fn explained_in<'a>(given: &ArgMatches<'a>) -> Result<Option<Code>, &'a str>
    ensures unasked { first_value (found_of given.now) (codes "explain") ≡ None → result ≡ Ok None }
    ensures asked { (word : List ℕ) → first_value (found_of given.now) (codes "explain") ≡ Some word → IfOk result (λ code. IsSome code) }
    ensures wrong { (word : List ℕ) → first_value (found_of given.now) (codes "explain") ≡ Some word → IfErr result (λ wrong. wrong.now ≡ word) }
{
    match given.get_str("explain") {
        Some(word) => match code_named(word) {
            Some(code) => Ok(Some(code)),
            None => Err(word),
        },
        None => Ok(None),
    }
}

/// Why what is named cannot be split.
fn wrong_split(given: &ArgMatches<'_>, paths: &[Vec<u8>], has_list: bool) -> Option<&'static str>
    ensures { first_value (found_of given.now) (codes "split") ≡ None → result ≡ None }
{
    if given.get_str("split").is_none() {
        return None;
    }
    match paths {
        [path] if !has_list => match path.as_slice() {
            b"-" => Some(
                "'--split <PREFIX>' needs a file, which it reads twice: write standard input to one first",
            ),
            _ => None,
        },
        _ => Some("'--split <PREFIX>' takes one file"),
    }
}

/// An ending with its dot, which may be left out: none for one with no more than a dot, or with a slash. No clause says to which
/// bytes a word leads back.
fn ending_in(alloc: Global, word: &str) -> Result<Option<Vec<u8>>, AllocError> {
    let bytes = to_bytes(alloc, word)?;
    let mut ending = Vec::new(alloc);
    if !bytes.as_slice().starts_with(b".") {
        ending.push(b'.')?;
    }
    ending.extend_from_slice(bytes.as_slice())?;
    if ending.len() == 1 || ending.as_slice().contains(&b'/') {
        Ok(None)
    } else {
        Ok(Some(ending))
    }
}

/// How files are checked and reported, or a word that is no kind of warning.
fn options_of<'a>(given: &ArgMatches<'a>) -> Result<Options, &'a str>
    ensures format { IfOk result (λ options. options.format ≡ format_by (first_value (found_of given.now) (codes "format"))) }
    ensures every { IfOk result (λ options. options.every ≡ every_by (first_value (found_of given.now) (codes "every"))) }
    ensures most { IfOk result (λ options. one_text (found_of given.now) (codes "most") ≡ None → options.most ≡ MOST_TOLD) }
    ensures limits { IfOk result (λ options. one_text (found_of given.now) (codes "max-bytes") ≡ None → options.limits ≡ most) }
{
    Ok(Options {
        limits: limits_in(given),
        strictness: strictness_in(given)?,
        quick: given.get_flag("quick"),
        framing: framing_in(given),
        format: format_in(given),
        summary: given.get_flag("summary"),
        every: every_in(given),
        most: most_in(given),
    })
}

/// How the texts of each file are separated, where the words say it.
pub fn framing_in(given: &ArgMatches<'_>) -> Option<Framing>
    ensures sequence { one_text (found_of given.now) (codes "seq") ≡ Some (codes "true") → result ≡ Some Framing.Sequence }
    ensures lines { one_text (found_of given.now) (codes "seq") ≡ Some (codes "false")
        → one_text (found_of given.now) (codes "ndjson") ≡ Some (codes "true") → result ≡ Some Framing.Lines }
    ensures neither { one_text (found_of given.now) (codes "seq") ≡ Some (codes "false")
        → one_text (found_of given.now) (codes "ndjson") ≡ Some (codes "false") → result ≡ None }
{
    if given.get_flag("seq") {
        Some(Framing::Sequence)
    } else if given.get_flag("ndjson") {
        Some(Framing::Lines)
    } else {
        None
    }
}

/// Which findings `--every` lists.
fn every_in(given: &ArgMatches<'_>) -> Every
    ensures { result ≡ every_by (first_value (found_of given.now) (codes "every")) }
{
    match given.get_str("every") {
        Some("warnings") => Every::Warnings,
        Some(_) => Every::Faults,
        None => Every::Nothing,
    }
}

/// How many findings of a file are listed at most.
fn most_in(given: &ArgMatches<'_>) -> u64
    ensures { one_text (found_of given.now) (codes "most") ≡ None → result ≡ MOST_TOLD }
{
    match given.get_one::<u64>("most") {
        Some(most) => most,
        None => MOST_TOLD,
    }
}

/// The limits on each file, with the number of bytes that `--max-bytes` gives.
fn limits_in(given: &ArgMatches<'_>) -> Limits
    ensures { one_text (found_of given.now) (codes "max-bytes") ≡ None → result ≡ most }
{
    let usual = Limits::usual();
    match given.get_one::<u64>("max-bytes") {
        Some(bytes) => Limits::new(usual.depth(), bytes).unwrap_or(usual),
        None => usual,
    }
}

fn strictness_in<'a>(given: &ArgMatches<'a>) -> Result<Strictness, &'a str>
    ensures { IfOk result (λ strictness. one_text (found_of given.now) (codes "strict") ≡ Some (codes "true") → strictness.strict ≡ true) }
{
    Ok(Strictness {
        strict: given.get_flag("strict"),
        allowed: kinds_in(given, "allow")?,
        denied: kinds_in(given, "deny")?,
    })
}

// Which kinds a `Kinds` has been given, no clause of it says.
fn kinds_in<'a>(given: &ArgMatches<'a>, name: &str) -> Result<Kinds, &'a str> {
    let mut kinds = Kinds::none();
    for word in given.get_strs(name).unwrap_or(&[]) {
        match kind_named(word.trim_ascii()) {
            Some(kind) => kinds.insert(kind),
            None => return Err(*word),
        }
    }
    Ok(kinds)
}

/// The kind of warning of this name, in capitals or not.
fn kind_named(name: &str) -> Option<Kind>
    ensures { result ≡ kind_in (find (is_named name.now) ALL) }
{
    match code_named(name) {
        Some(Code::Kind(kind)) => Some(kind),
        _ => None,
    }
}

/// The form of the report.
fn format_in(given: &ArgMatches<'_>) -> Format
    ensures { result ≡ format_by (first_value (found_of given.now) (codes "format")) }
{
    match given.get_str("format") {
        Some(name) => format_named(name),
        None => Format::Lines,
    }
}
