//! What the line of a part says.

ghost use Rattle.std.specs.Prelude.{◌≡◌};
ghost use Rattle.part_lines.specs.Lines.{base_of};

use file_parts::{CheckedPart, Share};
use geolint_report::every::listing::{Asked, Notes};
use gj_json::Limits;
use gj_rules::Framing;
use report_forms::options::Strictness;

/// A file as the system showed it when a part of it was checked.
#[derive(Drop, PartialEq)]
pub struct FileState {
    /// Its name, as it was given.
    pub path: String,
    /// How many bytes it has.
    pub size: u64,
    /// When it was changed last: seconds and nanoseconds, with a dot between them.
    pub modified: String,
}

/// What decides whether the file passes, beside its bytes.
#[derive(Clone, Copy, PartialEq, Eq)]
pub struct Settings {
    /// How its texts are divided, or `None` of one FeatureCollection, whose parts are runs of features.
    pub framing: Option<Framing>,
    /// The limits of the whole file.
    pub limits: Limits,
    /// Which kinds of warning fail the file.
    pub strictness: Strictness,
}

/// The notes on the records of a part, and what was asked of these.
#[derive(Drop)]
pub struct Listed {
    /// Which notes were asked for, and how many.
    pub asked: Asked,
    /// The notes themselves, with the counts of all.
    pub notes: Notes,
}

/// One part of a file, and what was found of it.
#[derive(Drop)]
pub struct PartLine {
    /// The file that it is a part of.
    pub file: FileState,
    /// The options that it was checked with.
    pub settings: Settings,
    /// Which part it is, of how many.
    pub share: Share,
    /// Its bytes and their verdict.
    pub checked: CheckedPart,
    /// The notes on its records, under `--every`.
    pub listed: Option<Listed>,
}

/// The byte offset from which the places of a part count that begins there: its first byte, and in a FeatureCollection that of the file.
pub(crate) fn base_of(framing: Option<Framing>, begin: u64) -> u64
    ensures { result ≡ base_of framing begin }
{
    match framing {
        Some(_) => begin,
        None => 0,
    }
}
