//! Reads a file and writes its parts.
ghost use Rattle.std.specs.Prelude.{◌≡◌, Ok, IfOk, OnOk, IsOk};
ghost use Rattle.std.specs.Fs.{metadata_len};
ghost use Rattle.gj_split.specs.Parts.{part_in, AreApart};

use crate::files::file_ranges::{FileRanges, are_alike, is_same_file};
use crate::files::part_file::{Part, PartFile};
use crate::files::source::{Whole, split_source};
use crate::{Counts, Outputs, Stop};
use gj_json::Limits;
use gj_rules::Framing;
use std::alloc::AllocError;
use std::fs::{self, Metadata, OpenOptions};
use std::io::{self, ErrorKind};

/// A file to be split, and where its parts go.
#[derive(Drop)]
pub struct Order<'a> {
    /// The name of the file that is read.
    pub name: &'a str,
    /// The prefix of the names of the files that are written.
    pub prefix: &'a str,
    /// Whether existing files of these names are overwritten.
    pub overwrites: bool,
    /// The limits under which the file is checked.
    pub limits: Limits,
    /// How its texts are separated, where it has more than one.
    pub framing: Option<Framing>,
}

/// What came of a file that was split.
#[derive(Clone, Copy)]
pub struct Written {
    /// What the file is as a whole.
    pub whole: Whole,
    /// How many features or records each part has.
    pub counts: Counts,
}

/// The reason why a file was not split.
#[derive(Drop)]
pub enum Undone {
    /// It could not be opened.
    Open(io::Error),
    /// It is no regular file, and cannot be read twice; or what has the name of this part is none.
    NotRegular(Option<Part>),
    /// This part would replace the file that is read.
    IsSource(Part),
    /// A part could not be created: a file of its name may exist.
    Make(Part, io::Error),
    /// Reading or writing stopped.
    Stopped(Stop),
    Memory,
}

impl From<AllocError> for Undone {
    fn from(_error: AllocError) -> Undone {
        Undone::Memory
    }
}

const PARTS: [Part; 3] = [Part::Valid, Part::Broken, Part::List];

/// The system's number for a file that exists (`EEXIST`).
const EXISTS: i32 = 17;

/// Splits a file: writes its parts in a folder beside them, and puts them in their places once they are whole. Where it
/// fails before, nothing is left and nothing is overwritten.
pub fn split_file(rt: &HostRuntime, order: &Order<'_>) -> Result<Written, Undone> {
    let source = match open(rt, order.name) {
        Ok(Some(source)) => source,
        Ok(None) => return Err(Undone::NotRegular(None)),
        Err(error) => return Err(Undone::Open(error)),
    };
    check_places(rt, order, &source)?;
    let folder = make_folder(rt, order.prefix)?;
    let done = split_in(rt, order, &source, folder.as_str());
    // Where it cannot be removed, the parts are in their places all the same.
    let _ = fs::remove_dir_all(rt, folder.as_str());
    done
}

/// The regular file of this name, or `None` for anything else, which is not opened: a pipe would wait for its writer.
fn open(rt: &HostRuntime, name: &str) -> io::Result<Option<FileRanges>> {
    if !fs::metadata(rt, name)?.is_file() {
        return Ok(None);
    }
    FileRanges::new(fs::open(rt, name)?)
}

/// Returns an error where a part cannot take its place: a file is there that is not to be overwritten, or the source is.
fn check_places(rt: &HostRuntime, order: &Order<'_>, source: &FileRanges) -> Result<(), Undone> {
    for part in PARTS {
        let name = part.name(rt.alloc(), order.prefix)?;
        match find(rt, name.as_str(), order.overwrites) {
            Ok(None) => {}
            Ok(Some(there)) if is_same_file(source.before(), &there) => {
                return Err(Undone::IsSource(part));
            }
            Ok(Some(_)) if !order.overwrites => {
                return Err(Undone::Make(part, io::Error::from_raw_os_error(EXISTS)));
            }
            Ok(Some(there)) if !there.is_file() => return Err(Undone::NotRegular(Some(part))),
            Ok(Some(_)) => {
                if let Err(error) = OpenOptions::new().write(true).open(rt, name.as_str()) {
                    return Err(Undone::Make(part, error));
                }
            }
            Err(error) => return Err(Undone::Make(part, error)),
        }
    }
    Ok(())
}

/// What has this name, or what the link of this name leads to.
fn find(rt: &HostRuntime, name: &str, follows: bool) -> io::Result<Option<Metadata>> {
    let found = if follows {
        fs::metadata(rt, name)
    } else {
        fs::symlink_metadata(rt, name)
    };
    match found {
        Ok(there) => Ok(Some(there)),
        Err(error) if error.kind() == ErrorKind::NotFound => Ok(None),
        Err(error) => Err(error),
    }
}

/// Makes a folder of a name that nothing has, `PREFIX.split-0/` or the next.
fn make_folder(rt: &HostRuntime, prefix: &str) -> Result<String, Undone> {
    for number in 0..u64::MAX {
        let name = format!(in rt.alloc(); "{prefix}.split-{number}/")?;
        match fs::create_dir(rt, name.as_str()) {
            Ok(()) => return Ok(name),
            Err(error) if error.kind() == ErrorKind::AlreadyExists => {}
            Err(error) => return Err(Undone::Make(Part::Valid, error)),
        }
    }
    Err(Undone::Memory)
}

/// Writes the parts in a folder, and puts them in their places.
fn split_in(
    rt: &HostRuntime,
    order: &Order<'_>,
    source: &FileRanges,
    folder: &str,
) -> Result<Written, Undone> {
    let parts = make_parts(rt, folder)?;
    let ended = split_source(source, order.framing, order.limits, parts);
    let written = settle(
        ended.outcome,
        ended.counts,
        source.before(),
        source.metadata(),
    )?;
    check_places(rt, order, source)?;
    let parts = ended.outputs;
    for file in [&parts.valid, &parts.broken, &parts.list] {
        let name = file.part().name(rt.alloc(), order.prefix)?;
        if let Err(error) = file.rename(rt, name.as_str()) {
            return Err(Undone::Make(file.part(), error));
        }
    }
    Ok(written)
}

/// Makes the files of the parts, each in its turn.
fn make_parts(
    rt: &HostRuntime,
    folder: &str,
) -> Result<Outputs<PartFile, PartFile, PartFile>, Undone>
    ensures { IfOk result (λ parts. AreApart parts) }
{
    Ok(Outputs {
        valid: make(rt, folder, Part::Valid)?,
        broken: make(rt, folder, Part::Broken)?,
        list: make(rt, folder, Part::List)?,
    })
}

/// Makes the file of a part.
fn make(rt: &HostRuntime, folder: &str, part: Part) -> Result<PartFile, Undone>
    ensures { IfOk result (λ file. part_in file ≡ part) }
{
    match PartFile::new(rt, folder, part) {
        Ok(file) => Ok(file),
        Err(error) => Err(Undone::Make(part, error)),
    }
}

/// What came of a split, by what was known of the file before and what is known after it.
fn settle(
    outcome: Result<Whole, Stop>,
    counts: Counts,
    before: &Metadata,
    after: io::Result<Metadata>,
) -> Result<Written, Undone>
    ensures told { IfOk result (λ written. (outcome ≡ Ok written.whole) × (written.counts ≡ counts)) }
    ensures unchanged { OnOk result (IfOk after (λ now. metadata_len before.now ≡ metadata_len now)) }
    ensures seen { IsOk result → IsOk after }
{
    match (outcome, after) {
        (Ok(whole), Ok(now)) if are_alike(before, &now) => Ok(Written { whole, counts }),
        (Err(stop), _) => Err(Undone::Stopped(stop)),
        _ => Err(Undone::Stopped(Stop::Changed)),
    }
}
