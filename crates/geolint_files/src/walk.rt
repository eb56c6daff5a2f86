//! The files of a path, which is a file or a folder.

ghost use Rattle.std.specs.Prelude.{◌≡◌, ◌<◌, ◌-◌, ◌^◌, IfOk};
ghost use Rattle.geolint_files.specs.Told.{framing_by};
ghost use Rattle.geolint_files.specs.Walk.{ending_of, start_after, ends_in, ends_in_any, ends_in_one, framing_of, is_taken, entry_name, separator_after};

use gj_rules::Framing;
use std::alloc::{AllocError, Global};
use std::collections::BTreeSet;
use std::path::PathBuf;

/// The endings of text sequences.
const SEQUENCES: [&[u8]; 2] = [b".geojsons", b".geojsonseq"];

/// Those of newline-delimited texts.
const LINES: [&[u8]; 4] = [b".ndjson", b".ndgeojson", b".geojsonl", b".jsonl"];

/// Whether a file of this name in a folder is checked: these are the endings beside the usual ones.
pub fn is_taken(name: &[u8], endings: &[Vec<u8>]) -> bool
    ensures { result ≡ is_taken name.now endings.now }
{
    ends_in(name, b".geojson") || framing_of(name).is_some() || ends_in_one(name, endings)
}

/// Whether a name ends in one of the endings, in capitals or not.
fn ends_in_one(name: &[u8], endings: &[Vec<u8>]) -> bool
    ensures { result ≡ ends_in_one name.now endings.now }
{
    endings
        .iter()
        .any(|ending| ends_in(name, ending.as_slice()))
}

fn ends_in_any(name: &[u8], endings: &[&[u8]]) -> bool
    ensures { result ≡ ends_in_any name.now endings.now }
{
    endings.iter().any(|ending| ends_in(name, ending))
}

/// How the texts of a file of this name are separated: it is a text sequence, or newline-delimited texts, or one text.
pub fn framing_of(name: &[u8]) -> Option<Framing>
    ensures { result ≡ framing_of name.now }
{
    if ends_in_any(name, &SEQUENCES) {
        Some(Framing::Sequence)
    } else if ends_in_any(name, &LINES) {
        Some(Framing::Lines)
    } else {
        None
    }
}

/// How the texts of a file of this name are separated: as the words say, or as the name does.
pub fn framing_by(given: Option<Framing>, name: &[u8]) -> Option<Framing>
    ensures { result ≡ framing_by given name.now }
{
    match given {
        Some(framing) => Some(framing),
        None => framing_of(name),
    }
}

/// Whether a name has an ending, in capitals or not.
fn ends_in(name: &[u8], ending: &[u8]) -> bool
    ensures { result ≡ ends_in name.now ending.now }
{
    name[name.len().saturating_sub(ending.len())..].eq_ignore_ascii_case(ending)
}

/// The files in folders that are passed over, since their names have other endings.
#[derive(Drop)]
pub struct Others {
    /// How many they are.
    pub count: u64,
    /// The ending of the first one, with its dot; the whole name where it has none.
    pub ending: Vec<u8>,
}

impl Others {
    ghost use Rattle.std.specs.Prelude.{◌≡◌, ◌+◌, ◌++◌, [], OnOk};
    ghost use Rattle.std.specs.Io.Iter.{u64_saturate};
    ghost use Rattle.geolint_files.specs.Walk.{ending_of};

    /// None yet.
    pub fn new(alloc: Global) -> Others
        ensures { (result.count ≡ 0) × (result.ending.items ≡ []) }
    {
        Others {
            count: 0,
            ending: Vec::new(alloc),
        }
    }

    /// One more, of this name.
    pub fn add(&mut self, name: &[u8]) -> Result<(), AllocError>
        ensures count { OnOk result (self.new.count ≡ u64_saturate (self.old.count + 1)) }
        ensures ending { OnOk result (self.old.count ≡ 0 → self.new.ending.items ≡ self.old.ending.items ++ ending_of name.now) }
    {
        if self.count == 0 {
            self.ending.extend_from_slice(ending_of(name))?;
        }
        self.count = self.count.saturating_add(1);
        Ok(())
    }
}

/// The ending of a path's last name, with its dot: the whole name where it has none.
fn ending_of(path: &[u8]) -> &[u8]
    ensures { result.now ≡ ending_of path.now }
{
    let mut start = 0;
    for i in 0..path.len() {
        start = start_after(path[i], i, start);
    }
    path.get(start..).unwrap_or(path)
}

/// Where the ending begins, as far as the byte at a place.
fn start_after(byte: u8, place: usize, start: usize) -> usize
    requires { place < 2 ^ 64 - 1 }
    ensures { result ≡ start_after byte place start }
{
    match byte {
        b'/' => place + 1,
        b'.' => place,
        _ => start,
    }
}

/// A name that is still to be looked at.
#[derive(Drop)]
pub struct Pending {
    /// The name, as the system or the words gave it.
    pub name: Vec<u8>,
    /// It was given and not found in a folder, so it is checked whatever it is called.
    pub is_given: bool,
}

/// The names that are still to be looked at, the next one last, and the folders that were entered, by device and number. A
/// folder is entered once, however many links lead to it, so links in a circle end.
#[derive(Drop)]
pub struct Walk {
    pending: Vec<Pending>,
    entered: BTreeSet<(u64, u64)>,
    folder: Option<PathBuf>,
}

impl Walk {
    ghost use Rattle.std.specs.Prelude.{◌≡◌, ◌++◌, ◌∷◌, [], not, reverse, true, IfOk, MatchOption, OnOk};
    ghost use Rattle.std.specs.BTreeSet.{contains, Updates};
    ghost use Rattle.geolint_files.specs.Walk.{entries_in, folder_cmp, named_in};

    /// From a name that was given, in a folder whose files are shown.
    pub fn of(rt: &HostRuntime, name: &[u8], folder: Option<PathBuf>) -> Result<Walk, AllocError>
        ensures { IfOk result (λ walk. named_in walk.pending.items ≡ (name.now, true) ∷ []) }
    {
        let mut pending = Vec::new(rt.alloc());
        pending.push(Pending {
            name: Vec::from_slice(rt.alloc(), name)?,
            is_given: true,
        })?;
        Ok(Walk {
            pending,
            entered: BTreeSet::new(rt.alloc()),
            folder,
        })
    }

    /// The folder whose files are shown, where the system says where it is.
    pub fn folder(&self) -> &Option<PathBuf>
        ensures { result.now ≡ self.now.folder }
    {
        &self.folder
    }

    /// The next name, which is taken off.
    pub fn next_pending(&mut self) -> Option<Pending>
        ensures next { MatchOption result (self.old.pending.items ≡ []) (λ pending. self.old.pending.items ≡ self.new.pending.items ++ pending ∷ []) }
        ensures entered { self.new.entered ≡ self.old.entered }
    {
        self.pending.pop()
    }

    /// Whether a folder is entered for the first time.
    pub fn enters(&mut self, device: u64, number: u64) -> Result<bool, AllocError>
        ensures first { IfOk result (λ is_first. is_first ≡ not (contains folder_cmp self.old.entered (device, number))) }
        ensures entered { OnOk result (Updates folder_cmp self.old.entered self.new.entered (device, number) true) }
        ensures pending { self.new.pending ≡ self.old.pending }
    {
        Ok(self.entered.insert((device, number))?)
    }

    /// Looks next at a folder's entries, in their order.
    pub fn push_entries(
        &mut self,
        rt: &HostRuntime,
        folder: &[u8],
        entries: &[Vec<u8>],
    ) -> Result<(), AllocError>
        ensures pending { OnOk result (named_in self.new.pending.items ≡ named_in self.old.pending.items ++ reverse (entries_in folder.now entries.now)) }
        ensures entered { self.new.entered ≡ self.old.entered }
    {
        for i in 0..entries.len() {
            let entry = &entries[entries.len() - 1 - i];
            self.pending.push(Pending {
                name: entry_name(rt, folder, entry.as_slice())?,
                is_given: false,
            })?;
        }
        Ok(())
    }
}

/// The name of a folder's entry.
fn entry_name(rt: &HostRuntime, folder: &[u8], entry: &[u8]) -> Result<Vec<u8>, AllocError>
    ensures { IfOk result (λ name. name.items ≡ entry_name folder.now entry.now) }
{
    let mut name = Vec::from_slice(rt.alloc(), folder)?;
    name.extend_from_slice(separator_after(folder))?;
    name.extend_from_slice(entry)?;
    Ok(name)
}

/// What is between a folder's name and that of an entry.
fn separator_after(folder: &[u8]) -> &'static [u8]
    ensures { result.now ≡ separator_after folder.now }
{
    if folder.ends_with(b"/") { b"" } else { b"/" }
}
