//! A file from which the bytes of a text are read.
ghost use Rattle.std.specs.Prelude.{◌≡◌, None, IsTrue, IfOk, IfSome};
ghost use Rattle.std.specs.Fs.{IsFile, file_type, metadata_len};
ghost use Rattle.gj_split.specs.Parts.{known_before};

use crate::Ranges;
use std::fs::{File, Metadata};
use std::io;
use std::os::unix::fs::{FileExt, MetadataExt};

/// A regular file, whose bytes are read at byte offsets. No contract knows a byte before it is read.
#[derive(Drop)]
pub struct FileRanges {
    file: File,
    /// The metadata of the file before it was read.
    before: Metadata,
}

impl FileRanges {
    /// Takes the file. It returns `None` for a folder, a pipe or a device, whose bytes cannot be read twice. An
    /// error is answered where the system does not say what it is.
    pub fn new(file: File) -> io::Result<Option<FileRanges>>
        ensures { IfOk result (λ taken. IfSome taken (λ ranges. IsFile (file_type (known_before ranges)))) }
    {
        let before = file.metadata()?;
        if before.is_file() {
            Ok(Some(FileRanges { file, before }))
        } else {
            Ok(None)
        }
    }

    /// What was known of the file before it was read.
    pub fn before(&self) -> &Metadata
        ensures { result.now ≡ known_before self.now }
    {
        &self.before
    }

    /// What is known of it now.
    pub fn metadata(&self) -> io::Result<Metadata> {
        self.file.metadata()
    }
}

/// Whether a file is unchanged, as far as these show: it has the same length and the same time of change.
pub fn are_alike(before: &Metadata, after: &Metadata) -> bool
    ensures { IsTrue result → metadata_len before.now ≡ metadata_len after.now }
{
    before.len() == after.len()
        && before.mtime() == after.mtime()
        && before.mtime_nsec() == after.mtime_nsec()
}

/// Whether both are of the same file. No clause says which file a number is of.
pub fn is_same_file(one: &Metadata, other: &Metadata) -> bool {
    one.dev() == other.dev() && one.ino() == other.ino()
}

impl Ranges for FileRanges {
    ghost text = { None };

    /// Reads bytes from a byte offset on.
    fn read_at(&self, place: u64, piece: &mut [u8]) -> io::Result<usize> {
        self.file.read_at(piece, place)
    }
}
