//! What the bytes of a file are read from.

ghost use Rattle.std.specs.Prelude.{◌≡◌, ◌≤◌, ℕ, List, Option, None, OnOk, length};
ghost use Rattle.std.specs.Io.{ReadsAtMost};
ghost use Rattle.std.specs.Io.KnownBytes.{ReadConsumes};
ghost use Rattle.std.below.core.specs.declared.int.u64.TheConstants.{MAX};
ghost use Rattle.geolint_report.specs.Judged.{CountsFailure};
ghost use Rattle.geolint_report.specs.Every.{GivesFrom};

use crate::reading_loop::Pieces;
use std::fs::{File, Metadata};
use std::io::{self, ErrorKind, Read, Seek, SeekFrom};
use std::os::unix::fs::{FileExt, MetadataExt};

/// What bytes are read from, piece by piece.
///
/// It counts the calls that failed, as a `u64` that stays at `u64::MAX` once there.
pub trait Source {
    // The bytes that reads will give from here on, where the source tells them.
    ghost remaining: { Self → Option (List ℕ) };

    // All its bytes, from the first one on, where the source tells them.
    ghost text: { Self → Option (List ℕ) };

    // How many calls failed.
    ghost failed_reads: { Self → ℕ };

    /// Reads into the piece from its start and answers how many bytes came: 0 into a piece with room only where no byte is
    /// left. On an error no byte came.
    fn read_piece(&mut self, piece: &mut [u8]) -> io::Result<usize>
        ensures bound { ReadsAtMost result piece.new }
        ensures bytes { ReadConsumes (remaining self.old) (remaining self.new) result piece.new }
        ensures text { text self.new ≡ text self.old }
        ensures failed { CountsFailure (failed_reads self.old) (failed_reads self.new) result };
}

/// What can be looked at by the places of its bytes.
pub trait Peek {
    /// Looks at the bytes from a place on: how many came into the piece, none where that failed. The next read gives
    /// what it gave without this, and no failure is counted.
    fn peek(&self, place: u64, piece: &mut [u8]) -> usize
        ensures { result ≤ length piece.new };
}

/// A source that can be read a second time.
pub trait Rewind: Source + Peek {
    /// How many bytes it has, where that is known before they are read.
    fn size(&self) -> Option<u64>;

    /// Goes back to the first byte.
    fn rewind(&mut self) -> io::Result<()>
        ensures bytes { OnOk result (Self.remaining self.new ≡ Self.text self.old) }
        ensures text { Self.text self.new ≡ Self.text self.old }
        ensures failed { CountsFailure (Self.failed_reads self.old) (Self.failed_reads self.new) result };

    /// Reads from a place on into the piece, from its start, and answers how many bytes came: 0 into a piece with room only
    /// where no byte is there. On an error no byte came. It says nothing of what the next read gives.
    fn read_from(&mut self, place: u64, piece: &mut [u8]) -> io::Result<usize>
        ensures bound { ReadsAtMost result piece.new }
        ensures bytes { GivesFrom (Self.text self.old) place result piece.new }
        ensures text { Self.text self.new ≡ Self.text self.old }
        ensures failed { CountsFailure (Self.failed_reads self.old) (Self.failed_reads self.new) result };

    /// An error where the bytes may be others than those of the first reading.
    fn expect_unchanged(&mut self) -> io::Result<()>
        ensures text { Self.text self.new ≡ Self.text self.old }
        ensures failed { CountsFailure (Self.failed_reads self.old) (Self.failed_reads self.new) result };
}

/// How a `Source` is read. Its reads and bytes are not counted: each count stays at the greatest.
pub struct FromSource;

impl<S: Source> Pieces<S> for FromSource {
    type Error = io::Error;

    ghost remaining = { S.remaining };

    ghost text = { S.text };

    ghost reads = { λ _. MAX };

    ghost failed_reads = { S.failed_reads };

    ghost bytes_given = { λ _. MAX };

    fn read_piece(source: &mut S, piece: &mut [u8]) -> io::Result<usize> {
        source.read_piece(piece)
    }
}

/// A `Source` over a reader of std. It tells the bytes that are left where the reader does.
#[derive(Drop)]
pub struct FromRead<R> {
    pub reader: R,
    failed_reads: u64,
}

impl<R: Read> FromRead<R> {
    /// The reader as a source of which no read has failed.
    pub fn new(reader: R) -> FromRead<R>
        ensures bytes { ⟦<FromRead<R> as Source>⟧.remaining result ≡ R.remaining reader }
        ensures failed { ⟦<FromRead<R> as Source>⟧.failed_reads result ≡ 0 }
    {
        FromRead {
            reader,
            failed_reads: 0,
        }
    }
}

impl<R: Read> Source for FromRead<R> {
    ghost remaining = { λ s. R.remaining s.reader };

    ghost text = { λ _. None };

    ghost failed_reads = { λ s. s.failed_reads };

    fn read_piece(&mut self, piece: &mut [u8]) -> io::Result<usize> {
        match self.reader.read(piece) {
            Ok(count) => Ok(count),
            Err(error) => {
                self.failed_reads = self.failed_reads.saturating_add(1);
                Err(error)
            }
        }
    }
}

/// A file of the system, of which no byte is known before it is read.
#[derive(Drop)]
pub struct FileSource {
    file: File,
    /// What the system said of the file before it was read.
    before: Option<Metadata>,
    failed_reads: u64,
}

impl FileSource {
    /// The bytes of an open file, from where it stands.
    pub fn new(file: File) -> FileSource {
        let before = file.metadata().ok();
        FileSource {
            file,
            before,
            failed_reads: 0,
        }
    }

    /// Whether the file is as it was, as far as the system says.
    fn is_unchanged(&self) -> bool {
        match (&self.before, self.file.metadata()) {
            (Some(before), Ok(after)) => {
                before.len() == after.len()
                    && before.mtime() == after.mtime()
                    && before.mtime_nsec() == after.mtime_nsec()
            }
            _ => false,
        }
    }
}

impl Source for FileSource {
    ghost remaining = { λ _. None };

    ghost text = { λ _. None };

    ghost failed_reads = { λ s. s.failed_reads };

    fn read_piece(&mut self, piece: &mut [u8]) -> io::Result<usize> {
        match self.file.read(piece) {
            Ok(count) => Ok(count),
            Err(error) => {
                self.failed_reads = self.failed_reads.saturating_add(1);
                Err(error)
            }
        }
    }
}

impl Peek for FileSource {
    fn peek(&self, place: u64, piece: &mut [u8]) -> usize {
        fill_from(&self.file, place, piece).unwrap_or(0)
    }
}

impl Rewind for FileSource {
    fn size(&self) -> Option<u64> {
        self.before.as_ref().map(|before| before.len())
    }

    fn rewind(&mut self) -> io::Result<()> {
        match self.file.seek(SeekFrom::Start(0)) {
            Ok(_) => Ok(()),
            Err(error) => {
                self.failed_reads = self.failed_reads.saturating_add(1);
                Err(error)
            }
        }
    }

    fn read_from(&mut self, place: u64, piece: &mut [u8]) -> io::Result<usize> {
        match fill_from(&self.file, place, piece) {
            Ok(count) => Ok(count),
            Err(error) => {
                self.failed_reads = self.failed_reads.saturating_add(1);
                Err(error)
            }
        }
    }

    fn expect_unchanged(&mut self) -> io::Result<()> {
        if self.is_unchanged() {
            Ok(())
        } else {
            self.failed_reads = self.failed_reads.saturating_add(1);
            Err(io::Error::from(ErrorKind::InvalidData))
        }
    }
}

/// Reads from a place on until the piece is full or the file ends: one read may give less.
fn fill_from(file: &File, place: u64, piece: &mut [u8]) -> io::Result<usize>
    ensures { ReadsAtMost result piece.new }
{
    let mut count = 0;
    for _turn in 0..piece.len() {
        let more = file.read_at(&mut piece[count..], place.saturating_add(count as u64))?;
        if more == 0 {
            break;
        }
        count += more;
    }
    Ok(count)
}
