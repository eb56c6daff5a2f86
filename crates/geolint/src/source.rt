ghost use Rattle.std.specs.Prelude.{◌≡◌, ◌+◌, ◌<◌, ◌≤◌, [], ℕ, List, Option, None, length, IfOk, IfErr};
ghost use Rattle.std.specs.Io.{ReadsAtMost};
ghost use Rattle.std.specs.Io.KnownBytes.{Consumes, ReadConsumes};
ghost use Rattle.geolint.specs.Judged.{StopsBy};
ghost use Rattle.geolint_report.specs.Judged.{CountsFailure};
ghost use Rattle.geolint_report.specs.ReadingLoop.{one_more, CountsBytes, Ends};

use crate::failed::Failed;
use crate::fault::ReadFault;
use geolint_report::every::spots::Unplaced;
use geolint_report::reading_loop::{Feeds, Pieces, Stage, Uncounted, read_all};
use gj_json::Limits;
use std::io::Read;

/// The most bytes of a read.
pub const PIECE: usize = 8192;

/// What bytes are read from, piece by piece.
///
/// It counts its reads, those that failed and the bytes that it gave, each as a `u64` that stays at `u64::MAX` once
/// there. A caller that is to know of each read has to begin below that.
pub trait Source {
    // The bytes that reads will give from here on, where the source tells them.
    ghost remaining: { Self → Option (List ℕ) };

    // How many reads there were, failed ones among them.
    ghost reads: { Self → ℕ };

    // How many of them failed.
    ghost failed_reads: { Self → ℕ };

    // How many bytes came.
    ghost bytes_given: { Self → ℕ };

    /// Reads into the start of the piece, and returns the number of bytes read: at most its length, and 0 for a piece
    /// with room only where no byte is left. What the piece has after them is left open.
    ///
    /// On an error no byte came.
    fn read_piece(&mut self, piece: &mut [u8]) -> Result<usize, Failed>
        ensures bound { ReadsAtMost result piece.new }
        ensures bytes { ReadConsumes (remaining self.old) (remaining self.new) result piece.new }
        ensures reads { reads self.new ≡ one_more (reads self.old) }
        ensures failed { CountsFailure (failed_reads self.old) (failed_reads self.new) result }
        ensures given { CountsBytes (bytes_given self.old) (bytes_given self.new) result };
}

/// How a `Source` is read.
pub struct FromSource;

impl<S: Source> Pieces<S> for FromSource {
    type Error = Failed;

    ghost remaining = { S.remaining };

    ghost text = { λ _. None };

    ghost reads = { S.reads };

    ghost failed_reads = { S.failed_reads };

    ghost bytes_given = { S.bytes_given };

    fn read_piece(source: &mut S, piece: &mut [u8]) -> Result<usize, Failed> {
        source.read_piece(piece)
    }
}

/// Reads a source until it ends or what is fed is decided.
///
/// No read follows the one whose bytes decide. There is at most one read more than the input may have bytes. Where a read
/// failed, the error has the number of bytes that had come before.
pub fn read<S: Source, L, F: Feeds<L>>(
    reader: &mut S,
    fed: &mut L,
    limits: Limits,
) -> Result<Stage, ReadFault>
    ensures few { S.reads reader.new ≤ S.reads reader.old + (limits.bytes + 1) }
    ensures stops { F.stands fed.old [] → F.limits fed.old ≡ limits → StopsBy F.undecided limits
        (S.remaining reader.old) (S.remaining reader.new) (S.reads reader.old) (S.reads reader.new) }
    ensures failed { CountsFailure (S.failed_reads reader.old) (S.failed_reads reader.new) result }
    ensures given { IfErr result (λ fault. S.bytes_given reader.new < u64.MAX
        → S.bytes_given reader.new ≡ S.bytes_given reader.old + fault.offset) }
    ensures offset { IfErr result (λ fault.
        (read : List ℕ) × Consumes (S.remaining reader.old) (S.remaining reader.new) read × (length read ≡ fault.offset)) }
    ensures limits { F.limits fed.new ≡ F.limits fed.old }
    ensures ends { IfOk result (λ stage. F.stands fed.old [] → F.limits fed.old ≡ limits → Ends (F.stands fed.new) (F.decided fed.new)
        (S.remaining reader.old) (S.remaining reader.new) stage) }
{
    let mut piece = [0; PIECE];
    match read_all::<S, FromSource, L, F, Uncounted, Unplaced>(
        reader,
        fed,
        limits,
        &mut piece,
        &mut Uncounted,
        &mut Unplaced,
    ) {
        Ok(stage) => Ok(stage),
        Err(halt) => Err(ReadFault {
            offset: halt.offset,
        }),
    }
}

/// A `Source` over a reader of std. It tells the bytes where the reader does, and any error is a failed read.
#[derive(Drop)]
pub struct FromRead<R> {
    reader: R,
    reads: u64,
    failed_reads: u64,
    bytes_given: u64,
}

impl<R: Read> FromRead<R> {
    /// The reader as a source that has counted nothing yet.
    pub fn new(reader: R) -> FromRead<R>
        ensures bytes { ⟦<FromRead<R> as Source>⟧.remaining result ≡ R.remaining reader }
        ensures reads { ⟦<FromRead<R> as Source>⟧.reads result ≡ 0 }
        ensures failed { ⟦<FromRead<R> as Source>⟧.failed_reads result ≡ 0 }
        ensures given { ⟦<FromRead<R> as Source>⟧.bytes_given result ≡ 0 }
    {
        FromRead {
            reader,
            reads: 0,
            failed_reads: 0,
            bytes_given: 0,
        }
    }
}

impl<R: Read> Source for FromRead<R> {
    ghost remaining = { λ s. R.remaining s.reader };

    ghost reads = { λ s. s.reads };

    ghost failed_reads = { λ s. s.failed_reads };

    ghost bytes_given = { λ s. s.bytes_given };

    fn read_piece(&mut self, piece: &mut [u8]) -> Result<usize, Failed> {
        self.reads = self.reads.saturating_add(1);
        match self.reader.read(piece) {
            Ok(count) => {
                self.bytes_given = self.bytes_given.saturating_add(count as u64);
                Ok(count)
            }
            Err(_) => {
                self.failed_reads = self.failed_reads.saturating_add(1);
                Err(Failed)
            }
        }
    }
}
