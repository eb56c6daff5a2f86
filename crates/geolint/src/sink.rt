ghost use Rattle.std.specs.Prelude.{◌≡◌, ℕ, List, Option};
ghost use Rattle.std.specs.Io.{WritesAtMost};
ghost use Rattle.std.specs.Io.KnownBytes.{WriteAppends};
ghost use Rattle.geolint.specs.Counts.{CountsFailedWrite};

use crate::failed::Failed;
use std::io::Write;

/// What bytes are written to, piece by piece.
///
/// It counts its failed writes, as a `u64` that stays at `u64::MAX` once there. A caller that is to know of each has to
/// begin below that.
pub trait Sink {
    // The bytes that it took, where the sink tells them.
    ghost taken: { Self → Option (List ℕ) };

    // The number of failed writes: errors, and results of 0 for a piece that is not empty.
    ghost failed_writes: { Self → ℕ };

    /// Writes a prefix of the piece, and returns the number of bytes taken: at most its length.
    ///
    /// On an error no byte was taken.
    fn write_piece(&mut self, piece: &[u8]) -> Result<usize, Failed>
        ensures bound { WritesAtMost result piece.now }
        ensures bytes { WriteAppends (taken self.old) (taken self.new) result piece.now }
        ensures failed { CountsFailedWrite (failed_writes self.old) (failed_writes self.new) result piece.now };
}

/// A `Sink` over a writer of std. It tells the bytes where the writer does.
#[derive(Drop)]
pub struct FromWrite<W> {
    writer: W,
    failed_writes: u64,
}

impl<W: Write> FromWrite<W> {
    /// The writer as a sink that has counted nothing yet.
    pub fn new(writer: W) -> FromWrite<W>
        ensures bytes { ⟦<FromWrite<W> as Sink>⟧.taken result ≡ W.contents writer }
        ensures failed { ⟦<FromWrite<W> as Sink>⟧.failed_writes result ≡ 0 }
    {
        FromWrite {
            writer,
            failed_writes: 0,
        }
    }
}

impl<W: Write> Sink for FromWrite<W> {
    ghost taken = { λ s. W.contents s.writer };

    ghost failed_writes = { λ s. s.failed_writes };

    fn write_piece(&mut self, piece: &[u8]) -> Result<usize, Failed> {
        let answer = self.writer.write(piece).map_err(|_| Failed);
        let is_failed = match answer {
            Ok(count) => count == 0 && !piece.is_empty(),
            Err(_) => true,
        };
        if is_failed {
            self.failed_writes = self.failed_writes.saturating_add(1);
        }
        answer
    }
}
