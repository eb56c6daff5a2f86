//! A source from which the bytes of a text are read at byte offsets.
ghost use Rattle.std.specs.Prelude.{ℕ, List, Option};
ghost use Rattle.std.specs.Io.{ReadsAtMost};
ghost use Rattle.gj_split.specs.Ranges.{ReadsFrom};

use std::io;

/// A source whose bytes are read at byte offsets.
///
/// Every value of the type reads the same text.
pub trait Ranges {
    // All bytes of the text, where the type tells them.
    ghost text: { Option (List ℕ) };

    /// Reads bytes from this offset on into the start of the piece, and returns how many it read. It returns 0 for a
    /// piece with room only where the text has no byte at the offset.
    fn read_at(&self, place: u64, piece: &mut [u8]) -> io::Result<usize>
        ensures bound { ReadsAtMost result piece.new }
        ensures bytes { ReadsFrom text place result piece.new };
}

/// The reason why a split stops before its end.
#[derive(Drop)]
pub enum Stop {
    /// The text could not be read.
    Read(io::Error),
    /// The text is not the one that was read before: a byte is no longer there, or another is.
    Changed,
    /// A write failed.
    Write(io::Error),
}
