//! Fixed room in which a report is written, so that it goes out in one piece.
ghost use Rattle.std.specs.Prelude.{◌≡◌, ◌+◌, ◌≤◌, ◌++◌, [], length};
ghost use Rattle.geolint.specs.declared.room.TheConstants.{CAPACITY};
ghost use Rattle.geolint.specs.Written.{joined};

use arrayvec::ArrayVec;
use gj_json::MOST_LEVELS;

/// No line but that of a path has more bytes: the longest is that of the warning W3.
pub const MOST_LINE: usize = 96;

/// The most bytes of a step of a path: the longest is that to an element with an index of 20 digits.
pub const MOST_STEP: usize = 22;

/// The most steps of a path.
pub const MOST_STEPS: usize = MOST_LEVELS as usize;

/// No report has more bytes: `valid`, the count of a sequence's records and nine warnings are eleven lines, and a broken rule is
/// one line, that of its record and that of its path.
pub const CAPACITY: usize = 10 * MOST_LINE + MOST_STEPS * MOST_STEP;

/// What is written so far.
#[derive(Drop)]
pub struct Room {
    bytes: ArrayVec<u8, CAPACITY>,
}

impl Room {
    ghost use Rattle.geolint.specs.Room.{written_in};

    pub fn new() -> Room
        ensures { written_in result ≡ [] }
    {
        Room {
            bytes: ArrayVec::new(),
        }
    }

    /// Appends bytes.
    pub fn push(&mut self, bytes: &[u8])
        requires { length (written_in self.old) + length bytes.now ≤ CAPACITY }
        ensures { written_in self.new ≡ written_in self.old ++ bytes.now }
    {
        let _fits = self.bytes.try_extend_from_slice(bytes);
    }

    /// Appends slices, one after the other.
    pub fn push_all(&mut self, pieces: &[&[u8]])
        requires { length (written_in self.old) + length (joined pieces.now) ≤ CAPACITY }
        ensures { written_in self.new ≡ written_in self.old ++ joined pieces.now }
    {
        for piece in pieces {
            self.push(piece);
        }
    }

    /// All that was written.
    pub fn bytes(&self) -> &[u8]
        ensures { result.now ≡ written_in self.now }
    {
        self.bytes.as_slice()
    }
}
