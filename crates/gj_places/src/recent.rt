//! The lines and columns of places among the last bytes of a text that is read once.
ghost use Rattle.std.specs.Prelude.{◌≤◌, ◌++◌, List, ℕ, length};
ghost use Rattle.gj_places.specs.Counting.{StandsFor};

use crate::excerpt::{Excerpt, MOST_BYTES};
use crate::lines::Lines;

/// The number of bytes in each of the two parts that are kept.
const ROOM: usize = 65_536;

/// The most bytes that go into a part at once.
const PIECE: usize = 16_384;

/// Bytes of a text in a row.
#[derive(Drop)]
struct Part {
    bytes: [u8; ROOM],
    length: usize,
    ghost fits: { length ≤ 65536 },
}

impl Part {
    ghost use Rattle.std.specs.Prelude.{◌≡◌, ◌≤◌, ◌+◌, ◌++◌, [], length};
    ghost use Rattle.gj_places.specs.Recalling.{held};

    fn new() -> Part
        ensures { held result ≡ [] }
    {
        Part {
            bytes: [0; ROOM],
            length: 0,
        }
    }

    fn bytes(&self) -> &[u8]
        ensures { result.now ≡ held self.now }
    {
        &self.bytes[..self.length]
    }

    /// Adds bytes at the end.
    fn put(&mut self, bytes: &[u8])
        requires { self.old.length + length bytes.now ≤ 65536 }
        ensures held { held self.new ≡ held self.old ++ bytes.now }
        ensures length { self.new.length ≡ self.old.length + length bytes.now }
    {
        let end = self.length + bytes.len();
        self.bytes[self.length..end].copy_from_slice(bytes);
        self.length = end;
    }

    fn clear(&mut self)
        ensures held { held self.new ≡ [] }
        ensures length { self.new.length ≡ 0 }
    {
        self.length = 0;
    }
}

/// The last bytes of a text, and where they stand in it: at least 49,152 where the text has so many, and at most 131,072. The
/// memory is fixed.
#[derive(Drop)]
pub struct Recent {
    /// How many bytes come before `older`. It stays at `u64::MAX` once there.
    passed: u64,
    /// The place of the first byte of `older`.
    at_older: Lines,
    /// The place of the first byte of `newer`.
    at_newer: Lines,
    older: Part,
    newer: Part,
}

/// The last bytes of a text, and what is known of those before them.
#[derive(Drop)]
pub struct Kept<'a> {
    /// How many bytes come before them. It stays at `u64::MAX` once there.
    pub passed: u64,
    /// The place of the first of them.
    pub lines: Lines,
    /// The part of the line around that place, as far as it is before it.
    pub excerpt: Excerpt,
    pub older: &'a [u8],
    pub newer: &'a [u8],
}

impl Recent {
    ghost use Rattle.std.specs.Prelude.{◌≡◌, ◌≤◌, ◌<◌, ◌+◌, ◌-◌, ◌^◌, ℕ, ◌++◌, [], List, length, take, IfSome};
    ghost use Rattle.std.specs.Option.{IsSome};
    ghost use Rattle.gj_places.specs.Counting.{StandsFor};
    ghost use Rattle.gj_places.specs.Recalling.{held, Recalls, KeepsMost, IsKept};
    ghost use Rattle.gj_places.specs.declared.recent.TheConstants.{PIECE};

    /// Of a text of which nothing was read.
    pub fn new() -> Recent
        ensures recalls { Recalls result [] }
        ensures most { KeepsMost result }
    {
        Recent {
            passed: 0,
            at_older: Lines::new(),
            at_newer: Lines::new(),
            older: Part::new(),
            newer: Part::new(),
        }
    }

    /// Takes the next bytes of the text.
    pub fn feed(&mut self, piece: &[u8])
        ensures recalls { (bytes : List ℕ) → Recalls self.old bytes → Recalls self.new (bytes ++ piece.now) }
        ensures most { KeepsMost self.old → KeepsMost self.new }
    {
        let mut rest = piece;
        while rest.len() > PIECE {
            let (bytes, after) = rest.split_at(PIECE);
            self.feed_few(bytes);
            rest = after;
        }
        self.feed_few(rest);
    }

    fn feed_few(&mut self, piece: &[u8])
        requires { length piece.now ≤ PIECE }
        ensures recalls { (bytes : List ℕ) → Recalls self.old bytes → Recalls self.new (bytes ++ piece.now) }
        ensures most { KeepsMost self.old → KeepsMost self.new }
    {
        if ROOM - self.newer.length < piece.len() {
            self.turn();
        }
        self.newer.put(piece);
    }

    /// Forgets the older bytes: those that were the newer ones take their place.
    fn turn(&mut self)
        ensures recalls { (bytes : List ℕ) → Recalls self.old bytes → Recalls self.new bytes }
        ensures older { held self.new.older ≡ held self.old.newer }
        ensures newer { (held self.new.newer ≡ []) × (self.new.newer.length ≡ 0) }
    {
        self.passed = self.passed.saturating_add(self.older.length as u64);
        self.at_older = self.at_newer;
        self.at_newer = after(self.at_newer, self.newer.bytes());
        self.older.clear();
        self.older.put(self.newer.bytes());
        self.newer.clear();
    }

    /// The line and the column of a place: none for one before the bytes that are kept, or after them.
    pub fn lines_at(&self, place: u64) -> Option<Lines>
        ensures right { (bytes : List ℕ) → Recalls self.now bytes → IfSome result (λ lines. (place ≤ length bytes) × StandsFor lines (take place bytes)) }
        ensures found { (bytes : List ℕ) → Recalls self.now bytes → KeepsMost self.now → place ≤ length bytes → length bytes ≤ place + 49152
            → length bytes < 2 ^ 64 - 1 → IsSome result }
    {
        if place < self.passed || place == u64::MAX {
            return None;
        }
        let at = (place - self.passed) as usize;
        if at <= self.older.length {
            return Some(after(self.at_older, &self.older.bytes()[..at]));
        }
        let rest = at - self.older.length;
        if rest <= self.newer.length {
            Some(after(self.at_newer, &self.newer.bytes()[..rest]))
        } else {
            None
        }
    }

    /// The last bytes, and what is known of those before them. Where bytes were forgotten, the first of the others only tell what an
    /// excerpt has before a place.
    pub fn kept(&self) -> Kept<'_>
        ensures { (bytes : List ℕ) → Recalls self.now bytes → KeepsMost self.now → IsKept result bytes }
    {
        let older = self.older.bytes();
        let count = if self.passed == 0 {
            0
        } else {
            MOST_BYTES.min(older.len())
        };
        let (front, rest) = older.split_at(count);
        let mut excerpt = Excerpt::new();
        excerpt.feed_before(front);
        Kept {
            passed: self.passed.saturating_add(count as u64),
            lines: after(self.at_older, front),
            excerpt,
            older: rest,
            newer: self.newer.bytes(),
        }
    }
}

/// The place after these bytes, where they follow one.
fn after(at: Lines, bytes: &[u8]) -> Lines
    ensures { (before : List ℕ) → StandsFor at before → StandsFor result (before ++ bytes.now) }
{
    let mut lines = at;
    lines.feed(bytes);
    lines
}
