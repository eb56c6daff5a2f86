//! The lines and columns of what is reported of a source that is read once.
ghost use Rattle.std.specs.Prelude.{◌≡◌, ◌≤◌, ◌++◌, ℕ, List, Option, None, ⊤, length};

use crate::every::cursor::Mark;
use crate::every::listing::Note;
use crate::judge::{Finding, Reading};
use crate::sites::{Sites, Spot, rest_of};
use crate::source::Peek;
use gj_json::Limits;
use gj_places::Recent;
use std::alloc::Global;

/// What follows a source while it is read, and says where the notes stand that are listed.
pub trait Follower {
    ghost use Rattle.geolint_report.specs.declared.every.listing.Note.{Note};
    ghost use Rattle.geolint_report.specs.declared.every.cursor.Mark.{Mark};

    // These bytes came to it.
    ghost follows: { Self → List ℕ → Type 0 };

    // What it may say of the place of a note.
    ghost says: { Self → Note → Option Mark → Type 0 };

    /// Takes the next bytes of the source, and all notes that are listed with them.
    fn follow(&mut self, piece: &[u8], notes: &[Note])
        ensures { (bytes : List ℕ) → follows self.old bytes → follows self.new (bytes ++ piece.now) };

    /// Where the place of a note is, which has this index in the list.
    fn mark_at(&self, index: usize, note: &Note) -> Option<Mark>
        ensures { says self.now note.now result };
}

/// It says nothing of any place.
#[derive(Drop)]
pub struct Unplaced;

impl Follower for Unplaced {
    ghost follows = { λ self bytes. ⊤ };

    ghost says = { λ self note mark. mark ≡ None };

    #[inline(always)]
    fn follow(&mut self, _piece: &[u8], _notes: &[Note]) {}

    fn mark_at(&self, _index: usize, _note: &Note) -> Option<Mark> {
        None
    }
}

/// A place, and its line and column where they are known.
#[derive(Clone, Copy)]
pub struct Placed {
    place: u64,
    spot: Option<Spot>,
}

/// The last bytes of a source, and the lines and columns of the notes so far, in their order: of each whose place was among these
/// bytes when it was listed.
#[derive(Drop)]
pub struct Spots {
    recent: Recent,
    placed: Vec<Placed>,
}

impl Spots {
    ghost use Rattle.std.specs.Prelude.{◌≡◌, ℕ, List, [], Option};
    ghost use Rattle.std.specs.Option.{IsSome};
    ghost use Rattle.geolint_report.specs.Spots.{AreSpots, IsRight, IsAmongLast};
    ghost use Rattle.geolint_report.specs.Held.{AreHeldBy};

    /// Of a source of which nothing was read.
    pub fn new(alloc: Global) -> Spots
        ensures { AreSpots result [] }
    {
        Spots {
            recent: Recent::new(),
            placed: Vec::new(alloc),
        }
    }

    /// Finds where the notes stand that were not there before.
    fn place_new(&mut self, notes: &[Note])
        ensures { (bytes : List ℕ) → AreSpots self.old bytes → AreSpots self.new bytes }
    {
        let known = self.placed.len().min(notes.len());
        for note in &notes[known..] {
            self.place(note.told.place);
        }
    }

    /// Adds the place of a note. Where the memory does not suffice, its line is not known.
    fn place(&mut self, place: u64)
        ensures { (bytes : List ℕ) → AreSpots self.old bytes → AreSpots self.new bytes }
    {
        let spot = self.spot_of(place);
        let _kept = self.placed.push(Placed { place, spot });
    }

    /// The line and the column of a place among the last bytes: of each among those that are kept at least.
    fn spot_of(&self, place: u64) -> Option<Spot>
        ensures right { (bytes : List ℕ) → AreSpots self.now bytes → IsRight bytes place result }
        ensures found { (bytes : List ℕ) → AreSpots self.now bytes → IsAmongLast bytes place → IsSome result }
    {
        match self.recent.lines_at(place) {
            Some(lines) => Some(Spot {
                line: lines.line,
                column: lines.column,
            }),
            None => None,
        }
    }

    /// The lines, columns and paths of what is reported of a finding, as far as the bytes are still held.
    pub fn sites(&self, finding: &Finding, reading: Reading, limits: Limits) -> Sites
        ensures { AreHeldBy self.now finding.now reading limits result }
    {
        let mut sites = finding.places();
        sites.recall(&self.recent, limits, reading.framing());
        sites
    }

    /// The line and the column that are known of the place of a note of this index.
    fn known(&self, index: usize, place: u64) -> Option<Spot>
        ensures { (bytes : List ℕ) → AreSpots self.now bytes → IsRight bytes place result }
    {
        if index < self.placed.len() {
            let placed = &self.placed[index];
            if placed.place == place {
                return placed.spot;
            }
        }
        None
    }
}

impl Follower for Spots {
    ghost use Rattle.geolint_report.specs.Spots.{AreSpots, SaysSpot};

    ghost follows = { AreSpots };

    ghost says = { SaysSpot };

    fn follow(&mut self, piece: &[u8], notes: &[Note]) {
        self.recent.feed(piece);
        self.place_new(notes);
    }

    fn mark_at(&self, index: usize, note: &Note) -> Option<Mark> {
        match self.known(index, note.told.place) {
            Some(spot) => Some(Mark {
                place: note.told.place,
                spot,
                path: None,
            }),
            None => None,
        }
    }
}

impl Peek for Spots {
    fn peek(&self, place: u64, piece: &mut [u8]) -> usize {
        let kept = self.recent.kept();
        if place < kept.passed {
            return 0;
        }
        let at = (place - kept.passed) as usize;
        let count = copy(rest_of(kept.older, at), piece);
        let after = at.saturating_sub(kept.older.len());
        count + copy(rest_of(kept.newer, after), &mut piece[count..])
    }
}

/// Copies bytes, as far as there is room, and answers how many there were.
fn copy(bytes: &[u8], piece: &mut [u8]) -> usize
    ensures count { result ≤ length piece.new }
    ensures same { length piece.new ≡ length piece.old }
{
    let count = bytes.len().min(piece.len());
    piece[..count].copy_from_slice(&bytes[..count]);
    count
}
