//! A further reading of a file of which more is reported than is held at once.
ghost use Rattle.std.specs.Prelude.{◌≡◌};
ghost use Rattle.std.specs.Io.{ReadsAtMost};
ghost use Rattle.geolint_report.specs.Every.{GivesFrom};

use crate::every::listing::{Asked, Listing, Note};
use crate::judge::PIECE;
use crate::progress::Meter;
use crate::source::{Rewind, Source};
use gj_json::{Limits, few_events};
use gj_rules::{FeatureLinter, Framing, Records};
use std::alloc::{AllocError, Global};
use std::io;

/// What tells the listing what is found.
#[derive(Drop)]
enum Reader {
    OfText(FeatureLinter<Listing>),
    OfRecords { records: Records, listing: Listing },
}

/// A further reading of a file of which more is reported than is held at once. It goes through the file once, and what it holds is
/// taken from it piece by piece.
#[derive(Drop)]
pub struct Further {
    reader: Reader,
    /// How many bytes it has read.
    offset: u64,
    /// No more is read.
    has_ended: bool,
}

impl Further {
    ghost use Rattle.std.specs.Prelude.{◌≡◌, ◌+◌, ◌++◌, ℕ, List, Option, IfOk, false, length, take};
    ghost use Rattle.gj_json.specs.Limits.{Allowed};
    ghost use Rattle.gj_rules.specs.declared.feature.Feature.{Feature};
    ghost use Rattle.gj_rules.specs.declared.records.framing.Framing.{Framing};
    ghost use Rattle.gj_rules.specs.declared.records.record.Record.{Record};
    ghost use Rattle.geolint_report.specs.Every.{KeepsNotes, KeepsRecords};
    ghost use Rattle.geolint_report.specs.Further.{AreNextBy};
    ghost use Rattle.geolint_report.specs.Internal.FurtherReading.{ListsFirst, StandsIn, StandsBy, listing_of};

    /// Before the first byte of a file whose texts are set apart so.
    pub fn new(alloc: Global, limits: Limits, framing: Option<Framing>, asked: Asked) -> Further
        ensures stands { (text : Option (List ℕ)) → StandsBy framing limits text result }
        ensures asked { (listing_of result).asked ≡ asked }
    {
        let listing = Listing::new(alloc, asked);
        match framing {
            None => Further {
                reader: Reader::OfText(FeatureLinter::new(limits, listing)),
                offset: 0,
                has_ended: false,
            },
            Some(framing) => Further {
                reader: Reader::OfRecords {
                    records: Records::new(framing, limits),
                    listing,
                },
                offset: 0,
                has_ended: false,
            },
        }
    }

    /// Whether no more is read: all bytes were, or the source cannot be read as it was.
    pub fn has_ended(&self) -> bool
        ensures { result ≡ self.now.has_ended }
    {
        self.has_ended
    }

    /// Goes on with what is asked then, and holds nothing. Where it passed over a note that is asked for then, it begins anew.
    pub fn ask(&mut self, alloc: Global, limits: Limits, framing: Option<Framing>, asked: Asked)
        ensures stands { (text : Option (List ℕ)) → StandsBy framing limits text self.old → StandsBy framing limits text self.new }
        ensures asked { (listing_of self.new).asked ≡ asked }
    {
        match self.listing().going_on(alloc, asked) {
            Some(next) => self.set_listing(next),
            None => *self = Further::new(alloc, limits, framing, asked),
        }
    }

    fn set_listing(&mut self, next: Listing)
        ensures stands { ((features : List Feature) → KeepsNotes (listing_of self.old) features → KeepsNotes next features)
            → ((records : List Record) → KeepsRecords (listing_of self.old) records → KeepsRecords next records)
            → (framing : Option Framing) (limits : Allowed) (text : List ℕ) → StandsIn framing limits text self.old → StandsIn framing limits text self.new }
        ensures listing { listing_of self.new ≡ next }
    {
        match &mut self.reader {
            Reader::OfText(linter) => {
                linter.set_sink(next);
            }
            Reader::OfRecords { listing, .. } => *listing = next,
        }
    }

    /// Reads a piece more.
    pub fn read_on<S: Rewind>(&mut self, source: &mut S, meter: &mut Meter)
        ensures stands { (framing : Option Framing) (limits : Allowed) → StandsBy framing limits (S.text source.old) self.old
            → StandsBy framing limits (S.text source.old) self.new }
        ensures text { S.text source.new ≡ S.text source.old }
    {
        if self.has_ended {
            return;
        }
        let mut piece = [0; PIECE];
        match read_unchanged(source, self.offset, &mut piece) {
            Ok(0) => self.end(),
            Ok(count) => {
                meter.add_bytes(count);
                self.take(&piece[..count]);
            }
            Err(_) => self.has_ended = true,
        }
    }

    /// Takes the next bytes of the file.
    fn take(&mut self, piece: &[u8])
        ensures { (framing : Option Framing) (limits : Allowed) (text : List ℕ) → self.old.has_ended ≡ false
            → take (self.old.offset + length piece.now) text ≡ take self.old.offset text ++ piece.now
            → StandsIn framing limits text self.old → StandsIn framing limits text self.new }
    {
        let count = piece.len() as u64;
        if count > u64::MAX - self.offset {
            self.has_ended = true;
            return;
        }
        self.offset += count;
        match &mut self.reader {
            Reader::OfText(linter) => {
                let _ = linter.feed(piece);
            }
            Reader::OfRecords { records, listing } => {
                records.feed(piece, listing);
                self.has_ended = records.is_over();
            }
        }
    }

    /// Takes the end of the file.
    fn end(&mut self)
        ensures { (framing : Option Framing) (limits : Allowed) (text : List ℕ) → self.old.has_ended ≡ false → take self.old.offset text ≡ text
            → StandsIn framing limits text self.old → StandsIn framing limits text self.new }
    {
        self.has_ended = true;
        if let Reader::OfRecords { records, listing } = &mut self.reader {
            let _ = records.end(listing);
        }
    }

    /// The notes that are asked for, of those that it came to.
    pub fn notes(&self, asked: Asked) -> Result<&[Note], AllocError>
        ensures { (framing : Option Framing) (limits : Allowed) (text : Option (List ℕ)) → StandsBy framing limits text self.now
            → IfOk result (λ notes. AreNextBy framing asked limits text notes.now) }
    {
        let listing = self.listing();
        if listing.is_as_asked(asked) {
            Ok(listing.notes())
        } else {
            Err(AllocError)
        }
    }

    /// What holds the notes.
    fn listing(&self) -> &Listing
        ensures value { result.now ≡ listing_of self.now }
        ensures lists { (framing : Option Framing) (limits : Allowed) (text : List ℕ) → StandsIn framing limits text self.now
            → ListsFirst framing limits text result.now }
    {
        few_events();
        match &self.reader {
            Reader::OfText(linter) => linter.sink(),
            Reader::OfRecords { listing, .. } => listing,
        }
    }
}

/// Reads from a place on: an error where the bytes may be others than those of the first reading.
fn read_unchanged<S: Rewind>(source: &mut S, place: u64, piece: &mut [u8]) -> io::Result<usize>
    ensures bound { ReadsAtMost result piece.new }
    ensures bytes { GivesFrom (S.text source.old) place result piece.new }
    ensures text { S.text source.new ≡ S.text source.old }
{
    let count = source.read_from(place, piece)?;
    source.expect_unchanged()?;
    Ok(count)
}
