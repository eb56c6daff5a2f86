//! A second reading that goes from place to place, and says of each its line, its column and its path.
ghost use Rattle.std.specs.Prelude.{◌≡◌, min};

use crate::every::listing::{Item, Note};
use crate::every::text_path::TextPath;
use crate::judge::PIECE;
use crate::sites::Spot;
use crate::source::Rewind;
use gj_json::{Limits, Path};
use gj_places::Lines;
use gj_rules::Framing;
use std::io;

/// Where a place is.
#[derive(Clone, Copy)]
pub struct Mark {
    pub place: u64,
    pub spot: Spot,
    pub path: Option<Path>,
}

impl Mark {
    ghost use Rattle.std.specs.Prelude.{◌≡◌, ℕ, List, Option, None};
    ghost use Rattle.gj_rules.specs.declared.records.framing.Framing.{Framing};
    ghost use Rattle.geolint_report.specs.Marks.{IsMarkBy};

    /// This place, without its path.
    pub fn without_path(self) -> Mark
        ensures mark { (framing : Option Framing) (text : Option (List ℕ)) (place : ℕ) → IsMarkBy framing text place self → IsMarkBy framing text place result }
        ensures path { result.path ≡ None }
    {
        Mark {
            place: self.place,
            spot: self.spot,
            path: None,
        }
    }
}

/// A place in a file, with what is known of the bytes before it.
#[derive(Clone, Copy)]
pub struct Cursor {
    text_path: TextPath,
    lines: Lines,
    /// How many bytes it has passed.
    passed: u64,
    /// The last place that it was asked for and that it found.
    last: Option<Mark>,
}

impl Cursor {
    ghost use Rattle.std.specs.Prelude.{◌≡◌, ◌++◌, [], ◌+◌, ◌-◌, ◌^◌, ◌≤◌, ◌<◌, ℕ, List, Option, Some, None, IfOk, IfSome, true, length};
    ghost use Rattle.geolint_report.specs.declared.every.cursor.Mark.{Mark};
    ghost use Rattle.geolint_report.specs.Cursors.{StandsBy, Passed};
    ghost use Rattle.geolint_report.specs.Cursors.{StandsIn};
    ghost use Rattle.geolint_report.specs.Internal.TextPaths.{StandsIn as Follows};
    ghost use Rattle.geolint_report.specs.Judged.{CountsFailure};
    ghost use Rattle.geolint_report.specs.Marks.{IsMarkBy};
    ghost use Rattle.geolint_report.specs.Sites.{IsPathOf, text_of};

    /// Before the first byte of a file, the texts of which are read under these limits.
    pub fn new(limits: Limits, framing: Option<Framing>) -> Cursor
        ensures stands { (text : List ℕ) → StandsIn text result }
        ensures start { result.passed ≡ 0 }
        ensures framing { result.text_path.framing ≡ framing }
    {
        Cursor::begin(TextPath::new(limits, framing))
    }

    /// Before the first byte of a file, in which the path is followed so.
    fn begin(text_path: TextPath) -> Cursor
        requires { Follows text_path [] }
        ensures stands { (text : List ℕ) → StandsIn text result }
        ensures start { result.passed ≡ 0 }
        ensures framing { result.text_path.framing ≡ text_path.framing }
    {
        Cursor {
            text_path,
            lines: Lines::new(),
            passed: 0,
            last: None,
        }
    }

    /// Whether it has passed a place, and does not know it any more.
    pub fn is_behind(&self, place: u64) -> bool {
        match self.last {
            Some(mark) => place < self.passed && mark.place != place,
            None => place < self.passed,
        }
    }

    /// Where a place is: none for one that is neither before a byte of the file nor at its end. A place that it has passed makes it begin anew.
    pub fn go_to<S: Rewind>(&mut self, source: &mut S, place: u64) -> io::Result<Option<Mark>>
        ensures stands { StandsBy (S.text source.old) self.old → StandsBy (S.text source.old) self.new }
        ensures mark { StandsBy (S.text source.old) self.old
            → IfOk result (λ found. IfSome found (λ mark. IsMarkBy self.old.text_path.framing (S.text source.old) place mark)) }
        ensures text { S.text source.new ≡ S.text source.old }
        ensures failed { CountsFailure (S.failed_reads source.old) (S.failed_reads source.new) result }
        ensures framing { self.new.text_path.framing ≡ self.old.text_path.framing }
    {
        self.begin_before(place);
        self.reach(source, place)?;
        Ok(self.mark_of(place))
    }

    /// Begins anew where it has passed a place.
    fn begin_before(&mut self, place: u64)
        ensures stands { (text : Option (List ℕ)) → StandsBy text self.old → StandsBy text self.new }
        ensures framing { self.new.text_path.framing ≡ self.old.text_path.framing }
    {
        if self.is_behind(place) {
            *self = Cursor::begin(self.text_path.anew());
        }
    }

    /// The place that it kept, where it is this one.
    fn mark_of(&self, place: u64) -> Option<Mark>
        ensures { IfSome result (λ mark. (self.now.last ≡ Some mark) × (mark.place ≡ place)) }
    {
        match self.last {
            Some(mark) => {
                if mark.place == place {
                    Some(mark)
                } else {
                    None
                }
            }
            None => None,
        }
    }

    /// Keeps a place that it has not passed, where it is before a byte of the file or at its end.
    fn reach<S: Rewind>(&mut self, source: &mut S, place: u64) -> io::Result<()>
        ensures stands { StandsBy (S.text source.old) self.old → StandsBy (S.text source.old) self.new }
        ensures text { S.text source.new ≡ S.text source.old }
        ensures failed { CountsFailure (S.failed_reads source.old) (S.failed_reads source.new) result }
        ensures framing { self.new.text_path.framing ≡ self.old.text_path.framing }
    {
        if self.passed > place || place == u64::MAX {
            return Ok(());
        }
        if self.pass_to(source, place)? {
            self.mark(source, place)
        } else {
            Ok(())
        }
    }

    /// Passes the bytes before a place: whether there are that many.
    fn pass_to<S: Rewind>(&mut self, source: &mut S, place: u64) -> io::Result<bool>
        ensures stands { StandsBy (S.text source.old) self.old → StandsBy (S.text source.old) self.new }
        ensures there { self.old.passed ≤ place → IfOk result (λ there. there ≡ true → self.new.passed ≡ place) }
        ensures text { S.text source.new ≡ S.text source.old }
        ensures failed { CountsFailure (S.failed_reads source.old) (S.failed_reads source.new) result }
        ensures framing { self.new.text_path.framing ≡ self.old.text_path.framing }
    {
        let mut piece = [0; PIECE];
        while self.passed < place {
            let room = lesser(PIECE, place - self.passed);
            if self.pass_some(source, &mut piece[..room])? == 0 {
                return Ok(false);
            }
        }
        Ok(true)
    }

    /// Passes as many of the next bytes as a read gives of those that there is room for in the piece: how many.
    fn pass_some<S: Rewind>(&mut self, source: &mut S, piece: &mut [u8]) -> io::Result<usize>
        requires { self.old.passed + length piece.old < 2 ^ 64 }
        ensures stands { StandsBy (S.text source.old) self.old → StandsBy (S.text source.old) self.new }
        ensures count { IfOk result (λ count. (count ≤ length piece.old) × (self.new.passed ≡ self.old.passed + count)) }
        ensures text { S.text source.new ≡ S.text source.old }
        ensures failed { CountsFailure (S.failed_reads source.old) (S.failed_reads source.new) result }
        ensures framing { self.new.text_path.framing ≡ self.old.text_path.framing }
    {
        let count = source.read_from(self.passed, piece)?;
        self.pass(&piece[..count]);
        Ok(count)
    }

    /// Keeps where the place before the next byte stands, and passes this; or the place at the end, where there is none.
    fn mark<S: Rewind>(&mut self, source: &mut S, place: u64) -> io::Result<()>
        requires { place < 2 ^ 64 - 1 }
        ensures stands { self.old.passed ≡ place → StandsBy (S.text source.old) self.old → StandsBy (S.text source.old) self.new }
        ensures text { S.text source.new ≡ S.text source.old }
        ensures failed { CountsFailure (S.failed_reads source.old) (S.failed_reads source.new) result }
        ensures framing { self.new.text_path.framing ≡ self.old.text_path.framing }
    {
        let mut byte = [0];
        let count = source.read_from(place, &mut byte)?;
        if count > 0 {
            self.keep(place, &byte);
        } else {
            self.keep_end(place);
        }
        Ok(())
    }

    /// Keeps the place at the end of the file. No byte is there, so it has no path.
    fn keep_end(&mut self, place: u64)
        ensures last { (mark : Mark) × (self.new.last ≡ Some mark) × (mark.place ≡ place) × (mark.spot.line ≡ self.old.lines.line)
            × (mark.spot.column ≡ self.old.lines.column)
            × (mark.path ≡ None) }
        ensures passed { self.new.passed ≡ self.old.passed }
        ensures lines { self.new.lines ≡ self.old.lines }
        ensures path { self.new.text_path ≡ self.old.text_path }
    {
        self.last = Some(Mark {
            place,
            spot: self.spot(),
            path: None,
        });
    }

    /// Keeps the place before a byte, and passes this.
    fn keep(&mut self, place: u64, byte: &[u8])
        ensures passed { (front : List ℕ) → Passed self.old front → Passed self.new (front ++ byte.now) }
        ensures last { (mark : Mark) × (self.new.last ≡ Some mark) × (mark.place ≡ place) × (mark.spot.line ≡ self.old.lines.line)
            × (mark.spot.column ≡ self.old.lines.column)
            × ((front : List ℕ) → Passed self.new front → IfSome mark.path (λ path. IsPathOf (text_of self.new.text_path.framing front) path)) }
        ensures count { self.old.passed + length byte.now < 2 ^ 64 → self.new.passed ≡ self.old.passed + length byte.now }
        ensures framing { self.new.text_path.framing ≡ self.old.text_path.framing }
    {
        let spot = self.spot();
        self.pass(byte);
        self.last = Some(Mark {
            place,
            spot,
            path: self.path(),
        });
    }

    fn pass(&mut self, bytes: &[u8])
        ensures passed { (front : List ℕ) → Passed self.old front → Passed self.new (front ++ bytes.now) }
        ensures last { self.new.last ≡ self.old.last }
        ensures count { self.old.passed + length bytes.now < 2 ^ 64 → self.new.passed ≡ self.old.passed + length bytes.now }
        ensures framing { self.new.text_path.framing ≡ self.old.text_path.framing }
    {
        self.lines.feed(bytes);
        self.text_path.feed(bytes);
        self.passed = self.passed.saturating_add(bytes.len() as u64);
    }

    fn spot(&self) -> Spot
        ensures { (result.line ≡ self.now.lines.line) × (result.column ≡ self.now.lines.column) }
    {
        Spot {
            line: self.lines.line,
            column: self.lines.column,
        }
    }

    fn path(&self) -> Option<Path>
        ensures { (front : List ℕ) → Passed self.now front → IfSome result (λ path. IsPathOf (text_of self.now.text_path.framing front) path) }
    {
        self.text_path.path()
    }
}

/// The lesser of a count of bytes and what is left to a place.
pub(crate) fn lesser(count: usize, left: u64) -> usize
    ensures { result ≡ min count left }
{
    if left < count as u64 {
        left as usize
    } else {
        count
    }
}

/// A cursor that goes from item to item, and one that stays before the places of the item under way: these come in the order of
/// the kinds of warning.
#[derive(Clone, Copy)]
pub struct Cursors {
    ahead: Cursor,
    behind: Cursor,
    /// The feature or the record under way.
    item: Option<Item>,
}

impl Cursors {
    ghost use Rattle.std.specs.Prelude.{◌≡◌, ℕ, List, Option, IfOk, IfSome};
    ghost use Rattle.gj_rules.specs.declared.records.framing.Framing.{Framing};
    ghost use Rattle.geolint_report.specs.Cursors.{StandBy};
    ghost use Rattle.geolint_report.specs.Judged.{CountsFailure};
    ghost use Rattle.geolint_report.specs.Marks.{IsMarkBy};

    /// Before the first byte of a file whose texts are read under these limits.
    pub fn new(limits: Limits, framing: Option<Framing>) -> Cursors
        ensures { (text : Option (List ℕ)) → StandBy framing text result }
    {
        Cursors {
            ahead: Cursor::new(limits, framing),
            behind: Cursor::new(limits, framing),
            item: None,
        }
    }

    /// Where the place of a note is.
    pub fn go_to<S: Rewind>(&mut self, source: &mut S, note: &Note) -> io::Result<Option<Mark>>
        ensures stand { (framing : Option Framing) → StandBy framing (S.text source.old) self.old → StandBy framing (S.text source.old) self.new }
        ensures mark { (framing : Option Framing) → StandBy framing (S.text source.old) self.old
            → IfOk result (λ found. IfSome found (λ mark. IsMarkBy framing (S.text source.old) note.now.told.place mark)) }
        ensures text { S.text source.new ≡ S.text source.old }
        ensures failed { CountsFailure (S.failed_reads source.old) (S.failed_reads source.new) result }
    {
        self.begin(note);
        self.ahead.go_to(source, note.told.place)
    }

    fn begin(&mut self, note: &Note)
        ensures { (framing : Option Framing) (text : Option (List ℕ)) → StandBy framing text self.old → StandBy framing text self.new }
    {
        if self.item != Some(note.item) {
            self.item = Some(note.item);
            self.behind = self.ahead;
        } else if self.ahead.is_behind(note.told.place) {
            self.ahead = self.behind;
        }
    }
}
