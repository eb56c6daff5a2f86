//! The second reading: the lines, columns and paths of places.

ghost use Rattle.std.specs.Prelude.{◌≡◌, drop, Some};
ghost use Rattle.gj_rules.specs.declared.records.framing.Framing.{Framing};

use crate::every::text_path::TextPath;
use crate::judge::PIECE;
use crate::progress::Meter;
use crate::source::Source;
use gj_json::{Limits, Path};
use gj_places::{Excerpt, Kept, Lines, Recent};
use gj_rules::Framing;
use std::io;

/// The most places that are sought in one reading.
pub const MOST_PLACES: usize = 10;

/// Where a place is, as far as it was found.
#[derive(Clone, Copy)]
pub struct Site {
    place: u64,
    pub spot: Spot,
    pub path: Option<Path>,
    is_found: bool,
}

/// A line and a column, each from 1.
#[derive(Clone, Copy)]
pub struct Spot {
    pub line: u64,
    pub column: u64,
}

impl Site {
    ghost use Rattle.std.specs.Prelude.{◌≡◌, false};

    fn of(place: u64) -> Site
        ensures { (result.place ≡ place) × (result.is_found ≡ false) }
    {
        Site {
            place,
            spot: Spot { line: 0, column: 0 },
            path: None,
            is_found: false,
        }
    }
}

/// What the second reading finds.
#[derive(Drop)]
pub struct Sites {
    sites: [Site; MOST_PLACES],
    excerpt: Excerpt,
    count: usize,
}

impl Sites {
    ghost use Rattle.std.specs.Prelude.{◌≡◌, ◌<◌, ◌≤◌, ◌+◌, ◌-◌, ◌^◌, ◌++◌, ◌∷◌, [], ℕ, List, Option, length, IfSome, MatchOption, None, Some, OnOk, get_or};
    ghost use Rattle.std.specs.Prelude.{true, false};
    ghost use Rattle.gj_rules.specs.declared.records.framing.Framing.{Framing};
    ghost use Rattle.std.specs.Option.{IsNone};
    ghost use Rattle.std.specs.List.{Contains};
    ghost use Rattle.std.specs.List.Sorted.{IsNonDecreasing};
    ghost use Rattle.gj_json.specs.Limits.{Allowed};
    ghost use Rattle.geolint_report.specs.declared.sites.Site.{Site};
    ghost use Rattle.geolint_report.specs.Sites.{IsSpot, AreRight, RightBy, LeadsTo, ArePaths, PathsBy, IsTold, AreTold, ToldBy, ToldInTextsBy, NoneFound};
    ghost use Rattle.geolint_report.specs.Sites.{sought, AllFound, FoundBy, IsUnread, ExcerptBy};
    ghost use Rattle.geolint_report.specs.Internal.SecondReading.{Reaches, Follows, Tells, AreWithin, Shows, Seeks, Settles};
    ghost use Rattle.geolint_report.specs.Judged.{CountsFailure};
    ghost use Rattle.geolint_report.specs.Report.{site_in};
    ghost use Rattle.geolint_report.specs.Held.{AreHeldIn};
    ghost use Rattle.gj_places.specs.Recalling.{Recalls, KeepsMost};

    /// Where no place is sought.
    pub fn none() -> Sites
        ensures right { (text : List ℕ) → AreRight text result.sites }
        ensures paths { (framing : Option Framing) (text : List ℕ) → ArePaths framing text result.sites }
        ensures unfound { NoneFound result.sites }
        ensures sought { sought result ≡ [] }
        ensures unread { IsUnread result }
    {
        Sites {
            sites: [Site::of(0); MOST_PLACES],
            excerpt: Excerpt::new(),
            count: 0,
        }
    }

    /// Seeks one place more, which is not before the others.
    pub fn seek(&mut self, place: u64)
        ensures right { (text : List ℕ) → AreRight text self.old.sites → AreRight text self.new.sites }
        ensures paths { (framing : Option Framing) (text : List ℕ) → ArePaths framing text self.old.sites → ArePaths framing text self.new.sites }
        ensures unfound { NoneFound self.old.sites → NoneFound self.new.sites }
        ensures sought { length (sought self.old) < 10 → sought self.new ≡ sought self.old ++ place ∷ [] }
        ensures unread { IsUnread self.old → IsUnread self.new }
    {
        if self.count < MOST_PLACES {
            self.sites[self.count] = Site::of(place);
            self.count += 1;
        }
    }

    /// The line around the last of the places.
    pub fn excerpt(&self) -> &Excerpt
        ensures { result.now ≡ self.now.excerpt }
    {
        &self.excerpt
    }

    /// Where the place is, if it was found.
    pub fn at(&self, place: u64) -> Option<&Site>
        ensures missed { IsNone result → (text : List ℕ) → AllFound text self.now → Contains (sought self.now) place → place < 2 ^ 64 - 1
            → length text < place }
        ensures spot { IfSome result (λ site. (site.now.place ≡ place) × ((text : List ℕ) → AreRight text self.now.sites → IsSpot text place site.now.spot)) }
        ensures path { IfSome result
            (λ site. (framing : Option Framing) (text : List ℕ) → ArePaths framing text self.now.sites → LeadsTo framing text place site.now.path) }
        ensures told { IfSome result (λ site. (limits : Allowed) (framing : Option Framing) (text : List ℕ) → AreTold limits framing text self.now.sites
            → IsTold limits framing text place site.now.path) }
        ensures first { MatchOption result (site_in place self.now.sites ≡ None) (λ site. site_in place self.now.sites ≡ Some site.now) }
    {
        for site in &self.sites {
            if site.is_found && site.place == place {
                return Some(site);
            }
        }
        None
    }

    /// Reads as far as the places need, and says how far each is found.
    pub fn find<S: Source>(
        &mut self,
        reader: &mut S,
        limits: Limits,
        framing: Option<Framing>,
        meter: &mut Meter,
    ) -> io::Result<()>
        ensures right { AreRight [] self.old.sites → RightBy (S.remaining reader.old) self.new.sites }
        ensures paths { AreRight [] self.old.sites → ArePaths framing [] self.old.sites → PathsBy framing (S.remaining reader.old) self.new.sites }
        ensures told { NoneFound self.old.sites → ToldBy limits framing (S.remaining reader.old) self.new.sites }
        ensures texts { NoneFound self.old.sites → ToldInTextsBy limits framing (S.remaining reader.old) self.new.sites }
        ensures found { AreRight [] self.old.sites → IsNonDecreasing (sought self.old) → OnOk result (FoundBy (S.remaining reader.old) self.new) }
        ensures excerpt { IsUnread self.old → AreRight [] self.old.sites → IsNonDecreasing (sought self.old)
            → OnOk result (ExcerptBy (S.remaining reader.old) self.new) }
        ensures sought { sought self.new ≡ sought self.old }
        ensures text { S.text reader.new ≡ S.text reader.old }
        ensures failed { CountsFailure (S.failed_reads reader.old) (S.failed_reads reader.new) result }
    {
        let _most = limits.bytes();
        let mut finder = Finder::new(limits, framing);
        let mut piece = [0; PIECE];
        for _ in 0..u64::MAX {
            let count = reader.read_piece(&mut piece)?;
            if count == 0 {
                break;
            }
            meter.add_bytes(count);
            self.take(&mut finder, &piece[..count]);
            if finder.next >= self.count && self.excerpt.is_whole() {
                return Ok(());
            }
        }
        self.end(&finder);
        Ok(())
    }

    /// Finds the places in the last bytes of a text, which was read once. Where one of them is before these, none is found.
    pub fn recall(&mut self, recent: &Recent, limits: Limits, framing: Option<Framing>)
        ensures held { (text : List ℕ) → Recalls recent.now text → KeepsMost recent.now → NoneFound self.old.sites → IsUnread self.old
            → IsNonDecreasing (sought self.old) → AreHeldIn limits framing text self.new }
        ensures sought { sought self.new ≡ sought self.old }
    {
        let _most = limits.bytes();
        let kept = recent.kept();
        if self.count > 0 && self.sites[0].place < kept.passed {
            return;
        }
        let mut finder = Finder::behind(limits, framing, &kept);
        self.excerpt = kept.excerpt;
        self.take(&mut finder, kept.older);
        self.take(&mut finder, kept.newer);
        self.end(&finder);
    }

    /// Takes the next bytes of the file.
    fn take(&mut self, finder: &mut Finder, piece: &[u8])
        ensures reaches { (text : List ℕ) → Reaches finder.old self.old text [] → Reaches finder.new self.new (text ++ piece.now) [] }
        ensures follows { (framing : Option Framing) (text : List ℕ) → Reaches finder.old self.old text [] → Follows framing finder.old self.old text []
            → Follows framing finder.new self.new (text ++ piece.now) [] }
        ensures tells { (limits : Allowed) (framing : Option Framing) (text : List ℕ) → Reaches finder.old self.old text []
            → Follows framing finder.old self.old text []
            → Tells limits framing finder.old self.old text [] → Tells limits framing finder.new self.new (text ++ piece.now) [] }
        ensures seeks { (text : List ℕ) → Reaches finder.old self.old text [] → IsNonDecreasing (sought self.old)
            → Seeks finder.old self.old (length text) → Seeks finder.new self.new (length (text ++ piece.now)) }
        ensures shows { (text : List ℕ) → Reaches finder.old self.old text [] → Shows finder.old self.old text []
            → Shows finder.new self.new (text ++ piece.now) [] }
        ensures sought { sought self.new ≡ sought self.old }
    {
        while self.reach(finder, piece) {}
        self.pass(finder, piece);
    }

    /// Takes the bytes up to the next place, where it is among these: whether it is.
    fn reach(&mut self, finder: &mut Finder, piece: &[u8]) -> bool
        ensures reaches { (text : List ℕ) → Reaches finder.old self.old text piece.now → Reaches finder.new self.new text piece.now }
        ensures follows { (framing : Option Framing) (text : List ℕ) → Reaches finder.old self.old text piece.now
            → Follows framing finder.old self.old text piece.now
            → Follows framing finder.new self.new text piece.now }
        ensures tells { (limits : Allowed) (framing : Option Framing) (text : List ℕ) → Reaches finder.old self.old text piece.now
            → Follows framing finder.old self.old text piece.now
            → Tells limits framing finder.old self.old text piece.now → Tells limits framing finder.new self.new text piece.now }
        ensures shows { (text : List ℕ) → Reaches finder.old self.old text piece.now → Shows finder.old self.old text piece.now
            → Shows finder.new self.new text piece.now }
        ensures reached { result ≡ true → (text : List ℕ) → Reaches finder.old self.old text piece.now → IsNonDecreasing (sought self.old)
            → Seeks finder.old self.old (length text + finder.old.counted) → Seeks finder.new self.new (length text + finder.new.counted) }
        ensures passed { result ≡ false → (text : List ℕ) → Reaches finder.old self.old text piece.now → IsNonDecreasing (sought self.old)
            → Seeks finder.old self.old (length text + finder.old.counted) → Seeks finder.new self.new (length text + length piece.now) }
        ensures sought { sought self.new ≡ sought self.old }
        ensures next { result ≡ true → (finder.old.next < 10) × (finder.new.next ≡ finder.old.next + 1) }
    {
        let i = finder.next;
        let end = finder.offset.saturating_add(piece.len() as u64);
        if i >= self.count || i >= MOST_PLACES {
            return false;
        }
        let place = self.sites[i].place;
        if place < finder.offset || end <= place {
            return false;
        }
        let at = (place - finder.offset) as usize;
        if at < finder.counted {
            return false;
        }
        let front = &piece[finder.counted..at];
        finder.lines.feed(front);
        self.excerpt.feed_before(front);
        finder.counted = at;
        finder.locate_to(piece, at + 1);
        self.settle(i, finder.spot(), finder.text_path.path());
        finder.next = i + 1;
        true
    }

    /// Takes the rest of the bytes.
    fn pass(&mut self, finder: &mut Finder, piece: &[u8])
        ensures reaches { (text : List ℕ) → Reaches finder.old self.old text piece.now → Reaches finder.new self.new (text ++ piece.now) [] }
        ensures follows { (framing : Option Framing) (text : List ℕ) → Follows framing finder.old self.old text piece.now
            → Follows framing finder.new self.new (text ++ piece.now) [] }
        ensures tells { (limits : Allowed) (framing : Option Framing) (text : List ℕ) → Follows framing finder.old self.old text piece.now
            → Tells limits framing finder.old self.old text piece.now → Tells limits framing finder.new self.new (text ++ piece.now) [] }
        ensures shows { (text : List ℕ) → Shows finder.old self.old text piece.now → Shows finder.new self.new (text ++ piece.now) [] }
        ensures seeks { (passed : ℕ) → Seeks finder.old self.old passed → Seeks finder.new self.new passed }
        ensures sought { sought self.new ≡ sought self.old }
    {
        let rest = rest_of(piece, finder.counted);
        if finder.next >= self.count {
            self.excerpt.feed_after(rest);
        } else {
            finder.lines.feed(rest);
            self.excerpt.feed_before(rest);
            finder.locate_to(piece, piece.len());
        }
        finder.offset = finder.offset.saturating_add(piece.len() as u64);
        finder.counted = 0;
        finder.located = 0;
    }

    /// The place after the last byte has a line and a column too.
    fn end(&mut self, finder: &Finder)
        ensures right { (text : List ℕ) → Reaches finder.now self.old text [] → AreRight text self.new.sites }
        ensures paths { (framing : Option Framing) (text : List ℕ) → ArePaths framing text self.old.sites → ArePaths framing text self.new.sites }
        ensures told { (limits : Allowed) (framing : Option Framing) (text : List ℕ) → Reaches finder.now self.old text []
            → AreTold limits framing text self.old.sites
            → AreTold limits framing text self.new.sites }
        ensures long { (text : List ℕ) → Reaches finder.now self.old text [] → 2 ^ 64 - 1 ≤ length text → self.new.sites ≡ self.old.sites }
        ensures found { (text : List ℕ) → Reaches finder.now self.old text [] → IsNonDecreasing (sought self.old)
            → Seeks finder.now self.old (length text) → AllFound text self.new }
        ensures sought { sought self.new ≡ sought self.old }
        ensures excerpt { self.new.excerpt ≡ self.old.excerpt }
    {
        let i = finder.next;
        if i < self.count
            && i < MOST_PLACES
            && finder.offset < u64::MAX
            && self.sites[i].place == finder.offset
        {
            self.settle(i, finder.spot(), None);
        }
    }

    fn settle(&mut self, i: usize, spot: Spot, path: Option<Path>)
        requires { i < 10 }
        ensures right { (text : List ℕ) (other : Site) → AreRight text self.old.sites → IsSpot text (get_or self.old.sites i other).place spot
            → AreRight text self.new.sites }
        ensures paths { (framing : Option Framing) (text : List ℕ) (other : Site) → ArePaths framing text self.old.sites
            → LeadsTo framing text (get_or self.old.sites i other).place path
            → ArePaths framing text self.new.sites }
        ensures told { (limits : Allowed) (framing : Option Framing) (text : List ℕ) (other : Site) → AreTold limits framing text self.old.sites
            → IsTold limits framing text (get_or self.old.sites i other).place path → AreTold limits framing text self.new.sites }
        ensures within { (text : List ℕ) (other : Site) → AreWithin text self.old.sites → (get_or self.old.sites i other).place < length text
            → AreWithin text self.new.sites }
        ensures settles { Settles self.old self.new i }
        ensures excerpt { self.new.excerpt ≡ self.old.excerpt }
    {
        let place = self.sites[i].place;
        self.sites[i] = Site {
            place,
            spot,
            path,
            is_found: true,
        };
    }
}

/// The bytes from an index on.
pub(crate) fn rest_of(bytes: &[u8], begin: usize) -> &[u8]
    ensures { result.now ≡ drop begin bytes.now }
{
    match bytes.get(begin..) {
        Some(rest) => rest,
        None => &[],
    }
}

/// What the second reading keeps.
#[derive(Drop)]
struct Finder {
    text_path: TextPath,
    lines: Lines,
    /// How many bytes were read before the piece under way.
    offset: u64,
    /// How many bytes of the piece are counted, and how many the locator had.
    counted: usize,
    located: usize,
    next: usize,
}

impl Finder {
    ghost use Rattle.std.specs.Prelude.{◌≡◌, ◌≤◌, ◌++◌, ◌∷◌, [], ℕ, List, Option, Some, IfSome, IsSome, length, take, false};
    ghost use Rattle.gj_rules.specs.declared.records.framing.Framing.{Framing};
    ghost use Rattle.gj_json.specs.Limits.{Allowed};
    ghost use Rattle.geolint_report.specs.declared.sites.Sites.{Sites};
    ghost use Rattle.geolint_report.specs.Sites.{AreRight, ArePaths, IsPathOf, NoneFound, text_of};
    ghost use Rattle.geolint_report.specs.Internal.SecondReading.{Reaches, Follows, Tells, IsLocated};
    ghost use Rattle.geolint_report.specs.Internal.TextPaths.{StandsIn, KeepsIn};
    ghost use Rattle.std.specs.Io.Iter.{u64_saturate};
    ghost use Rattle.gj_places.specs.Counting.{StandsFor};

    fn new(limits: Limits, framing: Option<Framing>) -> Finder
        ensures begins { (sites : Sites) → AreRight [] sites.sites → Reaches result sites [] [] }
        ensures follows { (sites : Sites) → ArePaths framing [] sites.sites → Follows framing result sites [] [] }
        ensures tells { (sites : Sites) → NoneFound sites.sites → Tells limits framing result sites [] [] }
        ensures next { result.next ≡ 0 }
    {
        Finder {
            text_path: TextPath::new(limits, framing),
            lines: Lines::new(),
            offset: 0,
            counted: 0,
            located: 0,
            next: 0,
        }
    }

    /// Before the first of the bytes that are kept of a text.
    fn behind(limits: Limits, framing: Option<Framing>, kept: &Kept<'_>) -> Finder
        ensures begins { (sites : Sites) (before : List ℕ) → kept.now.passed ≡ u64_saturate (length before) → StandsFor kept.now.lines before
            → AreRight before sites.sites → Reaches result sites before [] }
        ensures follows { (sites : Sites) (before : List ℕ) → kept.now.passed ≡ u64_saturate (length before) → ArePaths framing before sites.sites
            → Follows framing result sites before [] }
        ensures tells { (sites : Sites) → kept.now.passed ≡ 0 → NoneFound sites.sites → Tells limits framing result sites [] [] }
        ensures next { result.next ≡ 0 }
    {
        let text_path = if kept.passed == 0 {
            TextPath::new(limits, framing)
        } else {
            TextPath::lost(limits, framing)
        };
        Finder {
            text_path,
            lines: kept.lines,
            offset: kept.passed,
            counted: 0,
            located: 0,
            next: 0,
        }
    }

    /// Follows the path through the bytes of the piece up to an index.
    fn locate_to(&mut self, piece: &[u8], end: usize)
        ensures same { IsLocated self.old self.new }
        ensures stands { (text : List ℕ) → self.old.located ≤ end → end ≤ length piece.now
            → StandsIn self.old.text_path (text ++ take self.old.located piece.now) → StandsIn self.new.text_path (text ++ take end piece.now) }
        ensures keeps { (text : List ℕ) → self.old.located ≤ end → end ≤ length piece.now
            → StandsIn self.old.text_path (text ++ take self.old.located piece.now) → KeepsIn self.old.text_path (text ++ take self.old.located piece.now)
            → KeepsIn self.new.text_path (text ++ take end piece.now) }
        ensures located { self.old.located ≤ end → end ≤ length piece.now → self.new.located ≡ end }
    {
        if self.located < end && end <= piece.len() {
            self.text_path.feed(&piece[self.located..end]);
            self.located = end;
        }
    }

    fn spot(&self) -> Spot
        ensures { (result.line ≡ self.now.lines.line) × (result.column ≡ self.now.lines.column) }
    {
        Spot {
            line: self.lines.line,
            column: self.lines.column,
        }
    }
}
