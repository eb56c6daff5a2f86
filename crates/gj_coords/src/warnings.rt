//! The warnings of a text that breaks no rule.

use crate::kind::{ByKind, KINDS, Kind};
use crate::kind_warnings::KindWarnings;
use std::mem::size_of;

/// Some warnings: of each kind how many, and the least place.
#[derive(Clone, Copy, Debug, PartialEq, Eq)]
pub struct Warnings {
    /// The least place of each kind, which is 0 where there is none.
    firsts: ByKind<u64>,
    counts: ByKind<u32>,
}

const _: () = prove!(size_of::<Warnings>() == 112);

impl Warnings {
    ghost use Rattle.std.specs.Prelude.{◌≡◌, ◌↔◌, ◌++◌, ◌∷◌, [], ℕ, ◌+◌, ◌≤◌, ◌^◌, List, map, IsTrue};
    ghost use Rattle.gj_coords.specs.Warnings.{Warning, warning_at, shifted_by, count_of, first_of};
    ghost use Rattle.gj_coords.specs.Internal.KeptWarnings.{warnings_of, no_warnings, joined, shifted, added, replaced, kept, joined_noted, shifted_noted};
    ghost use Rattle.gj_coords.specs.Internal.KeptWarnings.{with_noted, count_in, first_in, none_in};
    ghost use Rattle.gj_coords.specs.WarningsStand.{StandsFor};

    /// No warning.
    #[tactic(auto, unfolding(crate::specs::Internal::KeptWarnings::no_warnings, crate::specs::Internal::KeptWarnings::warnings_of))]
    pub fn none() -> Warnings
        ensures stands { StandsFor result [] }
        ensures exact { result ≡ no_warnings }
    {
        Warnings {
            firsts: ByKind::all(0),
            counts: ByKind::all(0),
        }
    }

    /// One warning more.
    pub fn add(self, kind: Kind, place: u64) -> Warnings
        ensures stands { (warnings : List Warning) → StandsFor self warnings →
            StandsFor result (warnings ++ warning_at place kind ∷ []) }
        ensures exact { result ≡ added self kind place }
    {
        let mut all = self;
        all.note(kind, place);
        all
    }

    /// Takes one warning more.
    #[inline]
    pub(crate) fn note(&mut self, kind: Kind, place: u64)
        ensures { self.new ≡ added self.old kind place }
    {
        let noted = self.kept(kind).join(KindWarnings::one(place));
        self.replace(kind, noted);
    }

    /// Takes some warnings of a kind.
    #[tactic(auto, unfolding(crate::specs::Internal::KeptWarnings::with_noted))]
    #[inline(always)]
    pub(crate) fn note_all(&mut self, kind: Kind, noted: KindWarnings)
        ensures { self.new ≡ with_noted self.old kind noted }
    {
        let noted = self.kept(kind).join(noted);
        self.replace(kind, noted);
    }

    /// The warnings of both: counts are added, and stay at 4,294,967,295; of two places the lesser is kept.
    pub fn join(self, other: Warnings) -> Warnings
        ensures stands { (warnings others : List Warning) → StandsFor self warnings → StandsFor other others →
            StandsFor result (warnings ++ others) }
        ensures exact { result ≡ joined self other }
    {
        let mut all = self;
        all.take(&other);
        all
    }

    /// Takes the warnings of another.
    #[tactic(auto, unfolding(crate::specs::Internal::KeptWarnings::joined))]
    pub(crate) fn take(&mut self, other: &Warnings)
        ensures { self.new ≡ joined self.old other.now }
    {
        for kind in &KINDS {
            self.take_kind(other, *kind);
        }
    }

    /// Takes those of one kind. Mostly there are none.
    #[inline(always)]
    fn take_kind(&mut self, other: &Warnings, kind: Kind)
        ensures { self.new ≡ replaced self.old kind (joined_noted (kept self.old kind) (kept other.now kind)) }
    {
        let more = other.kept(kind);
        if !more.is_nothing() {
            let noted = self.kept(kind).join(more);
            self.replace(kind, noted);
        }
    }

    /// These warnings, each place moved on by `by` bytes. It requires that no place goes past 2^61, which
    /// [`Warnings::first`] shows.
    pub fn shifted(self, by: u64) -> Warnings
        requires { (kind : Kind) (place : ℕ) → first_in kind self ≡ Some place → place + by ≤ 2 ^ 61 }
        ensures stands { (warnings : List Warning) → StandsFor self warnings →
            StandsFor result (map (shifted_by by) warnings) }
        ensures exact { result ≡ shifted self by }
    {
        let mut all = self;
        all.shift(by);
        all
    }

    /// Moves each place on by `by` bytes.
    #[tactic(auto, unfolding(crate::specs::Internal::KeptWarnings::shifted))]
    fn shift(&mut self, by: u64)
        requires { (kind : Kind) (place : ℕ) → first_in kind self.old ≡ Some place → place + by ≤ 2 ^ 61 }
        ensures { self.new ≡ shifted self.old by }
    {
        for kind in &KINDS {
            let noted = self.kept_shifted(*kind, by);
            self.replace(*kind, noted);
        }
    }

    /// What is kept of a kind, its place moved on by `by` bytes where there is one.
    fn kept_shifted(&self, kind: Kind, by: u64) -> KindWarnings
        requires { (place : ℕ) → first_in kind self.now ≡ Some place → place + by ≤ 2 ^ 61 }
        ensures { result ≡ shifted_noted by (kept self.now kind) }
    {
        let noted = self.kept(kind);
        if noted.count > 0 {
            KindWarnings {
                count: noted.count,
                first: noted.first + by,
            }
        } else {
            noted
        }
    }

    /// How many warnings there are of a kind: 4,294,967,295 stands for as many or more.
    pub fn count(&self, kind: Kind) -> u32
        ensures kept { result ≡ count_in kind self.now }
        ensures count { (warnings : List Warning) → StandsFor self.now warnings → result ≡ count_of kind warnings }
    {
        self.kept(kind).count
    }

    /// The least place of a warning of a kind, in bytes from the start of the text, or `None` where there is none.
    pub fn first(&self, kind: Kind) -> Option<u64>
        ensures kept { result ≡ first_in kind self.now }
        ensures first { (warnings : List Warning) → StandsFor self.now warnings → result ≡ first_of kind warnings }
    {
        let noted = self.kept(kind);
        if noted.count == 0 {
            None
        } else {
            Some(noted.first)
        }
    }

    /// Whether there is no warning of any kind.
    pub fn is_empty(&self) -> bool
        ensures kept { result ≡ none_in self.now }
        ensures empty { (warnings : List Warning) → StandsFor self.now warnings → IsTrue result ↔ (warnings ≡ []) }
    {
        self.all_zero()
    }

    fn all_zero(&self) -> bool
        ensures { result ≡ none_in self.now }
    {
        KINDS.iter().all(|kind| self.counts.of(*kind) == 0)
    }

    /// What is kept of a kind.
    #[inline]
    fn kept(&self, kind: Kind) -> KindWarnings
        ensures { result ≡ kept self.now kind }
    {
        KindWarnings {
            count: self.counts.of(kind),
            first: self.firsts.of(kind),
        }
    }

    /// Writes what is kept of a kind.
    fn replace(&mut self, kind: Kind, noted: KindWarnings)
        ensures { self.new ≡ replaced self.old kind noted }
    {
        self.firsts.set(kind, noted.first);
        self.counts.set(kind, noted.count);
    }
}
