//! Warnings as they are gathered.
use crate::kind::Kind;
use crate::kind_warnings::KindWarnings;
use crate::warnings::Warnings;

/// Warnings that are gathered. Mostly there are none: then they take no room, are cleared in one step, and add nothing
/// to others.
#[derive(Clone, Copy)]
pub struct Warned {
    warnings: Option<Warnings>,
}

impl Warned {
    ghost use Rattle.std.specs.Prelude.{◌≡◌, is_none, IsTrue};
    ghost use Rattle.gj_coords.specs.declared.kind.Kind.TheVariants.{W4};
    ghost use Rattle.gj_coords.specs.Internal.KeptWarnings.{joined, added, no_warnings, none_in};
    ghost use Rattle.gj_coords.specs.Internal.GatheredWarnings.{no_warned, all_in, noted_in, all_noted_in, taken_all, taken};

    /// No warning.
    pub fn none() -> Warned
        ensures exact { result ≡ no_warned }
        ensures none { all_in result ≡ no_warnings }
    {
        Warned { warnings: None }
    }

    /// These.
    pub fn of(warnings: Warnings) -> Warned
        ensures { all_in result ≡ warnings }
    {
        Warned {
            warnings: Some(warnings),
        }
    }

    /// Removes them all. Mostly there is nothing to write.
    #[tactic(auto, using(crate::proofs::Walks::HeldPositions::is_no_warned))]
    #[inline(always)]
    pub fn clear(&mut self)
        ensures exact { self.new ≡ no_warned }
        ensures none { all_in self.new ≡ no_warnings }
    {
        if !self.is_nothing() {
            self.forget();
        }
    }

    #[inline(never)]
    fn forget(&mut self)
        ensures exact { self.new ≡ no_warned }
        ensures none { all_in self.new ≡ no_warnings }
    {
        self.warnings = None;
    }

    /// Whether it holds nothing, as it mostly does. If not, it may still have no warning.
    #[inline(always)]
    pub fn is_nothing(&self) -> bool
        ensures exact { result ≡ is_none self.now.warnings }
        ensures none { IsTrue result → all_in self.now ≡ no_warnings }
    {
        self.warnings.is_none()
    }

    /// Whether there is no warning of any kind.
    #[inline]
    pub fn is_empty(&self) -> bool
        ensures { result ≡ none_in (all_in self.now) }
    {
        match &self.warnings {
            Some(warnings) => warnings.is_empty(),
            None => true,
        }
    }

    /// All of them.
    pub fn all(&self) -> Warnings
        ensures { result ≡ all_in self.now }
    {
        match &self.warnings {
            Some(warnings) => *warnings,
            None => Warnings::none(),
        }
    }

    /// Takes one warning more.
    // Not inlined: it is seldom called, and its locals take no room in the caller's frame.
    #[inline(never)]
    pub fn note(&mut self, kind: Kind, place: u64)
        ensures exact { self.new ≡ noted_in self.old kind place }
        ensures one_more { all_in self.new ≡ added (all_in self.old) kind place }
    {
        match &mut self.warnings {
            Some(warnings) => warnings.note(kind, place),
            None => self.warnings = Some(Warnings::none().add(kind, place)),
        }
    }

    /// Takes some warnings of numbers that are too precise, of which a text that has some mostly has many.
    #[inline(always)]
    pub(crate) fn note_precise(&mut self, noted: KindWarnings)
        ensures { self.new ≡ all_noted_in self.old W4 noted }
    {
        match &mut self.warnings {
            Some(warnings) => warnings.note_all(Kind::W4, noted),
            None => self.note_all(Kind::W4, noted),
        }
    }

    /// Takes some warnings of a kind.
    #[inline(never)]
    pub(crate) fn note_all(&mut self, kind: Kind, noted: KindWarnings)
        ensures { self.new ≡ all_noted_in self.old kind noted }
    {
        match &mut self.warnings {
            Some(warnings) => warnings.note_all(kind, noted),
            None => {
                let mut warnings = Warnings::none();
                warnings.note_all(kind, noted);
                self.warnings = Some(warnings);
            }
        }
    }

    /// Takes the warnings of another.
    #[inline]
    pub fn take(&mut self, other: &Warned)
        ensures exact { self.new ≡ taken self.old other.now }
        ensures joined { all_in self.new ≡ joined (all_in self.old) (all_in other.now) }
    {
        match &other.warnings {
            Some(warnings) => self.take_all(warnings),
            None => {}
        }
    }

    #[inline(never)]
    fn take_all(&mut self, other: &Warnings)
        ensures { self.new ≡ taken_all self.old other.now }
    {
        match &mut self.warnings {
            Some(warnings) => warnings.take(other),
            None => self.warnings = Some(*other),
        }
    }
}
