//! Warnings that are cleared by a flag.
ghost use Rattle.std.specs.Prelude.{◌≡◌, true, IsTrue};

use gj_coords::{Kind, Warned};

/// Warnings that are cleared once the first of them comes. Until then they do not count.
#[derive(Clone, Copy)]
pub struct LazyWarned {
    warned: Warned,
    counts: bool,
}

impl LazyWarned {
    ghost use Rattle.gj_coords.specs.Internal.KeptWarnings.{no_warnings, joined, added};
    ghost use Rattle.gj_coords.specs.Internal.GatheredWarnings.{all_in};
    ghost use Rattle.gj_rules.specs.Internal.FrameReading.{counted_in};

    /// No warning.
    pub fn none() -> Self
        ensures { counted_in result ≡ no_warnings }
    {
        LazyWarned {
            warned: Warned::none(),
            counts: false,
        }
    }

    /// Forgets them all.
    #[inline]
    pub fn clear(&mut self)
        ensures { counted_in self.new ≡ no_warnings }
    {
        self.counts = false;
    }

    /// Whether it is none, as mostly it is.
    #[inline]
    pub fn is_nothing(&self) -> bool
        ensures { IsTrue result → counted_in self.now ≡ no_warnings }
    {
        !self.counts
    }

    /// Makes them count.
    fn begin(&mut self)
        ensures counts { self.new.counts ≡ true }
        ensures same { counted_in self.new ≡ counted_in self.old }
    {
        if !self.counts {
            self.warned.clear();
            self.counts = true;
        }
    }

    /// Takes one warning more.
    pub fn note(&mut self, kind: Kind, place: u64)
        ensures { counted_in self.new ≡ added (counted_in self.old) kind place }
    {
        self.begin();
        self.warned.note(kind, place);
    }

    /// Takes the warnings of another. Mostly there are none.
    #[tactic(auto, using(crate::proofs::Objects::WarningsInTurn::with_none))]
    #[inline]
    pub fn take(&mut self, other: &Warned)
        ensures { counted_in self.new ≡ joined (counted_in self.old) (all_in other.now) }
    {
        if !other.is_nothing() {
            self.take_some(other);
        }
    }

    #[inline(never)]
    fn take_some(&mut self, other: &Warned)
        ensures { counted_in self.new ≡ joined (counted_in self.old) (all_in other.now) }
    {
        self.begin();
        self.warned.take(other);
    }

    /// Adds them to others.
    #[tactic(auto, using(crate::proofs::Objects::WarningsInTurn::with_none))]
    #[inline]
    pub fn add_to(&self, warned: &mut Warned)
        ensures { all_in warned.new ≡ joined (all_in warned.old) (counted_in self.now) }
    {
        if self.counts {
            warned.take(&self.warned);
        }
    }
}
