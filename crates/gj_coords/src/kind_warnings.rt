//! What is kept of the warnings of one kind.
ghost use Rattle.std.specs.Prelude.{◌≡◌};
ghost use Rattle.gj_coords.specs.Internal.KeptWarnings.{noted_as, nothing_noted, is_nothing, joined_noted};

/// How many warnings of one kind there are, and where the first stands.
#[derive(Clone, Copy)]
pub struct KindWarnings {
    /// How many there are. It stays at the greatest.
    pub count: u32,
    /// The least place, which is 0 where there are none.
    pub first: u64,
}

impl KindWarnings {
    /// What is kept of no warning.
    #[inline]
    pub fn nothing() -> KindWarnings
        ensures { result ≡ nothing_noted }
    {
        KindWarnings { count: 0, first: 0 }
    }

    /// What is kept of one warning.
    #[inline]
    pub fn one(place: u64) -> KindWarnings
        ensures { result ≡ noted_as 1 place }
    {
        KindWarnings {
            count: 1,
            first: place,
        }
    }

    /// Whether it is what is kept of no warning. Both are tested, by one comparison, so that nothing joined to any value leaves
    /// it as it is.
    #[inline]
    pub fn is_nothing(&self) -> bool
        ensures { result ≡ is_nothing self.now }
    {
        (self.count as u64 | self.first) == 0
    }

    /// Counts are added, and the lesser place is kept.
    #[inline]
    pub fn join(self, other: KindWarnings) -> KindWarnings
        ensures { result ≡ joined_noted self other }
    {
        if self.is_nothing() {
            other
        } else if other.is_nothing() {
            self
        } else {
            KindWarnings {
                count: self.count.saturating_add(other.count),
                first: self.first.min(other.first),
            }
        }
    }
}
