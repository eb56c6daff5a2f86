//! The arrays and objects that are open, a bit for each.
ghost use Rattle.std.specs.Prelude.{◌≡◌, ◌*◌, ◌^◌, ◌<◌, ◌≤◌, [], ◌∷◌, length, IsTrue, Some};
ghost use Rattle.gj_json.specs.declared.levels.TheConstants.{WORD, MOST_FULL};

use crate::limits::MOST_LEVELS;

/// How many levels a word has bits for.
const WORD: u16 = 64;

/// How many words can be full beside the one of the innermost levels.
const MOST_FULL: usize = (MOST_LEVELS / WORD) as usize - 1;

/// What may be open.
#[derive(Clone, Copy, PartialEq, Eq)]
pub enum Level {
    Array,
    Object,
}

impl Level {
    ghost use Rattle.gj_json.specs.Internal.OpenLevels.{bit_of};

    /// Its bit in a word.
    #[inline]
    fn bit(self) -> u64
        ensures { result ≡ bit_of self }
    {
        match self {
            Level::Array => 0,
            Level::Object => 1,
        }
    }
}

/// The levels that are open: one bit for each.
///
/// The innermost are in a word of their own, so that the others are touched where it is full, or empty.
#[derive(Clone, Copy, PartialEq, Eq)]
pub struct Levels {
    /// The innermost level lowest.
    inner: u64,
    /// How many levels that word has.
    count: u16,
    /// How many words around it are full.
    full: u16,
    /// The full words, the outermost first.
    outer: [u64; MOST_FULL],
    ghost some: { count ≤ WORD },
    ghost narrow: { inner < 2 ^ count },
    ghost few: { full ≤ MOST_FULL },
    ghost dense: { full ≤ count * MOST_FULL },
    ghost room: { MOST_FULL ≤ length outer },
}

impl Levels {
    ghost use Rattle.gj_json.specs.Internal.OpenLevels.{levels_in, inner_of, outer_of};
    ghost use Rattle.gj_json.specs.declared.levels.Level.TheVariants.{Array, Object};

    #[tactic(auto, unfolding(crate::specs::Internal::OpenLevels::levels_in))]
    pub fn new() -> Self
        ensures { levels_in result ≡ [] }
    {
        Levels {
            inner: 0,
            count: 0,
            full: 0,
            outer: [0; MOST_FULL],
        }
    }

    #[tactic(auto, unfolding(crate::specs::Internal::OpenLevels::levels_in))]
    pub fn len(&self) -> u16
        ensures value { result ≡ length (levels_in self.now) }
        ensures small { result ≤ MOST_LEVELS }
    {
        self.count + self.full * WORD
    }

    /// The innermost level.
    #[tactic(auto, unfolding(crate::specs::Internal::OpenLevels::levels_in))]
    pub fn inner(&self) -> Option<Level>
        ensures { result ≡ inner_of (levels_in self.now) }
    {
        if self.count == 0 {
            None
        } else if self.inner % 2 == 0 {
            Some(Level::Array)
        } else {
            Some(Level::Object)
        }
    }

    /// Whether the innermost level is an object.
    #[inline(always)]
    #[tactic(auto, using(crate::proofs::Readers::LevelWords::in_object))]
    pub fn is_in_object(&self) -> bool
        ensures { IsTrue result → inner_of (levels_in self.now) ≡ Some Object }
    {
        self.count > 0 && self.inner % 2 == 1
    }

    /// Whether the innermost level is that of an element: an object in an array.
    #[inline(always)]
    #[tactic(auto, using(crate::proofs::Readers::LevelWords::in_element))]
    pub fn is_in_element(&self) -> bool
        ensures { IsTrue result → levels_in self.now ≡ Object ∷ Array ∷ outer_of (outer_of (levels_in self.now)) }
    {
        self.count > 1 && self.inner % 4 == 1
    }

    /// Whether the three innermost levels are those of a value in a feature: an object in an object in an array.
    #[inline(always)]
    #[tactic(auto, using(crate::proofs::Readers::LevelWords::in_feature))]
    pub fn is_in_feature(&self) -> bool
        ensures { IsTrue result → levels_in self.now ≡ Object ∷ Object ∷ Array ∷ outer_of (outer_of (outer_of (levels_in self.now))) }
    {
        self.count > 2 && self.inner % 8 == 3
    }

    #[tactic(auto, unfolding(crate::specs::Internal::OpenLevels::levels_in))]
    pub fn push(&mut self, level: Level)
        requires { length (levels_in self.old) < MOST_LEVELS }
        ensures { levels_in self.new ≡ level ∷ levels_in self.old }
    {
        let bit = level.bit();
        if self.count < WORD {
            self.inner = self.inner * 2 + bit;
            self.count += 1;
        } else {
            self.outer[self.full as usize] = self.inner;
            self.full += 1;
            self.inner = bit;
            self.count = 1;
        }
    }

    /// Removes the innermost level, where there is one.
    #[tactic(auto, unfolding(crate::specs::Internal::OpenLevels::levels_in))]
    pub fn pop(&mut self)
        ensures { levels_in self.new ≡ outer_of (levels_in self.old) }
    {
        if self.count > 1 {
            self.inner /= 2;
            self.count -= 1;
        } else if self.full > 0 {
            self.full -= 1;
            self.inner = self.outer[self.full as usize];
            self.count = WORD;
        } else {
            self.inner = 0;
            self.count = 0;
        }
    }
}
