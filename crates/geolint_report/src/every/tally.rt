//! How many features or records there are, how many are broken, and of how many each rule, kind of warning and cause is reported.
ghost use Rattle.std.specs.Prelude.{◌≡◌, ◌<◌, ◌+◌, ℕ, get_or};
ghost use Rattle.std.specs.Io.Iter.{u64_saturate};
ghost use Rattle.geolint_report.specs.declared.texts.TheConstants.{CODES};

use crate::every::listing::Note;
use crate::texts::{CODES, Code};

/// The counts of a file, or of some files together.
#[derive(Clone, Copy)]
pub struct Tally {
    /// How many features or records there are.
    pub items: u64,
    /// How many of them are broken, or no JSON.
    pub broken: u64,
    /// Of how many each code is reported, by its slot.
    pub counts: [u64; CODES],
}

impl Tally {
    ghost use Rattle.std.specs.Prelude.{◌≡◌, ◌++◌, ◌∷◌, [], ◌<◌, ◌+◌, List};
    ghost use Rattle.std.specs.Io.Iter.{u64_saturate};
    ghost use Rattle.geolint_report.specs.declared.every.listing.Note.{Note};
    ghost use Rattle.geolint_report.specs.declared.texts.TheConstants.{CODES};
    ghost use Rattle.geolint_report.specs.Slots.{same, slot_of, more};
    ghost use Rattle.geolint_report.specs.Tallies.{Tallies, IsTotal, is_fault, count_of};

    /// Of no feature and no record.
    pub fn none() -> Tally
        ensures items { result.items ≡ 0 }
        ensures notes { Tallies result [] }
        ensures total { IsTotal result [] }
    {
        Tally {
            items: 0,
            broken: 0,
            counts: [0; CODES],
        }
    }

    /// Counts one feature or one record more.
    pub fn add_item(&mut self)
        ensures items { self.new.items ≡ u64_saturate (self.old.items + 1) }
        ensures notes { (notes : List Note) → Tallies self.old notes → Tallies self.new notes }
    {
        self.items = self.items.saturating_add(1);
    }

    /// Counts one note more.
    pub fn add_note(&mut self, note: Note)
        ensures items { self.new.items ≡ self.old.items }
        ensures notes { (notes : List Note) → Tallies self.old notes → Tallies self.new (notes ++ note ∷ []) }
    {
        self.count_broken(note.told.code);
        self.count(note.told.code);
    }

    fn count_broken(&mut self, code: Code)
        ensures items { self.new.items ≡ self.old.items }
        ensures broken { self.new.broken ≡ more (is_fault code) self.old.broken }
        ensures counts { self.new.counts ≡ self.old.counts }
    {
        match code {
            Code::Kind(_) => {}
            _ => self.broken = self.broken.saturating_add(1),
        }
    }

    fn count(&mut self, code: Code)
        ensures items { self.new.items ≡ self.old.items }
        ensures broken { self.new.broken ≡ self.old.broken }
        ensures codes { (other : Code) → slot_of other < CODES → count_of other self.new ≡ more (same other code) (count_of other self.old) }
    {
        let slot = code.slot();
        if slot < CODES {
            self.counts[slot] = self.counts[slot].saturating_add(1);
        }
    }

    /// Adds the counts of another file.
    pub fn add(&mut self, other: &Tally)
        ensures { (tallies : List Tally) → IsTotal self.old tallies → IsTotal self.new (tallies ++ other.now ∷ []) }
    {
        self.items = self.items.saturating_add(other.items);
        self.broken = self.broken.saturating_add(other.broken);
        self.counts = sums(&self.counts, &other.counts);
    }
}

/// The sum of each two counts.
fn sums(one: &[u64; CODES], other: &[u64; CODES]) -> [u64; CODES]
    ensures { (slot : ℕ) → slot < CODES → get_or result slot 0 ≡ u64_saturate (get_or one.now slot 0 + get_or other.now slot 0) }
{
    let mut sums = [0; CODES];
    for slot in 0..CODES {
        sums[slot] = one[slot].saturating_add(other[slot]);
    }
    sums
}
