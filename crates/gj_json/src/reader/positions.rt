//! Positions, taken as their cut values.

ghost use Rattle.std.specs.Prelude.{◌≡◌, ◌+◌, ◌^◌, ◌<◌, length, drop, None, Some};
ghost use Rattle.gj_json.specs.Internal.FlatParts.{IsDueAt};
ghost use Rattle.gj_json.specs.Internal.OpenLevels.{levels_in, inner_of};
ghost use Rattle.gj_json.specs.declared.levels.Level.TheVariants.{Array};

use super::Reader;
use crate::mode::Mode;
use crate::positions::{MOST_POSITIONS, read_positions};
use crate::separators::Separators;
use crate::sink::EventSink;

/// After so many arrays, one after another, positions are looked for again where none was found.
const MANY: u8 = 32;

/// How many arrays come before positions are looked for again, where the last search took so many bytes.
#[inline(always)]
pub(super) fn arrays_before_next(count: usize) -> u8 {
    if count > 0 { 0 } else { MANY }
}

impl Reader {
    ghost use Rattle.gj_json.specs.Internal.FedReader.{IsOpenFor, FeedsAll, OfPrefix};
    ghost use Rattle.gj_json.specs.Internal.SpelledPositions.{AreSeparators, HasHead};

    /// Takes the positions at the start of the piece whose arrays have these separators, each with a comma and another array after
    /// it, as long as the sink takes them by their cut values: how many bytes.
    #[inline(never)]
    pub(super) fn take_positions<S: EventSink>(
        &mut self,
        piece: &[u8],
        separators: &Separators<'_>,
        sink: &mut S,
    ) -> usize
        requires separators { AreSeparators separators.now }
        requires head { HasHead separators.now piece.now }
        requires next { IsDueAt self.old.mode piece.now }
        requires takes { IsOpenFor self.old piece.now }
        requires deep { length (levels_in self.old.levels) < self.old.limits.depth }
        requires inner { inner_of (levels_in self.old.levels) ≡ Some Array }
        ensures next { IsDueAt self.new.mode (drop result piece.now) }
        ensures levels { self.new.levels ≡ self.old.levels }
        ensures taken { OfPrefix (FeedsAll (S.heard sink.old) (S.heard sink.new) self.old self.new) piece.now result }
    {
        let mut rest = piece;
        let mut taken = MOST_POSITIONS;
        while taken == MOST_POSITIONS {
            let found = read_positions(rest, separators, self.offset, &mut self.positions);
            taken = sink.tell_positions(&self.positions[..found]);
            if taken == 0 {
                return piece.len() - rest.len();
            }
            let last = self.positions[taken - 1];
            let next = last.place + last.close_at as u64 + 2 + separators.gap() as u64;
            let count = (next - self.offset) as usize;
            self.skip(count, Mode::ValueDue);
            rest = &rest[count..];
        }
        piece.len() - rest.len()
    }
}
