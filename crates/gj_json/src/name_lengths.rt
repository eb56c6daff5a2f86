//! Names of members, which are looked for first with the length of the last one at the same place.

ghost use Rattle.std.specs.Prelude.{◌<◌};
ghost use Rattle.gj_json.specs.declared.lanes.TheConstants.{LANES};

use crate::lanes::LANES;

/// The last place: members after it are counted from the first again.
const LAST: u8 = 31;

/// How many characters the names of members had last, by their place in the object. A name is looked for with that length
/// first, since objects mostly have the same names in the same order. Nothing rests on it.
#[derive(Clone, Copy)]
pub struct NameLengths {
    lengths: [u8; 32],
    /// The place of the next member.
    place: u8,
}

impl NameLengths {
    /// Before the first object.
    pub fn none() -> NameLengths {
        NameLengths {
            lengths: [0; 32],
            place: 0,
        }
    }

    /// Before the first member of an object. The members of an object in it are counted with its own.
    pub fn begin(&mut self) {
        self.place = 0;
    }

    /// How many characters the next name is expected to have, which are fewer than are looked at together.
    #[inline(always)]
    pub fn expect_next(&mut self) -> usize
        ensures { result < LANES }
    {
        let length = self.lengths[(self.place & LAST) as usize];
        self.place = self.place.wrapping_add(1);
        (length & 15) as usize
    }

    /// Notes how many characters the name has that `expect_next` was asked for last.
    pub fn note(&mut self, length: usize) {
        let place = self.place.wrapping_sub(1) & LAST;
        self.lengths[place as usize] = (length & 15) as u8;
    }
}
