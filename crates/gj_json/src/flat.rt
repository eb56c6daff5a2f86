//! Arrays of a few ordinary numbers, which are reported at once.

ghost use Rattle.std.specs.Prelude.{◌≤◌};
ghost use Rattle.std.specs.Option.{option_map_or};

use gj_number::Short;

/// An ordinary number, and the place of its first byte.
#[derive(Clone, Copy)]
pub struct Numbered {
    pub value: Short,
    /// How many bytes of the text come before it.
    pub place: u64,
}

/// An array of two or three ordinary numbers, with the places of its brackets and of its numbers, as bytes from the start
/// of the text. No number stands before the bracket.
#[derive(Clone, Copy)]
pub struct Flat {
    pub first: Numbered,
    pub second: Numbered,
    pub third: Option<Numbered>,
    /// The place of `[`.
    pub place: u64,
    /// The place of `]`.
    pub close: u64,
    ghost first_on: { place ≤ first.place },
    ghost second_on: { place ≤ second.place },
    ghost third_on: { place ≤ option_map_or (λ number. number.place) third place },
}

impl Numbered {
    /// A number to read one into.
    pub(crate) fn blank() -> Numbered {
        Numbered {
            value: Short::zero(),
            place: 0,
        }
    }
}

impl Flat {
    /// An array to read one into.
    pub(crate) fn blank() -> Flat {
        Flat {
            first: Numbered::blank(),
            second: Numbered::blank(),
            third: None,
            place: 0,
            close: 0,
        }
    }
}
