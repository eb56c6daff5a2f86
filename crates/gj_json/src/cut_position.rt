//! Positions as their cut values, many of which are reported at once.

ghost use Rattle.std.specs.Prelude.{◌+◌, ◌^◌, ◌<◌, ◌≤◌};

/// An array of two ordinary numbers, with the cut value of each in place of its digits: the number times 10^7, cut toward
/// zero. A third number may stand after them, which has at most seven places.
///
/// Two dozen of them are written and read in turn, so each has 32 bytes.
#[derive(Clone, Copy)]
pub struct CutPosition {
    /// The cut value of the first number.
    pub first: i64,
    /// The cut value of the second number.
    pub second: i64,
    /// The place of `[`, in bytes from the start of the text.
    pub place: u64,
    /// How many bytes after `[` the first number begins, 1 at the least where it is reported.
    pub first_at: u16,
    /// How many bytes after `[` the second number begins.
    pub second_at: u16,
    /// How many bytes after `[` stands `]`.
    pub close_at: u16,
    /// Whether more than seven digits after the point of the first number say something.
    pub first_precise: bool,
    /// Whether more than seven digits after the point of the second number do.
    pub second_precise: bool,
    ghost between: { first_at ≤ second_at },
    ghost before: { second_at ≤ close_at },
    ghost within: { place + close_at < 2 ^ 64 },
}

impl CutPosition {
    ghost use Rattle.std.specs.Prelude.{◌≡◌};

    /// A position to write one over.
    pub(crate) fn blank() -> CutPosition {
        CutPosition {
            first: 0,
            second: 0,
            place: 0,
            first_at: 0,
            second_at: 0,
            close_at: 0,
            first_precise: false,
            second_precise: false,
        }
    }

    /// The place of the first number, in bytes from the start of the text.
    #[inline(always)]
    pub fn first_place(&self) -> u64
        ensures { result ≡ self.now.place + self.now.first_at }
    {
        self.place + self.first_at as u64
    }

    /// The place of the second number, in bytes from the start of the text.
    #[inline(always)]
    pub fn second_place(&self) -> u64
        ensures { result ≡ self.now.place + self.now.second_at }
    {
        self.place + self.second_at as u64
    }
}
