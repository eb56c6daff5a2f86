//! The ranges of bytes of N parts.

ghost use Rattle.std.specs.Prelude.{◌≡◌, ◌<◌, ◌≤◌, min};
ghost use Rattle.file_parts.specs.Ranges.{range_begin};

/// One of several parts, counted from 1.
#[derive(Clone, Copy)]
pub struct Share {
    /// Which part it is, from 1 to `parts`.
    pub number: u64,
    /// How many parts there are, at least 1.
    pub parts: u64,
    ghost some: { 0 < number },
    ghost within: { number ≤ parts },
}

impl Share {
    ghost use Rattle.std.specs.Prelude.{◌≡◌, ◌≤◌, ◌<◌, ◌-◌, ◌↔◌, IsSome, IfSome};
    ghost use Rattle.file_parts.specs.Ranges.{range_begin};

    /// The part of this number, of `parts` parts. `None` where the number is 0 or greater than `parts`.
    pub fn new(number: u64, parts: u64) -> Option<Share>
        ensures value { IfSome result (λ share. (share.number ≡ number) × (share.parts ≡ parts)) }
        ensures some { IsSome result ↔ ((0 < number) × (number ≤ parts)) }
    {
        if number > 0 && number <= parts {
            Some(Share { number, parts })
        } else {
            None
        }
    }

    /// The byte offset where its range begins in a text of `size` bytes.
    pub fn from(self, size: u64) -> u64
        ensures value { result ≡ range_begin size self.parts (self.number - 1) }
        ensures within { result ≤ size }
    {
        range_begin(size, self.parts, self.number - 1)
    }

    /// The byte offset where its range ends in a text of `size` bytes, and the next begins.
    pub fn until(self, size: u64) -> u64
        ensures value { result ≡ range_begin size self.parts self.number }
        ensures within { result ≤ size }
        ensures some { 0 < size → 0 < result }
    {
        range_begin(size, self.parts, self.number)
    }
}

/// Where the range after `before` of `parts` ranges begins: their sizes differ by one byte at most.
fn range_begin(size: u64, parts: u64, before: u64) -> u64
    requires some { 0 < parts }
    requires few { before ≤ parts }
    ensures value { result ≡ range_begin size parts before }
    ensures within { result ≤ size }
    ensures some { 0 < size → 0 < before → 0 < result }
{
    before * (size / parts) + lesser(before, size % parts)
}

/// The lesser of two numbers.
fn lesser(one: u64, other: u64) -> u64
    ensures { result ≡ min one other }
{
    if one < other { one } else { other }
}
