//! What a text may have at the most (RFC 8259, section 9).
ghost use Rattle.std.specs.Prelude.{◌≡◌};
ghost use Rattle.std.specs.Option.{SomeIff};

use std::marker::Model;

/// The most arrays and objects that can be open at once. All that depends on how deep a text may nest follows from it.
pub const MOST_LEVELS: u16 = 256;

const MOST_BYTES: u64 = 1 << 60;

/// How deep the arrays and objects of a text may nest, and how many bytes it may have, a byte order mark among them.
#[derive(Clone, Copy, PartialEq, Eq)]
pub struct Limits {
    bytes: u64,
    depth: u16,
}

impl Model for Limits {
    ghost use Rattle.gj_json.specs.Limits.{Allowed, allowed_code, IsAllowed};

    ghost Value = { Allowed };

    ghost coded = { allowed_code };

    ghost view = { λ l. record { depth = l.depth; bytes = l.bytes } };

    ghost inverse = { λ a. record { bytes = a.bytes; depth = a.depth } };

    ghost invariant = { λ l. IsAllowed l.depth l.bytes };
}

impl Limits {
    ghost use Rattle.gj_json.specs.Limits.{IsAllowed, most};

    /// The limits, or `None` where the depth is not from 1 to [`MOST_LEVELS`] or the number of bytes not from 1 to 2^60.
    pub fn new(depth: u16, bytes: u64) -> Option<Limits>
        ensures { SomeIff result (IsAllowed depth bytes) (record { depth = depth; bytes = bytes }) }
    {
        if depth < 1 || depth > MOST_LEVELS || bytes < 1 || bytes > MOST_BYTES {
            return None;
        }
        Some(Limits { bytes, depth })
    }

    /// The widest limits: [`MOST_LEVELS`] and 2^60 bytes.
    pub fn usual() -> Limits
        ensures { result ≡ most }
    {
        Limits {
            bytes: MOST_BYTES,
            depth: MOST_LEVELS,
        }
    }

    /// The most arrays and objects that may be open at once.
    pub fn depth(&self) -> u16
        ensures value { result ≡ self.now.depth }
        ensures allowed { IsAllowed self.now.depth self.now.bytes }
    {
        self.depth
    }

    /// The most bytes that a text may have.
    pub fn bytes(&self) -> u64
        ensures value { result ≡ self.now.bytes }
        ensures allowed { IsAllowed self.now.depth self.now.bytes }
    {
        self.bytes
    }
}
