//! The `id` of a feature, as it is written.

use crate::source::Rewind;
use crate::written::{MOST_BYTES, front, written_length};
use std::io;

/// The first bytes of an `id`.
#[derive(Clone, Copy)]
pub struct Id {
    bytes: [u8; MOST_BYTES],
    count: usize,
}

impl Id {
    ghost use Rattle.std.specs.Prelude.{◌≡◌};

    /// Of a feature that has none.
    pub fn none() -> Id {
        Id {
            bytes: [0; MOST_BYTES],
            count: 0,
        }
    }

    /// The value at a place of a source, in its first 40 characters.
    pub fn at<S: Rewind>(source: &mut S, place: u64) -> io::Result<Id>
        ensures text { S.text source.new ≡ S.text source.old }
    {
        let mut bytes = [0; MOST_BYTES];
        let count = source.read_from(place, &mut bytes)?;
        let count = written_length(&bytes[..count]);
        Ok(Id { bytes, count })
    }

    /// Its bytes, as they stand in the file.
    pub fn bytes(&self) -> &[u8] {
        front(&self.bytes, self.count)
    }
}
