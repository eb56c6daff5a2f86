//! The bytes of a source from one place up to another.

ghost use Rattle.std.specs.Prelude.{◌≡◌, ◌≤◌, min};
ghost use Rattle.std.specs.Option.{option_map};
ghost use Rattle.file_parts.specs.Cuts.{bytes_between};

use geolint_report::source::{Rewind, Source};
use std::io;

/// A source of the bytes of another from one place up to another.
#[derive(Drop)]
pub struct Window<S> {
    /// The other source, which is read at byte offsets.
    pub source: S,
    /// The next byte.
    place: u64,
    end: u64,
    ghost ordered: { place ≤ end },
}

impl<S: Rewind> Window<S> {
    ghost use Rattle.std.specs.Prelude.{◌≡◌, ◌≤◌};
    ghost use Rattle.std.specs.Option.{option_map};
    ghost use Rattle.file_parts.specs.Cuts.{bytes_between};

    /// The bytes of a source from the offset `begin` up to the offset `end`, which is not less.
    pub fn new(source: S, begin: u64, end: u64) -> Window<S>
        requires { begin ≤ end }
        ensures bytes { ⟦<Window<S> as Source>⟧.remaining result ≡ option_map (bytes_between begin end) (S.text source) }
        ensures source { result.source ≡ source }
    {
        Window {
            source,
            place: begin,
            end,
        }
    }
}

impl<S: Rewind> Source for Window<S> {
    ghost remaining = { λ w. option_map (bytes_between w.place w.end) (S.text w.source) };

    ghost text = { λ w. S.text w.source };

    ghost failed_reads = { λ w. S.failed_reads w.source };

    fn read_piece(&mut self, piece: &mut [u8]) -> io::Result<usize> {
        match self.source.read_from(self.place, piece) {
            Ok(count) => {
                let taken = lesser(count, self.end - self.place);
                self.place += taken as u64;
                Ok(taken)
            }
            Err(error) => Err(error),
        }
    }
}

/// How many of the bytes read are in the window.
fn lesser(count: usize, left: u64) -> usize
    ensures { result ≡ min count left }
{
    if left < count as u64 {
        left as usize
    } else {
        count
    }
}
