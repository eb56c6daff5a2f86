//! Where the text stands in the bytes of a program.
ghost use Rattle.std.specs.Prelude.{◌≡◌};
ghost use Rattle.geolint_report.specs.BuildPlaces.{IsBuildPlace, IsWithin, is_text};

use memchr::memchr;
use memchr::memmem::rfind;

/// What comes before the text. It is among the program's constants too, with another of them after it.
const MARK: [u8; 14] = *b"geolint-build:";

/// The bytes of a file from one place up to another.
#[derive(Clone, Copy, Debug, PartialEq, Eq)]
pub struct BuildPlace {
    /// The byte offset of the first.
    pub start: usize,
    /// The byte offset after the last.
    pub end: usize,
}

/// Whether these bytes after a mark begin as the text does, which says the commit in its first line.
// No constant has these two bytes, or it might stand after the mark.
fn is_text(rest: &[u8]) -> bool
    ensures { result ≡ is_text rest.now }
{
    rest.len() > 1 && rest[0] == b'\n' && rest[1] == b'c'
}

/// Where the text on a program's build stands in the bytes of its file: after the last mark, up to the next NUL. `None` where
/// no text follows that mark.
pub fn build_place(file: &[u8]) -> Option<BuildPlace>
    ensures place { IsBuildPlace file.now result }
    ensures within { IsWithin file.now result }
{
    let Some(mark) = rfind(file, &MARK) else {
        return None;
    };
    let start = mark + MARK.len();
    let rest = &file[start..];
    if !is_text(rest) {
        return None;
    }
    match memchr(0, rest) {
        Some(count) => Some(BuildPlace {
            start: start + 1,
            end: start + count,
        }),
        None => None,
    }
}
