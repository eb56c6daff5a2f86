//! The line and the column of a place.
ghost use Rattle.std.specs.Prelude.{ℕ, ◌++◌, [], List};
ghost use Rattle.geolint_c.specs.Lines.{IsAfter};

use gj_places::Lines;

/// The line and the column of the place after some bytes, each from 1.
#[repr(C)]
#[derive(Clone, Copy)]
pub struct LineColumn {
    pub line: u64,
    pub column: u64,
}

/// Before the first byte.
#[unsafe(no_mangle)]
pub extern "C" fn geolint_lines_begin() -> LineColumn
    ensures { IsAfter result [] }
{
    let lines = Lines::new();
    LineColumn {
        line: lines.line,
        column: lines.column,
    }
}

/// After these bytes more.
#[unsafe(no_mangle)]
pub extern "C" fn geolint_lines_feed(before: LineColumn, piece: &[u8]) -> LineColumn
    ensures { (bytes : List ℕ) → IsAfter before bytes → IsAfter result (bytes ++ piece.now) }
{
    let mut lines = Lines {
        line: before.line,
        column: before.column,
    };
    lines.feed(piece);
    LineColumn {
        line: lines.line,
        column: lines.column,
    }
}
