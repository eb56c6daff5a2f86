//! The report of a valid text.
ghost use Rattle.std.specs.Prelude.{◌+◌, ◌*◌, ◌≤◌, ◌++◌, Some, codes, length};
ghost use Rattle.gj_coords.specs.Warnings.{kinds};
ghost use Rattle.geolint.specs.Report.{warning_line};
ghost use Rattle.geolint.specs.Room.{written_in, Adds};
ghost use Rattle.geolint.specs.VerdictReport.{told_line, told_lines};
ghost use Rattle.geolint.specs.declared.room.TheConstants.{CAPACITY, MOST_LINE};

use crate::room::Room;
use gj_coords::{KINDS, Kind, Warnings};
use itoa::Buffer;

/// The line of a kind with this number of warnings, the first of them at this place.
fn push_warning(kind: Kind, count: u32, place: u64, room: &mut Room)
    requires { length (written_in room.old) + MOST_LINE ≤ CAPACITY }
    ensures line { Adds room.old room.new (warning_line kind count (Some place)) }
    ensures short { length (written_in room.new) ≤ length (written_in room.old) + MOST_LINE }
{
    let mut number_digits = Buffer::new();
    let number = number_digits.format(kind.number()).as_bytes();
    let mut count_digits = Buffer::new();
    let counted = count_digits.format(count).as_bytes();
    let mut place_digits = Buffer::new();
    let first = place_digits.format(place).as_bytes();
    room.push_all(&[
        b"warning W",
        number,
        b" count ",
        counted,
        b" first ",
        first,
        b": ",
        kind.text().as_bytes(),
        b"\n",
    ]);
}

/// The line of a kind, where there is a warning of it.
fn push_kind(kind: Kind, warnings: &Warnings, room: &mut Room)
    requires { length (written_in room.old) + MOST_LINE ≤ CAPACITY }
    ensures line { Adds room.old room.new (told_line warnings.now kind) }
    ensures short { length (written_in room.new) ≤ length (written_in room.old) + MOST_LINE }
{
    if let Some(place) = warnings.first(kind) {
        push_warning(kind, warnings.count(kind), place, room);
    }
}

/// The lines of all kinds.
pub fn push_warnings(warnings: &Warnings, room: &mut Room)
    requires { length (written_in room.old) + length kinds * MOST_LINE ≤ CAPACITY }
    ensures { Adds room.old room.new (told_lines warnings.now) }
{
    for kind in &KINDS {
        push_kind(*kind, warnings, room);
    }
}

/// The report of a valid text with these warnings.
pub fn push_valid(warnings: &Warnings, room: &mut Room)
    requires { length (written_in room.old) + (length kinds + 1) * MOST_LINE ≤ CAPACITY }
    ensures { Adds room.old room.new (codes "valid\n" ++ told_lines warnings.now) }
{
    room.push(b"valid\n");
    push_warnings(warnings, room);
}
