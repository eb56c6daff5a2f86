//! The report of a sequence.
ghost use Rattle.std.specs.Prelude.{◌≡◌, ◌+◌, ◌*◌, ◌≤◌, ◌++◌, [], codes, length};
ghost use Rattle.gj_coords.specs.Warnings.{kinds};
ghost use Rattle.geolint.specs.Room.{written_in, Adds};
ghost use Rattle.geolint.specs.Sequence.{record_line, count_line};
ghost use Rattle.geolint.specs.VerdictReport.{told_lines, sequence_verdict_report};
ghost use Rattle.geolint.specs.declared.room.TheConstants.{CAPACITY, MOST_LINE};

use crate::report::push_report;
use crate::report::warnings::push_warnings;
use crate::room::Room;
use gj_coords::Warnings;
use gj_rules::SeqVerdict;
use itoa::Buffer;

/// The line of the record that is not valid.
fn push_record(number: u64, room: &mut Room)
    requires { length (written_in room.old) + MOST_LINE ≤ CAPACITY }
    ensures line { Adds room.old room.new (record_line number) }
    ensures short { length (written_in room.new) ≤ length (written_in room.old) + MOST_LINE }
{
    let mut digits = Buffer::new();
    let counted = digits.format(number).as_bytes();
    room.push_all(&[b"record ", counted, b"\n"]);
}

/// The line of the count of records.
fn push_count(count: u64, room: &mut Room)
    requires { length (written_in room.old) + MOST_LINE ≤ CAPACITY }
    ensures line { Adds room.old room.new (count_line count) }
    ensures short { length (written_in room.new) ≤ length (written_in room.old) + MOST_LINE }
{
    let mut digits = Buffer::new();
    let counted = digits.format(count).as_bytes();
    room.push_all(&[b"records ", counted, b"\n"]);
}

/// The report of a sequence with this number of records, all of them valid.
fn push_valid_sequence(records: u64, warnings: &Warnings, room: &mut Room)
    requires { length (written_in room.old) + (length kinds + 2) * MOST_LINE ≤ CAPACITY }
    ensures { Adds room.old room.new (codes "valid\n" ++ (count_line records ++ told_lines warnings.now)) }
{
    room.push(b"valid\n");
    push_count(records, room);
    push_warnings(warnings, room);
}

/// The report of the verdict of a sequence.
pub fn push_sequence_report(verdict: SeqVerdict, room: &mut Room)
    requires { written_in room.old ≡ [] }
    ensures { written_in room.new ≡ sequence_verdict_report verdict }
{
    match verdict {
        SeqVerdict::Valid { records, warnings } => push_valid_sequence(records, &warnings, room),
        SeqVerdict::Record { number, verdict } => {
            push_record(number, room);
            push_report(verdict, None, room);
        }
    }
}
