//! The line with the path of the value that breaks a rule.
ghost use Rattle.std.specs.Prelude.{◌+◌, ◌*◌, ◌≤◌, length};
ghost use Rattle.gj_json.specs.Path.{steps_of};
ghost use Rattle.geolint.specs.Report.{step_text, steps_text, path_line_if};
ghost use Rattle.geolint.specs.Room.{written_in, Adds};
ghost use Rattle.geolint.specs.declared.room.TheConstants.{CAPACITY, MOST_LINE, MOST_STEP, MOST_STEPS};

use crate::room::Room;
use gj_json::{Path, PathStep};
use itoa::Buffer;

fn push_step(step: PathStep, room: &mut Room)
    requires { length (written_in room.old) + MOST_STEP ≤ CAPACITY }
    ensures text { Adds room.old room.new (step_text step) }
    ensures short { length (written_in room.new) ≤ length (written_in room.old) + MOST_STEP }
{
    match step {
        PathStep::Index(index) => {
            let mut digits = Buffer::new();
            let place = digits.format(index).as_bytes();
            room.push_all(&[b"[", place, b"]"]);
        }
        PathStep::Member(name) => room.push_all(&[b".", name.text().as_bytes()]),
    }
}

/// All steps, from the root.
fn push_steps(path: &Path, room: &mut Room)
    requires { length (written_in room.old) + MOST_STEPS * MOST_STEP ≤ CAPACITY }
    ensures text { Adds room.old room.new (steps_text (steps_of path.now)) }
    ensures short { length (written_in room.new) ≤ length (written_in room.old) + MOST_STEPS * MOST_STEP }
{
    for i in 0..path.len() {
        if let Some(step) = path.step(i) {
            push_step(step, room);
        }
    }
}

/// The line of a path, where there is one.
#[tactic(auto, unfolding(crate::specs::Report::path_line_if))]
pub fn push_path(path: Option<Path>, room: &mut Room)
    requires { length (written_in room.old) ≤ 2 * MOST_LINE }
    ensures { Adds room.old room.new (path_line_if path) }
{
    if let Some(path) = path {
        room.push(b"path $");
        push_steps(&path, room);
        room.push(b"\n");
    }
}
