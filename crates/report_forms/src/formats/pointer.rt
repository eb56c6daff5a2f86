//! A path as a JSON pointer (RFC 6901).
ghost use Rattle.std.specs.Prelude.{◌≡◌, OnOk};
ghost use Rattle.std.specs.List.{flat_map, list_all};
ghost use Rattle.gj_json.specs.Path.{steps_of};
ghost use Rattle.geolint_report.specs.Line.{Adds};
ghost use Rattle.report_forms.specs.Forms.Pointers.{is_named, pointer, pointer_or_null, pointer_step};

use geolint_report::line::{put, put_all};
use gj_json::{Known, Path, PathStep};
use itoa::Buffer;
use std::alloc::AllocError;

/// Puts the pointer as a string: `null` where the path has a name that the standard does not know. No byte of it is one that
/// a pointer or a JSON string escapes.
pub fn put_pointer_or_null(path: &Path, line: &mut Vec<u8>) -> Result<(), AllocError>
    ensures { OnOk result (Adds line.old line.new (pointer_or_null (steps_of path.now))) }
{
    if are_named(path) {
        put_pointer(path, line)
    } else {
        put(line, b"null")
    }
}

/// Whether each name of a path is known.
fn are_named(path: &Path) -> bool
    ensures { result ≡ list_all is_named (steps_of path.now) }
{
    let mut are_named = true;
    for i in 0..path.len() {
        if let Some(step) = path.step(i) {
            are_named = are_named & is_named(step);
        }
    }
    are_named
}

fn is_named(step: PathStep) -> bool
    ensures { result ≡ is_named step }
{
    match step {
        PathStep::Member(Known::Other) => false,
        _ => true,
    }
}

#[tactic(auto, unfolding(crate::specs::Forms::Pointers::pointer))]
fn put_pointer(path: &Path, line: &mut Vec<u8>) -> Result<(), AllocError>
    ensures { OnOk result (Adds line.old line.new (pointer (steps_of path.now))) }
{
    put(line, b"\"")?;
    put_steps(path, line)?;
    put(line, b"\"")
}

fn put_steps(path: &Path, line: &mut Vec<u8>) -> Result<(), AllocError>
    ensures { OnOk result (Adds line.old line.new (flat_map pointer_step (steps_of path.now))) }
{
    for i in 0..path.len() {
        if let Some(step) = path.step(i) {
            put_step(step, line)?;
        }
    }
    Ok(())
}

fn put_step(step: PathStep, line: &mut Vec<u8>) -> Result<(), AllocError>
    ensures { OnOk result (Adds line.old line.new (pointer_step step)) }
{
    match step {
        PathStep::Index(index) => {
            let mut digits = Buffer::new();
            put_all(line, &[b"/", digits.format(index).as_bytes()])
        }
        PathStep::Member(name) => put_all(line, &[b"/", name.text().as_bytes()]),
    }
}
