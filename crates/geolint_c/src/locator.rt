//! The path to a place, by a handle: the calls over values, and those of C on a handle in memory that the host provides.
ghost use Rattle.std.specs.Prelude.{◌≡◌, ◌++◌, ◌+◌, ◌≤◌, length, slice_get};
ghost use denote.Memory.{lone};
ghost use prog.Memory.{size};
ghost use Rattle.gj_json.specs.Path.{steps_of};
ghost use Rattle.geolint_c.specs.contracts.locator.LocatorHandle.{the_row};
ghost use Rattle.geolint_c.specs.Handle.{BegunStatus};
ghost use Rattle.geolint_c.specs.Locator.{IsBegun, IsFed, IsStep, shown, step_text, no_step, Shows};
ghost use Rattle.geolint_c.specs.Stream.{HasRoom, Holds, Leaves};
ghost use Rattle.geolint_c.specs.declared.locator.TheConstants.{STEP_ROOM};

use crate::handle::{Memory, begun_status};
use crate::options::limits_of;
use crate::status::{DONE, ENDED, NULL, REFUSED};
use gj_json::{Locator, Path, PathStep};
use itoa::Buffer;
use std::mem::size_of;

/// No step has a longer text: that to an element with an index of 20 digits has 22 bytes.
const STEP_ROOM: usize = 24;

/// The text of a step of a path, with bytes 0 after it; no bytes where there is no such step.
#[repr(C)]
#[derive(Clone, Copy)]
pub struct StepText {
    pub size: u64,
    pub bytes: [u8; STEP_ROOM],
}

/// A locator; None where the limits are not allowed.
#[derive(Drop)]
pub struct LocatorHandle {
    locator: Option<Locator>,
}

/// No text.
pub fn no_step() -> StepText
    ensures { result ≡ no_step }
{
    StepText {
        size: 0,
        bytes: [0; STEP_ROOM],
    }
}

impl StepText {
    /// Appends bytes.
    fn put(&mut self, bytes: &[u8])
        requires { self.old.size + length bytes.now ≤ STEP_ROOM }
        ensures text { shown self.new ≡ shown self.old ++ bytes.now }
        ensures size { self.new.size ≡ self.old.size + length bytes.now }
    {
        let from = self.size as usize;
        let to = from + bytes.len();
        self.bytes[from..to].copy_from_slice(bytes);
        self.size = to as u64;
    }
}

/// The text of a step.
fn step_text(step: PathStep) -> StepText
    ensures { shown result ≡ step_text step }
{
    let mut text = no_step();
    match step {
        PathStep::Index(index) => {
            let mut digits = Buffer::new();
            text.put(b"[");
            text.put(digits.format(index).as_bytes());
            text.put(b"]");
        }
        PathStep::Member(name) => {
            text.put(b".");
            text.put(name.text().as_bytes());
        }
    }
    text
}

/// The text of the step at `i` of a path; that there is none, where the path is shorter.
fn step_in(path: &Path, i: u32) -> StepText
    ensures { Shows (slice_get (steps_of path.now) i) result }
{
    if i >= path.len() as u32 {
        return no_step();
    }
    match path.step(i as u16) {
        Some(step) => step_text(step),
        None => no_step(),
    }
}

impl LocatorHandle {
    /// Before the first byte of a text under these limits.
    pub fn begun(max_depth: u32, max_bytes: u64) -> LocatorHandle
        ensures { IsBegun max_depth max_bytes result }
    {
        let locator = match limits_of(max_depth, max_bytes) {
            Some(limits) => Some(Locator::new(limits)),
            None => None,
        };
        LocatorHandle { locator }
    }

    /// Takes the next bytes of the text.
    pub fn feed(&mut self, piece: &[u8]) -> u32
        ensures { IsFed self.old piece.now result self.new }
    {
        match &mut self.locator {
            Some(locator) => match locator.feed(piece) {
                Ok(()) => DONE,
                Err(_) => REFUSED,
            },
            None => ENDED,
        }
    }

    /// The text of a step of the path, counted from 0 at the root.
    pub fn step(&mut self, i: u32) -> StepText
        ensures { IsStep self.old i result self.new }
    {
        match &self.locator {
            Some(locator) => step_in(&locator.path(), i),
            None => no_step(),
        }
    }
}

/// How many bytes a handle takes. It lies where one of `geolint_size` may lie.
#[unsafe(no_mangle)]
pub extern "C" fn geolint_locator_size() -> usize
    ensures { result ≡ size (lone the_row.mir) }
{
    size_of::<LocatorHandle>()
}

/// Begins a handle in this memory, before the first byte of an input. Where the limits are not allowed, it has ended.
#[unsafe(no_mangle)]
pub unsafe extern "C" fn geolint_locator_begin(
    memory: *mut Memory,
    max_depth: u32,
    max_bytes: u64,
) -> u32
    requires* { HasRoom 𝓛 the_row memory }
    ensures* begun { Leaves 𝓛 the_row memory (result ≡ 4) (λ new. IsBegun max_depth max_bytes new × BegunStatus max_depth max_bytes result) }
{
    begin_at!(memory as LocatorHandle, begun_status(max_depth, max_bytes))
}

/// Takes the next bytes of the text.
#[unsafe(no_mangle)]
pub unsafe extern "C" fn geolint_locator_feed(memory: *mut Memory, piece: &[u8]) -> u32
    ghost held: { LocatorHandle }
    requires* { Holds 𝓛 the_row memory held }
    ensures* fed { Leaves 𝓛 the_row memory (result ≡ 4) (IsFed held piece.now result) }
{
    at_handle!(memory as LocatorHandle, NULL, feed(piece))
}

/// The text of a step of the path, counted from 0 at the root.
#[unsafe(no_mangle)]
pub unsafe extern "C" fn geolint_locator_step(memory: *mut Memory, i: u32) -> StepText
    ghost held: { LocatorHandle }
    requires* { Holds 𝓛 the_row memory held }
    ensures* told { Leaves 𝓛 the_row memory (result ≡ no_step) (IsStep held i result) }
{
    at_handle!(memory as LocatorHandle, no_step(), step(i))
}
