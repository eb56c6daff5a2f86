//! A run of features, checked apart from the text that it stands in, by a handle: the calls over values, and those of C on a handle
//! in memory that the host provides.
ghost use Rattle.std.specs.Prelude.{◌≡◌, unwrap_or};
ghost use Rattle.std.specs.Option.{SomeIff};
ghost use denote.Memory.{lone};
ghost use prog.Memory.{size};
ghost use Rattle.gj_join.specs.Seams.{seam};
ghost use Rattle.geolint_c.specs.contracts.run.RunHandle.{the_row};
ghost use Rattle.geolint_c.specs.Options.{limits_meant};
ghost use Rattle.geolint_c.specs.Run.{MayBegin, IsBegun, BegunStatus, IsFed, IsTold};
ghost use Rattle.geolint_c.specs.Stream.{HasRoom, Holds, Leaves};
ghost use Rattle.geolint_c.specs.Sum.{no_sum};

use crate::handle::{Memory, status_of};
use crate::options::limits_of;
use crate::status::{DONE, ENDED, LIMITS, NULL};
use crate::sum::{Sum, no_sum, sum_of};
use gj_join::{RunLinter, after_brace};
use gj_json::Limits;
use std::mem::size_of;

/// A linter of a run; None where it was not begun within the limits.
#[derive(Drop)]
pub struct RunHandle {
    run: Option<RunLinter>,
}

/// The limits, where a feature can have ended at this place within them.
fn limits_at(max_depth: u32, place: u64) -> Option<Limits>
    ensures { SomeIff result (MayBegin max_depth place) (limits_meant max_depth 0) }
{
    match limits_of(max_depth, 0) {
        Some(limits) if limits.depth() >= 3 && place >= 15 && place <= limits.bytes() => {
            Some(limits)
        }
        _ => None,
    }
}

impl RunHandle {
    /// Before the first byte after a feature that ends at this place.
    pub fn begun(max_depth: u32, place: u64) -> RunHandle
        ensures { IsBegun max_depth place result }
    {
        let run = match limits_at(max_depth, place) {
            Some(limits) => RunLinter::new(limits, place),
            None => None,
        };
        RunHandle { run }
    }

    /// Takes the next bytes.
    pub fn feed(&mut self, piece: &[u8]) -> u32
        ensures { IsFed self.old piece.now result self.new }
    {
        match &mut self.run {
            Some(run) => status_of(run.feed(piece)),
            None => ENDED,
        }
    }

    /// What is found in the longest run of whole features without a fault that the bytes begin with.
    pub fn sum(&mut self) -> Sum
        ensures { IsTold self.old result self.new }
    {
        match &self.run {
            Some(run) => sum_of(&run.sum(), run.has_ended()),
            None => no_sum(ENDED),
        }
    }
}

/// What beginning a handle at this place answers.
pub fn begun_status(max_depth: u32, place: u64) -> u32
    ensures { BegunStatus max_depth place result }
{
    match limits_at(max_depth, place) {
        Some(_) => DONE,
        None => LIMITS,
    }
}

/// How many bytes a handle takes. It lies where one of `geolint_size` may lie.
#[unsafe(no_mangle)]
pub extern "C" fn geolint_run_size() -> usize
    ensures { result ≡ size (lone the_row.mir) }
{
    size_of::<RunHandle>()
}

/// Begins a handle in this memory, before the first byte after a feature that ends at this place.
#[unsafe(no_mangle)]
pub unsafe extern "C" fn geolint_run_begin(memory: *mut Memory, max_depth: u32, place: u64) -> u32
    requires* { HasRoom 𝓛 the_row memory }
    ensures* begun { Leaves 𝓛 the_row memory (result ≡ 4) (λ new. IsBegun max_depth place new × BegunStatus max_depth place result) }
{
    begin_at!(memory as RunHandle, begun_status(max_depth, place))
}

/// Takes the next bytes.
#[unsafe(no_mangle)]
pub unsafe extern "C" fn geolint_run_feed(memory: *mut Memory, piece: &[u8]) -> u32
    ghost held: { RunHandle }
    requires* { Holds 𝓛 the_row memory held }
    ensures* fed { Leaves 𝓛 the_row memory (result ≡ 4) (IsFed held piece.now result) }
{
    at_handle!(memory as RunHandle, NULL, feed(piece))
}

/// What is found in the run.
#[unsafe(no_mangle)]
pub unsafe extern "C" fn geolint_run_sum(memory: *mut Memory) -> Sum
    ghost held: { RunHandle }
    requires* { Holds 𝓛 the_row memory held }
    ensures* told { Leaves 𝓛 the_row memory (result ≡ no_sum 4) (IsTold held result) }
{
    at_handle!(memory as RunHandle, no_sum(NULL), sum())
}

/// After how many of these bytes a run may begin: 0 where there is no such place.
#[unsafe(no_mangle)]
pub extern "C" fn geolint_run_likely(bytes: &[u8]) -> usize
    ensures { result ≡ unwrap_or (seam bytes.now) 0 }
{
    match after_brace(bytes) {
        Some(count) => count,
        None => 0,
    }
}
