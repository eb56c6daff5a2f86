//! A text of which runs of features are passed over, by a handle: the calls over values, and those of C on a handle in memory that
//! the host provides.
ghost use Rattle.std.specs.Prelude.{◌≡◌};
ghost use denote.Memory.{lone};
ghost use prog.Memory.{size};
ghost use Rattle.geolint_c.specs.contracts.join.JoinHandle.{the_row};
ghost use Rattle.geolint_c.specs.Handle.{BegunStatus};
ghost use Rattle.geolint_c.specs.Join.{IsBegun, IsFed, IsPassed, IsFinished};
ghost use Rattle.geolint_c.specs.Report.{no_report};
ghost use Rattle.geolint_c.specs.Stream.{HasRoom, Holds, Leaves};

use crate::handle::{Memory, begun_status, status_of};
use crate::options::limits_of;
use crate::report::{Report, no_report, report_of};
use crate::status::{ENDED, NULL};
use crate::sum::{Sum, sum_said};
use gj_join::Joiner;
use std::mem::size_of;

/// A joiner until it has ended.
#[derive(Drop)]
pub struct JoinHandle {
    /// None where the limits are not allowed. It stays where it is at the end, since it is large.
    joiner: Option<Joiner>,
    ended: bool,
}

impl JoinHandle {
    /// Before the first byte of a text under these limits; where they are not allowed, a handle that has ended.
    pub fn begun(max_depth: u32, max_bytes: u64) -> JoinHandle
        ensures { IsBegun max_depth max_bytes result }
    {
        let joiner = match limits_of(max_depth, max_bytes) {
            Some(limits) => Some(Joiner::new(limits)),
            None => None,
        };
        let ended = joiner.is_none();
        JoinHandle { joiner, ended }
    }

    /// Takes the next bytes of the text.
    pub fn feed(&mut self, piece: &[u8]) -> u32
        ensures { IsFed self.old piece.now result self.new }
    {
        match &mut self.joiner {
            Some(joiner) if !self.ended => status_of(joiner.feed(piece)),
            _ => ENDED,
        }
    }

    /// Passes over the run that has this sum, where a feature has ended right where it begins, and the limits leave room for it: 1 where it
    /// did, otherwise 0, and then nothing changes.
    pub fn pass_over(&mut self, sum: &Sum) -> u32
        ensures { IsPassed self.old sum.now result self.new }
    {
        match &mut self.joiner {
            Some(joiner) if !self.ended => {
                if joiner.pass_over(&sum_said(sum)) {
                    1
                } else {
                    0
                }
            }
            _ => 0,
        }
    }

    /// The verdict of the text, and the end of the handle.
    pub fn finish(&mut self) -> Report
        ensures { IsFinished self.old result self.new }
    {
        if self.ended {
            return no_report(ENDED);
        }
        self.ended = true;
        match &mut self.joiner {
            Some(joiner) => report_of(&joiner.end()),
            None => no_report(ENDED),
        }
    }
}

/// How many bytes a handle takes. It lies where one of `geolint_size` may lie.
#[unsafe(no_mangle)]
pub extern "C" fn geolint_join_size() -> usize
    ensures { result ≡ size (lone the_row.mir) }
{
    size_of::<JoinHandle>()
}

/// Begins a handle in this memory, before the first byte of a text. Where the limits are not allowed, it has ended.
#[unsafe(no_mangle)]
pub unsafe extern "C" fn geolint_join_begin(
    memory: *mut Memory,
    max_depth: u32,
    max_bytes: u64,
) -> u32
    requires* { HasRoom 𝓛 the_row memory }
    ensures* begun { Leaves 𝓛 the_row memory (result ≡ 4) (λ new. IsBegun max_depth max_bytes new × BegunStatus max_depth max_bytes result) }
{
    begin_at!(memory as JoinHandle, begun_status(max_depth, max_bytes))
}

/// Takes the next bytes of the text.
#[unsafe(no_mangle)]
pub unsafe extern "C" fn geolint_join_feed(memory: *mut Memory, piece: &[u8]) -> u32
    ghost held: { JoinHandle }
    requires* { Holds 𝓛 the_row memory held }
    ensures* fed { Leaves 𝓛 the_row memory (result ≡ 4) (IsFed held piece.now result) }
{
    at_handle!(memory as JoinHandle, NULL, feed(piece))
}

/// Passes over the run that has this sum: 1 where it did, otherwise 0.
#[unsafe(no_mangle)]
pub unsafe extern "C" fn geolint_join_pass_over(memory: *mut Memory, sum: &Sum) -> u32
    ghost held: { JoinHandle }
    requires* { Holds 𝓛 the_row memory held }
    ensures* passed { Leaves 𝓛 the_row memory (result ≡ 0) (IsPassed held sum.now result) }
{
    at_handle!(memory as JoinHandle, 0, pass_over(sum))
}

/// The verdict of the text, and the end of the handle.
#[unsafe(no_mangle)]
pub unsafe extern "C" fn geolint_join_finish(memory: *mut Memory) -> Report
    ghost held: { JoinHandle }
    requires* { Holds 𝓛 the_row memory held }
    ensures* finished { Leaves 𝓛 the_row memory (result ≡ no_report 4) (IsFinished held result) }
{
    at_handle!(memory as JoinHandle, no_report(NULL), finish())
}
