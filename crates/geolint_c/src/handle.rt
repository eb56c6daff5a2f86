//! A text that comes in pieces, checked by a handle: the calls over values, and those of C on a handle in memory that the host
//! provides. Only the latter, here and of the other handles, lead from a pointer to a value, and they are proved by hand. At null a
//! call answers that, and does nothing.
ghost use Rattle.std.specs.Prelude.{◌≡◌};
ghost use denote.Memory.{lone};
ghost use prog.Memory.{size, align};
ghost use Rattle.geolint_c.specs.contracts.handle.Handle.{the_row};
ghost use Rattle.geolint_c.specs.Handle.{status_of, IsBegun, BegunStatus, IsFed, IsOffset, IsDoomed, IsLevels, IsFinished};
ghost use Rattle.geolint_c.specs.Report.{no_report};
ghost use Rattle.geolint_c.specs.Stream.{HasRoom, Holds, Leaves};

use crate::features::FeatureHandle;
use crate::join::JoinHandle;
use crate::locator::LocatorHandle;
use crate::options::limits_of;
use crate::records::RecordHandle;
use crate::report::{Report, no_report, report_of};
use crate::run::RunHandle;
use crate::status::{DONE, ENDED, LIMITS, NULL, REFUSED};
use gj_json::Limits;
use gj_rules::{Linter, Progress};
use std::mem::{align_of, size_of};

/// A linter until it has ended.
#[derive(Drop)]
pub struct Handle {
    /// None where the limits are not allowed. It stays where it is at the end, since it is large.
    linter: Option<Linter>,
    ended: bool,
}

/// The number by which a call reports what a piece shows.
pub fn status_of(shown: Progress) -> u32
    ensures { result ≡ status_of shown }
{
    match shown {
        Progress::Open => DONE,
        Progress::Refused(_) => REFUSED,
    }
}

impl Handle {
    /// Before the first byte of an input under these limits; where they are not allowed, a handle that has ended.
    pub fn begun(max_depth: u32, max_bytes: u64) -> Handle
        ensures { IsBegun max_depth max_bytes result }
    {
        let limits = limits_of(max_depth, max_bytes);
        let linter = match limits {
            Some(limits) => Some(Linter::new(limits)),
            None => None,
        };
        Handle {
            linter,
            ended: limits.is_none(),
        }
    }

    /// As `begun`, whatever the handle was. Where it has a linter, little is written.
    pub fn begin_again(&mut self, max_depth: u32, max_bytes: u64) -> u32
        ensures { IsBegun max_depth max_bytes self.new × BegunStatus max_depth max_bytes result }
    {
        let Some(limits) = limits_of(max_depth, max_bytes) else {
            self.ended = true;
            return LIMITS;
        };
        match &mut self.linter {
            Some(linter) => {
                let _ = linter.finish_and_begin(limits);
            }
            None => self.linter = Some(Linter::new(limits)),
        }
        self.ended = false;
        DONE
    }

    /// Takes the next bytes of the input.
    pub fn feed(&mut self, piece: &[u8]) -> u32
        ensures { IsFed self.old piece.now result self.new }
    {
        match &mut self.linter {
            Some(linter) if !self.ended => status_of(linter.feed(piece)),
            _ => ENDED,
        }
    }

    /// How many bytes were taken: the place of the refused one, once there was one.
    pub fn offset(&mut self) -> u64
        ensures { IsOffset self.old result self.new }
    {
        match &self.linter {
            Some(linter) if !self.ended => linter.offset(),
            _ => 0,
        }
    }

    /// 1 where no input that begins with the bytes fed is valid, as far as that is seen early; otherwise 0.
    pub fn doomed(&mut self) -> u32
        ensures { IsDoomed self.old result self.new }
    {
        match &self.linter {
            Some(linter) if !self.ended && linter.doomed() => 1,
            _ => 0,
        }
    }

    /// How many arrays and objects are open after the bytes that were taken.
    pub fn levels(&mut self) -> u32
        ensures { IsLevels self.old result self.new }
    {
        match &self.linter {
            Some(linter) if !self.ended => linter.levels() as u32,
            _ => 0,
        }
    }

    /// The verdict of what was fed, and the end of the handle.
    pub fn finish(&mut self) -> Report
        ensures { IsFinished self.old result self.new }
    {
        if self.ended {
            return no_report(ENDED);
        }
        self.ended = true;
        match &mut self.linter {
            Some(linter) => report_of(&linter.finish_and_begin(Limits::usual())),
            None => no_report(ENDED),
        }
    }
}

/// What beginning a handle under these limits answers.
pub fn begun_status(max_depth: u32, max_bytes: u64) -> u32
    ensures { BegunStatus max_depth max_bytes result }
{
    match limits_of(max_depth, max_bytes) {
        Some(_) => DONE,
        None => LIMITS,
    }
}

/// The memory of a handle, as C sees it.
#[repr(C)]
pub struct Memory {
    first: u64,
}

/// How many bytes a handle takes.
#[unsafe(no_mangle)]
pub extern "C" fn geolint_size() -> usize
    ensures { result ≡ size (lone the_row.mir) }
{
    size_of::<Handle>()
}

/// At a multiple of what address a handle lies.
#[unsafe(no_mangle)]
pub extern "C" fn geolint_alignment() -> usize
    ensures { result ≡ align (lone the_row.mir) }
{
    align_of::<Handle>()
}

/// All handles.
type Handles = (
    Handle,
    FeatureHandle,
    RecordHandle,
    LocatorHandle,
    RunHandle,
    JoinHandle,
);

// Each lies where this one may lie.
const _: () = prove!(align_of::<Handles>() <= align_of::<Handle>());

/// Its bound says that such a value may go to any thread.
fn is_for_any_thread<T: Send>(_value: &T) {}

/// A handle may go from one thread to another between two calls: the check of this call sees that the type of each is `Send`.
fn may_move(handles: &Handles) {
    is_for_any_thread(handles);
}

/// Begins a handle in this memory, before the first byte of an input. Where the limits are not allowed, it has ended.
#[unsafe(no_mangle)]
pub unsafe extern "C" fn geolint_begin(memory: *mut Memory, max_depth: u32, max_bytes: u64) -> u32
    requires* { HasRoom 𝓛 the_row memory }
    ensures* begun { Leaves 𝓛 the_row memory (result ≡ 4) (λ new. IsBegun max_depth max_bytes new × BegunStatus max_depth max_bytes result) }
{
    begin_at!(memory as Handle, begun_status(max_depth, max_bytes))
}

/// As `geolint_begin`, in memory that has a handle. It writes little where that one was begun well: 200 KB lie in it.
#[unsafe(no_mangle)]
pub unsafe extern "C" fn geolint_begin_again(
    memory: *mut Memory,
    max_depth: u32,
    max_bytes: u64,
) -> u32
    ghost held: { Handle }
    requires* { Holds 𝓛 the_row memory held }
    ensures* begun { Leaves 𝓛 the_row memory (result ≡ 4) (λ new. IsBegun max_depth max_bytes new × BegunStatus max_depth max_bytes result) }
{
    at_handle!(memory as Handle, NULL, begin_again(max_depth, max_bytes))
}

/// Takes the next bytes of the input.
#[unsafe(no_mangle)]
pub unsafe extern "C" fn geolint_feed(memory: *mut Memory, piece: &[u8]) -> u32
    ghost held: { Handle }
    requires* { Holds 𝓛 the_row memory held }
    ensures* fed { Leaves 𝓛 the_row memory (result ≡ 4) (IsFed held piece.now result) }
{
    at_handle!(memory as Handle, NULL, feed(piece))
}

/// How many bytes were taken: the place of the refused one, once there was one.
#[unsafe(no_mangle)]
pub unsafe extern "C" fn geolint_offset(memory: *mut Memory) -> u64
    ghost held: { Handle }
    requires* { Holds 𝓛 the_row memory held }
    ensures* told { Leaves 𝓛 the_row memory (result ≡ 0) (IsOffset held result) }
{
    at_handle!(memory as Handle, 0, offset())
}

/// 1 where no input that begins with the bytes fed is valid, as far as that is seen early; otherwise 0.
#[unsafe(no_mangle)]
pub unsafe extern "C" fn geolint_doomed(memory: *mut Memory) -> u32
    ghost held: { Handle }
    requires* { Holds 𝓛 the_row memory held }
    ensures* told { Leaves 𝓛 the_row memory (result ≡ 0) (IsDoomed held result) }
{
    at_handle!(memory as Handle, 0, doomed())
}

/// How many arrays and objects are open after the bytes that were taken.
#[unsafe(no_mangle)]
pub unsafe extern "C" fn geolint_levels(memory: *mut Memory) -> u32
    ghost held: { Handle }
    requires* { Holds 𝓛 the_row memory held }
    ensures* told { Leaves 𝓛 the_row memory (result ≡ 0) (IsLevels held result) }
{
    at_handle!(memory as Handle, 0, levels())
}

/// The verdict of what was fed, and the end of the handle.
#[unsafe(no_mangle)]
pub unsafe extern "C" fn geolint_finish(memory: *mut Memory) -> Report
    ghost held: { Handle }
    requires* { Holds 𝓛 the_row memory held }
    ensures* finished { Leaves 𝓛 the_row memory (result ≡ no_report 4) (IsFinished held result) }
{
    at_handle!(memory as Handle, no_report(NULL), finish())
}
