//! The records of an input that comes in pieces, pulled from a handle: the calls over values, and those of C on a handle in memory
//! that the host provides.
ghost use Rattle.std.specs.Prelude.{◌≡◌};
ghost use denote.Memory.{lone};
ghost use prog.Memory.{size};
ghost use Rattle.geolint_c.specs.contracts.records.RecordHandle.{the_row};
ghost use Rattle.geolint_c.specs.Finding.{no_finding, no_whole, no_progress};
ghost use Rattle.geolint_c.specs.Records.{framing_of, IsBegun, BegunStatus, IsFed, IsNext, IsOffset, IsFinished, over_status};
ghost use Rattle.geolint_c.specs.Stream.{HasRoom, Holds, Leaves};

use crate::finding::{
    Finding, Progress, Whole, no_finding, no_progress, no_whole, progress_of, whole_of,
};
use crate::handle::Memory;
use crate::last::LastRecord;
use crate::options::limits_of;
use crate::status::{DONE, ENDED, LIMITS, NONE, NULL, READY, REFUSED};
use gj_json::Limits;
use gj_rules::{Framing, Records};
use std::mem::size_of;

/// A checker of records that reports each, until it has ended.
#[derive(Drop)]
pub struct RecordHandle {
    /// None where the limits or the framing are not allowed. It stays where it is at the end, since it is large.
    records: Option<Records>,
    last: LastRecord,
    /// Whether the last record that was reported is not pulled yet.
    ready: bool,
    ended: bool,
}

/// The framing of this number.
fn framing_of(framing: u32) -> Option<Framing>
    ensures { result ≡ framing_of framing }
{
    match framing {
        0 => Some(Framing::Sequence),
        1 => Some(Framing::Lines),
        _ => None,
    }
}

fn over_status(is_over: bool) -> u32
    ensures { result ≡ over_status is_over }
{
    if is_over { REFUSED } else { DONE }
}

impl RecordHandle {
    /// Before the first byte of an input; where the limits or the framing are not allowed, a handle that has ended. No record is ready.
    pub fn begun(framing: u32, max_depth: u32, max_bytes: u64) -> RecordHandle
        ensures { IsBegun framing max_depth max_bytes result }
    {
        let records = match (framing_of(framing), limits_of(max_depth, max_bytes)) {
            (Some(framing), Some(limits)) => Some(Records::new(framing, limits)),
            _ => None,
        };
        let ended = records.is_none();
        RecordHandle {
            records,
            last: LastRecord::new(),
            ready: false,
            ended,
        }
    }

    /// As `begun`, whatever the handle was: a record that is not pulled yet is forgotten. Where it has a checker of records, little is
    /// written.
    pub fn begin_again(&mut self, framing: u32, max_depth: u32, max_bytes: u64) -> u32
        ensures { IsBegun framing max_depth max_bytes self.new × BegunStatus framing max_depth max_bytes result }
    {
        let (Some(framing), Some(limits)) = (framing_of(framing), limits_of(max_depth, max_bytes))
        else {
            self.ready = false;
            self.ended = true;
            return LIMITS;
        };
        match &mut self.records {
            Some(records) => records.begin_again(framing, limits),
            None => self.records = Some(Records::new(framing, limits)),
        }
        self.last = LastRecord::new();
        self.ready = false;
        self.ended = false;
        DONE
    }

    /// Takes the next bytes of the input, up to the end of the next record.
    pub fn feed(&mut self, piece: &[u8]) -> Progress
        ensures { IsFed self.old piece.now result self.new }
    {
        if self.ended {
            return progress_of(0, ENDED, false);
        }
        if self.ready {
            return progress_of(0, READY, true);
        }
        match &mut self.records {
            Some(records) => {
                let taken = records.feed_one(piece, &mut self.last);
                self.ready = taken.told;
                progress_of(taken.count, over_status(records.is_over()), taken.told)
            }
            None => progress_of(piece.len(), ENDED, false),
        }
    }

    /// The record that has ended.
    pub fn next(&mut self) -> Finding
        ensures { IsNext self.old result self.new }
    {
        if !self.ready {
            return no_finding(NONE);
        }
        self.ready = false;
        self.last.get()
    }

    /// How many bytes were taken, of those that are allowed.
    pub fn offset(&mut self) -> u64
        ensures { IsOffset self.old result self.new }
    {
        match &self.records {
            Some(records) if !self.ended => records.offset(),
            _ => 0,
        }
    }

    /// What the input is as a whole, and the end of the handle. The last record is then ready, where there is one.
    pub fn finish(&mut self) -> Whole
        ensures { IsFinished self.old result self.new }
    {
        if self.ended {
            return no_whole(ENDED);
        }
        if self.ready {
            return no_whole(READY);
        }
        self.ended = true;
        match &mut self.records {
            Some(records) => {
                let whole = records.end(&mut self.last);
                self.ready = whole.told;
                whole_of(&whole.verdict)
            }
            None => no_whole(ENDED),
        }
    }
}

/// What beginning a handle under these limits answers.
pub fn begun_status(framing: u32, max_depth: u32, max_bytes: u64) -> u32
    ensures { BegunStatus framing max_depth max_bytes result }
{
    match (framing_of(framing), limits_of(max_depth, max_bytes)) {
        (Some(_), Some(_)) => DONE,
        _ => LIMITS,
    }
}

/// How many bytes a handle takes. It lies where one of `geolint_size` may lie.
#[unsafe(no_mangle)]
pub extern "C" fn geolint_records_size() -> usize
    ensures { result ≡ size (lone the_row.mir) }
{
    size_of::<RecordHandle>()
}

/// Begins a handle in this memory, before the first byte of an input. Where the limits or the framing are not
/// allowed, it has ended.
#[unsafe(no_mangle)]
pub unsafe extern "C" fn geolint_records_begin(
    memory: *mut Memory,
    framing: u32,
    max_depth: u32,
    max_bytes: u64,
) -> u32
    requires* { HasRoom 𝓛 the_row memory }
    ensures* begun { Leaves 𝓛 the_row memory (result ≡ 4) (λ new. IsBegun framing max_depth max_bytes new × BegunStatus framing max_depth max_bytes result) }
{
    begin_at!(
        memory as RecordHandle,
        begun_status(framing, max_depth, max_bytes)
    )
}

/// As `geolint_records_begin`, in memory that has a handle. It writes little where that one was begun well.
#[unsafe(no_mangle)]
pub unsafe extern "C" fn geolint_records_begin_again(
    memory: *mut Memory,
    framing: u32,
    max_depth: u32,
    max_bytes: u64,
) -> u32
    ghost held: { RecordHandle }
    requires* { Holds 𝓛 the_row memory held }
    ensures* begun { Leaves 𝓛 the_row memory (result ≡ 4) (λ new. IsBegun framing max_depth max_bytes new × BegunStatus framing max_depth max_bytes result) }
{
    at_handle!(
        memory as RecordHandle,
        NULL,
        begin_again(framing, max_depth, max_bytes)
    )
}

/// Takes the next bytes of the input, up to the end of the next record.
#[unsafe(no_mangle)]
pub unsafe extern "C" fn geolint_records_feed(memory: *mut Memory, piece: &[u8]) -> Progress
    ghost held: { RecordHandle }
    requires* { Holds 𝓛 the_row memory held }
    ensures* fed { Leaves 𝓛 the_row memory (result ≡ no_progress 4) (IsFed held piece.now result) }
{
    at_handle!(memory as RecordHandle, no_progress(NULL), feed(piece))
}

/// The record that has ended.
#[unsafe(no_mangle)]
pub unsafe extern "C" fn geolint_records_next(memory: *mut Memory) -> Finding
    ghost held: { RecordHandle }
    requires* { Holds 𝓛 the_row memory held }
    ensures* told { Leaves 𝓛 the_row memory (result ≡ no_finding 4) (IsNext held result) }
{
    at_handle!(memory as RecordHandle, no_finding(NULL), next())
}

/// How many bytes were taken, of those that are allowed.
#[unsafe(no_mangle)]
pub unsafe extern "C" fn geolint_records_offset(memory: *mut Memory) -> u64
    ghost held: { RecordHandle }
    requires* { Holds 𝓛 the_row memory held }
    ensures* told { Leaves 𝓛 the_row memory (result ≡ 0) (IsOffset held result) }
{
    at_handle!(memory as RecordHandle, 0, offset())
}

/// What the input is as a whole, and the end of the handle. The last record is then ready, where there is one.
#[unsafe(no_mangle)]
pub unsafe extern "C" fn geolint_records_finish(memory: *mut Memory) -> Whole
    ghost held: { RecordHandle }
    requires* { Holds 𝓛 the_row memory held }
    ensures* finished { Leaves 𝓛 the_row memory (result ≡ no_whole 4) (IsFinished held result) }
{
    at_handle!(memory as RecordHandle, no_whole(NULL), finish())
}
