//! The features of a text that comes in pieces, pulled from a handle: the calls over values, and those of C on a handle in memory
//! that the host provides.
ghost use Rattle.std.specs.Prelude.{◌≡◌, ◌+◌, ◌<◌, ◌^◌, IsTrue, IfSome};
ghost use denote.Memory.{lone};
ghost use prog.Memory.{size};
ghost use Rattle.geolint_c.specs.contracts.features.FeatureHandle.{the_row};
ghost use Rattle.geolint_c.specs.Features.{IsBegun, IsFed, IsNext, IsFinished, IsOffset, tells_more, is_ready};
ghost use Rattle.geolint_c.specs.Finding.{no_finding, no_progress};
ghost use Rattle.geolint_c.specs.Internal.Pulling.{Begins, Takes, IsPulled, Counted, GoesOn, ShowsOn};
ghost use Rattle.geolint_c.specs.Handle.{BegunStatus};
ghost use Rattle.geolint_c.specs.Report.{no_report};
ghost use Rattle.geolint_c.specs.Stream.{HasRoom, Holds, Leaves};
ghost use Rattle.geolint_c.specs.declared.latest.TheConstants.{ROOM};

use crate::commas::few_commas;
use crate::finding::{Finding, Progress, finding_of_feature, no_finding, no_progress, progress_of};
use crate::handle::{Memory, begun_status, status_of};
use crate::latest::{LatestFeatures, ROOM};
use crate::options::limits_of;
use crate::report::{Report, no_report, report_of};
use crate::status::{DONE, ENDED, LIMITS, NONE, NULL, READY};
use gj_json::Limits;
use gj_rules::feature_laws::{features_by_commas, features_in_time, few_features};
use gj_rules::{FeatureLinter, Progress as Shown};
use std::mem::size_of;

/// A linter that reports features, until it has ended.
#[derive(Drop)]
pub struct FeatureHandle {
    /// None where the limits are not allowed. It stays where it is at the end, since it is large.
    linter: Option<FeatureLinter<LatestFeatures>>,
    /// How many features were pulled.
    pulled: u64,
    ended: bool,
}

/// Before the first byte of an input under these limits.
fn judging(limits: Limits) -> FeatureLinter<LatestFeatures>
    ensures { Begins limits result }
{
    few_features();
    FeatureLinter::new(limits, LatestFeatures::new())
}

/// Before the first byte of another input under these limits. Little is written.
fn judging_again(linter: &mut FeatureLinter<LatestFeatures>, limits: Limits)
    ensures { Begins limits linter.new }
{
    few_features();
    linter.begin_again(limits);
}

/// Whether more features were reported than were pulled.
fn tells_more(linter: &FeatureLinter<LatestFeatures>, pulled: u64) -> bool
    ensures value { result ≡ tells_more linter.now pulled }
    ensures counted { Counted linter.now }
    ensures below { IsTrue result → pulled + 1 < 2 ^ 64 }
{
    few_features();
    linter.sink().told() > pulled
}

/// Feeds the linter bytes for which it has room.
fn feed_run(linter: &mut FeatureLinter<LatestFeatures>, run: &[u8]) -> Shown
    ensures judges { GoesOn linter.old run.now linter.new }
    ensures answer { ShowsOn linter.old run.now result linter.new }
{
    features_in_time();
    features_by_commas();
    let _from = linter.offset();
    let shown = linter.feed(run);
    let _to = linter.offset();
    shown
}

/// Takes the next bytes, up to where features have ended.
fn take(linter: &mut FeatureLinter<LatestFeatures>, pulled: u64, piece: &[u8]) -> Progress
    ensures { Takes linter.old pulled piece.now result linter.new }
{
    let mut at = 0;
    let mut shown = feed_run(linter, &piece[..0]);
    while at < piece.len() {
        if tells_more(linter, pulled) {
            let early = status_of(shown);
            return progress_of(at, early, true);
        }
        let next = at + few_commas(&piece[at..], ROOM);
        shown = feed_run(linter, &piece[at..next]);
        at = next;
    }
    let status = status_of(shown);
    let ready = tells_more(linter, pulled);
    progress_of(at, status, ready)
}

/// The next feature that was reported.
fn pull(linter: &FeatureLinter<LatestFeatures>, pulled: u64) -> Finding
    ensures { IsPulled linter.now pulled result }
{
    few_features();
    let _counted = tells_more(linter, pulled);
    finding_of_feature(linter.sink().get(pulled))
}

impl FeatureHandle {
    /// Before the first byte of an input under these limits; where they are not allowed, a handle that has ended.
    pub fn begun(max_depth: u32, max_bytes: u64) -> FeatureHandle
        ensures { IsBegun max_depth max_bytes result }
    {
        let linter = match limits_of(max_depth, max_bytes) {
            Some(limits) => Some(judging(limits)),
            None => None,
        };
        let ended = linter.is_none();
        FeatureHandle {
            linter,
            pulled: 0,
            ended,
        }
    }

    /// As `begun`, whatever the handle was. Where it has a linter, little is written.
    pub fn begin_again(&mut self, max_depth: u32, max_bytes: u64) -> u32
        ensures { IsBegun max_depth max_bytes self.new × BegunStatus max_depth max_bytes result }
    {
        let Some(limits) = limits_of(max_depth, max_bytes) else {
            self.ended = true;
            return LIMITS;
        };
        match &mut self.linter {
            Some(linter) => judging_again(linter, limits),
            None => self.linter = Some(judging(limits)),
        }
        self.pulled = 0;
        self.ended = false;
        DONE
    }

    /// Whether a finding is ready.
    fn is_ready(&self) -> bool
        ensures value { result ≡ is_ready self.now }
        ensures counted { IfSome self.now.linter Counted }
        ensures below { IsTrue result → self.now.pulled + 1 < 2 ^ 64 }
    {
        match &self.linter {
            Some(linter) => {
                let more = tells_more(linter, self.pulled);
                !self.ended && more
            }
            None => false,
        }
    }

    /// Takes the next bytes of the input, up to where features have ended: no more than are kept.
    pub fn feed(&mut self, piece: &[u8]) -> Progress
        ensures { IsFed self.old piece.now result self.new }
    {
        if self.ended {
            return progress_of(0, ENDED, false);
        }
        if self.is_ready() {
            return progress_of(0, READY, true);
        }
        let pulled = self.pulled;
        match &mut self.linter {
            Some(linter) => take(linter, pulled, piece),
            None => progress_of(piece.len(), ENDED, false),
        }
    }

    /// The next feature that has ended.
    pub fn next(&mut self) -> Finding
        ensures { IsNext self.old result self.new }
    {
        if !self.is_ready() {
            return no_finding(NONE);
        }
        match &self.linter {
            Some(linter) => {
                let finding = pull(linter, self.pulled);
                self.pulled += 1;
                finding
            }
            None => no_finding(NONE),
        }
    }

    /// How many bytes were taken: the place of the refused one, once there was one.
    pub fn offset(&mut self) -> u64
        ensures { IsOffset self.old result self.new }
    {
        match &self.linter {
            Some(linter) if !self.ended => linter.offset(),
            _ => 0,
        }
    }

    /// The verdict of what was fed, and the end of the handle.
    pub fn finish(&mut self) -> Report
        ensures { IsFinished self.old result self.new }
    {
        if self.ended {
            return no_report(ENDED);
        }
        if self.is_ready() {
            return no_report(READY);
        }
        self.ended = true;
        match &mut self.linter {
            Some(linter) => report_of(&linter.end()),
            None => no_report(ENDED),
        }
    }
}

/// How many bytes a handle takes. It lies where one of `geolint_size` may lie.
#[unsafe(no_mangle)]
pub extern "C" fn geolint_features_size() -> usize
    ensures { result ≡ size (lone the_row.mir) }
{
    size_of::<FeatureHandle>()
}

/// Begins a handle in this memory, before the first byte of an input. Where the limits are not allowed, it has ended.
#[unsafe(no_mangle)]
pub unsafe extern "C" fn geolint_features_begin(
    memory: *mut Memory,
    max_depth: u32,
    max_bytes: u64,
) -> u32
    requires* { HasRoom 𝓛 the_row memory }
    ensures* begun { Leaves 𝓛 the_row memory (result ≡ 4) (λ new. IsBegun max_depth max_bytes new × BegunStatus max_depth max_bytes result) }
{
    begin_at!(memory as FeatureHandle, begun_status(max_depth, max_bytes))
}

/// As `geolint_features_begin`, in memory that has a handle. It writes little where that one was begun well.
#[unsafe(no_mangle)]
pub unsafe extern "C" fn geolint_features_begin_again(
    memory: *mut Memory,
    max_depth: u32,
    max_bytes: u64,
) -> u32
    ghost held: { FeatureHandle }
    requires* { Holds 𝓛 the_row memory held }
    ensures* begun { Leaves 𝓛 the_row memory (result ≡ 4) (λ new. IsBegun max_depth max_bytes new × BegunStatus max_depth max_bytes result) }
{
    at_handle!(
        memory as FeatureHandle,
        NULL,
        begin_again(max_depth, max_bytes)
    )
}

/// Takes the next bytes of the input, up to where features have ended.
#[unsafe(no_mangle)]
pub unsafe extern "C" fn geolint_features_feed(memory: *mut Memory, piece: &[u8]) -> Progress
    ghost held: { FeatureHandle }
    requires* { Holds 𝓛 the_row memory held }
    ensures* fed { Leaves 𝓛 the_row memory (result ≡ no_progress 4) (IsFed held piece.now result) }
{
    at_handle!(memory as FeatureHandle, no_progress(NULL), feed(piece))
}

/// The next feature that has ended.
#[unsafe(no_mangle)]
pub unsafe extern "C" fn geolint_features_next(memory: *mut Memory) -> Finding
    ghost held: { FeatureHandle }
    requires* { Holds 𝓛 the_row memory held }
    ensures* told { Leaves 𝓛 the_row memory (result ≡ no_finding 4) (IsNext held result) }
{
    at_handle!(memory as FeatureHandle, no_finding(NULL), next())
}

/// How many bytes were taken: the place of the refused one, once there was one.
#[unsafe(no_mangle)]
pub unsafe extern "C" fn geolint_features_offset(memory: *mut Memory) -> u64
    ghost held: { FeatureHandle }
    requires* { Holds 𝓛 the_row memory held }
    ensures* told { Leaves 𝓛 the_row memory (result ≡ 0) (IsOffset held result) }
{
    at_handle!(memory as FeatureHandle, 0, offset())
}

/// The verdict of what was fed, and the end of the handle.
#[unsafe(no_mangle)]
pub unsafe extern "C" fn geolint_features_finish(memory: *mut Memory) -> Report
    ghost held: { FeatureHandle }
    requires* { Holds 𝓛 the_row memory held }
    ensures* finished { Leaves 𝓛 the_row memory (result ≡ no_report 4) (IsFinished held result) }
{
    at_handle!(memory as FeatureHandle, no_report(NULL), finish())
}
