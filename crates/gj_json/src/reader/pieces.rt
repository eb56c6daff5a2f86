//! Bytes in a row, from what the reader keeps.

ghost use Rattle.std.specs.Prelude.{◌≡◌, ◌+◌, ◌^◌, ◌≤◌, ◌<◌, true, length, MatchResult, None};
ghost use Rattle.gj_json.specs.Internal.QuietBytes.{awaits_token};
ghost use Rattle.gj_json.specs.Internal.Transitions.{IsMode};
ghost use Rattle.gj_json.specs.declared.mode.Mode.TheVariants.{NumberOn};

use super::Reader;
use crate::fault::JsonFault;
use crate::mode::Mode;
use crate::runs::{is_white, quiet_run, string_run};
use crate::sink::EventSink;

impl Reader {
    ghost use Rattle.gj_json.specs.Internal.FedReader.{IsOpenFor, Passed, Skips, FeedsAll, FeedsTo, OfPrefix};

    /// Passes over `count` bytes, after which this is the mode.
    pub(super) fn skip(&mut self, count: usize, mode: Mode) -> usize
        requires room { self.old.offset + count ≤ self.old.limits.bytes }
        requires sound { IsMode mode }
        ensures count { result ≡ count }
        ensures passed { Passed count mode self.old self.new }
    {
        self.mode = mode;
        self.offset += count as u64;
        count
    }

    /// Takes the bytes at the start of the piece that go on in the number under way: how many.
    fn skip_number(&mut self, piece: &[u8]) -> usize
        requires room { self.old.offset + length piece.now ≤ self.old.limits.bytes }
        requires number { self.old.mode ≡ NumberOn }
        ensures { OfPrefix (Skips self.old self.new) piece.now result }
    {
        let count = self.literal.push_piece(piece);
        self.skip(count, Mode::NumberOn)
    }

    /// Takes the bytes at the start of the piece that complete nothing and open or close nothing: how many.
    pub(super) fn skip_quiet(&mut self, piece: &[u8]) -> usize
        requires room { self.old.offset + length piece.now ≤ self.old.limits.bytes }
        ensures { OfPrefix (Skips self.old self.new) piece.now result }
    {
        match self.mode {
            Mode::StringOn(state) => {
                let run = string_run(&mut self.content, state, piece);
                self.skip(run.count, Mode::StringOn(run.state))
            }
            Mode::NameOn(state) => {
                let run = string_run(&mut self.content, state, piece);
                self.skip(run.count, Mode::NameOn(run.state))
            }
            Mode::NumberOn => self.skip_number(piece),
            mode => self.skip(quiet_run(mode, piece), mode),
        }
    }

    /// As `skip_quiet`, for a piece in which white space before a token is most of them.
    #[inline(always)]
    pub(super) fn skip_white(&mut self, piece: &[u8]) -> usize
        requires room { self.old.offset + length piece.now ≤ self.old.limits.bytes }
        ensures { OfPrefix (Skips self.old self.new) piece.now result }
    {
        match self.mode {
            Mode::StringOn(_) | Mode::NameOn(_) | Mode::NumberOn => self.skip_quiet(piece),
            mode => self.skip(quiet_run(mode, piece), mode),
        }
    }

    /// Takes the space before a token: 1, or 0 where another byte stands at the start of the piece. Python's `json`, PostGIS and GDAL
    /// put one after each comma.
    #[inline(always)]
    pub(super) fn skip_space(&mut self, piece: &[u8]) -> usize
        requires due { awaits_token self.old.mode ≡ true }
        requires room { self.old.offset + length piece.now ≤ self.old.limits.bytes }
        ensures { OfPrefix (Skips self.old self.new) piece.now result }
    {
        if piece.is_empty() || piece[0] != b' ' {
            return 0;
        }
        self.skip(1, self.mode)
    }

    /// As `skip_quiet`, and at once nothing where the first byte is none of them.
    #[inline(always)]
    pub(super) fn skip_front(&mut self, piece: &[u8]) -> usize
        requires some { 0 < length piece.now }
        requires room { self.old.offset + length piece.now ≤ self.old.limits.bytes }
        ensures { OfPrefix (Skips self.old self.new) piece.now result }
    {
        match self.mode {
            Mode::StringOn(_) | Mode::NameOn(_) | Mode::NumberOn => self.skip_quiet(piece),
            _ => {
                if is_white(piece[0]) {
                    self.skip_quiet(piece)
                } else {
                    0
                }
            }
        }
    }

    /// Takes bytes from the start of the piece, one at least: how many.
    fn take_some<S: EventSink>(&mut self, piece: &[u8], sink: &mut S) -> Result<usize, JsonFault>
        requires takes { IsOpenFor self.old piece.now }
        requires some { 0 < length piece.now }
        ensures { MatchResult result (λ n. (0 < n) × OfPrefix (FeedsAll (S.heard sink.old) (S.heard sink.new) self.old self.new) piece.now n)
            (FeedsTo (S.heard sink.old) (S.heard sink.new) self.old self.new piece.now) }
    {
        let quiet = self.skip_front(piece);
        if quiet == piece.len() {
            return Ok(quiet);
        }
        let tokens = self.take_if_token(&piece[quiet..], sink);
        if tokens > 0 {
            return Ok(quiet + tokens);
        }
        match self.take_byte(piece[quiet], sink) {
            Ok(_) => Ok(quiet + 1),
            Err(fault) => Err(fault),
        }
    }

    /// Takes bytes from the start of the piece whose events do not matter to the sink, and at once none where there are none:
    /// how many.
    #[inline(always)]
    fn take_if_ignored<S: EventSink>(
        &mut self,
        piece: &[u8],
        sink: &mut S,
    ) -> Result<usize, JsonFault>
        requires takes { IsOpenFor self.old piece.now }
        ensures { MatchResult result (OfPrefix (FeedsAll (S.heard sink.old) (S.heard sink.new) self.old self.new) piece.now)
            (FeedsTo (S.heard sink.old) (S.heard sink.new) self.old self.new piece.now) }
    {
        if sink.ignored() == 0 {
            return Ok(0);
        }
        self.take_ignored(piece, sink)
    }

    /// Takes a piece that the limit on the bytes allows.
    pub(super) fn take_piece<S: EventSink>(
        &mut self,
        piece: &[u8],
        sink: &mut S,
    ) -> Result<(), JsonFault>
        requires takes { IsOpenFor self.old piece.now }
        ensures { MatchResult result (λ done. FeedsAll (S.heard sink.old) (S.heard sink.new) self.old self.new piece.now)
            (FeedsTo (S.heard sink.old) (S.heard sink.new) self.old self.new piece.now) }
    {
        let mut at = match self.take_if_ignored(piece, sink) {
            Ok(count) => count,
            Err(fault) => return Err(fault),
        };
        let mut least = 1;
        while at < piece.len() {
            match self.take_some(&piece[at..], sink) {
                Ok(count) => at += count,
                Err(fault) => return Err(fault),
            }
            match self.take_if_opened(&piece[at..], sink) {
                Ok(count) => at += count,
                Err(fault) => return Err(fault),
            }
            at += self.take_if_missed(&piece[at..], &mut least, sink);
        }
        Ok(())
    }
}
