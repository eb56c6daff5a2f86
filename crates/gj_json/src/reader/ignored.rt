//! Bytes whose events do not matter to the sink: their tokens are taken for one that drops the events.

ghost use Rattle.std.specs.Prelude.{◌≡◌, ◌+◌, ◌^◌, ◌≤◌, ◌<◌, [], length, MatchResult, None};
ghost use Rattle.gj_json.specs.Internal.OpenLevels.{levels_in};

use super::Reader;
use crate::fault::JsonFault;
use crate::mode::Mode;
use crate::sink::{EventSink, NoEvents};

impl Reader {
    ghost use Rattle.gj_json.specs.Ignored.{Leaves};
    ghost use Rattle.gj_json.specs.Internal.FedReader.{IsOpenFor, FeedsAll, FeedsAny, FeedsTo, FeedsWithin, FeedsWithinTo, OfPrefix};

    /// Takes white space, or tokens that are whole at the start of the piece: how many bytes.
    #[inline(always)]
    fn pass_token(&mut self, piece: &[u8]) -> usize
        requires some { 0 < length piece.now }
        requires takes { IsOpenFor self.old piece.now }
        ensures { OfPrefix (FeedsAny self.old self.new) piece.now result }
    {
        if piece[0] <= b' ' {
            return self.take_white(piece, &mut NoEvents);
        }
        match self.mode {
            Mode::ValueDue | Mode::ArrayOpened => {
                self.take_value::<NoEvents, false>(piece, &mut NoEvents)
            }
            Mode::NameDue | Mode::ObjectOpened => self.pass_members(piece),
            Mode::ValueDone => self.take_end(piece, &mut NoEvents),
            _ => 0,
        }
    }

    /// Takes whole tokens from the start of the piece, as long as levels above the floor are open: how many bytes.
    fn pass_tokens(&mut self, piece: &[u8], floor: u16) -> usize
        requires takes { IsOpenFor self.old piece.now }
        requires above { floor ≤ length (levels_in self.old.levels) }
        ensures floor { floor ≤ length (levels_in self.new.levels) }
        ensures taken { OfPrefix (FeedsWithin floor self.old self.new) piece.now result }
    {
        let mut at = 0;
        while at < piece.len() {
            if self.levels.len() == floor {
                return at;
            }
            let count = self.pass_token(&piece[at..]);
            if count == 0 {
                return at;
            }
            at += count;
        }
        at
    }

    /// Takes bytes from the start of the piece, one at least, where some levels above the floor are open: how many.
    fn take_some_within(&mut self, piece: &[u8], floor: u16) -> Result<usize, JsonFault>
        requires takes { IsOpenFor self.old piece.now }
        requires some { 0 < length piece.now }
        requires above { floor < length (levels_in self.old.levels) }
        ensures floor { floor ≤ length (levels_in self.new.levels) }
        ensures taken { MatchResult result (λ n. (0 < n) × OfPrefix (FeedsWithin floor self.old self.new) piece.now n)
            (FeedsWithinTo floor self.old self.new piece.now) }
    {
        let quiet = self.skip_front(piece);
        if quiet == piece.len() {
            return Ok(quiet);
        }
        match self.take_byte(piece[quiet], &mut NoEvents) {
            Ok(_) => Ok(quiet + 1),
            Err(fault) => Err(fault),
        }
    }

    /// Takes bytes from the start of the piece until the levels above the floor have closed: how many.
    fn take_within(&mut self, piece: &[u8], floor: u16) -> Result<usize, JsonFault>
        requires takes { IsOpenFor self.old piece.now }
        requires above { floor ≤ length (levels_in self.old.levels) }
        ensures floor { floor ≤ length (levels_in self.new.levels) }
        ensures taken { MatchResult result (OfPrefix (FeedsWithin floor self.old self.new) piece.now)
            (FeedsWithinTo floor self.old self.new piece.now) }
    {
        let mut at = 0;
        while at < piece.len() {
            if self.levels.len() == floor {
                break;
            }
            at += self.pass_tokens(&piece[at..], floor);
            if at == piece.len() {
                break;
            }
            if self.levels.len() == floor {
                break;
            }
            match self.take_some_within(&piece[at..], floor) {
                Ok(count) => at += count,
                Err(fault) => return Err(fault),
            }
        }
        Ok(at)
    }

    /// Takes whole tokens from the start of the piece whose events do not matter to the sink: how many bytes.
    #[inline(never)]
    pub(super) fn pass_ignored<S: EventSink>(&mut self, piece: &[u8], sink: &mut S) -> usize
        requires takes { IsOpenFor self.old piece.now }
        ensures { OfPrefix (FeedsAll (S.heard sink.old) (S.heard sink.new) self.old self.new) piece.now result }
    {
        let ignored = sink.ignored();
        let open = self.levels.len();
        if ignored == 0 || open < ignored {
            return 0;
        }
        let floor = open - ignored;
        self.names.begin();
        let count = self.pass_tokens(piece, floor);
        sink.pass(self.levels.len() - floor);
        count
    }

    /// Takes bytes from the start of the piece whose events do not matter to the sink: how many.
    #[inline(never)]
    pub(super) fn take_ignored<S: EventSink>(
        &mut self,
        piece: &[u8],
        sink: &mut S,
    ) -> Result<usize, JsonFault>
        requires takes { IsOpenFor self.old piece.now }
        ensures { MatchResult result (OfPrefix (FeedsAll (S.heard sink.old) (S.heard sink.new) self.old self.new) piece.now)
            (FeedsTo (S.heard sink.old) (S.heard sink.new) self.old self.new piece.now) }
    {
        let ignored = sink.ignored();
        let open = self.levels.len();
        if ignored == 0 || open < ignored {
            return Ok(0);
        }
        let floor = open - ignored;
        let taken = self.take_within(piece, floor);
        sink.pass(self.levels.len() - floor);
        taken
    }

    /// As `take_ignored`, and at once nothing where no container has just been opened.
    #[inline(always)]
    pub(super) fn take_if_opened<S: EventSink>(
        &mut self,
        piece: &[u8],
        sink: &mut S,
    ) -> Result<usize, JsonFault>
        requires takes { IsOpenFor self.old piece.now }
        ensures { MatchResult result (OfPrefix (FeedsAll (S.heard sink.old) (S.heard sink.new) self.old self.new) piece.now)
            (FeedsTo (S.heard sink.old) (S.heard sink.new) self.old self.new piece.now) }
    {
        match self.mode {
            Mode::ObjectOpened | Mode::ArrayOpened => self.take_ignored(piece, sink),
            _ => Ok(0),
        }
    }

    /// Takes the bytes of the piece up to the end of the innermost array or object: how many, or 0 where it does not end there.
    fn take_innermost(&mut self, piece: &[u8]) -> usize
        requires takes { IsOpenFor self.old piece.now }
        ensures { 0 < result → OfPrefix (FeedsAll (λ events. events ≡ []) (λ events. Leaves 1 events 0) self.old self.new) piece.now result }
    {
        let open = self.levels.len();
        if open == 0 {
            return 0;
        }
        match self.take_within(piece, open - 1) {
            Ok(count) => { if self.levels.len() < open { count } else { 0 } }
            Err(_) => 0,
        }
    }

    /// Takes the array or object that was just opened, where it ends in the piece and the sink may miss its events: how many
    /// bytes, or 0 where nothing was taken.
    #[inline(never)]
    fn take_missed<S: EventSink>(&mut self, piece: &[u8], sink: &mut S) -> usize
        requires takes { IsOpenFor self.old piece.now }
        ensures { OfPrefix (FeedsAll (S.heard sink.old) (S.heard sink.new) self.old self.new) piece.now result }
    {
        let before = *self;
        let count = self.take_innermost(piece);
        if count > 0 && sink.tell_closed() {
            return count;
        }
        *self = before;
        0
    }

    /// As `take_missed`, and at once nothing where no such container has just been opened, or fewer than `least` bytes are left.
    ///
    /// Where it ends only after the piece, or a byte in it is refused, these bytes are read again with their events. So no other
    /// is tried in the piece then, and none where less is left than the last one had: each byte is read twice at the most.
    #[inline(always)]
    pub(super) fn take_if_missed<S: EventSink>(
        &mut self,
        piece: &[u8],
        least: &mut usize,
        sink: &mut S,
    ) -> usize
        requires takes { IsOpenFor self.old piece.now }
        ensures { OfPrefix (FeedsAll (S.heard sink.old) (S.heard sink.new) self.old self.new) piece.now result }
    {
        if piece.len() < *least || !self.may_be_missed(sink) {
            return 0;
        }
        let count = self.take_missed(piece, sink);
        *least = if count > 0 { count } else { usize::MAX };
        count
    }
}
