//! A writer that checks what it passes on.
ghost use Rattle.std.specs.Prelude.{◌≡◌, ℕ, List, [], ◌++◌, take, IfOk};
ghost use Rattle.std.specs.Io.{WritesAtMost};
ghost use Rattle.std.specs.Io.KnownBytes.{WriteAppends};
ghost use Rattle.gj_json.specs.Limits.{most};
ghost use Rattle.gj_rules.specs.Sequence.{IsSequenceVerdict};
ghost use Rattle.gj_rules.specs.SequenceStands.{limits_of, StandsFor};

use gj_json::Limits;
use gj_rules::{SeqVerdict, Sequence};
use std::io::{self, Write};

/// Checks the bytes that its writer takes as a text sequence.
#[derive(Drop)]
pub struct Judged<W> {
    out: W,
    sequence: Sequence,
    ghost wide: { limits_of sequence ≡ most },
}

impl<W: Write> Judged<W> {
    ghost use Rattle.gj_split.specs.Judged.{Stands, out_of};

    /// Before the first byte.
    pub fn new(out: W) -> Judged<W>
        ensures stands { Stands result [] }
        ensures out { out_of result ≡ out }
    {
        Judged {
            out,
            sequence: Sequence::new(Limits::usual()),
        }
    }

    /// What all these bytes are, and the writer.
    pub fn finish(self) -> (SeqVerdict, W)
        ensures verdict { (bytes : List ℕ) → Stands self bytes → IsSequenceVerdict most bytes result.0 }
        ensures out { result.1 ≡ out_of self }
    {
        (self.sequence.finish(), self.out)
    }
}

impl<W: Write> Write for Judged<W> {
    ghost use Rattle.gj_split.specs.Judged.{Stands, out_of};

    ghost contents = { λ s. W.contents (out_of s) };

    fn write(&mut self, bytes: &[u8]) -> io::Result<usize>
        ensures bound { WritesAtMost result bytes.now }
        ensures bytes { WriteAppends (W.contents (out_of self.old)) (W.contents (out_of self.new)) result bytes.now }
        ensures judged { IfOk result (λ n. (before : List ℕ) → Stands self.old before → Stands self.new (before ++ take n bytes.now)) }
    {
        let count = self.out.write(bytes)?;
        self.sequence.feed(&bytes[..count]);
        Ok(count)
    }

    fn flush(&mut self) -> io::Result<()> {
        self.out.flush()
    }
}
