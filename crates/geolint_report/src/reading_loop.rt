//! The loop that reads: pieces come from a source and go to what checks them.
ghost use Rattle.std.specs.Prelude.{◌≡◌, ◌+◌, ◌<◌, ◌≤◌, ◌++◌, [], ℕ, List, Option, length, IfOk, IfErr};
ghost use Rattle.std.specs.Io.{ReadsAtMost};
ghost use Rattle.std.specs.Io.KnownBytes.{Consumes, ReadConsumes};
ghost use Rattle.gj_json.specs.Limits.{Allowed};
ghost use Rattle.geolint_report.specs.Judged.{CountsFailure};
ghost use Rattle.geolint_report.specs.ReadingLoop.{one_more, CountsBytes, Ends, StopsBy};
ghost use Rattle.geolint_report.specs.Spots.{FollowedFrom};

use crate::every::spots::Follower;
use crate::progress::Meter;
use gj_json::Limits;

/// Whether what was fed is decided.
#[derive(Clone, Copy)]
pub enum Stage {
    /// It depends on what follows.
    Open,
    /// Nothing that follows changes it.
    Decided,
}

/// How pieces are read from an `S`.
pub trait Pieces<S> {
    /// Why a read failed.
    type Error;

    // The bytes that reads will give from here on, where they are known.
    ghost remaining: { S → Option (List ℕ) };

    // All its bytes, where they are known.
    ghost text: { S → Option (List ℕ) };

    // How many reads there were, failed ones among them.
    ghost reads: { S → ℕ };

    // How many of them failed.
    ghost failed_reads: { S → ℕ };

    // How many bytes came.
    ghost bytes_given: { S → ℕ };

    /// Reads into the start of the piece and answers how many bytes came: 0 into a piece with room only where no byte is
    /// left. On an error no byte came.
    fn read_piece(source: &mut S, piece: &mut [u8]) -> Result<usize, Self::Error>
        ensures bound { ReadsAtMost result piece.new }
        ensures bytes { ReadConsumes (remaining source.old) (remaining source.new) result piece.new }
        ensures text { text source.new ≡ text source.old }
        ensures reads { reads source.new ≡ one_more (reads source.old) }
        ensures failed { CountsFailure (failed_reads source.old) (failed_reads source.new) result }
        ensures given { CountsBytes (bytes_given source.old) (bytes_given source.new) result };
}

/// How an `L` is fed the bytes of a source.
pub trait Feeds<L> {
    // It was fed these bytes.
    ghost stands: { L → List ℕ → Type 0 };

    // The limits that it has.
    ghost limits: { L → Allowed };

    // Under these limits the bytes leave it open.
    ghost undecided: { Allowed → List ℕ → Type 0 };

    // The bytes that it was fed decide it, whatever follows.
    ghost decided: { L → List ℕ → Type 0 };

    /// Feeds it a piece.
    fn feed(fed: &mut L, piece: &[u8]) -> Stage
        ensures stands { (bytes : List ℕ) → stands fed.old bytes → stands fed.new (bytes ++ piece.now) }
        ensures limits { limits fed.new ≡ limits fed.old }
        ensures open { result ≡ Stage.Open → (bytes : List ℕ) → stands fed.old bytes → undecided (limits fed.old) (bytes ++ piece.now) }
        ensures fits { result ≡ Stage.Open → (bytes : List ℕ) → stands fed.old bytes → length (bytes ++ piece.now) ≤ (limits fed.old).bytes }
        ensures decided { result ≡ Stage.Decided → (bytes : List ℕ) → stands fed.old bytes → decided fed.new (bytes ++ piece.now) };
}

/// What counts the bytes as they come.
pub trait Counts {
    /// So many bytes more were read.
    fn add_bytes(&mut self, count: usize);
}

impl Counts for Meter {
    fn add_bytes(&mut self, count: usize) {
        self.add_bytes(count);
    }
}

/// It counts nothing.
#[derive(Drop)]
pub struct Uncounted;

impl Counts for Uncounted {
    fn add_bytes(&mut self, _count: usize) {}
}

/// A read failed.
#[derive(Drop)]
pub struct Halt<E> {
    pub error: E,
    /// The number of bytes that had come before.
    pub offset: u64,
}

/// Reads a source piece by piece, until it ends or what is fed is decided, but not beyond the bytes that are allowed.
///
/// No read follows the one whose bytes decide. The follower gets the bytes as they come.
pub fn read_all<S, P: Pieces<S>, L, F: Feeds<L>, C: Counts, W: Follower>(
    source: &mut S,
    fed: &mut L,
    limits: Limits,
    piece: &mut [u8],
    counts: &mut C,
    follower: &mut W,
) -> Result<Stage, Halt<P::Error>>
    ensures few { P.reads source.new ≤ P.reads source.old + (limits.bytes + 1) }
    ensures failed { CountsFailure (P.failed_reads source.old) (P.failed_reads source.new) result }
    ensures text { P.text source.new ≡ P.text source.old }
    ensures given { IfErr result (λ halt. P.bytes_given source.new < u64.MAX
        → P.bytes_given source.new ≡ P.bytes_given source.old + halt.offset) }
    ensures offset { IfErr result (λ halt.
        (read : List ℕ) × Consumes (P.remaining source.old) (P.remaining source.new) read × (length read ≡ halt.offset)) }
    ensures limits { F.limits fed.new ≡ F.limits fed.old }
    ensures stops { F.stands fed.old [] → F.limits fed.old ≡ limits → StopsBy F.undecided (length piece.old) limits
        (P.remaining source.old) (P.remaining source.new) (P.reads source.old) (P.reads source.new) }
    ensures ends { IfOk result (λ stage. 0 < length piece.old → F.stands fed.old [] → F.limits fed.old ≡ limits → Ends (F.stands fed.new) (F.decided fed.new)
        (P.remaining source.old) (P.remaining source.new) stage) }
    ensures followed { W.follows follower.old [] → IfOk result (λ stage.
        FollowedFrom (P.remaining source.old) (P.remaining source.new) (W.follows follower.new)) }
{
    let most = limits.bytes();
    let mut offset = 0u64;
    loop {
        match P::read_piece(source, piece) {
            Err(error) => return Err(Halt { error, offset }),
            Ok(0) => return Ok(Stage::Open),
            Ok(count) => {
                offset += count as u64;
                counts.add_bytes(count);
                follower.follow(&piece[..count], &[]);
                match F::feed(fed, &piece[..count]) {
                    Stage::Open => {
                        // What is open has no more bytes than are allowed.
                        if offset > most {
                            return Ok(Stage::Decided);
                        }
                    }
                    Stage::Decided => return Ok(Stage::Decided),
                }
            }
        }
    }
}
