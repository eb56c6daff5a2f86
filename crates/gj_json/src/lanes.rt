//! Runs of bytes at the start of a piece, found sixteen at a time.

ghost use Rattle.std.specs.Prelude.{◌≡◌, ◌<◌, ◌≤◌, ◌+◌, ◌*◌, ◌++◌, ℕ, Bool, None, length, map, not, take, drop, IfSome, IsTrue};
ghost use Rattle.std.specs.List.{prefix_len};
ghost use Rattle.std.specs.Simd.Lanes.{mask_l};
ghost use Rattle.std.specs.Str.{bytes_eq};
ghost use Rattle.gj_json.specs.Internal.QuietBytes.{is_unescaped_ascii, is_white};
ghost use Rattle.gj_json.specs.Runs.{is_unescaped};
ghost use Rattle.gj_json.specs.declared.lanes.TheConstants.{LANES};

use std::simd::prelude::*;

/// How many bytes are looked at together.
pub const LANES: usize = 16;

/// Whether the piece begins with the first `count` bytes of the word.
// A comparison of slices is a call, which costs as much as all else that distinguishes a usual head from others.
#[inline(always)]
pub fn begins(piece: &[u8], word: &[u8; LANES], count: usize) -> bool
    requires room { LANES ≤ length piece.now }
    requires few { count ≤ LANES }
    ensures { result ≡ bytes_eq (take count piece.now) (take count word.now) }
{
    let differing = u8x16::from_slice(piece).simd_ne(u8x16::from_array(*word));
    differing.to_bitmask() & ((1 << count) - 1) == 0
}

#[inline(always)]
pub fn is_white(byte: u8) -> bool
    ensures { result ≡ is_white byte }
{
    byte == b' ' || byte == b'\t' || byte == b'\n' || byte == b'\r'
}

/// A kind of bytes, of which runs are found.
pub trait Kind {
    /// Which bytes are of it.
    ghost is: { ℕ → Bool };

    /// Whether the byte is of it.
    fn has(byte: u8) -> bool
        ensures { result ≡ is byte };

    /// One bit for each lane that is not.
    fn stops(lanes: u8x16) -> u64
        ensures { result ≡ mask_l (map (λ b. not (is b)) lanes) };
}

/// Those that are a character of a string by themselves.
pub struct Ascii;

impl Kind for Ascii {
    ghost is = { is_unescaped_ascii };

    fn has(byte: u8) -> bool {
        b' ' <= byte && byte <= 0x7F && byte != b'"' && byte != b'\\'
    }

    #[inline(always)]
    fn stops(lanes: u8x16) -> u64 {
        let quotes = lanes.simd_eq(u8x16::splat(b'"'));
        let backslashes = lanes.simd_eq(u8x16::splat(b'\\'));
        let controls = lanes.simd_lt(u8x16::splat(b' '));
        let beyond = lanes.simd_gt(u8x16::splat(0x7F));
        (quotes | backslashes | controls | beyond).to_bitmask()
    }
}

/// Those that are allowed in a string unescaped.
pub struct Plain;

impl Kind for Plain {
    ghost is = { is_unescaped };

    fn has(byte: u8) -> bool {
        b' ' <= byte && byte != b'"' && byte != b'\\'
    }

    #[inline(always)]
    fn stops(lanes: u8x16) -> u64 {
        let quotes = lanes.simd_eq(u8x16::splat(b'"'));
        let backslashes = lanes.simd_eq(u8x16::splat(b'\\'));
        let controls = lanes.simd_lt(u8x16::splat(b' '));
        (quotes | backslashes | controls).to_bitmask()
    }
}

/// The byte of white space with each lower half, and else a byte with another one.
const WHITE: [u8; 16] = [
    b' ', 0, 0, 0, 0, 0, 0, 0, 0, b'\t', b'\n', 0, 0, b'\r', 0, 0,
];

/// White space.
pub struct White;

impl Kind for White {
    ghost is = { is_white };

    fn has(byte: u8) -> bool {
        is_white(byte)
    }

    #[inline(always)]
    fn stops(lanes: u8x16) -> u64 {
        let same = u8x16::from_array(WHITE).swizzle_dyn(lanes & u8x16::splat(15));
        lanes.simd_ne(same).to_bitmask()
    }
}

/// How many bytes at the start of the piece are of the kind, where one of the first sixteen is not.
#[inline(always)]
pub fn short_run<K: Kind>(piece: &[u8]) -> Option<usize>
    requires { LANES ≤ length piece.now }
    ensures long { result ≡ None → prefix_len K.is piece.now ≡ LANES + prefix_len K.is (drop LANES piece.now) }
    ensures short { IfSome result (λ count. count < LANES) }
    ensures run { IfSome result (λ count. count ≡ prefix_len K.is piece.now) }
{
    let stops = K::stops(u8x16::from_slice(piece));
    if stops == 0 {
        return None;
    }
    Some(stops.trailing_zeros() as usize)
}

/// Whether so many bytes at the start of the piece are of the kind.
#[inline(always)]
pub fn begins_run<K: Kind>(piece: &[u8], count: usize) -> bool
    requires room { LANES ≤ length piece.now }
    requires few { count ≤ LANES }
    ensures { IsTrue result → count ≤ prefix_len K.is piece.now }
{
    match short_run::<K>(piece) {
        Some(run) => count <= run,
        None => true,
    }
}

/// How many bytes at the start of the piece are of the kind.
#[inline(always)]
pub fn run<K: Kind>(piece: &[u8]) -> usize
    ensures { result ≡ prefix_len K.is piece.now }
{
    if piece.len() >= LANES {
        return match short_run::<K>(piece) {
            Some(count) => count,
            None => LANES + long_run::<K>(&piece[LANES..]),
        };
    }
    long_run::<K>(piece)
}

/// As `run`, byte by byte.
fn few_run<K: Kind>(piece: &[u8]) -> usize
    ensures { result ≡ prefix_len K.is piece.now }
{
    piece.iter().take_while(|byte| K::has(**byte)).count()
}

/// As `run`, block by block.
#[inline(never)]
fn long_run<K: Kind>(piece: &[u8]) -> usize
    ensures { result ≡ prefix_len K.is piece.now }
{
    let (blocks, rest) = piece.as_chunks::<LANES>();
    let mut index = 0;
    while index < blocks.len() {
        let stops = K::stops(u8x16::from_array(blocks[index]));
        if stops != 0 {
            return index * LANES + stops.trailing_zeros() as usize;
        }
        index += 1;
    }
    index * LANES + few_run::<K>(rest)
}

/// How many bytes at the start of the piece are allowed in a string unescaped: those from 20 (hexadecimal) on but the quote
/// and the backslash.
pub fn plain_run(piece: &[u8]) -> usize
    ensures { result ≡ prefix_len is_unescaped piece.now }
{
    long_run::<Plain>(piece)
}

/// How many bytes at the start of the piece are white space. Mostly there is none, or one space.
#[inline]
pub fn white_run(piece: &[u8]) -> usize
    ensures { result ≡ prefix_len is_white piece.now }
{
    if piece.is_empty() || piece[0] > b' ' {
        return 0;
    }
    if piece.len() > 1 && piece[0] == b' ' && piece[1] > b' ' {
        return 1;
    }
    run::<White>(piece)
}
