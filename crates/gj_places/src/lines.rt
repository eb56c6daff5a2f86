//! The line and the column of a place.

ghost use Rattle.std.specs.Prelude.{◌≡◌, ◌<◌, ◌≤◌, length, map, true, false};
ghost use Rattle.gj_places.specs.Lines.{is_line_feed, begins_character, line_feeds, characters, has_line_feed, counted_byte};
ghost use Rattle.gj_places.specs.declared.lines.TheConstants.{BLOCK, ROW};

use memchr::memrchr;
use std::simd::prelude::*;

/// The byte that ends a line.
const LINE_FEED: u8 = b'\n';

/// The number of bytes whose characters are counted at a time: few enough that a `u8` holds the count, and one vector
/// instruction counts 16 of them.
const BLOCK: usize = 192;

/// The number of bytes whose line feeds are counted at a time, in 48 vectors: few enough that each lane of a sum of these
/// holds its count.
const ROW: usize = 768;

/// The number of bytes that are looked at together for a line of ASCII.
const PLAIN_BLOCK: usize = 256;

/// The line and the column of the place after the bytes that were fed.
///
/// Lines and columns count from 1. A line ends with LF alone. A column counts characters, which begin at each byte that is
/// no continuation byte of UTF-8: so a tab, a byte order mark and the CR before an LF are one character each. Both counts
/// stay at `u64::MAX` once there.
#[derive(Clone, Copy, Debug, PartialEq, Eq)]
pub struct Lines {
    pub line: u64,
    pub column: u64,
}

/// Whether a character begins with the byte: it is none of 80 to BF.
fn begins_character(byte: u8) -> bool
    ensures { result ≡ begins_character byte }
{
    !(0x80..=0xBF).contains(&byte)
}

/// A lane for each byte: 1 where a line ends with it, and 0 elsewhere.
#[inline(always)]
fn line_ends(bytes: &[u8; 16]) -> u8x16
    ensures { result ≡ map counted_byte bytes.now }
{
    u8x16::from_array(*bytes)
        .simd_eq(u8x16::splat(LINE_FEED))
        .select(u8x16::splat(1), u8x16::splat(0))
}

/// How many lines end in a few bytes.
#[inline(always)]
fn few_line_feeds(bytes: &[u8]) -> u16
    requires { length bytes.now < 16 }
    ensures { result ≡ line_feeds bytes.now }
{
    let mut count = 0;
    for byte in bytes {
        if *byte == LINE_FEED {
            count += 1;
        }
    }
    count
}

/// How many lines end in a row.
#[inline(always)]
fn line_feeds_in_row(row: &[u8]) -> u16
    requires { length row.now ≤ ROW }
    ensures { result ≡ line_feeds row.now }
{
    let (vectors, rest) = row.as_chunks::<16>();
    let mut lanes = u8x16::splat(0);
    for vector in vectors {
        lanes += line_ends(vector);
    }
    lanes.cast::<u16>().reduce_sum() + few_line_feeds(rest)
}

/// How many lines end in the bytes.
fn line_feeds(bytes: &[u8]) -> u64
    ensures { result ≡ line_feeds bytes.now }
{
    let (rows, rest) = bytes.as_chunks::<ROW>();
    let mut count = 0;
    for row in rows {
        count += u64::from(line_feeds_in_row(row));
    }
    count + u64::from(line_feeds_in_row(rest))
}

/// How many characters begin in a block.
#[inline(always)]
fn characters_in_block(block: &[u8]) -> u8
    requires { length block.now ≤ BLOCK }
    ensures { result ≡ characters block.now }
{
    let mut count = 0;
    for byte in block {
        if begins_character(*byte) {
            count += 1;
        }
    }
    count
}

/// How many characters begin in the bytes.
fn characters(bytes: &[u8]) -> u64
    ensures { result ≡ characters bytes.now }
{
    let (blocks, rest) = bytes.as_chunks::<BLOCK>();
    let mut count = 0;
    for block in blocks {
        count += u64::from(characters_in_block(block));
    }
    count + u64::from(characters_in_block(rest))
}

/// Whether a byte is between 11 and 127.
#[inline(always)]
fn is_plain_byte(byte: u8) -> bool
    ensures { result ≡ true → (is_line_feed byte ≡ false) × (begins_character byte ≡ true) }
{
    (LINE_FEED + 1..=0x7F).contains(&byte)
}

/// Whether each byte of a block is between 11 and 127: a character of its own, and no LF.
#[inline(always)]
fn is_plain_block(block: &[u8]) -> bool
    ensures { result ≡ true → (has_line_feed block.now ≡ false) × (characters block.now ≡ length block.now) }
{
    let mut all = true;
    for byte in block {
        all &= is_plain_byte(*byte);
    }
    all
}

/// Whether all bytes are of one line, and each is a character. It may say no where they are, if one is below 11.
fn is_plain(bytes: &[u8]) -> bool
    ensures { result ≡ true → (has_line_feed bytes.now ≡ false) × (characters bytes.now ≡ length bytes.now) }
{
    let (blocks, rest) = bytes.as_chunks::<PLAIN_BLOCK>();
    for block in blocks {
        if !is_plain_block(block) {
            return false;
        }
    }
    is_plain_block(rest)
}

impl Lines {
    ghost use Rattle.std.specs.Prelude.{◌≡◌, ℕ, ◌++◌, ◌∷◌, [], List, false};
    ghost use Rattle.gj_places.specs.declared.lines.TheConstants.{LINE_FEED};
    ghost use Rattle.gj_places.specs.Lines.{has_line_feed};
    ghost use Rattle.gj_places.specs.Counting.{StandsFor};

    /// The first line and column.
    pub fn new() -> Lines
        ensures { StandsFor result [] }
    {
        Lines { line: 1, column: 1 }
    }

    /// Moves on past these bytes.
    pub fn feed(&mut self, piece: &[u8])
        ensures { (bytes : List ℕ) → StandsFor self.old bytes → StandsFor self.new (bytes ++ piece.now) }
    {
        if is_plain(piece) {
            self.column = self.column.saturating_add(piece.len() as u64);
            return;
        }
        match memrchr(LINE_FEED, piece) {
            Some(last) => {
                self.end_lines(&piece[..last]);
                self.go_on(&piece[last + 1..]);
            }
            None => self.go_on(piece),
        }
    }

    /// Moves on past these bytes and an LF.
    fn end_lines(&mut self, lines: &[u8])
        ensures { (bytes : List ℕ) → StandsFor self.old bytes → StandsFor self.new (bytes ++ (lines.now ++ LINE_FEED ∷ [])) }
    {
        self.line = self
            .line
            .saturating_add(line_feeds(lines))
            .saturating_add(1);
        self.column = 1;
    }

    /// Moves on past these bytes of a line.
    fn go_on(&mut self, rest: &[u8])
        requires { has_line_feed rest.now ≡ false }
        ensures { (bytes : List ℕ) → StandsFor self.old bytes → StandsFor self.new (bytes ++ rest.now) }
    {
        self.column = self.column.saturating_add(characters(rest));
    }
}
