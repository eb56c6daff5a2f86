//! What separates the records of an input.
ghost use Rattle.std.specs.Prelude.{◌≡◌, ◌<◌, ◌≤◌, length, take, false, ◌&&◌};
ghost use Rattle.gj_rules.specs.Records.{separator_of, is_blank, are_blank, is_void, first_number};
ghost use Rattle.gj_rules.specs.Internal.BytesBefore.{has_byte, begins_with};

use memchr::memchr;

/// How the texts of an input are separated.
#[derive(Clone, Copy, Debug, PartialEq, Eq)]
pub enum Framing {
    /// RS stands before each text, and LF at its end: a GeoJSON text sequence (RFC 8142, section 2).
    Sequence,
    /// Each line is a text: newline-delimited texts. A line of white space alone is none.
    Lines,
}

/// What ends a record.
#[derive(Clone, Copy, Debug, PartialEq, Eq)]
pub enum RecordEnd {
    /// The byte that separates it from the next.
    Separator,
    /// The end of the input.
    Input,
    /// The limit on the length of the input.
    Limit,
}

/// The byte RS, which begins a record of a sequence.
pub const RECORD_SEPARATOR: u8 = 0x1E;

pub const LINE_FEED: u8 = b'\n';

impl Framing {
    /// The byte between two records.
    #[inline]
    pub fn separator(self) -> u8
        ensures { result ≡ separator_of self }
    {
        match self {
            Framing::Sequence => RECORD_SEPARATOR,
            Framing::Lines => LINE_FEED,
        }
    }

    /// The number of the first record: no record stands before the first separator of a sequence.
    pub fn first_number(self) -> u64
        ensures { result ≡ first_number self }
    {
        match self {
            Framing::Sequence => 0,
            Framing::Lines => 1,
        }
    }

    /// Whether these bytes alone are no record: in a sequence where there are none, in lines where they are white space.
    #[inline]
    pub fn is_void(self, bytes: &[u8]) -> bool
        ensures { result ≡ is_void self bytes.now }
    {
        match self {
            Framing::Sequence => bytes.is_empty(),
            Framing::Lines => are_blank(bytes),
        }
    }

    /// Whether a record is void with more bytes, given whether it was so before them.
    #[inline]
    pub fn stays_void(self, was_void: bool, more: &[u8]) -> bool
        ensures { result ≡ (was_void && is_void self more.now) }
    {
        was_void && self.is_void(more)
    }
}

/// Whether it is white space within a line (RFC 8259, section 2).
fn is_blank(byte: u8) -> bool
    ensures { result ≡ is_blank byte }
{
    byte == b' ' || byte == b'\t' || byte == b'\r'
}

fn are_blank(bytes: &[u8]) -> bool
    ensures { result ≡ are_blank bytes.now }
{
    bytes.iter().all(|byte| is_blank(*byte))
}

/// How many bytes there are before the next such byte, at most `room`.
#[inline]
pub fn run_before(separator: u8, rest: &[u8], room: u64) -> usize
    requires room { 0 < room }
    requires some { 0 < length rest.now }
    requires plain { begins_with separator rest.now ≡ false }
    ensures some { 0 < result }
    ensures within { result ≤ length rest.now }
    ensures room { result ≤ room }
    ensures plain { has_byte separator (take result rest.now) ≡ false }
{
    let run = memchr(separator, rest).unwrap_or(rest.len());
    if run as u64 <= room {
        run
    } else {
        room as usize
    }
}
