//! Sequences cut into parts: each row cut in two at each place where it may be, and in three.

use crate::checks::holds_at;
use gj_join::sequences::join;
use gj_json::{Limits, MOST_LEVELS};
use gj_rules::{SeqVerdict, Sequence};
use std::process::Abort;

const SEPARATOR: u8 = 0x1E;

/// The verdict of some bytes under a limit on how many there are.
fn verdict_of(bytes: &[u8], most: usize) -> SeqVerdict {
    let usual = Limits::usual();
    let limits = Limits::new(MOST_LEVELS, most as u64).unwrap_or(usual);
    let mut sequence = Sequence::new(limits);
    sequence.feed(bytes);
    sequence.finish()
}

/// The bytes from one place to another, or none.
fn part(bytes: &[u8], begin: usize, end: usize) -> &[u8] {
    bytes.get(begin..end).unwrap_or(&[])
}

/// Whether a part may begin at this place.
fn may_begin(bytes: &[u8], at: usize) -> bool {
    let before = if at == 0 {
        None
    } else {
        bytes.get(at - 1).copied()
    };
    bytes.get(at).copied() == Some(SEPARATOR) && before != Some(SEPARATOR)
}

/// The verdict of the bytes from a place on, from those of the parts before and after a cut.
fn joined_from(bytes: &[u8], begin: usize, end: usize, most: usize) -> Option<SeqVerdict> {
    let size = end.saturating_sub(begin);
    let first = verdict_of(part(bytes, begin, end), most);
    let rest = verdict_of(part(bytes, end, bytes.len()), most.saturating_sub(size));
    join(first, size as u64, rest)
}

fn is_that_of_its_parts(rt: &impl Abort, bytes: &[u8], most: usize, case: &str) {
    let whole = verdict_of(bytes, most);
    for end in 0..bytes.len().min(most) {
        if !may_begin(bytes, end) {
            continue;
        }
        let all = joined_from(bytes, 0, end, most);
        holds_at(rt, all == Some(whole), case, end);
        for more in end + 1..bytes.len().min(most) {
            if may_begin(bytes, more) {
                let first = verdict_of(part(bytes, 0, end), most);
                let rest = joined_from(bytes, end, more, most.saturating_sub(end));
                let all = match rest {
                    Some(rest) => join(first, end as u64, rest),
                    None => None,
                };
                holds_at(rt, all == Some(whole), case, more);
            }
        }
    }
}

/// A sequence, a limit on its bytes, and what it is.
static SEQUENCES: [(&[u8], usize, &str); 9] = [
    (b"\x1E", 1 << 20, "one record of no bytes"),
    (
        b"\x1E{\"type\":\"Point\",\"coordinates\":[1,2]}\n\x1E{\"type\":\"Point\",\"coordinates\":[1,2]}\n",
        1 << 20,
        "two valid records",
    ),
    (
        b"\x1E{\"type\":\"Point\",\"coordinates\":[1,2]}\n\x1E\x1E\x1E{\"type\":\"Point\",\"coordinates\":[181,2]}\n",
        1 << 20,
        "a run of separators, and a warning",
    ),
    (
        b"\x1E{\"type\":\"Point\",\"coordinates\":[181,2]}\n\x1E{\"type\":\"Point\",\"coordinates\":[182,2]}\n\x1E{\"type\":\"Point\",\"coordinates\":[1,2,3,4]}\n",
        1 << 20,
        "warnings in each of three",
    ),
    (
        b"\x1E{\"type\":\"Point\",\"coordinates\":[1,2]}\n\x1E{\"type\":\"Point\",\"coordinates\":[1]}\n\x1E{\"type\":\"Point\"}\n",
        1 << 20,
        "two records that break a rule",
    ),
    (
        b"\x1E{\"type\":\"Point\",\"coordinates\":[1,2]}\n\x1E{\"type\":\n\x1E{\"type\":\"Point\",\"coordinates\":[1,2]}\n",
        1 << 20,
        "a record that breaks off",
    ),
    (
        b"x\x1E{}\n\x1E{}\n",
        1 << 20,
        "a byte before the first record",
    ),
    (
        b"\x1E{\"type\":\"Point\",\"coordinates\":[1,2]}\n\x1E{\"type\":\"Point\",\"coordinates\":[1,2]}\n",
        50,
        "a limit within the second record",
    ),
    (
        b"\x1E{\"type\":\"Point\",\"coordinates\":[1,2]}\n\x1E{\"type\":\"Point\",\"coordinates\":[1,2]}",
        1 << 20,
        "a record without LF at the end",
    ),
];

#[test]
fn are_what_one_reading_finds(rt: HostRuntime) {
    for (bytes, most, case) in SEQUENCES.iter() {
        is_that_of_its_parts(&rt, bytes, *most, case);
    }
}
