//! A sign of what a file is, or of what is wrong at a place of it, and whether it is seen.
ghost use Rattle.std.specs.Prelude.{◌≡◌, map};
ghost use Rattle.gj_hints.specs.Signs.{are_around, are_columns, begins_with_letter, first_around, first_seen, fits, is_ahead, is_behind, is_header, is_markup, is_seen, without_gap};

use crate::bytes::{
    begins, first_byte, has_one_of, holds, is_in, last_byte, second_byte, until, without_last,
    without_mark, without_white, without_white_behind,
};
use crate::clues::Clues;
use crate::encoding::is_other_encoding;
use crate::kind::Hint;

/// What is seen of a file, with a text.
#[derive(Clone, Copy)]
pub enum Sign {
    /// The file begins with the text.
    Begins,
    /// The file is markup, and the text stands among its first bytes.
    Markup,
    /// The file begins with a letter, and the text stands among its first bytes.
    Lettered,
    /// The same of a file that begins with a blank.
    Titled,
    /// The first line is one of columns that a byte of the text separates.
    Columns,
    /// The place is the start of the file, and the text stands there.
    Start,
    /// The bytes at the place are no UTF-8.
    OtherEncoding,
    /// The text stands at the place.
    At,
    /// A single quote stands at the place, and the text soon after.
    Quoted,
    /// The file begins with a letter that begins no word of JSON.
    OtherWord,
}

/// What may stand between the bytes before a place.
#[derive(Clone, Copy)]
pub enum Gap {
    None,
    White,
}

/// The hint of the first sign that is seen.
pub fn first_seen(signs: &[(Sign, &[u8], Hint)], clues: &Clues<'_>) -> Option<Hint>
    ensures { result ≡ first_seen (map (λ row. (row.0, row.1.now, row.2)) signs.now) clues.now }
{
    for i in 0..signs.len() {
        let (sign, text, hint) = signs[i];
        if is_seen(sign, text, clues) {
            return Some(hint);
        }
    }
    None
}

/// The hint of the first sets that the bytes around the place are of.
pub fn first_around(
    sets: &[(Gap, &[u8], &[u8], &[u8], &[u8], Hint)],
    clues: &Clues<'_>,
) -> Option<Hint>
    ensures { result ≡ first_around (map (λ row. (row.0, row.1.now, row.2.now, row.3.now, row.4.now, row.5)) sets.now) clues.now }
{
    for i in 0..sets.len() {
        let (gap, second, last, first, next, hint) = sets[i];
        if are_around(gap, second, last, first, next, clues) {
            return Some(hint);
        }
    }
    None
}

fn is_seen(sign: Sign, text: &[u8], clues: &Clues<'_>) -> bool
    ensures { result ≡ is_seen sign text.now clues.now }
{
    let (head, before, after) = (clues.head, clues.before, clues.after);
    match sign {
        Sign::Begins => begins(head, text),
        Sign::Markup => is_markup(head) && holds(head, text),
        Sign::Lettered => begins_with_letter(head) && holds(head, text),
        Sign::Titled => begins(head, b" ") && holds(head, text),
        Sign::Columns => are_columns(text, head),
        Sign::Start => before.is_empty() && begins(after, text),
        Sign::OtherEncoding => is_other_encoding(before, after),
        Sign::At => begins(after, text),
        Sign::Quoted => begins(after, b"'") && holds(after, text),
        Sign::OtherWord => begins_with_letter(head) && !is_in(b"fnt", first_byte(head)),
    }
}

fn begins_with_letter(bytes: &[u8]) -> bool
    ensures { result ≡ begins_with_letter bytes.now }
{
    match first_byte(bytes) {
        Some(byte) => byte.is_ascii_alphabetic(),
        None => false,
    }
}

fn is_markup(head: &[u8]) -> bool
    ensures { result ≡ is_markup head.now }
{
    begins(without_white(without_mark(head)), b"<")
}

/// Whether the first line of a file is one of columns, which bytes of a set separate. Its end is among the bytes, so what comes after
/// them makes no difference.
fn are_columns(set: &[u8], head: &[u8]) -> bool
    ensures { result ≡ are_columns set.now head.now }
{
    holds(head, b"\n") && is_header(set, until(without_mark(head), b"\n"))
}

/// Whether a line begins with a name, with one of the set behind it, and has neither brackets nor a comma as in a sentence.
fn is_header(set: &[u8], line: &[u8]) -> bool
    ensures { result ≡ is_header set.now line.now }
{
    (begins_with_letter(line) || begins(line, b"\""))
        && has_one_of(line, set)
        && !has_one_of(line, b"{}[]()")
        && !holds(line, b", ")
}

fn fits(set: &[u8], byte: Option<u8>) -> bool
    ensures { result ≡ fits set.now byte }
{
    set.is_empty() || is_in(set, byte)
}

/// Whether the last two bytes before the place and the first two from it on are of these sets.
fn are_around(
    gap: Gap,
    second: &[u8],
    last: &[u8],
    first: &[u8],
    next: &[u8],
    clues: &Clues<'_>,
) -> bool
    ensures { result ≡ are_around gap second.now last.now first.now next.now clues.now }
{
    is_behind(gap, second, last, clues.before) && is_ahead(first, next, clues.after)
}

/// Whether the last two bytes are of these sets.
fn is_behind(gap: Gap, second: &[u8], last: &[u8], before: &[u8]) -> bool
    ensures { result ≡ is_behind gap second.now last.now before.now }
{
    let end = without_gap(gap, before);
    fits(last, last_byte(end)) && fits(second, last_byte(without_gap(gap, without_last(end))))
}

fn without_gap(gap: Gap, before: &[u8]) -> &[u8]
    ensures { result.now ≡ without_gap gap before.now }
{
    match gap {
        Gap::None => before,
        Gap::White => without_white_behind(before),
    }
}

/// Whether the first two bytes are of these sets.
fn is_ahead(first: &[u8], second: &[u8], after: &[u8]) -> bool
    ensures { result ≡ is_ahead first.now second.now after.now }
{
    fits(first, first_byte(after)) && fits(second, second_byte(after))
}
