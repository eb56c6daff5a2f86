//! The part of a line around a place.

ghost use Rattle.std.specs.Prelude.{◌≡◌, ◌++◌, IfOk, OnOk, string_bytes, encode_utf8_all};
ghost use Rattle.gj_places.specs.Lines.{last_line};
ghost use Rattle.gj_places.specs.Excerpts.{last_of, without_return, harmless, is_harmful, characters_of, cut_front, cut_back};

use arrayvec::ArrayVec;
use memchr::memrchr;
use std::alloc::{AllocError, Global};
use unicode_width::UnicodeWidthStr;

/// The most characters that are shown before the place, and from it on.
const MOST_SHOWN: usize = 50;

/// The number of bytes that are kept before the place, and from it on: enough for more characters than are shown.
pub(crate) const MOST_BYTES: usize = 256;

/// What stands where a part of the line is left out.
const LEFT_OUT: &str = "...";

/// What stands for a character that a terminal would not show as one.
const HARMLESS: char = '\u{FFFD}';

/// The bytes of a line around a place, as many as are needed to show them: fixed memory for a line of any length.
#[derive(Drop)]
pub struct Excerpt {
    before: ArrayVec<u8, MOST_BYTES>,
    after: ArrayVec<u8, MOST_BYTES>,
    is_whole: bool,
}

/// A part of a line as it is shown, and how many columns of a terminal stand before the place in it.
#[derive(Drop)]
pub struct Shown {
    pub text: String,
    pub before: usize,
}

impl Excerpt {
    ghost use Rattle.std.specs.Prelude.{◌≡◌, ◌<◌, ◌++◌, ◌∷◌, [], ℕ, List, IfOk, string_bytes, chars, encode_utf8_all, true, false};
    ghost use Rattle.arrayvec.specs.ArrayVec.{array_vec_len};
    ghost use Rattle.unicode_width.specs.Width.{str_width};
    ghost use Rattle.gj_places.specs.Excerpts.{front_of, rest_of};
    ghost use Rattle.gj_places.specs.Keeping.{Keeps};

    /// Of a text of which nothing was read.
    pub fn new() -> Excerpt
        ensures { Keeps result [] [] }
    {
        Excerpt {
            before: ArrayVec::new(),
            after: ArrayVec::new(),
            is_whole: false,
        }
    }

    /// Takes the next bytes, all before the place.
    pub fn feed_before(&mut self, piece: &[u8])
        ensures { (before : List ℕ) → Keeps self.old before [] → Keeps self.new (before ++ piece.now) [] }
    {
        if piece.len() < MOST_BYTES {
            self.push_all_before(piece);
        } else {
            self.before.clear();
            let _fits = self
                .before
                .try_extend_from_slice(line_end(last_bytes(piece)));
        }
    }

    fn push_all_before(&mut self, piece: &[u8])
        ensures { (before : List ℕ) → Keeps self.old before [] → Keeps self.new (before ++ piece.now) [] }
    {
        for byte in piece {
            self.push_before(*byte);
        }
    }

    fn push_before(&mut self, byte: u8)
        ensures { (before : List ℕ) → Keeps self.old before [] → Keeps self.new (before ++ byte ∷ []) [] }
    {
        if byte == b'\n' {
            self.before.clear();
            return;
        }
        if self.before.is_full() {
            self.before.remove(0);
        }
        self.before.push(byte);
    }

    /// Takes the next bytes, all at the place or after it.
    pub fn feed_after(&mut self, piece: &[u8])
        ensures { (before after : List ℕ) → Keeps self.old before after → Keeps self.new before (after ++ piece.now) }
    {
        for byte in piece {
            if self.is_whole() {
                return;
            }
            self.push_after(*byte);
        }
    }

    fn push_after(&mut self, byte: u8)
        requires open { self.old.is_whole ≡ false }
        requires room { array_vec_len self.old.after < 256 }
        ensures { (before after : List ℕ) → Keeps self.old before after → Keeps self.new before (after ++ byte ∷ []) }
    {
        if byte == b'\n' {
            self.is_whole = true;
        } else {
            self.after.push(byte);
        }
    }

    /// Whether no more bytes are needed.
    pub fn is_whole(&self) -> bool
        ensures whole { (before after more : List ℕ) → Keeps self.now before after → result ≡ true → Keeps self.now before (after ++ more) }
        ensures open { result ≡ false → (self.now.is_whole ≡ false) × (array_vec_len self.now.after < 256) }
    {
        self.is_whole || self.after.is_full()
    }

    /// The part of the line as a terminal shows it: each control character and what is no UTF-8 as one harmless character.
    pub fn shown(&self, alloc: Global) -> Result<Shown, AllocError>
        ensures text { (before after : List ℕ) → Keeps self.now before after
            → IfOk result (λ shown. string_bytes shown.text ≡ encode_utf8_all (front_of before) ++ encode_utf8_all (rest_of after)) }
        ensures caret { (before after : List ℕ) → Keeps self.now before after
            → IfOk result (λ shown. shown.before ≡ str_width false (chars (encode_utf8_all (front_of before)))) }
    {
        let front = characters_of(alloc, last_bytes(self.before.as_slice()))?;
        let rest = characters_of(alloc, without_return(self.after.as_slice()))?;
        let mut text = String::new(alloc);
        push_cut_front(&mut text, front.as_slice())?;
        let before = text.as_str().width();
        push_cut_back(&mut text, rest.as_slice())?;
        Ok(Shown { text, before })
    }
}

/// The bytes at the end, as many as are shown.
fn last_bytes(bytes: &[u8]) -> &[u8]
    ensures { result.now ≡ last_of 256 bytes.now }
{
    &bytes[bytes.len().saturating_sub(MOST_BYTES)..]
}

/// The bytes after the last LF, or all where there is none.
fn line_end(bytes: &[u8]) -> &[u8]
    ensures { result.now ≡ last_line bytes.now }
{
    match memrchr(b'\n', bytes) {
        Some(last) => &bytes[last + 1..],
        None => bytes,
    }
}

/// The bytes without a CR at their end, which belongs to the end of the line.
fn without_return(bytes: &[u8]) -> &[u8]
    ensures { result.now ≡ without_return bytes.now }
{
    match bytes {
        [line @ .., b'\r'] => line,
        _ => bytes,
    }
}

/// The characters that are shown for the bytes.
fn characters_of(alloc: Global, bytes: &[u8]) -> Result<Vec<char>, AllocError>
    ensures { IfOk result (λ shown. shown.items ≡ characters_of bytes.now) }
{
    let text = String::from_utf8_lossy(alloc, bytes)?;
    let mut shown = Vec::new(alloc);
    for c in text.as_str().chars() {
        shown.push(harmless(c))?;
    }
    Ok(shown)
}

/// What is shown for a character: itself, where it does no harm.
fn harmless(c: char) -> char
    ensures { result ≡ harmless c }
{
    match c {
        '\t' => ' ',
        _ if is_harmful(c) => HARMLESS,
        _ => c,
    }
}

/// Whether a character moves a cursor, turns the direction of writing, begins a line or has no width.
pub fn is_harmful(c: char) -> bool
    ensures { result ≡ is_harmful c }
{
    matches!(c,
        '\0'..='\u{1F}'
        | '\u{7F}'..='\u{9F}'
        | '\u{61C}'
        | '\u{200B}'..='\u{200F}'
        | '\u{2028}'..='\u{202E}'
        | '\u{2060}'..='\u{2069}'
        | '\u{FEFF}'
    )
}

/// Appends the last of the characters.
fn push_cut_front(text: &mut String, shown: &[char]) -> Result<(), AllocError>
    ensures { OnOk result (string_bytes text.new ≡ string_bytes text.old ++ encode_utf8_all (cut_front shown.now)) }
{
    let left_out = shown.len().saturating_sub(MOST_SHOWN);
    if left_out > 0 {
        text.push_str(LEFT_OUT)?;
    }
    push_all(text, &shown[left_out..])
}

/// Appends the first of the characters.
fn push_cut_back(text: &mut String, shown: &[char]) -> Result<(), AllocError>
    ensures { OnOk result (string_bytes text.new ≡ string_bytes text.old ++ encode_utf8_all (cut_back shown.now)) }
{
    let most = shown.len().min(MOST_SHOWN);
    push_all(text, &shown[..most])?;
    if most < shown.len() {
        text.push_str(LEFT_OUT)?;
    }
    Ok(())
}

fn push_all(text: &mut String, shown: &[char]) -> Result<(), AllocError>
    ensures { OnOk result (string_bytes text.new ≡ string_bytes text.old ++ encode_utf8_all shown.now) }
{
    for c in shown {
        text.push(*c)?;
    }
    Ok(())
}
