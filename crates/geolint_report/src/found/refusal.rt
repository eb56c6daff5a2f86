//! What is at the place where a text is refused, and what can follow there.

use super::{Found, PIECE};
use crate::every::cursor::lesser;
use crate::source::Peek;
use gj_hints::{CHOICES, Expected, expected_after};
use gj_json::{Event, EventSink, Limits, MOST_LEVELS, Reader, What};
use gj_places::Lines;
use gj_rules::Framing;
use memchr::memrchr;
use std::str::from_utf8;

/// The most arrays and objects that are open.
const ROOM: usize = MOST_LEVELS as usize;

/// What the bytes before a place go to, in turn.
trait Looks {
    /// Takes the bytes from a place on.
    fn look(&mut self, at: u64, piece: &[u8]);
}

impl Looks for Lines {
    fn look(&mut self, _at: u64, piece: &[u8]) {
        self.feed(piece);
    }
}

/// Looks at the bytes before a place, or says that they are not there.
fn look_to<S: Peek, L: Looks>(place: u64, looks: &mut L, source: &S) -> bool {
    let mut piece = [0; PIECE];
    let mut at = 0;
    while at < place {
        let count = lesser(source.peek(at, &mut piece), place - at);
        if count == 0 {
            return false;
        }
        looks.look(at, &piece[..count]);
        at += count as u64;
    }
    true
}

/// The arrays and objects that are open: where each begins.
#[derive(Clone, Copy)]
struct Open {
    count: usize,
    places: [u64; ROOM],
}

impl EventSink for Open {
    ghost heard = { λ sink events. Unit {0} };

    fn tell(&mut self, event: Event) {
        match event.what {
            What::OpenArray | What::OpenObject => {
                if self.count < ROOM {
                    self.places[self.count] = event.place;
                    self.count += 1;
                }
            }
            What::CloseArray | What::CloseObject => self.count = self.count.saturating_sub(1),
            _ => {}
        }
    }

    fn ignored(&self) -> u16 {
        0
    }

    fn pass(&mut self, _left: u16) {}
}

/// The text that the bytes before a place end in: a whole file's, or that of a record.
#[derive(Clone, Copy)]
struct Text {
    framing: Option<Framing>,
    /// None has begun before the first separator of a sequence.
    has_begun: bool,
    start: u64,
    reader: Reader,
    open: Open,
}

impl Text {
    fn new(framing: Option<Framing>, has_begun: bool, start: u64) -> Text {
        Text {
            framing,
            has_begun,
            start,
            reader: Reader::new(Limits::usual()),
            open: Open {
                count: 0,
                places: [0; ROOM],
            },
        }
    }

    fn feed(&mut self, bytes: &[u8]) {
        let _ = self.reader.feed(bytes, &mut self.open);
    }

    /// The place of the innermost bracket that is open.
    fn innermost(&self) -> Option<u64> {
        let last = self.open.count.checked_sub(1)?;
        let place = self.open.places.get(last)?;
        Some(self.start.saturating_add(*place))
    }
}

impl Looks for Text {
    fn look(&mut self, at: u64, piece: &[u8]) {
        let last = match self.framing {
            Some(framing) => memrchr(framing.separator(), piece),
            None => None,
        };
        match last {
            Some(last) => {
                let start = at.saturating_add(last as u64).saturating_add(1);
                *self = Text::new(self.framing, true, start);
                self.feed(&piece[last + 1..]);
            }
            None => self.feed(piece),
        }
    }
}

/// The text that the bytes before a place end in, where one has begun there.
fn text_before<S: Peek>(place: u64, framing: Option<Framing>, source: &S) -> Option<Text> {
    let mut text = Text::new(framing, framing != Some(Framing::Sequence), 0);
    if look_to(place, &mut text, source) && text.has_begun {
        Some(text)
    } else {
        None
    }
}

/// The byte at a place where a text of a source is refused, and what can follow there.
pub fn found_byte<S: Peek>(place: u64, framing: Option<Framing>, source: &S) -> Option<Found> {
    let text = text_before(place, framing, source)?;
    let expected = expected_after(&text.reader)?;
    let mut found = Found::nothing();
    add_character(&mut found, place, source);
    add_expected(&mut found, &expected, b"the end of the text");
    Some(found)
}

/// That a text of a source ends too early at a place, what can follow there, and what is open.
pub fn found_end<S: Peek>(place: u64, framing: Option<Framing>, source: &S) -> Option<Found> {
    let text = text_before(place, framing, source)?;
    let expected = expected_after(&text.reader)?;
    let mut found = Found::nothing();
    found.add(if place == 0 {
        b"an empty file"
    } else {
        b"the end of the text"
    });
    // A record of a sequence could end there but for the end of its line.
    add_expected(&mut found, &expected, b"the end of a line");
    add_open(&mut found, &text, source);
    Some(found)
}

/// Adds the character at a place: in quotation marks, as in JSON; a byte that begins none in hexadecimal digits.
fn add_character<S: Peek>(found: &mut Found, place: u64, source: &S) {
    let mut bytes = [0; 4];
    let _count = source.peek(place, &mut bytes);
    found.add(b"\"");
    match bytes[0] {
        b'\n' => found.add(b"\\n"),
        b'\r' => found.add(b"\\r"),
        b'\t' => found.add(b"\\t"),
        b'"' | b'\\' => found.add(&[b'\\', bytes[0]]),
        b' '..=b'~' => found.add(&[bytes[0]]),
        0xC2..=0xDF if from_utf8(&bytes[..2]).is_ok() => found.add(&bytes[..2]),
        0xE0..=0xEF if from_utf8(&bytes[..3]).is_ok() => found.add(&bytes[..3]),
        0xF0..=0xF4 if from_utf8(&bytes).is_ok() => found.add(&bytes),
        byte => add_hexadecimal(found, byte),
    }
    found.add(b"\"");
}

const HEXADECIMAL: [u8; 16] = *b"0123456789ABCDEF";

/// Adds a byte by its two digits.
fn add_hexadecimal(found: &mut Found, byte: u8) {
    found.add(b"\\x");
    found.add(&[
        HEXADECIMAL[(byte / 16) as usize],
        HEXADECIMAL[(byte % 16) as usize],
    ]);
}

/// Adds what can follow. These words say that the text may end.
fn add_expected(found: &mut Found, expected: &Expected, end: &[u8]) {
    let mut joint: &[u8] = b"; expected ";
    for i in 0..CHOICES.len() {
        if expected.named[i] {
            found.add(joint);
            let choice = CHOICES[i];
            found.add(choice.text());
            joint = b" or ";
        }
    }
    if expected.may_end {
        found.add(joint);
        found.add(end);
    }
}

/// Adds how many arrays and objects are open, and where the innermost begins.
fn add_open<S: Peek>(found: &mut Found, text: &Text, source: &S) {
    let Some(place) = text.innermost() else {
        return;
    };
    let mut lines = Lines::new();
    let mut bracket = [0];
    if !look_to(place, &mut lines, source) || source.peek(place, &mut bracket) == 0 {
        return;
    }
    let kind: &[u8] = if bracket[0] == b'[' {
        b"an array"
    } else {
        b"an object"
    };
    found.add(b"; ");
    if text.open.count == 1 {
        found.add(kind);
        found.add(b" is open");
    } else {
        found.add_number(text.open.count as u64);
        found.add(b" arrays and objects are open, the innermost ");
        found.add(kind);
    }
    found.add(b" from line ");
    found.add_number(lines.line);
}
