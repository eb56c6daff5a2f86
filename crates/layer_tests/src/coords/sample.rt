//! The events of a small text, for tests.
use gj_json::{EventSink, Limits, Reader};

/// Reports the events of the text, as the reader does.
pub fn tell<S: EventSink>(text: &[u8], to: &mut S) {
    tell_parts(&[(text, 1)], to);
}

/// Reports the events of a short text with spaces after it, as one piece, in which the reader looks at each array of numbers as
/// a whole.
pub fn tell_spaced<S: EventSink>(text: &str, to: &mut S) {
    let mut piece = [b' '; 512];
    for (to, from) in piece.iter_mut().zip(text.as_bytes()) {
        *to = *from;
    }
    tell(&piece, to);
}

/// Gives the events of the text that has these parts in turn, each repeated as its number says.
pub fn tell_parts<S: EventSink>(parts: &[(&[u8], u32)], to: &mut S) {
    let mut reader = Reader::new(Limits::usual());
    for (part, times) in parts {
        for _ in 0..*times {
            let _ = reader.feed(part, to);
        }
    }
    if let Ok(Some(last)) = reader.finish() {
        to.tell(last);
    }
}
