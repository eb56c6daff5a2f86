//! The part of a line around a place.
use crate::checks::equal;
use gj_places::Excerpt;
use std::test::Fail;

fn excerpt(before: &[u8], after: &[u8], most: usize) -> Excerpt {
    let mut excerpt = Excerpt::new();
    for piece in before.chunks(most.max(1)) {
        excerpt.feed_before(piece);
    }
    for piece in after.chunks(most.max(1)) {
        excerpt.feed_after(piece);
    }
    excerpt
}

/// The bytes before a place and after it, the text that is shown of them, and how many columns it has before the place.
static LINES: [(&[u8], &[u8], &str, usize); 8] = [
    (b"", b"", "", 0),
    (b"{\n  \"a\": ", b"1,\n}", "  \"a\": 1,", 7),
    (b"\t", b"x\r\n", " x", 1),
    (b"\x1b[31m", b"\x00\xFF", "\u{FFFD}[31m\u{FFFD}\u{FFFD}", 5),
    (b"\xC3\xA9", b"\xE2\x82\xAC", "é€", 1),
    (b"\xE2\x80\xAE", b"x", "\u{FFFD}x", 1),
    (b"\xE4\xBD\x8D\xE7\xBD\xAE", b"x", "位置x", 4),
    (b"e\xCC\x81", b"x", "e\u{301}x", 1),
];

#[test]
fn shows_the_line_around_a_place(rt: HostRuntime) -> Result<(), Fail> {
    for (before, after, text, places) in LINES.iter() {
        for most in 1..12 {
            let shown = excerpt(before, after, most).shown(rt.alloc())?;
            equal(&rt, shown.text.as_str(), *text, text);
            equal(&rt, shown.before, *places, text);
        }
    }
    Ok(())
}

#[test]
fn cuts_a_long_line(rt: HostRuntime) -> Result<(), Fail> {
    let line = [b'a'; 2000];
    for most in [1, 7, 600, 2000] {
        let shown = excerpt(&line, &line, most).shown(rt.alloc())?;
        let found = (shown.before, shown.text.len());
        equal(&rt, found, (53, 106), "a long line");
    }
    Ok(())
}
