//! The words of the command line, including those that are not Unicode text.
//!
//! The reader of words takes only text. So a word is written as text that leads back to its bytes: each byte that is not UTF-8
//! becomes one of the last 256 characters of Unicode, which nobody uses, and so does each byte of such a character. Files with
//! such names test that the text leads back to the bytes.

use report_forms::texts::put_name;
use std::alloc::{AllocError, Global};
use std::env::{Env, FillError};

/// The character that stands for the byte 0.
const FIRST: u32 = 0x10_FF00;

/// No word of a command line is longer on Linux.
const LONGEST_WORD: usize = 1 << 17;

/// The words after the program's name, as text. An error is answered where there is no memory.
pub fn given_words(rt: &HostRuntime) -> Result<Vec<String>, AllocError> {
    let mut room = Vec::new(rt.alloc());
    room.resize(LONGEST_WORD, 0u8)?;
    let mut words = Vec::new(rt.alloc());
    for i in 1..usize::MAX {
        match Env::arg(rt, i, room.as_mut_slice()) {
            Ok(count) => words.push(to_text(rt.alloc(), &room.as_slice()[..count])?)?,
            Err(FillError::TooLong) => words.push(String::new(rt.alloc()))?,
            Err(FillError::NotPresent) => break,
        }
    }
    Ok(words)
}

/// The text that leads back to the bytes.
fn to_text(alloc: Global, bytes: &[u8]) -> Result<String, AllocError> {
    let mut text = String::new(alloc);
    for chunk in bytes.utf8_chunks() {
        for c in chunk.valid().chars() {
            if (c as u32) < FIRST {
                text.push(c)?;
            } else {
                let mut room = [0; 4];
                push_bytes(&mut text, c.encode_utf8(&mut room).as_bytes())?;
            }
        }
        push_bytes(&mut text, chunk.invalid())?;
    }
    Ok(text)
}

/// Appends a character for each byte that is no Unicode text.
fn push_bytes(text: &mut String, bytes: &[u8]) -> Result<(), AllocError> {
    for byte in bytes {
        if let Some(c) = char::from_u32(FIRST + *byte as u32) {
            text.push(c)?;
        }
    }
    Ok(())
}

/// The words as an error shows them: what could move a terminal or end a line stands there by number.
pub fn shown_words(alloc: Global, words: &[String]) -> Result<Vec<String>, AllocError> {
    let mut shown = Vec::new(alloc);
    for word in words {
        let mut bytes = Vec::new(alloc);
        put_name(to_bytes(alloc, word.as_str())?.as_slice(), &mut bytes)?;
        shown.push(String::from_utf8_lossy(alloc, bytes.as_slice())?)?;
    }
    Ok(shown)
}

/// The bytes to which a text leads back.
pub fn to_bytes(alloc: Global, text: &str) -> Result<Vec<u8>, AllocError> {
    let mut bytes = Vec::new(alloc);
    for c in text.chars() {
        match u8::try_from((c as u32).wrapping_sub(FIRST)) {
            Ok(byte) => bytes.push(byte)?,
            Err(_) => {
                let mut room = [0; 4];
                bytes.extend_from_slice(c.encode_utf8(&mut room).as_bytes())?;
            }
        }
    }
    Ok(bytes)
}
