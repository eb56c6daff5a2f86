//! Names that are ended by one byte, from a reader.

ghost use Rattle.std.specs.Prelude.{◌≡◌, ◌≤◌, length};
ghost use Rattle.geolint_report.specs.Adding.{AddsByte};

use crate::name_lists::listed::{Listed, NameEnd};
use std::io::{self, Read};

/// How many bytes of a list are read at once.
const PIECE: usize = 8192;

/// The most bytes of a name that are kept: one that is longer names no file.
pub const LONGEST_NAME: usize = 4096;

/// Reads the names of a list, each ended by one byte.
#[derive(Drop)]
pub struct Names<R> {
    reader: R,
    name_end: NameEnd,
    piece: [u8; PIECE],
    at: usize,
    end: usize,
    ghost within: { at ≤ end },
    ghost held: { end ≤ length piece },
}

impl<R: Read> Names<R> {
    ghost use Rattle.geolint_report.specs.Left.{left_of, Takes, NextOf};

    /// The names in what the reader has left.
    pub fn new(reader: R, name_end: NameEnd) -> Names<R>
        ensures left { left_of R.remaining result ≡ R.remaining reader }
        ensures end { result.name_end ≡ name_end }
    {
        Names {
            reader,
            name_end,
            piece: [0; PIECE],
            at: 0,
            end: 0,
        }
    }

    /// Puts the next name in place of the old one. Empty names are left out. Of a name of more than [`LONGEST_NAME`] bytes
    /// these are given.
    ///
    /// An error is answered where a read fails, or no memory is left.
    pub fn next_into(&mut self, name: &mut Vec<u8>) -> io::Result<Listed>
        ensures next { NextOf (left_of R.remaining self.old) (left_of R.remaining self.new) self.old.name_end result name.new.items }
        ensures end { self.new.name_end ≡ self.old.name_end }
    {
        name.clear();
        let mut has_nul = false;
        for _ in 0..u64::MAX {
            match self.next_byte()? {
                None => return Ok(Listed::of(has_nul, name.is_empty())),
                Some(byte) => {
                    if byte != self.name_end.byte() {
                        add_byte(name, &mut has_nul, byte)?;
                    } else if has_nul || !name.is_empty() {
                        return Ok(Listed::of(has_nul, name.is_empty()));
                    }
                }
            }
        }
        Ok(Listed::End)
    }

    /// The next byte of the list, where there is one.
    fn next_byte(&mut self) -> io::Result<Option<u8>>
        ensures takes { Takes (left_of R.remaining self.old) (left_of R.remaining self.new) result }
        ensures end { self.new.name_end ≡ self.old.name_end }
    {
        if self.at == self.end {
            self.at = 0;
            self.end = 0;
            self.end = self.reader.read(&mut self.piece)?;
            if self.end == 0 {
                return Ok(None);
            }
        }
        let byte = self.piece[self.at];
        self.at += 1;
        Ok(Some(byte))
    }
}

/// Adds a byte to what is given of a name, and says whether NUL is in the name.
fn add_byte(name: &mut Vec<u8>, has_nul: &mut bool, byte: u8) -> io::Result<()>
    ensures { AddsByte name.old.items has_nul.old byte result name.new.items has_nul.new }
{
    if byte == 0 {
        *has_nul = true;
    } else if !*has_nul && name.len() < LONGEST_NAME {
        name.push(byte)?;
    }
    Ok(())
}
