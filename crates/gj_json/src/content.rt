//! The content of a string or a name, as far as it can be one that RFC 7946 gives a meaning.

ghost use Rattle.std.specs.Prelude.{◌≡◌, ℕ, ◌≤◌, ◌<◌, List, [], ◌∷◌, ◌++◌};
ghost use Rattle.std.specs.List.{AllByRecursion};

use crate::names::{Known, Word, name_of, type_of};

/// The most letters of a name or a type that has a meaning.
const MOST_LETTERS: usize = 18;

/// The characters of a string so far: the letters, while they are few and ASCII.
#[derive(Clone, Copy)]
pub struct Content {
    letters: [u8; 18],
    count: u8,
    /// Too many characters have come, or one that is not ASCII.
    other: bool,
    ghost few: { count ≤ 18 },
}

impl Content {
    ghost use Rattle.std.specs.Str.{IsUtf8};
    ghost use Rattle.gj_json.specs.Internal.KeptContent.{IsAscii, Holds, known_in, word_in};

    pub fn new() -> Self
        ensures { Holds result [] }
    {
        Content {
            letters: [0; 18],
            count: 0,
            other: false,
        }
    }

    /// Forgets all characters.
    pub fn clear(&mut self)
        ensures { Holds self.new [] }
    {
        self.count = 0;
        self.other = false;
    }

    pub fn push(&mut self, character: u32)
        ensures { (characters : List ℕ) → Holds self.old characters → Holds self.new (characters ++ character ∷ []) }
    {
        if self.other {
            return;
        }
        if character < 128 && (self.count as usize) < MOST_LETTERS {
            self.letters[self.count as usize] = character as u8;
            self.count += 1;
        } else {
            self.other = true;
        }
    }

    /// Takes characters in ASCII.
    pub fn push_run(&mut self, run: &[u8])
        ensures { (characters : List ℕ) → AllByRecursion IsAscii run.now → Holds self.old characters → Holds self.new (characters ++ run.now) }
    {
        if self.other {
            return;
        }
        if run.len() > MOST_LETTERS {
            self.other = true;
            return;
        }
        let mut at = 0;
        while at < run.len() {
            self.push(run[at] as u32);
            at += 1;
        }
    }

    /// Takes whole characters in UTF-8.
    pub fn push_text(&mut self, text: &[u8])
        ensures { (so_far : List ℕ) (utf8 : IsUtf8 text.now) → Holds self.old so_far → Holds self.new (so_far ++ utf8.0) }
    {
        if text.len() <= MOST_LETTERS && text.is_ascii() {
            self.push_run(text);
        } else {
            self.other = true;
        }
    }

    /// Whether it is known already that no name and no type has these characters at its start.
    pub fn is_other(&self) -> bool
        ensures { result ≡ self.now.other }
    {
        self.other
    }

    /// Which name it is.
    pub fn known(&self) -> Known
        ensures { result ≡ known_in self.now }
    {
        if self.other {
            return Known::Other;
        }
        name_of(&self.letters[..self.count as usize])
    }

    /// Which type it is.
    pub fn word(&self) -> Word
        ensures { result ≡ word_in self.now }
    {
        if self.other {
            return Word::Other;
        }
        type_of(&self.letters[..self.count as usize])
    }
}
