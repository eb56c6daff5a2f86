//! The kinds of warning.
ghost use Rattle.std.specs.Prelude.{◌≡◌, ◌<◌, ◌≤◌, length};
ghost use Rattle.gj_coords.specs.Texts.{kind_text};
ghost use Rattle.gj_coords.specs.Warnings.{kind_number, kinds, index_of};

use std::fmt;

/// The reason for a warning. The section of RFC 7946 is in brackets. What is at the place of the warning comes
/// after the colon.
#[derive(Clone, Copy, Debug, PartialEq, Eq)]
pub enum Kind {
    /// A byte order mark (RFC 8259, section 8.1): the mark.
    W1,
    /// A ring that runs the wrong way (section 3.1.6): the ring.
    W2,
    /// A position of more than three numbers (3.1.1): the position.
    W3,
    /// A number with more than seven decimal places, among the first three of a position (11.2): the number.
    W4,
    /// A position out of range (4), a longitude beyond 180 degrees or a latitude beyond 90: the position.
    W5,
    /// An empty `coordinates` array (3.1): the array.
    W6,
    /// A GeometryCollection that is an element of the `geometries` of another (3.1.8): the inner one.
    W7,
    /// A bounding box whose south is above its north (5): the array.
    W8,
    /// A member `crs` (4): its name.
    W9,
}

/// The kinds in the order of their numbers, each with what it is called in a report, as a macro takes them.
#[macro_export]
macro_rules! kind_texts {
    ($form:ident) => {
        $form! {
            Kind:
            W1 => "byte order mark",
            W2 => "ring runs the wrong way",
            W3 => "more than three numbers in a position",
            W4 => "more than seven decimal places",
            W5 => "position out of range",
            W6 => "empty coordinates",
            W7 => "collection in a collection",
            W8 => "bbox south above north",
            W9 => "crs is no longer used",
        }
    };
}

/// The kinds in the order of their numbers.
pub const KINDS: [Kind; 9] = kind_texts!(variants);

/// What each is called, in the same order.
const KIND_TEXTS: [&str; KINDS.len()] = kind_texts!(texts);

impl Kind {
    /// The number in the kind's name, from 1 on.
    pub fn number(self) -> u8
        ensures { result ≡ kind_number self }
    {
        self as u8 + 1
    }

    /// Its index in `KINDS`.
    #[inline]
    pub fn index(self) -> usize
        ensures index { result ≡ index_of self }
        ensures small { result < length kinds }
    {
        (self.number() - 1) as usize
    }

    /// What the kind is called in a report.
    #[tactic(auto, using(crate::proofs::TextLengths::kind_short), unfolding(crate::specs::Texts::kind_text))]
    pub fn text(self) -> &'static str
        ensures text { result.now ≡ kind_text self }
        ensures short { length result.now ≤ 37 }
    {
        match KIND_TEXTS.get(self as usize) {
            Some(text) => text,
            None => "",
        }
    }
}

impl fmt::Display for Kind {
    ghost use Rattle.std.specs.Prelude.{Some};

    ghost output = { λ kind. Some (kind_text kind) };

    fn fmt<W: fmt::Write>(&self, f: &mut fmt::Formatter<W>) -> fmt::Result {
        f.write_str(self.text())
    }
}

/// One value for each kind. Its fields have names, so that no proof has to know how long an array is.
#[derive(Clone, Copy, Debug, PartialEq, Eq)]
pub struct ByKind<T> {
    w1: T,
    w2: T,
    w3: T,
    w4: T,
    w5: T,
    w6: T,
    w7: T,
    w8: T,
    w9: T,
}

impl<T: Copy> ByKind<T> {
    ghost use Rattle.std.specs.Prelude.{◌≡◌};
    ghost use Rattle.gj_coords.specs.Internal.ByKind.{each, of_kind, with_value};

    /// One value for every kind.
    #[inline]
    pub fn all(value: T) -> ByKind<T>
        ensures { result ≡ each (λ kind. value) }
    {
        ByKind {
            w1: value,
            w2: value,
            w3: value,
            w4: value,
            w5: value,
            w6: value,
            w7: value,
            w8: value,
            w9: value,
        }
    }

    /// The value for a kind.
    #[inline]
    pub fn of(&self, kind: Kind) -> T
        ensures { result ≡ of_kind self.now kind }
    {
        match kind {
            Kind::W1 => self.w1,
            Kind::W2 => self.w2,
            Kind::W3 => self.w3,
            Kind::W4 => self.w4,
            Kind::W5 => self.w5,
            Kind::W6 => self.w6,
            Kind::W7 => self.w7,
            Kind::W8 => self.w8,
            Kind::W9 => self.w9,
        }
    }

    /// Replaces the value for a kind.
    #[inline]
    pub fn set(&mut self, kind: Kind, value: T)
        ensures { self.new ≡ with_value self.old kind value }
    {
        match kind {
            Kind::W1 => self.w1 = value,
            Kind::W2 => self.w2 = value,
            Kind::W3 => self.w3 = value,
            Kind::W4 => self.w4 = value,
            Kind::W5 => self.w5 = value,
            Kind::W6 => self.w6 = value,
            Kind::W7 => self.w7 = value,
            Kind::W8 => self.w8 = value,
            Kind::W9 => self.w9 = value,
        }
    }
}
