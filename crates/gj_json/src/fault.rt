//! Why and where a reader refuses an input.
ghost use Rattle.std.specs.Prelude.{◌≡◌};
ghost use Rattle.gj_json.specs.Texts.{cause_text};

use std::fmt;

/// Why an input is refused. Length comes before the other causes, whatever the byte is.
#[derive(Clone, Copy, Debug, PartialEq, Eq)]
pub enum Cause {
    /// J1: the byte at the place is not allowed there, however deep a text may nest (RFC 8259; RFC 3629 for its UTF-8).
    Syntax,
    /// J2: the input ends before a text does: the place is its length.
    Truncated,
    /// J3: the bracket at the place opens one array or object too many (RFC 8259, section 9).
    Depth,
    /// J4: the input is longer than allowed: the place is the number of bytes that are allowed.
    Length,
}

impl Cause {
    /// What the cause is called in a report.
    pub fn text(self) -> &'static str
        ensures { result.now ≡ cause_text self }
    {
        match self {
            Cause::Syntax => "syntax",
            Cause::Truncated => "truncated",
            Cause::Depth => "too deep",
            Cause::Length => "too long",
        }
    }
}

impl fmt::Display for Cause {
    ghost use Rattle.std.specs.Prelude.{Some};

    ghost output = { λ cause. Some (cause_text cause) };

    fn fmt<W: fmt::Write>(&self, f: &mut fmt::Formatter<W>) -> fmt::Result {
        f.write_str(self.text())
    }
}

/// Where and why an input is refused.
#[derive(Clone, Copy, Debug, PartialEq, Eq)]
pub struct JsonFault {
    /// How many bytes of the input come before the refused one.
    pub place: u64,
    pub cause: Cause,
}

impl fmt::Display for JsonFault {
    ghost use Rattle.std.specs.Prelude.{◌++◌, Some, codes};
    ghost use Rattle.std.specs.Fmt.{decimal};

    ghost output = { λ fault. Some (codes "not JSON at " ++ (decimal fault.place ++ (codes ": " ++ cause_text fault.cause))) };

    fn fmt<W: fmt::Write>(&self, f: &mut fmt::Formatter<W>) -> fmt::Result {
        write!(f, "not JSON at {}: {}", self.place, self.cause)
    }
}
