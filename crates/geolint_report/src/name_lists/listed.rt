//! What ends a name, and what a list has next.

ghost use Rattle.std.specs.Prelude.{◌≡◌};

/// The byte that ends each name of a list.
#[derive(Clone, Copy, Debug, PartialEq, Eq)]
pub enum NameEnd {
    Lf,
    Nul,
}

impl NameEnd {
    ghost use Rattle.geolint_report.specs.Listed.{end_byte};

    /// The byte itself: 10 or 0.
    pub(crate) fn byte(self) -> u8
        ensures { result ≡ end_byte self }
    {
        match self {
            NameEnd::Lf => b'\n',
            NameEnd::Nul => 0,
        }
    }
}

/// What a list has next.
#[derive(Clone, Copy, Debug, PartialEq, Eq)]
pub enum Listed {
    Name,
    /// A name with NUL, where names end with LF. What is before the NUL is given.
    NameWithNul,
    /// The list is over.
    End,
}

impl Listed {
    ghost use Rattle.geolint_report.specs.Listed.{listed_by};

    /// What a list has next where a name with NUL came or none, and bytes came or none.
    pub(crate) fn of(has_nul: bool, is_empty: bool) -> Listed
        ensures { result ≡ listed_by has_nul is_empty }
    {
        match (has_nul, is_empty) {
            (true, _) => Listed::NameWithNul,
            (false, false) => Listed::Name,
            (false, true) => Listed::End,
        }
    }
}
