//! How files are checked, and in which form they are reported.

use crate::formats::Format;
use geolint_report::judge::Finding;
use geolint_report::texts::has;
use gj_coords::{KINDS, Kind, Warnings};
use gj_json::Limits;
use gj_rules::Framing;

/// Some kinds of warning, by their numbers less 1.
#[derive(Clone, Copy, Debug, PartialEq, Eq)]
pub struct Kinds {
    contained: [bool; KINDS.len()],
}

impl Kinds {
    ghost use Rattle.std.specs.Prelude.{◌≡◌};
    ghost use Rattle.report_forms.specs.Passing.{contains};

    pub fn none() -> Kinds {
        Kinds {
            contained: [false; KINDS.len()],
        }
    }

    pub fn insert(&mut self, kind: Kind) {
        self.contained[kind.index()] = true;
    }

    pub fn contains(&self, kind: Kind) -> bool
        ensures { result ≡ contains self.now kind }
    {
        self.contained[kind.index()]
    }
}

/// Which kinds of warning fail a valid file.
#[derive(Clone, Copy, Debug, PartialEq, Eq)]
pub struct Strictness {
    /// Each kind fails it, unless it is among `allowed`.
    pub strict: bool,
    pub allowed: Kinds,
    /// These kinds fail it in any case.
    pub denied: Kinds,
}

impl Strictness {
    ghost use Rattle.std.specs.Prelude.{◌≡◌};
    ghost use Rattle.report_forms.specs.Passing.{fails};

    /// Whether a warning of this kind fails a file.
    pub fn fails(&self, kind: Kind) -> bool
        ensures { result ≡ fails self.now kind }
    {
        self.denied.contains(kind) || (self.strict && !self.allowed.contains(kind))
    }
}

/// What is reported of each feature of a file, after the file's own report.
#[derive(Clone, Copy, Debug, PartialEq, Eq)]
pub enum Every {
    Nothing,
    /// The fault of each that has one.
    Faults,
    /// That, and of each without a fault its kinds of warning.
    Warnings,
}

/// How the files are checked and reported.
#[derive(Clone, Copy)]
pub struct Options {
    pub limits: Limits,
    /// A valid file with a warning of a kind that fails it does not pass.
    pub strictness: Strictness,
    /// Only whether each file is valid is asked.
    pub quick: bool,
    /// How the texts of each file are separated, whatever its name is.
    pub framing: Option<Framing>,
    pub format: Format,
    pub summary: bool,
    pub every: Every,
    /// The most findings that are listed of a file: all where it is 0.
    pub most: u64,
}

impl Options {
    ghost use Rattle.std.specs.Prelude.{◌≡◌};
    ghost use Rattle.report_forms.specs.Passing.{passes, lets, lets_all};

    /// Whether a file passes of which this is found.
    pub fn passes(&self, finding: &Finding) -> bool
        ensures { result ≡ passes self.now.strictness finding.now }
    {
        match finding.warnings() {
            None => false,
            Some(warnings) => self.lets_all(&warnings),
        }
    }

    /// Whether no kind of which there is a warning fails a file.
    fn lets_all(&self, warnings: &Warnings) -> bool
        ensures { result ≡ lets_all self.now.strictness warnings.now }
    {
        KINDS.iter().all(|kind| self.lets(warnings, *kind))
    }

    fn lets(&self, warnings: &Warnings, kind: Kind) -> bool
        ensures { result ≡ lets self.now.strictness warnings.now kind }
    {
        !self.strictness.fails(kind) || !has(warnings, kind)
    }
}
