//! How a call ends.

/// How a run ends whose report is whole.
#[derive(Clone, Copy, Debug, PartialEq, Eq)]
pub enum Outcome {
    /// Each file passes.
    Pass,
    /// A file does not pass.
    Fail,
    /// A file could not be read.
    Unread,
}

impl Outcome {
    ghost use Rattle.std.specs.Prelude.{◌≡◌, ◌++◌, ◌∷◌, [], List};
    ghost use Rattle.geolint_files.specs.declared.outcome.Outcome.{Outcome};
    ghost use Rattle.geolint_files.specs.Outcome.{status_of, outcome_of, worse, worst};

    /// The outcome of one file that was read.
    pub fn of(passes: bool) -> Outcome
        ensures { result ≡ outcome_of passes }
    {
        match passes {
            true => Outcome::Pass,
            false => Outcome::Fail,
        }
    }

    /// The program's exit status: 0, 1 or 2.
    pub fn status(self) -> u8
        ensures { result ≡ status_of self }
    {
        match self {
            Outcome::Pass => 0,
            Outcome::Fail => 1,
            Outcome::Unread => 2,
        }
    }

    /// The worst of this outcome and that of one more file.
    pub fn add(&mut self, other: Outcome)
        ensures { (outcomes : List Outcome) → self.old ≡ worst outcomes → self.new ≡ worst (outcomes ++ other ∷ []) }
    {
        *self = self.worse(other);
    }

    /// The worse of two.
    fn worse(self, other: Outcome) -> Outcome
        ensures { result ≡ worse self other }
    {
        match (self, other) {
            (Outcome::Unread, _) | (_, Outcome::Unread) => Outcome::Unread,
            (Outcome::Fail, _) | (_, Outcome::Fail) => Outcome::Fail,
            _ => Outcome::Pass,
        }
    }
}
