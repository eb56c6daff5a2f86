use gj_json::Limits;

/// How a run validates its input.
#[derive(Clone, Copy, PartialEq, Eq)]
pub struct Options {
    /// How deep the input may nest, and how many bytes it may have.
    pub limits: Limits,
    /// A valid input with a warning does not pass.
    pub strict: bool,
    /// The run says only whether the input is valid: it stops reading as soon as the input cannot be valid, and reports
    /// nothing else of one that is not.
    pub quick: bool,
}

impl Options {
    ghost use Rattle.std.specs.Prelude.{◌≡◌, false};
    ghost use Rattle.gj_json.specs.Limits.{most};

    /// Under the usual limits, where a warning does not matter.
    pub fn usual() -> Options
        ensures limits { result.limits ≡ most }
        ensures lenient { (result.strict ≡ false) × (result.quick ≡ false) }
    {
        Options {
            limits: Limits::usual(),
            strict: false,
            quick: false,
        }
    }
}

/// How a run ends, where nothing failed.
#[derive(Clone, Copy, Debug, PartialEq, Eq)]
pub enum Outcome {
    /// The input is valid, and has no warning under `strict`.
    Pass,
    /// The input is not valid, or has a warning where none is allowed.
    Fail,
}
