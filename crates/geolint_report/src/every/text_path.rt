//! Follows the path in the text that the bytes of a file end in: the whole file, or one of its records.

ghost use Rattle.std.specs.Prelude.{◌≡◌, Some};
ghost use Rattle.gj_rules.specs.declared.records.framing.Framing.{Framing};
ghost use Rattle.geolint_report.specs.Sites.{text_limits};

use gj_json::{Limits, Locator, Path};
use gj_rules::Framing;
use memchr::memrchr;

/// The most bytes of a record: no record reaches it.
const MOST_BYTES: u64 = 1 << 60;

/// After the first bytes of a file.
#[derive(Clone, Copy)]
pub struct TextPath {
    /// It had the bytes of the text that these end in.
    locator: Locator,
    limits: Limits,
    framing: Option<Framing>,
    /// A byte of the text was refused, or none has begun: no path is known in it from there on.
    is_lost: bool,
}

/// What a record is read under.
fn record_limits(limits: Limits) -> Limits
    ensures { (framing : Framing) → result ≡ text_limits (Some framing) limits }
{
    match Limits::new(limits.depth(), MOST_BYTES) {
        Some(limits) => limits,
        None => limits,
    }
}

/// What a text of a file is read under.
fn text_limits(limits: Limits, framing: Option<Framing>) -> Limits
    ensures { result ≡ text_limits framing limits }
{
    match framing {
        None => limits,
        Some(_) => record_limits(limits),
    }
}

impl TextPath {
    ghost use Rattle.std.specs.Prelude.{◌≡◌, ◌++◌, [], ℕ, List, IfSome, IsSome, Some, false};
    ghost use Rattle.gj_json.specs.Limits.{Allowed};
    ghost use Rattle.geolint_report.specs.Internal.TextPaths.{Follows, StandsIn, Keeps, KeepsIn, IsFed};
    ghost use Rattle.geolint_report.specs.Sites.{IsPathOf, text_of};

    /// Before the first byte of a file.
    pub fn new(limits: Limits, framing: Option<Framing>) -> TextPath
        ensures stands { StandsIn result [] }
        ensures keeps { KeepsIn result [] }
        ensures framing { result.framing ≡ framing }
        ensures limits { result.limits ≡ limits }
    {
        TextPath {
            locator: Locator::new(text_limits(limits, framing)),
            limits,
            framing,
            is_lost: framing == Some(Framing::Sequence),
        }
    }

    /// Before the first byte of the same file.
    pub fn anew(&self) -> TextPath
        ensures stands { StandsIn result [] }
        ensures keeps { KeepsIn result [] }
        ensures fed { IsFed self.now result }
    {
        TextPath::new(self.limits, self.framing)
    }

    /// After bytes of the same file that are not known: no path is known in the text that they end in.
    pub fn lost(limits: Limits, framing: Option<Framing>) -> TextPath
        ensures stands { (front : List ℕ) → StandsIn result front }
        ensures framing { result.framing ≡ framing }
    {
        TextPath {
            locator: Locator::new(text_limits(limits, framing)),
            limits,
            framing,
            is_lost: true,
        }
    }

    /// Takes the next bytes.
    pub fn feed(&mut self, bytes: &[u8])
        ensures stands { (front : List ℕ) → StandsIn self.old front → StandsIn self.new (front ++ bytes.now) }
        ensures keeps { (front : List ℕ) → StandsIn self.old front → KeepsIn self.old front → KeepsIn self.new (front ++ bytes.now) }
        ensures fed { IsFed self.old self.new }
    {
        match self.framing {
            Some(framing) => self.feed_record(bytes, framing),
            None => self.feed_text(bytes),
        }
    }

    /// It reads the last record of the bytes alone: no earlier record has a part in a path that is asked after them.
    fn feed_record(&mut self, bytes: &[u8], framing: Framing)
        ensures stands { (front : List ℕ) → self.old.framing ≡ Some framing → StandsIn self.old front → StandsIn self.new (front ++ bytes.now) }
        ensures keeps { (front : List ℕ) → self.old.framing ≡ Some framing → StandsIn self.old front → KeepsIn self.old front
            → KeepsIn self.new (front ++ bytes.now) }
        ensures fed { IsFed self.old self.new }
    {
        match memrchr(framing.separator(), bytes) {
            Some(last) => {
                self.locator = Locator::new(record_limits(self.limits));
                self.is_lost = false;
                self.feed_text(&bytes[last + 1..]);
            }
            None => self.feed_text(bytes),
        }
    }

    fn feed_text(&mut self, bytes: &[u8])
        ensures follows { (text : List ℕ) → Follows self.old text → Follows self.new (text ++ bytes.now) }
        ensures keeps { (limits : Allowed) (text : List ℕ) → Follows self.old text → Keeps limits self.old text → Keeps limits self.new (text ++ bytes.now) }
        ensures fed { IsFed self.old self.new }
    {
        if !self.is_lost && self.locator.feed(bytes).is_err() {
            self.is_lost = true;
        }
    }

    /// The path of the last byte, where it is known.
    pub fn path(&self) -> Option<Path>
        ensures told { self.now.is_lost ≡ false → IsSome result }
        ensures is { (front : List ℕ) → StandsIn self.now front → IfSome result (λ path. IsPathOf (text_of self.now.framing front) path) }
    {
        if self.is_lost {
            None
        } else {
            Some(self.locator.path())
        }
    }
}
