//! What the path to a place needs of a reader.

ghost use Rattle.std.specs.Prelude.{◌≡◌};

use super::Reader;
use crate::move_events::is_value;

impl Reader {
    ghost use Rattle.gj_json.specs.Internal.PathTrail.{begins};

    /// Whether a value that is no array and no object begins with the last byte.
    pub(crate) fn begins_value(&self) -> bool
        ensures { result ≡ begins self.now.mode self.now.start self.now.offset }
    {
        is_value(self.mode) && self.start < self.offset && self.offset - self.start == 1
    }
}
