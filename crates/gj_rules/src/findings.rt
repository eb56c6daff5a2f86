//! What is reported of a value to the object around it.
ghost use Rattle.std.specs.Prelude.{◌≡◌};

use gj_coords::{Fault, Warned};

/// What is found in a value.
#[derive(Clone, Copy)]
pub struct Findings {
    /// The least fault.
    pub fault: Option<Fault>,
    /// Mostly there are none: then nothing else is written of them.
    pub warned: Warned,
}

impl Findings {
    ghost use Rattle.gj_rules.specs.Internal.FrameReading.{found_in};
    ghost use Rattle.gj_rules.specs.Internal.Summaries.{none_found};

    /// Nothing.
    pub fn none() -> Self
        ensures { found_in result ≡ none_found }
    {
        Findings {
            fault: None,
            warned: Warned::none(),
        }
    }

    /// Forgets all.
    #[inline]
    pub fn clear(&mut self)
        ensures { found_in self.new ≡ none_found }
    {
        self.fault = None;
        self.warned.clear();
    }
}
