//! What is reported of a feature.

ghost use Rattle.std.specs.Prelude.{◌∷◌, ◌++◌, [], List};

use gj_coords::{Fault, Warnings};

/// What is found in an element of the array `features` of a text's object (RFC 7946, section 3.3).
#[derive(Clone, Copy, Debug, PartialEq, Eq)]
pub struct Feature {
    /// How many elements come before it.
    pub index: u64,
    /// Where its first byte stands.
    pub place: u64,
    /// Where its closing bracket stands, of an element that is an object or an array.
    pub close: Option<u64>,
    /// Where the value of its first member `id` begins.
    pub id: Option<u64>,
    /// The least of its faults.
    pub fault: Option<Fault>,
    /// Its warnings, of an element without a fault.
    pub warnings: Warnings,
}

/// An element of that array that is an object in which nothing is found, as most are.
#[derive(Clone, Copy, Debug, PartialEq, Eq)]
pub struct CleanFeature {
    /// How many elements come before it.
    pub index: u64,
    /// Where its first byte stands.
    pub place: u64,
    /// Where its closing bracket stands.
    pub close: u64,
    /// Where the value of its first member `id` begins.
    pub id: Option<u64>,
}

/// What features are reported to, in order.
pub trait FeatureSink {
    /// The features that were reported to it so far may be these.
    ghost told: { Self → List Feature → Type 0 };

    ghost use Rattle.gj_rules.specs.declared.feature.Feature.{Feature};
    ghost use Rattle.gj_rules.specs.CleanFeature.{feature_of};

    /// Takes the next feature, with what is found in it.
    fn tell_feature(&mut self, feature: &Feature)
        ensures { (features : List Feature) → told self.old features → told self.new (features ++ feature.now ∷ []) };

    /// A feature in which nothing is found is reported, as by `tell_feature`.
    #[inline(always)]
    fn tell_clean(&mut self, clean: &CleanFeature)
        ensures { (features : List Feature) → told self.old features → told self.new (features ++ feature_of clean.now ∷ []) }
    {
        self.tell_feature(&Feature {
            index: clean.index,
            place: clean.place,
            close: Some(clean.close),
            id: clean.id,
            fault: None,
            warnings: Warnings::none(),
        });
    }
}

/// A sink that can forget what was reported to it.
pub trait ForgetfulSink: FeatureSink {
    /// As before the first feature.
    fn forget(&mut self)
        ensures { Self.told self.new [] };
}
