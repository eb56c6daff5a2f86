//! What is found in the features of a run, added up as they are reported.

use gj_coords::Warnings;
use gj_rules::{CleanFeature, Feature, FeatureSink};

/// The features up to the first with a fault. That of index 0, if it has one, is passed over: it stands before the run.
#[derive(Drop)]
pub struct Totals {
    /// The index of the last of them.
    features: u64,
    /// Where its closing bracket stands.
    close: u64,
    warnings: Warnings,
    /// Whether none had a fault so far.
    is_sound: bool,
}

impl Totals {
    ghost use Rattle.std.specs.Prelude.{◌≡◌};
    ghost use Rattle.gj_join.specs.Internal.Totals.{none_yet};

    /// Before the first feature.
    pub fn new() -> Totals
        ensures { result ≡ none_yet }
    {
        Totals {
            features: 0,
            close: 0,
            warnings: Warnings::none(),
            is_sound: true,
        }
    }

    /// How many features come after that of index 0.
    pub fn features(&self) -> u64
        ensures { result ≡ self.now.features }
    {
        self.features
    }

    /// Where the closing bracket of the last of them stands.
    pub fn close(&self) -> u64
        ensures { result ≡ self.now.close }
    {
        self.close
    }

    /// Their warnings.
    pub fn warnings(&self) -> Warnings
        ensures { result ≡ self.now.warnings }
    {
        self.warnings
    }

    /// Whether none after that of index 0 had a fault.
    pub fn is_sound(&self) -> bool
        ensures { result ≡ self.now.is_sound }
    {
        self.is_sound
    }
}

impl FeatureSink for Totals {
    ghost use Rattle.gj_join.specs.Internal.Totals.{IsTotalOf};

    ghost told = { λ totals features. IsTotalOf totals features };

    fn tell_feature(&mut self, feature: &Feature) {
        if self.is_sound {
            match (feature.fault, feature.close) {
                (None, Some(close)) => {
                    self.features = feature.index;
                    self.close = close;
                    self.warnings = self.warnings.join(feature.warnings);
                }
                _ => self.is_sound = feature.index == 0,
            }
        }
    }

    #[inline(always)]
    fn tell_clean(&mut self, clean: &CleanFeature) {
        if self.is_sound {
            self.features = clean.index;
            self.close = clean.close;
        }
    }
}
