//! Where the last feature that a linter reports has ended.

use gj_rules::{CleanFeature, Feature, FeatureSink};

/// Keeps where the closing bracket of the last feature stands.
#[derive(Drop)]
pub struct LastEnd {
    close: Option<u64>,
}

impl LastEnd {
    ghost use Rattle.std.specs.Prelude.{◌↔◌, [], IsTrue};
    ghost use Rattle.gj_join.specs.Internal.PassedRuns.{Tells, EndsAt};

    /// Before the first feature.
    pub fn new() -> LastEnd
        ensures { Tells result [] }
    {
        LastEnd { close: None }
    }

    /// Whether that bracket is the last of so many bytes.
    pub fn is_at(&self, place: u64) -> bool
        ensures { IsTrue result ↔ EndsAt self.now.close place }
    {
        match self.close {
            Some(close) => close < place && place - close == 1,
            None => false,
        }
    }
}

impl FeatureSink for LastEnd {
    ghost use Rattle.gj_join.specs.Internal.PassedRuns.{Tells};

    ghost told = { λ last features. Tells last features };

    #[tactic(auto, using(crate::proofs::LastEnds::closes_last))]
    #[inline(always)]
    fn tell_feature(&mut self, feature: &Feature) {
        self.close = feature.close;
    }

    #[tactic(auto, using(crate::proofs::LastEnds::closes_last))]
    #[inline(always)]
    fn tell_clean(&mut self, clean: &CleanFeature) {
        self.close = Some(clean.close);
    }
}
