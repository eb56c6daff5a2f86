//! The features that were reported last, where a host pulls them.
use gj_coords::Warnings;
use gj_rules::{Feature, FeatureSink, ForgetfulSink};

/// How many features are kept. Where fewer commas stand in a piece, no more end in it.
pub const ROOM: usize = 256;

/// The last features that were reported, each at its number modulo their room.
#[derive(Drop)]
pub struct LatestFeatures {
    features: [Feature; ROOM],
    /// How many were reported.
    told: u64,
}

/// Stands where no feature was reported yet.
fn no_feature() -> Feature {
    Feature {
        index: 0,
        place: 0,
        close: None,
        id: None,
        fault: None,
        warnings: Warnings::none(),
    }
}

impl LatestFeatures {
    ghost use Rattle.std.specs.Prelude.{◌≡◌, [], ◌%◌, slice_get, Some};
    ghost use Rattle.geolint_c.specs.Latest.{Keeps};
    ghost use Rattle.geolint_c.specs.declared.latest.TheConstants.{ROOM};

    pub fn new() -> LatestFeatures
        ensures { Keeps result [] }
    {
        LatestFeatures {
            features: [no_feature(); ROOM],
            told: 0,
        }
    }

    /// How many were reported.
    #[inline]
    pub fn told(&self) -> u64
        ensures { result ≡ self.now.told }
    {
        self.told
    }

    /// The feature of this number, as far as it is kept.
    pub fn get(&self, number: u64) -> &Feature
        ensures { slice_get self.now.features (number % ROOM) ≡ Some result.now }
    {
        &self.features[(number % ROOM as u64) as usize]
    }
}

impl FeatureSink for LatestFeatures {
    ghost use Rattle.geolint_c.specs.Latest.{Keeps};

    ghost told = { λ latest features. Keeps latest features };

    fn tell_feature(&mut self, feature: &Feature) {
        self.features[(self.told % ROOM as u64) as usize] = *feature;
        self.told = self.told.saturating_add(1);
    }
}

impl ForgetfulSink for LatestFeatures {
    fn forget(&mut self) {
        self.told = 0;
    }
}
