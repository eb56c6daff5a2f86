//! What is found in a run of features.

use gj_coords::Warnings;

/// What is found in whole features that follow one another, of which none breaks a rule: of fixed size.
#[derive(Clone, Copy)]
pub struct FeatureSum {
    /// The byte offset right after a feature, where the run begins.
    pub begin: u64,
    /// The byte offset right after its last feature.
    pub end: u64,
    /// How many features it has.
    pub features: u64,
    /// Their warnings.
    pub warnings: Warnings,
}
