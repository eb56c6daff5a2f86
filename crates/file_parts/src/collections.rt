//! One FeatureCollection (RFC 7946, section 3.3), checked in N parts, each by a separate process, and their findings joined.
//!
//! No byte of a text shows that a feature begins there. So a part says what is true of its bytes alone, whatever stands before them:
//! these are whole features, and this is found in them. [`join_features`] reads the text without those bytes, and passes over a part only
//! where a feature has just ended. A wrong guess of where a part begins costs time, and nothing else.

mod checked;
mod joined;
mod likely;
mod runs;

pub use checked::check_features;
pub use joined::{Joined, join_features};
