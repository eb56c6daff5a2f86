//! The least fault for each type whose coordinates are positions.
ghost use Rattle.std.specs.Prelude.{◌≡◌};

use crate::fault::Fault;

/// The least fault of a value as the coordinates of each of the six types, or `None` where it has none (RFC 7946, sections
/// 3.1.2 to 3.1.7).
#[derive(Clone, Copy)]
pub struct SimpleFaults {
    pub point: Option<Fault>,
    pub multi_point: Option<Fault>,
    pub line_string: Option<Fault>,
    pub multi_line_string: Option<Fault>,
    pub polygon: Option<Fault>,
    pub multi_polygon: Option<Fault>,
}

impl SimpleFaults {
    ghost use Rattle.gj_coords.specs.SimpleFaults.{by_simple};

    /// One fault for every type.
    pub fn all(fault: Option<Fault>) -> SimpleFaults
        ensures { result ≡ by_simple (λ simple. fault) }
    {
        SimpleFaults {
            point: fault,
            multi_point: fault,
            line_string: fault,
            multi_line_string: fault,
            polygon: fault,
            multi_polygon: fault,
        }
    }
}
