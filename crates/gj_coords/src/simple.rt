//! The types of geometry that have `coordinates`.

/// The types whose coordinates are positions, lists of positions, or lists of those (RFC 7946, section 3.1).
#[derive(Clone, Copy, Debug, PartialEq, Eq)]
pub enum Simple {
    /// A position (3.1.2).
    Point,
    /// A list of positions (3.1.3).
    MultiPoint,
    /// A line: a list of two or more positions (3.1.4).
    LineString,
    /// A list of lines (3.1.5).
    MultiLineString,
    /// A list of linear rings, of which the first is the exterior one (3.1.6).
    Polygon,
    /// A list of polygons' lists of rings (3.1.7).
    MultiPolygon,
}
