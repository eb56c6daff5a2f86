//! The names and the types that RFC 7946 gives a meaning, and `crs`.

ghost use Rattle.std.specs.Prelude.{◌≡◌};
ghost use Rattle.gj_json.specs.Names.{known_of, word_of};
ghost use Rattle.gj_json.specs.Texts.{name_text};

use std::fmt;

/// The names of members that RFC 7946 gives a meaning (sections 3 to 6), `crs`, to which an earlier form of GeoJSON gave
/// one (section 4), and all others.
#[derive(Clone, Copy, Debug, Default, PartialEq, Eq)]
pub enum Known {
    /// The name `type` (3).
    TypeName,
    /// The name `coordinates` (3.1).
    Coordinates,
    /// The name `geometries` (3.1.8).
    Geometries,
    /// The name `geometry` (3.2).
    Geometry,
    /// The name `properties` (3.2).
    Properties,
    /// The name `features` (3.3).
    Features,
    /// The name `bbox` (5).
    Bbox,
    /// The name `id` (3.2).
    Id,
    /// The name `crs` (4).
    Crs,
    /// Any other name: that of a foreign member (6.1).
    #[default]
    Other,
}

impl Known {
    /// The name as a path shows it: `*` for a foreign one.
    pub fn text(self) -> &'static str
        ensures { result.now ≡ name_text self }
    {
        match self {
            Known::TypeName => "type",
            Known::Coordinates => "coordinates",
            Known::Geometries => "geometries",
            Known::Geometry => "geometry",
            Known::Properties => "properties",
            Known::Features => "features",
            Known::Bbox => "bbox",
            Known::Id => "id",
            Known::Crs => "crs",
            Known::Other => "*",
        }
    }
}

impl fmt::Display for Known {
    ghost use Rattle.std.specs.Prelude.{Some};

    ghost output = { λ name. Some (name_text name) };

    fn fmt<W: fmt::Write>(&self, f: &mut fmt::Formatter<W>) -> fmt::Result {
        f.write_str(self.text())
    }
}

/// The nine types of GeoJSON (RFC 7946, section 1.4), and all other strings.
#[derive(Clone, Copy, Debug, Default, PartialEq, Eq)]
pub enum Word {
    /// `Point` (3.1.2).
    Point,
    /// `MultiPoint` (3.1.3).
    MultiPoint,
    /// `LineString` (3.1.4).
    LineString,
    /// `MultiLineString` (3.1.5).
    MultiLineString,
    /// `Polygon` (3.1.6).
    Polygon,
    /// `MultiPolygon` (3.1.7).
    MultiPolygon,
    /// `GeometryCollection` (3.1.8).
    GeometryCollection,
    /// `Feature` (3.2).
    Feature,
    /// `FeatureCollection` (3.3).
    FeatureCollection,
    /// Any other string, also one that differs in upper and lower case.
    #[default]
    Other,
}

/// Which name these letters are.
#[tactic(auto, unfolding(crate::specs::Names::known_of))]
pub fn name_of(letters: &[u8]) -> Known
    ensures { result ≡ known_of letters.now }
{
    if letters == b"type".as_slice() {
        Known::TypeName
    } else if letters == b"coordinates".as_slice() {
        Known::Coordinates
    } else if letters == b"geometries".as_slice() {
        Known::Geometries
    } else if letters == b"geometry".as_slice() {
        Known::Geometry
    } else if letters == b"properties".as_slice() {
        Known::Properties
    } else if letters == b"features".as_slice() {
        Known::Features
    } else if letters == b"bbox".as_slice() {
        Known::Bbox
    } else if letters == b"id".as_slice() {
        Known::Id
    } else if letters == b"crs".as_slice() {
        Known::Crs
    } else {
        Known::Other
    }
}

/// Which type these letters are.
#[tactic(auto, unfolding(crate::specs::Names::word_of))]
pub fn type_of(letters: &[u8]) -> Word
    ensures { result ≡ word_of letters.now }
{
    if letters == b"Point".as_slice() {
        Word::Point
    } else if letters == b"MultiPoint".as_slice() {
        Word::MultiPoint
    } else if letters == b"LineString".as_slice() {
        Word::LineString
    } else if letters == b"MultiLineString".as_slice() {
        Word::MultiLineString
    } else if letters == b"Polygon".as_slice() {
        Word::Polygon
    } else if letters == b"MultiPolygon".as_slice() {
        Word::MultiPolygon
    } else if letters == b"GeometryCollection".as_slice() {
        Word::GeometryCollection
    } else if letters == b"Feature".as_slice() {
        Word::Feature
    } else if letters == b"FeatureCollection".as_slice() {
        Word::FeatureCollection
    } else {
        Word::Other
    }
}
