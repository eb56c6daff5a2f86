//! What a type asks of the members of an object (RFC 7946, sections 3 and 7.1).
ghost use Rattle.std.specs.Prelude.{◌≡◌, IsTrue};
ghost use Rattle.gj_rules.specs.Members.{is_known};
ghost use Rattle.gj_rules.specs.Internal.MemberRules.{is_among, missing};

use gj_coords::Rule;
use gj_json::{Known, Word};

/// What is asked of the members: of some names, with a bit for each at its place among the names.
#[derive(Clone, Copy)]
pub struct MemberRules {
    /// The members that have to be there.
    pub due: u8,
    /// Those whose values are used: a fault of the value is one of the object.
    pub used: u8,
    /// Those that must not be there.
    pub forbidden: u8,
}

const COORDINATES: u8 = 1 << Known::Coordinates as u8;

const GEOMETRIES: u8 = 1 << Known::Geometries as u8;

const GEOMETRY: u8 = 1 << Known::Geometry as u8;

const PROPERTIES: u8 = 1 << Known::Properties as u8;

const FEATURES: u8 = 1 << Known::Features as u8;

const BBOX: u8 = 1 << Known::Bbox as u8;

const ID: u8 = 1 << Known::Id as u8;

impl MemberRules {
    ghost use Rattle.gj_rules.specs.Internal.MemberRules.{rules_of, without_due};

    /// Those of a type: of `Other` where it is missing or wrong. What is found in the `coordinates` is not among them.
    #[inline(always)]
    pub fn of(word: Word) -> MemberRules
        ensures { result ≡ rules_of word }
    {
        match word {
            Word::GeometryCollection => MemberRules {
                due: GEOMETRIES,
                used: GEOMETRIES | BBOX,
                forbidden: GEOMETRY | PROPERTIES | FEATURES,
            },
            Word::Feature => MemberRules {
                due: GEOMETRY | PROPERTIES,
                used: GEOMETRY | PROPERTIES | ID | BBOX,
                forbidden: COORDINATES | GEOMETRIES | FEATURES,
            },
            Word::FeatureCollection => MemberRules {
                due: FEATURES,
                used: FEATURES | BBOX,
                forbidden: COORDINATES | GEOMETRIES | GEOMETRY | PROPERTIES,
            },
            Word::Other => MemberRules {
                due: 0,
                used: BBOX,
                forbidden: 0,
            },
            _ => MemberRules {
                due: COORDINATES,
                used: BBOX,
                forbidden: GEOMETRY | PROPERTIES | FEATURES,
            },
        }
    }

    /// These rules, where each member may still come.
    pub fn without_due(self) -> MemberRules
        ensures { result ≡ without_due self }
    {
        MemberRules {
            due: 0,
            used: self.used,
            forbidden: self.forbidden,
        }
    }
}

/// Whether the name is among these.
#[inline(always)]
pub fn is_among(names: u8, name: Known) -> bool
    requires { IsTrue (is_known name) }
    ensures { result ≡ is_among names name }
{
    names >> name as u8 & 1 == 1
}

/// The rule that an object breaks in which the member is missing.
pub fn missing(name: Known) -> Rule
    ensures { result ≡ missing name }
{
    match name {
        Known::Geometries => Rule::G5,
        Known::Geometry => Rule::G6,
        Known::Properties => Rule::G7,
        Known::Features => Rule::G8,
        _ => Rule::G4,
    }
}
