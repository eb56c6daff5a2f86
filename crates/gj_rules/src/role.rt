//! What a value stands as in its text.
ghost use Rattle.std.specs.Prelude.{◌≡◌};

use gj_json::{Known, Word};

/// What a value stands as in its text, whatever the types of the objects around it.
#[derive(Clone, Copy, Debug, PartialEq, Eq)]
pub enum Role {
    /// The value of the text (RFC 7946, section 3).
    Root,
    /// The value of `geometry` (section 3.2).
    Geometry,
    /// An element of `geometries` (section 3.1.8).
    Part,
    /// An element of `features` (section 3.3).
    Feature,
}

impl Role {
    ghost use Rattle.gj_rules.specs.Role.{is_allowed};
    ghost use Rattle.gj_rules.specs.Internal.OpenMembers.{geometry_uses, feature_uses, uses};
    ghost use Rattle.gj_rules.specs.Internal.EventSteps.{member_of};

    /// Whether an object with this role may be of the type `word`.
    pub fn allows(self, word: Word) -> bool
        ensures { result ≡ is_allowed self word }
    {
        match word {
            Word::Other => false,
            Word::Feature => matches!(self, Role::Root | Role::Feature),
            Word::FeatureCollection => matches!(self, Role::Root),
            _ => !matches!(self, Role::Feature),
        }
    }

    /// Whether the value of a member `name` is looked at in an object with this role: whether a
    /// type uses it that such an object may have.
    #[inline(always)]
    pub fn uses(self, name: Known) -> bool
        ensures { result ≡ uses self name }
    {
        match self {
            Role::Root => true,
            Role::Geometry | Role::Part => Role::geometry_uses(name),
            Role::Feature => Role::feature_uses(name),
        }
    }

    /// The member of the object around that a value with this role is, or is an element of.
    pub fn member(self) -> Known
        ensures { result ≡ member_of self }
    {
        match self {
            Role::Root => Known::Other,
            Role::Geometry => Known::Geometry,
            Role::Part => Known::Geometries,
            Role::Feature => Known::Features,
        }
    }

    #[inline(always)]
    fn geometry_uses(name: Known) -> bool
        ensures { result ≡ geometry_uses name }
    {
        match name {
            Known::TypeName | Known::Coordinates | Known::Geometries | Known::Bbox => true,
            _ => false,
        }
    }

    #[inline(always)]
    fn feature_uses(name: Known) -> bool
        ensures { result ≡ feature_uses name }
    {
        match name {
            Known::TypeName | Known::Geometry | Known::Properties | Known::Id | Known::Bbox => true,
            _ => false,
        }
    }
}
