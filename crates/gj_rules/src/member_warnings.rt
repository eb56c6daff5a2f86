//! The warnings that are kept of an open object with a role.
ghost use Rattle.std.specs.Prelude.{◌≡◌, IsTrue};

use crate::lazy_warned::LazyWarned;
use gj_coords::{Kind, Warned};
use gj_json::Known;

/// The warnings that an open object with a role has gathered so far, but for those of its `coordinates`.
#[derive(Clone, Copy)]
pub struct MemberWarnings {
    /// Those that depend on no type: of each member `crs` and of the first `bbox`.
    pub own: LazyWarned,
    /// Those of the first member of each name whose value holds values with a role.
    pub geometries: LazyWarned,
    pub geometry: LazyWarned,
    pub features: LazyWarned,
}

impl MemberWarnings {
    ghost use Rattle.gj_coords.specs.Internal.GatheredWarnings.{all_in};
    ghost use Rattle.gj_rules.specs.Internal.FrameReading.{gathered_in};
    ghost use Rattle.gj_rules.specs.Internal.GatheredWarnings.{none_gathered, gathered, gathered_at};

    /// Of no member.
    pub fn none() -> Self
        ensures { gathered_in result ≡ none_gathered }
    {
        let none = LazyWarned::none();
        MemberWarnings {
            own: none,
            geometries: none,
            geometry: none,
            features: none,
        }
    }

    /// Forgets all.
    #[inline]
    pub fn clear(&mut self)
        ensures { gathered_in self.new ≡ none_gathered }
    {
        self.own.clear();
        self.geometries.clear();
        self.geometry.clear();
        self.features.clear();
    }

    /// Whether a few looks show that there is none, as mostly there is.
    #[inline]
    pub fn is_nothing(&self) -> bool
        ensures { IsTrue result → gathered_in self.now ≡ none_gathered }
    {
        let members = self.geometries.is_nothing() && self.features.is_nothing();
        self.own.is_nothing() && (self.geometry.is_nothing() && members)
    }

    /// Adds warnings of the value of the first member `name`.
    pub fn join(&mut self, name: Known, warned: &Warned)
        ensures { gathered_in self.new ≡ gathered name (all_in warned.now) (gathered_in self.old) }
    {
        match name {
            Known::Geometries => self.geometries.take(warned),
            Known::Geometry => self.geometry.take(warned),
            Known::Features => self.features.take(warned),
            Known::Bbox => self.own.take(warned),
            _ => {}
        }
    }

    /// Takes a name `crs`, each of which gets a warning (RFC 7946, section 4).
    pub fn note_crs(&mut self, place: u64)
        ensures { gathered_in self.new ≡ gathered_at Known.Crs place (gathered_in self.old) }
    {
        self.own.note(Kind::W9, place);
    }
}
