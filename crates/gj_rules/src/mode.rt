//! Where in the objects with a role the next event stands.
ghost use Rattle.std.specs.Prelude.{◌≡◌};

use crate::role::Role;
use gj_json::Known;

/// What comes next, outside of values that are not looked into.
#[derive(Clone, Copy, PartialEq, Eq)]
pub enum Mode {
    /// The value of the text, or a byte order mark before it.
    RootDue,
    /// A name, or the end of the object.
    Names,
    /// The value of a member, checked as that of the first member of this name. Of `coordinates` and
    /// `bbox` it may be under way: a summary takes it.
    Due(Known),
    /// An element of an array of values with this role, or the end of the array.
    Elements(Role),
    /// The text has ended.
    Done,
}

impl Mode {
    ghost use Rattle.gj_rules.specs.Internal.EventSteps.{mode_behind};

    /// What comes after an object with this role.
    pub fn behind(role: Role) -> Mode
        ensures { result ≡ mode_behind role }
    {
        match role {
            Role::Root => Mode::Done,
            Role::Geometry => Mode::Names,
            Role::Part => Mode::Elements(Role::Part),
            Role::Feature => Mode::Elements(Role::Feature),
        }
    }
}
