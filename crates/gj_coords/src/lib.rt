//! What is wrong with the coordinates of a geometry, and with a bounding box (RFC 7946, sections 3.1 and 5).
//!
//! A [`Coordinates`] takes the events of one value, whatever it is, and holds one fixed record. Its
//! [`Coordinates::fault`] is the least of all faults that the definitions list for the whole value as a type, and its
//! [`Coordinates::warnings`] are what is kept of all that deserves a warning in it, for each of the six types at once.
//! A [`Bbox`] does the same for a bounding box, and a [`Watcher`] for one type.
#![tactic(auto)]

/// The variants that a table has, in its order.
macro_rules! variants {
    ($of:ident: $($name:ident => $text:literal,)*) => {
        [$($of::$name),*]
    };
}

/// The texts that a table has, in its order.
macro_rules! texts {
    ($of:ident: $($name:ident => $text:literal,)*) => {
        [$($text),*]
    };
}

mod bbox;
mod coordinates;
mod cuts;
mod element;
mod fault;
mod flat;
mod kind;
mod kind_warnings;
pub mod laws;
mod plain_point;
mod position;
mod position_warned;
mod ring;
mod simple;
mod simple_faults;
mod tally;
mod walk;
mod warned;
mod warnings;
mod watcher;
mod winding;

pub use bbox::Bbox;
pub use coordinates::Coordinates;
pub use fault::{Fault, RULES, Rule, lesser_fault};
pub use kind::{KINDS, Kind};
pub use plain_point::{is_plain_point, point_warned};
pub use simple::Simple;
pub use simple_faults::SimpleFaults;
pub use warned::Warned;
pub use warnings::Warnings;
pub use watcher::{
    LineStringWatcher, MultiLineStringWatcher, MultiPointWatcher, MultiPolygonWatcher,
    PointWatcher, PolygonWatcher, Watcher,
};
