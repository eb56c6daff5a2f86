//! A streaming reader of JSON texts (RFC 8259), a byte or a piece at a time, in fixed memory.
//!
//! The events that it reports are those of the text's tree, in order, each with its place; an input that is no admitted
//! text is refused at the first byte that is not allowed where it is, with the cause. The grammar is in
//! `specs/Grammar.antt`, what is refused in `specs/Refusal.antt`, the events in `specs/Events.antt`. A `Locator` reports the
//! path to the value at a place, as `specs/Path.antt` says it.
#![tactic(auto)]

mod characters;
mod class;
mod constant;
mod content;
mod cut_position;
mod event;
mod fault;
mod flat;
mod flats;
mod head;
mod heads;
mod lanes;
mod late_points;
pub mod laws;
mod levels;
mod limits;
mod locator;
mod mode;
mod move_events;
mod moves;
mod name_lengths;
mod names;
mod path;
mod positions;
mod reader;
mod runs;
mod separators;
mod sink;
mod strings;
mod tokens;
mod usual;
mod wide;

pub use cut_position::CutPosition;
pub use event::{Event, What};
pub use fault::{Cause, JsonFault};
pub use flat::{Flat, Numbered};
pub use head::{Head, LatePoint, Located, Opened, Typed};
pub use lanes::plain_run;
pub use laws::{
    allowed_limits, broken_off, bytes_taken, few_events, left_part, longest_front, one_broken,
    one_refusal, one_text, same_events, same_path, viable_fronts,
};
pub use limits::{Limits, MOST_LEVELS};
pub use locator::Locator;
pub use names::{Known, Word};
pub use path::{Path, PathStep};
pub use reader::Reader;
pub use sink::EventSink;
