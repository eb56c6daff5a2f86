//! Rules, verdicts and sequences.
mod events;
mod features;
mod linter;
mod parts;
mod records;
mod sequence;
mod text;
