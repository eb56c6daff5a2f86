//! Places in a text.
mod excerpt;
mod lines;
mod recent;
mod string;
