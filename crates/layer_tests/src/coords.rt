//! What is wrong with coordinates and bounding boxes.
mod bbox;
mod coordinates;
mod plain_point;
mod sample;
mod texts;
mod warnings;
mod winding;
