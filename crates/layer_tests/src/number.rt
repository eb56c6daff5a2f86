//! Numbers.
mod cuts;
mod literal;
mod pair;
mod prefix;
mod short;
mod unsigned;
