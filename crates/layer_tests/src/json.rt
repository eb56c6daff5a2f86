//! Texts, and the ways to their places.
mod fault;
mod locator;
mod reader;
