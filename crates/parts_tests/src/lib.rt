//! The tests of `geolint_report`, `file_parts` and `part_lines`, through what each makes public.
//!
//! They are in a crate of their own because a crate with tests is proved twice, with them and without, and apart from
//! `layer_tests` because these crates are among the last that are proved.
#![tactic(auto)]

#[cfg(test)]
mod build;
#[cfg(test)]
mod collections;
#[cfg(test)]
mod further;
#[cfg(test)]
mod names;
#[cfg(test)]
mod sequences;
