//! The tests of the layers, through what each makes public.
//!
//! They are in a crate of their own because a crate with tests is proved twice, with them and without. `parts_tests` has those
//! of the crates that are among the last to be proved.
#![tactic(auto)]

#[cfg(test)]
mod checks;
#[cfg(test)]
mod coords;
#[cfg(test)]
mod expected;
#[cfg(test)]
mod hints;
#[cfg(test)]
mod json;
#[cfg(test)]
mod number;
#[cfg(test)]
mod places;
#[cfg(test)]
mod rows;
#[cfg(test)]
mod rules;
#[cfg(test)]
mod runs;
#[cfg(test)]
mod split;
