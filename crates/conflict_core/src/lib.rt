//! Conflicts between the events of one time step.
//!
//! Two events conflict where neither is before the other, and one pokes an input that the other pokes, or reads over its cone. Values
//! make no difference: a conflict is about accesses. [`conflict_with_last`] names the earliest event that the newest one conflicts
//! with, [`first_conflict`] the first pair of a whole log. The definitions stand in `bench_model`; `specs/` says what a table of cones
//! is in their words.
#![tactic(auto)]

mod conflict;
mod examples;
#[cfg(test)]
mod tests;

pub use conflict::{conflict_with_last, first_conflict};
pub use examples::the_conflicts_work_out;
