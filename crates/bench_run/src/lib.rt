//! What a run of a test gives: its observations, the samples of its time steps, the number of its actions and its outcome.
//!
//! `bench_model` says which runs a test has, in records, samples and outcomes of its own; `specs/Told` says which of those stand for the
//! values of this crate. [`sort_observations`] puts observations into the order in which a run gives them.
#![tactic(auto)]

pub mod examples;
pub mod laws;
mod observation;
mod outcome;
mod run;
mod sorting;
#[cfg(test)]
mod tests;

pub use observation::Observation;
pub use outcome::Outcome;
pub use run::Run;
pub use sorting::sort_observations;
