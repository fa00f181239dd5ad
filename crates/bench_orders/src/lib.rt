//! The run of a test on one thread: at each turn the thread of least path that may act takes its next act.
//!
//! What this order gives is the run that is reported where no workers are asked for, and it speaks for all others. Where it settles, so does each
//! permitted order, and gives the same run; where it meets a conflict, no permitted order settles. `specs/FirstRuns` has the definition,
//! `specs/EveryOrder` what it says of the others.
#![tactic(auto)]

pub mod laws;
mod run;
#[cfg(test)]
mod tests;

pub use run::run_first;
