//! The model of a test over a circuit, and what every permitted order of such a test has in common.
//!
//! `specs/Settings` puts the threads of tests, the settled values of circuits and the machine of orders together. `laws` states the
//! theorems on orders for each circuit that runs and each test that keeps the rules, `examples` works small runs out, and [`Limits`] has
//! the limits of a run.
#![tactic(auto)]

pub mod examples;
pub mod laws;
mod limits;

pub use limits::{Limits, standard_limits};
