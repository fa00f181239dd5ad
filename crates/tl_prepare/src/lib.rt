//! The next action of a thread, worked out from the code of its test.
#![tactic(auto)]

mod act;
mod execute;
pub mod laws;
mod notes;
mod prepared;
mod runner;
mod step;
mod values;

pub use act::Act;
pub use prepared::{Prepared, prepare};
