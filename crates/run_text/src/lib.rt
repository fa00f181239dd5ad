//! The text that a run is told in.
#![tactic(auto)]

mod access;
mod ending;
mod examples;
mod laws;
mod lines;
mod records;

pub use examples::the_reports_work_out;
pub use laws::chains_are_found;
pub use lines::report;
