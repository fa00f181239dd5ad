//! The text that a circuit is told in.
#![tactic(auto)]

mod examples;
mod outline;

pub use examples::the_summaries_work_out;
pub use outline::summary;
