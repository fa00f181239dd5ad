//! How many samples an act may lead to.
//!
//! Where nobody may act behind an act, time steps end until somebody may, and each is sampled. A bench takes room for all these samples
//! before the act, so that want of memory leaves it as it was.
#![tactic(auto)]

mod ahead;

pub use ahead::samples_ahead;
