//! What comes of an act: a conflict, the end of time steps, or the limit of actions.
#![tactic(auto)]

mod judging;
pub mod laws;

pub use judging::judge;
