//! The end of time steps in which nobody may act.
#![tactic(auto)]

pub mod laws;
mod settling;

pub use settling::settle;
