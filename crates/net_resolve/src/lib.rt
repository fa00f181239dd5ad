//! From an elaborated circuit to its net.
//!
//! Of several connects to a signal the last one whose conditions hold counts. [`resolve`] turns them into one equation
//! for each signal, a list of choices, and gives each condition of a When and each reset a signal of its own.
//!
//! `specs/Resolved` says what the net of a circuit is; the other definitions say what the steps leave for one signal.
#![tactic(auto)]

mod collect;
mod examples;
mod join;
mod net;
mod walk;

pub use examples::the_nets_work_out;
pub use net::{ResolveFault, resolve};
