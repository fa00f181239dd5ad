//! The flat code of a core test.
#![tactic(auto)]

mod code;
mod draft;
mod emit;
mod fits;
pub mod laws;
mod level;
mod names;
mod operands;
mod same;
mod slots;
mod state;

pub use code::{Code, compile, no_handles};
pub use state::{Fetched, ThreadState};
