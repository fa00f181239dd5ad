//! The threads of a bench: which are there, what each waits for, which may act and which are marked.
#![tactic(auto)]

mod entry;
pub mod examples;
pub mod laws;
mod queues;
mod same;
mod seat;
mod shelf;
mod table;

pub use entry::{Entry, Mode};
pub use same::same_state;
pub use table::ThreadTable;
