//! The bench of a run: it hands out threads, takes the acts that were prepared for them, and keeps the order in which it took them.
//!
//! The world of a [`Bench`] is the replay of its order: whoever prepares the acts, and in whatever order they come, the order is permitted, and
//! the bench has what the run has after it. `specs/Bench` says so, in `IsBench`. [`Bench::pick`] and [`Bench::commit`] are all that workers
//! need. A prepared act is taken only where it is fresh: where it was prepared from the state in which its thread still stands.
#![tactic(auto)]

mod bench;
mod commit;
pub mod laws;
mod pick;
mod run;

pub use bench::Bench;
pub use commit::Commit;
pub use pick::Pick;
