//! The course of a run over a circuit: its threads, the log of its time step, what was observed and sampled so far.
//!
//! A [`Course`] takes one act at a time, and ends a time step. It chooses nothing, keeps no order of acts and no outcome. All memory is taken
//! ahead, by `reserve`, so that an act and the end of a time step can't fail. [`laws`] states that these are the acts and the ends of time
//! steps of the definitions' worlds.
#![tactic(auto)]

mod acts;
mod course;
pub mod laws;
mod samples;

pub use course::Course;
