//! The inference of widths.
//!
//! A connect asks that its sink is at least as wide as its source, and so does the initial value of a register; a node
//! is as wide as its expression. [`infer`] gives each signal whose width isn't written the least width with which all
//! this holds, and refuses a circuit in which a width would be above 128 or a number is out of its range.
#![tactic(auto)]

mod gather;
mod inference;
mod judge;
mod laws;
mod shape;
mod solve;

pub use inference::{WidthFault, infer};
pub use laws::{least_widths_are_one, the_least_widths_are_found, the_rounds_work_out};
