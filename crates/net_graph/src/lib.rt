//! What a net's signals read, seen as a graph: the order in which they settle, loops, and cones.
//!
//! - [`levels`] gives every signal after all that it reads in the cycle, or names a loop.
//! - [`cone_table`] says on which inputs each signal depends, and [`Cones::chain`] why.
//!
//! A net's conditions are signals of their own. Orders and cones go over all signals; loops and chains name the
//! circuit's signals alone, and a read over a condition is one step. Nothing recurses along a net: only along the
//! nesting of expressions and of choices.
//!
//! The definitions that contracts cite are in `specs/`.
#![tactic(auto)]

mod cones;
mod distance;
mod examples;
mod inputs;
mod level;
mod marks;
mod mention;
mod order;
mod parts;
mod readers;
mod search;
#[cfg(test)]
mod tests;

pub use cones::{Cones, cone_table};
pub use examples::the_graphs_work_out;
pub use level::{GraphFault, LevelOrder, levels};
