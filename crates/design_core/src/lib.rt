//! From the text of a circuit to its design, by all stages in their order.
//!
//! `specs/Built.antt` has what a text is built to as a chain of the stages' own definitions, and `Refused` what each refusal tells.
#![tactic(auto)]

mod stages;
#[cfg(test)]
mod tests;

pub use stages::{BuildFault, build};
