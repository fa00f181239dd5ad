//! The circuit under test of a bench, over any engine.
//!
//! A [`Device`] owns a design and the engine that runs its net. Contracts see the circuit with the bits of its inputs and of its
//! registers, and say what each call answers in the words of the circuit's settled values, so no engine is named above this crate.
#![tactic(auto)]

mod device;
pub mod laws;
#[cfg(test)]
mod tests;

pub use device::Device;
