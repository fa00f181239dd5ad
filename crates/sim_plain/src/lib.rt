//! The plain engine of a net.
//!
//! [`PlainEngine`] keeps a net, the numbers of its inputs and registers, and a value for each signal. After a change it
//! evaluates all signals once, in an order in which each stands behind what it reads, when a value is first asked for.
//!
//! It takes the net of any sized circuit ([`sized_nets_fit`]), in any such order ([`orders_serve`]).
#![tactic(auto)]

mod choices;
mod engine;
mod laws;
mod settle;
mod words;

pub use choices::chosen_value;
pub use engine::PlainEngine;
pub use laws::{orders_serve, sized_nets_fit};
pub use words::eval;

#[cfg(test)]
mod tests;
