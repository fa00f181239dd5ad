//! The design of a circuit: the circuit with all that a run of it needs.
//!
//! A [`Design`] keeps an elaborated circuit, its name, its ports, its net, an order of the net's signals, and on which inputs each
//! signal depends. Its type keeps that all of these are of one circuit, whose widths are given, whose sinks are initialised and
//! which has no loop. So what is said of a design is said of its circuit: `specs/Settling.antt` has the settled values of a circuit
//! as functions of its inputs and registers.
#![tactic(auto)]

mod design;
mod laws;
mod same;

pub use design::{Design, order_signals};
pub use laws::settled_values_are_settled;
