//! The events of one time step, and which of them is before which.
//!
//! A log lists the events of a time step in the order in which they were committed. An event is before a later one where a chain
//! of links leads from it to the other, each from an earlier event to a later one: of one thread; from a fork to the events of its
//! child; from the end of a child to an event that names it as joined; from a lesser region to a greater one. [`ordered`] says so of
//! two events. The definition stands in `bench_model`; `specs/` has the map from these events to its events.
#![tactic(auto)]

mod event;
mod examples;
mod order;
#[cfg(test)]
mod tests;

pub use event::{Event, Kind};
pub use examples::the_orders_work_out;
pub use order::ordered;
