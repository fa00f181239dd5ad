//! What the crates about circuits speak of: signals and ports, elaborated circuits, nets, and what an engine is.
//!
//! - A circuit's signals are numbered from 0, its ports first. A [`PortTable`] finds a port by its name and by its place.
//! - An [`Elab`] is a circuit of ground signals: a list of them, and a body of declarations, connects and Whens.
//! - A [`Net`] has one equation for each signal, and an [`Engine`] runs one.
//!
//! The definitions that contracts cite are in `specs/`.
#![tactic(auto)]

mod copy;
mod engine;
mod examples;
mod laws;
mod ports;
mod tree;

pub use engine::Engine;
pub use examples::{
    the_cones_work_out, the_delays_work_out, the_forms_work_out, the_least_widths_work_out,
    the_paths_work_out, the_queue_works_out, the_reads_work_out, the_values_work_out,
    the_widths_work_out,
};
pub use laws::{
    a_value_depends_on_its_cone, each_sink_has_a_connect, exactly_one_is_settled,
    plain_evaluation_settles,
};
pub use ports::{PortInfo, PortTable, Signal};
pub use tree::{Choice, Elab, Equation, Ground, GroundExpr, GroundReset, Net, Role, SignalInfo};
