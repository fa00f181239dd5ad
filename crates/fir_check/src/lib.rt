//! The rules that a circuit keeps before it is elaborated.
//!
//! `specs/` has a definition for each rule: `Types` has types as the rules see them, `Scopes` what a
//! name and an expression stand for at a statement, `Rules` the seven rules, each as the list of the
//! lines that break it, and `circuit_rule`, the least of these lines with its rule. `Ranks` has what a
//! circuit that breaks no rule gives to the layers above: no module contains itself.
#![tactic(auto)]

mod accept;
mod best;
mod broken;
mod checked;
mod clock_inputs;
mod cycles;
mod declared_types;
mod examples;
mod exprs;
mod heights;
mod instance_types;
mod instances;
mod judged;
mod main_module;
mod name_table;
mod numbers;
mod ports;
mod scope;
mod shape_firsts;
mod sinks;
mod statements;
mod surroundings;
mod thing;
mod type_table;
mod types;
mod walk;
mod ways;

pub use accept::{CheckFault, check};
pub use best::{Best, Break, Rule, least_place_decides};
pub use checked::{Checked, kept_circuits_are_ranked};
pub use examples::{
    the_circuits_work_out, the_lines_work_out, the_operands_work_out, the_registers_work_out,
    the_shapes_work_out, the_statements_work_out,
};
pub use main_module::missing_main;
