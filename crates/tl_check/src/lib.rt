//! The rules that a test keeps, for the ports of a circuit.
#![tactic(auto)]

mod checked;
mod core_test;
mod drives;
mod examples;
mod fault;
mod gives;
mod handles;
mod names;
mod rule;
mod rules;
mod stop;
#[cfg(test)]
mod tests;
mod values;
mod variables;
mod walk;

pub use checked::{CheckedTest, check_test};
pub use core_test::CoreTest;
pub use examples::{
    the_bounds_work_out, the_names_work_out, the_rules_work_out, the_scopes_work_out,
    the_widths_work_out,
};
pub use fault::TestFault;
pub use rule::Rule;
