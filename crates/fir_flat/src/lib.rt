//! Elaboration: a circuit with instances and aggregates as one list of ground signals and statements.
//!
//! `specs/` has the definition. `Shapes` has types as plain data and their ground parts, `Bodies` a
//! module's statements as plain data, `Values` what the ground parts of expressions are worth and how
//! they are driven, `Modules` the recursion over instances, and `Elaboration` the elaboration itself,
//! `elab`, with its counts. `Measures` and `Limits` have the counts without building anything, and
//! `the_counts_are_exact` says that both agree.
//!
//! The code judges the three limits by those counts, and builds what `elab` says, exactly: `parts` and
//! `partners` are ground parts of types, `resolve` and `worth` expressions, `statements` and `writing`
//! the statements of a body, `signals` and `listing` what it declares, `own_body` and `own_entries`
//! those of an instance itself, and `flattening` goes through all instances. Its [`flatten`] is the
//! elaboration of a circuit within the limits.
#![tactic(auto)]

mod counts;
mod digests;
mod directory;
mod examples;
mod fields;
mod flattening;
mod homes;
mod kinds;
mod limits;
mod listing;
mod order;
mod own;
mod own_body;
mod own_entries;
mod partners;
mod parts;
mod places;
mod port_rows;
mod ports;
mod resolve;
mod same_type;
mod scope;
mod signals;
mod sizes;
mod statements;
mod type_list;
mod types;
mod weights;
mod worth;
mod writing;

pub use examples::{
    the_adder_works_out, the_bundles_work_out, the_indices_work_out, the_instances_work_out,
    the_leaves_work_out, the_queue_works_out, the_sizes_count_leaves,
};
pub use flattening::flatten;
pub use limits::{FlatFault, check_limits, the_counts_are_exact};
