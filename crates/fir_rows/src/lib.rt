//! Reading the rows of a circuit text that stand on one line: statements without a block, ports, and heads.
//!
//! No word is reserved. A row is read on from its first word, which the caller takes, by the next item alone. The grammar
//! is that of `fir_ast/specs/RowGrammar.antt`; each function reads one part of it, and its contract says so: what it answers
//! is the part's own outcome, unless memory runs out. Each takes time and memory linear in the items that it reads and in the
//! length of their names. `proofs/RowLaws.antt` ties reading, spelling and fronts together, for all limits, for whoever reads
//! blocks of rows.
#![tactic(auto)]

mod declarations;
mod examples;
mod heads;
mod resets;
mod rows;
mod sinks;
mod verification;
mod words;

pub use examples::{
    declarations_work_out, faults_work_out, heads_work_out, names_work_out, sinks_work_out,
    verification_works_out,
};
pub use heads::{circuit_head, module_head, port};
pub use rows::row_from;
pub use sinks::{invalidated, sink_marked, sink_row};
