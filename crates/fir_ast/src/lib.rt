//! The tree of a circuit text, its copies, and its printed form.
//!
//! `tree` has the types, `copy` their copies, `printing` the printed form. The definition of the
//! printed form, `printed`, is in `specs/Printed`: a fold over the tree, a row of the language at a
//! time.
#![tactic(auto)]

mod copy;
mod examples;
mod printing;
mod tree;

pub use examples::the_printed_form_works_out;
pub use printing::print;
pub use tree::{Circuit, Expr, Field, Module, Port, ResetPair, Stmt, Ty, VerifKind};
