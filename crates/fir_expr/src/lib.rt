//! Types, references, literals and expressions of circuit texts, read from their items.
//!
//! The grammar is in `fir_ast` (`specs/TypeGrammar`, `specs/ExprGrammar`): each function here reads one of its parts, and its
//! contract says so. The laws of these parts are in `proofs/ExprLaws`.
#![tactic(auto)]

mod examples;
mod exprs;
mod judged;
mod literals;
mod types;

pub use examples::{
    expressions_work_out, faults_in_expressions_work_out, faults_in_types_work_out, types_work_out,
};
pub use exprs::{expr, expr_from, reference, reference_from};
pub use types::ty;

/// How many brackets may be opened in a type or an expression.
const MOST_BRACKETS: usize = 64;

/// How many suffixes a reference or a type may have.
const MOST_SUFFIXES: usize = 32;
