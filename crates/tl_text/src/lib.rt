//! Reading of test texts.
//!
//! A text is cut into items (`tl_lex`), and the items are read by the grammar of tests, which is in `tl_ast` (`specs/ExprGrammar`,
//! `specs/TestGrammar`). Each function here reads one of its parts, and its contract says so: `exprs` those of expressions, `ports` and
//! `lists` those of ports, `rows` statements without blocks, `blocks` all statements and whole tests. `tl_ast/specs/Tests.antt` says
//! which test a text spells, and which place of a text is the first faulty one. `read_test` is the public call, and `laws` tie the
//! definitions to each other.
#![tactic(auto)]

mod blocks;
mod exprs;
mod fault;
mod laws;
mod lists;
mod ports;
mod reading;
mod rows;

pub use fault::TestReadFault;
pub use laws::{fault_where_none, fronts_go_on, texts_spell_once};
pub use reading::read_test;
