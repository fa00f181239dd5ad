//! The tree of a test text, its copies, and its printed form.
//!
//! `tree` has the types, `copy` their copies, `printing` the printed form, `words` the words that
//! statements begin with. The definition of the printed form, `printed_test`, is in `specs/Printed`:
//! a fold over the tree. The grammar of test texts is in `specs/ExprGrammar` and `specs/TestGrammar`;
//! `specs/Tests` says which test a text spells, and which place of a text is the first faulty one.
#![tactic(auto)]

mod copy;
mod examples;
mod listed;
mod printing;
mod tree;
mod words;

pub use examples::{
    faults_work_out, parentheses_stand_by_tightness, spelled_texts_work_out,
    the_printed_form_works_out,
};
pub use listed::Listed;
pub use printing::print_test;
pub use tree::{DriverKind, TestExpr, TestOp, TestStmt, TestText};
pub use words::StmtWord;
