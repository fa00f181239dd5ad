//! The printed form of a test.
//!
//! A printer takes the text written so far and puts its part behind it. Recursion goes along the
//! nesting of expressions and blocks alone; lists are written by loops. Each part of the tree is
//! visited once, and each line has its indentation in front, so the time is linear in the printed
//! text.
ghost use Rattle.std.specs.Prelude.{◌≡◌, ◌++◌, [], IfOk, map};
ghost use Rattle.tl_ast.specs.Printed.{printed_test, stmt_text, block_text};

mod exprs;
mod stmts;

use crate::tree::TestText;
use std::alloc::Global;
use stmts::put_stmts;
use tb_base::Memory;

/// The printed form of any test: two spaces a level of nesting, one statement a line, one space
/// between two tokens, parentheses only round operands whose operator is too loose for their place.
/// Lines of the tree don't matter. The one refusal is `Memory`. Takes time and memory linear in the
/// text that it gives.
#[tactic(auto, unfolding(crate::specs::Printed::printed_test))]
pub fn print_test(alloc: Global, test: &TestText) -> Result<Vec<u8>, Memory>
    ensures { IfOk result (λ text. text.items ≡ printed_test test.now) }
{
    let mut out = Vec::new(alloc);
    put_stmts(alloc, &mut out, b"", test.body.items())?;
    Ok(out)
}
