//! Replaces the drivers and resets of a test.
ghost use Rattle.std.specs.Prelude.{◌≡◌, ◌++◌, true, IfOk, OnOk};
ghost use Rattle.tl_drivers.specs.Core.{core, core_body, core_of};
ghost use Rattle.tl_drivers.specs.OwnNames.{leaves_drivers_handle};

use crate::rows::{put_driver, put_reset};
use sqlite_items::Items;
use std::alloc::Global;
use tb_base::{Memory, Seq};
use tl_ast::{TestStmt, TestText};
use tl_check::{CheckedTest, CoreTest};

/// The statements of a block in a vector, in their order.
fn in_order(alloc: Global, block: Items<TestStmt>) -> Result<Vec<TestStmt>, Memory>
    ensures { IfOk result (λ v. v.items ≡ block) }
{
    let mut block = block;
    let mut stmts = Vec::new(alloc);
    while let Some(last) = block.pop() {
        stmts.push(last)?;
    }
    stmts.reverse();
    Ok(stmts)
}

/// Puts the core statements of a statement at the end of `out`.
#[cycle(expand)]
fn put_core(alloc: Global, out: &mut Vec<TestStmt>, stmt: TestStmt) -> Result<(), Memory>
    ensures { OnOk result (out.new.items ≡ out.old.items ++ core stmt) }
{
    match stmt {
        TestStmt::Driver {
            line,
            kind,
            port,
            values,
        } => put_driver(alloc, out, line, kind, &port, values),
        TestStmt::ResetFor { line, count } => put_reset(alloc, out, line, count),
        TestStmt::If {
            line,
            cond,
            taken,
            other,
        } => {
            let taken = expand_block(alloc, taken)?;
            let other = expand_block(alloc, other)?;
            out.push(TestStmt::If {
                line,
                cond,
                taken: Items::from_vec(taken),
                other: Items::from_vec(other),
            })?;
            Ok(())
        }
        TestStmt::While { line, cond, body } => {
            let body = expand_block(alloc, body)?;
            out.push(TestStmt::While {
                line,
                cond,
                body: Items::from_vec(body),
            })?;
            Ok(())
        }
        TestStmt::Repeat { line, count, body } => {
            let body = expand_block(alloc, body)?;
            out.push(TestStmt::Repeat {
                line,
                count,
                body: Items::from_vec(body),
            })?;
            Ok(())
        }
        TestStmt::Fork {
            line,
            region,
            handle,
            body,
        } => {
            let body = expand_block(alloc, body)?;
            out.push(TestStmt::Fork {
                line,
                region,
                handle,
                body: Items::from_vec(body),
            })?;
            Ok(())
        }
        plain => {
            out.push(plain)?;
            Ok(())
        }
    }
}

/// The core statements of a block.
#[cycle(expand)]
fn expand_block(alloc: Global, block: Items<TestStmt>) -> Result<Vec<TestStmt>, Memory>
    ensures { IfOk result (λ v. v.items ≡ core_body block) }
{
    let mut stmts = Vec::new(alloc);
    for stmt in in_order(alloc, block)? {
        put_core(alloc, &mut stmts, stmt)?;
    }
    Ok(stmts)
}

/// The test with each driver and each reset replaced by the core statements that stand for it, for the same ports, or `Memory`. Takes
/// the test apart: what is no driver is moved.
///
/// The test leaves the handle `$d` to drivers, as each does that a text spells. The time and the memory are linear in the size of the
/// test and of what it becomes: a driver has at most ten statements for each of its values, and two at least. The recursion is along the
/// nesting of blocks.
pub fn expand(alloc: Global, test: CheckedTest) -> Result<CoreTest, Memory>
    requires names { leaves_drivers_handle test.test ≡ true }
    ensures { IfOk result (λ c. c ≡ record { test = core_of test.test; ports = test.ports }) }
{
    let (test, ports) = test.into_parts();
    let TestText { body } = test;
    let body = expand_block(alloc, Items::from_vec(body.into_vec()))?;
    let core = TestText {
        body: Seq::of(body),
    };
    Ok(CoreTest::new(core, ports))
}
