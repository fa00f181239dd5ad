//! The walk over a test, up to the first statement that breaks a rule.
//!
//! What is known stands in one place, [`Names`]: a block's names go when it ends. The recursion is along
//! the nesting of blocks. Where a fork makes a handle known, the rest of its block is looked through for
//! forks of that handle; so each statement is looked at at most once for each handle in whose scope it
//! stands, of which there are at most 64.
ghost use Rattle.std.specs.Prelude.{◌≡◌, ◌||◌, map};
ghost use Rattle.tl_ast.specs.declared.tree.TestStmt.TheViews.{out-TestStmt};
ghost use Rattle.tl_check.specs.Scopes.{inside_fork, is_monitor};
ghost use Rattle.tl_check.specs.Rules.{first_broken};
ghost use Rattle.tl_check.specs.Walk.{here, line_of, part, some_gives, in_turn, in_block, leave, behind_fork};
ghost use Rattle.tl_check.specs.Following.{Follows, Judged};

use crate::gives::some_gives;
use crate::names::Names;
use crate::rules::{Standing, broken_rule, child_region, is_monitor, line_of};
use crate::stop::Stop;
use net_core::PortTable;
use std::alloc::Global;
use tb_base::Region;
use tl_ast::TestStmt;

/// Stops where the statement breaks a rule; its blocks don't count.
fn judge(
    alloc: Global,
    ports: &PortTable,
    region: Region,
    stmt: &TestStmt,
    names: &Names,
) -> Result<(), Stop>
    ensures { Judged (first_broken (here ports.now region names.now) (out-TestStmt stmt.now)) (line_of (out-TestStmt stmt.now)) result }
{
    let at = Standing {
        ports,
        region,
        names,
    };
    match broken_rule(alloc, at, stmt)? {
        None => Ok(()),
        Some(rule) => Err(Stop::Broken(rule, line_of(stmt))),
    }
}

/// Whether a fork into the region `inside`, or one of its handle in the rest of its block, gives the
/// handle to a Monitor thread. Where the handle is known already nothing rests on it, and the rest isn't
/// looked through.
fn watches(region: Region, inside: Region, handle: &[u8], rest: &[TestStmt], names: &Names) -> bool
    ensures { behind_fork handle.now result names.now ≡ behind_fork handle.now (is_monitor inside || some_gives (map part rest.now) region handle.now) names.now }
{
    if names.handle(handle).is_some() {
        return false;
    }
    is_monitor(inside) || some_gives(rest, region, handle)
}

/// Walks over a statement and the blocks in it; `rest` is the rest of its block.
#[cycle(walk)]
fn walk_stmt(
    alloc: Global,
    ports: &PortTable,
    region: Region,
    stmt: &TestStmt,
    rest: &[TestStmt],
    names: &mut Names,
) -> Result<(), Stop>
    ensures { Follows ((part stmt.now).goes_on ports.now region (some_gives (map part rest.now) region) names.old) names.old result names.new }
{
    judge(alloc, ports, region, stmt, names)?;
    match stmt {
        TestStmt::Let {
            line: _,
            name,
            value: _,
        } => {
            names.add_variable(alloc, name.bytes())?;
            Ok(())
        }
        TestStmt::If {
            line: _,
            cond: _,
            taken,
            other,
        } => {
            walk_block(alloc, ports, region, taken.as_slice(), names)?;
            walk_block(alloc, ports, region, other.as_slice(), names)?;
            Ok(())
        }
        TestStmt::While {
            line: _,
            cond: _,
            body,
        } => {
            walk_block(alloc, ports, region, body.as_slice(), names)?;
            Ok(())
        }
        TestStmt::Repeat {
            line: _,
            count: _,
            body,
        } => {
            walk_block(alloc, ports, region, body.as_slice(), names)?;
            Ok(())
        }
        TestStmt::Fork {
            line: _,
            region: written,
            handle,
            body,
        } => {
            let inside = child_region(region, *written);
            let watches = watches(region, inside, handle.bytes(), rest, names);
            walk_fork(alloc, ports, inside, body.as_slice(), names)?;
            names.add_handle(alloc, handle.bytes(), watches)?;
            Ok(())
        }
        _ => Ok(()),
    }
}

/// Walks over the body of a fork. Behind it what was known in front is known.
#[cycle(walk)]
fn walk_fork(
    alloc: Global,
    ports: &PortTable,
    region: Region,
    body: &[TestStmt],
    names: &mut Names,
) -> Result<(), Stop>
    ensures { Follows (leave names.old (in_turn (map part body.now) ports.now region (inside_fork names.old))) names.old result names.new }
{
    let mark = names.mark();
    let outside = names.begin_fork(alloc);
    walk_all(alloc, ports, region, body, names)?;
    names.end_fork(mark, outside);
    Ok(())
}

/// Walks over a block. Behind it what was known in front is known.
#[cycle(walk)]
fn walk_block(
    alloc: Global,
    ports: &PortTable,
    region: Region,
    body: &[TestStmt],
    names: &mut Names,
) -> Result<(), Stop>
    ensures { Follows (in_block (map part body.now) ports.now region names.old) names.old result names.new }
{
    let mark = names.mark();
    walk_all(alloc, ports, region, body, names)?;
    names.leave(mark);
    Ok(())
}

/// Walks over statements, one after another.
#[cycle(walk)]
pub fn walk_all(
    alloc: Global,
    ports: &PortTable,
    region: Region,
    body: &[TestStmt],
    names: &mut Names,
) -> Result<(), Stop>
    ensures { Follows (in_turn (map part body.now) ports.now region names.old) names.old result names.new }
{
    let mut seen = 0;
    for stmt in body {
        seen += 1;
        walk_stmt(alloc, ports, region, stmt, &body[seen..], names)?;
    }
    Ok(())
}
