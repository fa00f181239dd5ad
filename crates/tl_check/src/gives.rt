//! Whether a handle is given to a Monitor thread.
ghost use Rattle.std.specs.Prelude.{◌≡◌, map};
ghost use Rattle.tl_check.specs.Walk.{part, some_gives};

use crate::rules::{child_region, is_monitor};
use tb_base::Region;
use tl_ast::TestStmt;

/// Whether a fork in the statement, but for those in bodies of forks, gives the handle to a Monitor
/// thread. The statement stands in a thread of this region.
#[cycle(gives)]
fn gives(stmt: &TestStmt, region: Region, handle: &[u8]) -> bool
    ensures { result ≡ (part stmt.now).gives region handle.now }
{
    match stmt {
        TestStmt::If {
            line: _,
            cond: _,
            taken,
            other,
        } => {
            some_gives(taken.as_slice(), region, handle)
                || some_gives(other.as_slice(), region, handle)
        }
        TestStmt::While {
            line: _,
            cond: _,
            body,
        } => some_gives(body.as_slice(), region, handle),
        TestStmt::Repeat {
            line: _,
            count: _,
            body,
        } => some_gives(body.as_slice(), region, handle),
        TestStmt::Fork {
            line: _,
            region: written,
            handle: name,
            body: _,
        } => is_monitor(child_region(region, *written)) && handle == name.bytes(),
        _ => false,
    }
}

/// Whether one of these statements does. The time is linear in the number of statements outside
/// bodies of forks.
#[cycle(gives)]
pub fn some_gives(stmts: &[TestStmt], region: Region, handle: &[u8]) -> bool
    ensures { result ≡ some_gives (map part stmts.now) region handle.now }
{
    for stmt in stmts {
        if gives(stmt, region, handle) {
            return true;
        }
    }
    false
}
