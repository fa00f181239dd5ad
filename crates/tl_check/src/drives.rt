//! Whether a driver or a reset stands in a test.
ghost use Rattle.std.specs.Prelude.{◌≡◌, map};
ghost use Rattle.tl_check.specs.CoreTests.{drives, some_true, is_core};

use tl_ast::{TestStmt, TestText};

/// Whether the statement is a driver or a reset, or one stands in it.
#[cycle(drives)]
fn drives(stmt: &TestStmt) -> bool
    ensures { result ≡ drives stmt.now }
{
    match stmt {
        TestStmt::Driver {
            line: _,
            kind: _,
            port: _,
            values: _,
        } => true,
        TestStmt::ResetFor { line: _, count: _ } => true,
        TestStmt::If {
            line: _,
            cond: _,
            taken,
            other,
        } => some_drives(taken.as_slice()) || some_drives(other.as_slice()),
        TestStmt::While {
            line: _,
            cond: _,
            body,
        } => some_drives(body.as_slice()),
        TestStmt::Repeat {
            line: _,
            count: _,
            body,
        } => some_drives(body.as_slice()),
        TestStmt::Fork {
            line: _,
            region: _,
            handle: _,
            body,
        } => some_drives(body.as_slice()),
        _ => false,
    }
}

/// Whether one of these statements does.
#[cycle(drives)]
fn some_drives(stmts: &[TestStmt]) -> bool
    ensures { result ≡ some_true (map drives stmts.now) }
{
    for stmt in stmts {
        if drives(stmt) {
            return true;
        }
    }
    false
}

/// Whether no driver and no reset stands in the test. The time is linear in its size.
pub fn is_core(test: &TestText) -> bool
    ensures { result ≡ is_core test.now }
{
    !some_drives(test.body.items())
}
